//! State 8, timer recovery: multiple-frame operation while this side asks how far the terminal has received.

ghost use Rattle.std.specs.Prelude.{◌≡◌, ℕ, List, length};
ghost use Rattle.lapd_link_steps.specs.{IsValid, va_of, vs_of, Terms, DoesBy, HasRoom, Tells, effect_of};
ghost use Rattle.model_link.specs.TimerRecovery as row;
ghost use Rattle.lapd_link_steps.specs.Does.{Does};

use crate::entity::Entity;
use crate::report::BareReport;
use crate::states::multiple_frame::Bearer;
use lapd_frame::{Control, ErrorCode};
use lapd_seq::Seq;
use model_link::{LinkTimer, State, Terms};

impl Entity {
    // A frame with so many octets of information. It stands apart, since a link is seldom in this state.
    #[cold]
    pub(crate) fn frame_in_8(
        &mut self,
        terms: &Terms,
        told: &mut BareReport,
        command: bool,
        control: Control,
        octets: usize,
    )
        requires { HasRoom 2 2 told.old }
        ensures tells { Tells 2 2 told.old told.new }
        ensures does { (info : List ℕ) → length info ≡ octets →
            Does terms.now info (row.frame_in_8 terms.now command info control) self.old told.old self.new told.new }
    {
        let recovering = true;
        self.frame_in_7_8(terms, told, recovering, command, control, octets);
    }

    // What a valid N(R) does, by the frame that brought it.
    pub(crate) fn acknowledged_in_8(
        &mut self,
        told: &mut BareReport,
        nr: Seq,
        by: Bearer,
        is_final: bool,
    )
        requires { IsValid (va_of self.old.window) nr (vs_of self.old.window) }
        ensures tells { Tells 0 0 told.old told.new }
        ensures does { (terms : Terms) (info : List ℕ) →
            DoesBy terms info nr (effect_of (row.particulars_in_8 terms) by is_final) self.old told.old self.new told.new }
    {
        match by {
            Bearer::Information => self.acknowledge(told, nr),
            Bearer::Rnr => self.acknowledged_by_supervisory_in_8(
                told,
                nr,
                is_final,
                LinkTimer::T200,
            ),
            _ => self.acknowledged_by_supervisory_in_8(told, nr, is_final, LinkTimer::T203),
        }
    }

    // A final frame answers the enquiry: what was not received is sent again.
    fn acknowledged_by_supervisory_in_8(
        &mut self,
        told: &mut BareReport,
        nr: Seq,
        is_final: bool,
        timer: LinkTimer,
    )
        requires { IsValid (va_of self.old.window) nr (vs_of self.old.window) }
        ensures tells { Tells 0 0 told.old told.new }
        ensures does { (terms : Terms) (info : List ℕ) →
            DoesBy terms info nr (row.acknowledged_in_8 timer is_final) self.old told.old self.new told.new }
    {
        self.acknowledge(told, nr);
        if is_final {
            self.send_again_from(nr);
            self.start_timer(told, timer);
            self.state = State::Established;
        }
    }

    pub(crate) fn t200_in_8(&mut self, terms: &Terms, told: &mut BareReport)
        requires { HasRoom 1 1 told.old }
        ensures tells { Tells 1 1 told.old told.new }
        ensures does { (info : List ℕ) → Does terms.now info (row.t200_in_8 terms.now) self.old told.old self.new told.new }
    {
        if self.may_repeat(terms) {
            self.enquire(terms, told);
            self.repeats += 1;
            return self.start_timer(told, LinkTimer::T200);
        }
        self.failed(terms, told, ErrorCode::I);
    }
}

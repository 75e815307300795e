//! State 7, multiple frame established.

ghost use Rattle.std.specs.Prelude.{◌≡◌, ℕ, Bool, List};
ghost use Rattle.lapd_link_steps.specs.{IsValid, va_of, vs_of, Terms, Entity, DoesBy, HasRoom, Tells, effect_of};
ghost use Rattle.model_link.specs.Established as row;
ghost use Rattle.model_link.specs.Link.{most_repeats};
ghost use Rattle.lapd_link_steps.specs.Does.{Does};

use crate::entity::Entity;
use crate::report::BareReport;
use crate::states::multiple_frame::Bearer;
use crate::timers::most_repeats;
use lapd_frame::{ErrorCode, Reading};
use lapd_seq::Seq;
use model_link::{LinkTimer, State, Terms};

impl Entity {
    // What a valid N(R) does, by the frame that brought it. It is the same for a final frame and another.
    #[inline(always)]
    pub(crate) fn acknowledged_in_7(&mut self, told: &mut BareReport, nr: Seq, by: Bearer)
        requires { IsValid (va_of self.old.window) nr (vs_of self.old.window) }
        ensures tells { Tells 0 0 told.old told.new }
        ensures does { (terms : Terms) (info : List ℕ) (final : Bool) →
            DoesBy terms info nr (effect_of (row.particulars_in_7 terms) by final) self.old told.old self.new told.new }
    {
        match by {
            Bearer::Information if self.peer_busy => self.acknowledge(told, nr),
            Bearer::Information => self.acknowledged_by_rr_in_7(told, nr),
            Bearer::Rr => self.acknowledged_by_rr_in_7(told, nr),
            Bearer::Rnr => {
                self.acknowledge(told, nr);
                self.start_timer(told, LinkTimer::T200);
            }
            Bearer::Rej => {
                self.acknowledge(told, nr);
                self.send_again_from(nr);
                self.start_timer(told, LinkTimer::T203);
            }
        }
    }

    // RR, or an I-frame while the terminal is not busy.
    #[inline(always)]
    fn acknowledged_by_rr_in_7(&mut self, told: &mut BareReport, nr: Seq)
        requires { IsValid (va_of self.old.window) nr (vs_of self.old.window) }
        ensures tells { Tells 0 0 told.old told.new }
        ensures does { (terms : Terms) (info : List ℕ) →
            DoesBy terms info nr row.acknowledged_in_7 self.old told.old self.new told.new }
    {
        if self.window.names_next(nr) {
            self.acknowledge(told, nr);
            return self.start_timer(told, LinkTimer::T203);
        }
        if self.window.acknowledged_by(nr) == 0 {
            return;
        }
        self.acknowledge(told, nr);
        self.start_timer(told, LinkTimer::T200);
    }

    pub(crate) fn timer_in_7(&mut self, terms: &Terms, told: &mut BareReport, timer: LinkTimer)
        requires { HasRoom 0 1 told.old }
        ensures tells { Tells 0 1 told.old told.new }
        ensures does { (info : List ℕ) → Does terms.now info (row.timer_in_7 terms.now timer) self.old told.old self.new told.new }
    {
        self.repeats = first_repeats(terms, timer);
        self.enquire(terms, told);
        self.start_timer(told, LinkTimer::T200);
        self.state = State::TimerRecovery;
    }
}

// RC once the enquiry is sent that the expiry of this timer asks for.
fn first_repeats(terms: &Terms, timer: LinkTimer) -> u8
    ensures { result ≡ row.first_repeats terms.now.reading (most_repeats terms.now 8) timer }
{
    match (terms.reading, timer) {
        (Reading::AnnexB, LinkTimer::T200) => most_repeats(terms).min(1),
        (Reading::AnnexB, LinkTimer::T203) | (Reading::Profile, _) => 0,
    }
}

impl BareReport {
    // A final response that no command asked for.
    #[inline(always)]
    #[tactic(auto, using(crate::proofs::Steps::bit_yes, crate::proofs::Steps::bit_no))]
    pub(crate) fn unsolicited(&mut self, terms: &Terms, is_final: bool)
        requires { HasRoom 1 0 self.old }
        ensures tells { Tells 1 0 self.old self.new }
        ensures does { (info : List ℕ) (e : Entity) → Does terms.now info (row.unsolicited terms.now is_final) e self.old e self.new }
    {
        if is_final {
            self.error(terms, ErrorCode::A);
        }
    }
}

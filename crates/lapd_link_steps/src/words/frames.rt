//! Control frames, which wait to be sent.

ghost use Rattle.std.specs.Prelude.{◌≡◌, ℕ, List};
ghost use Rattle.lapd_seq.specs.Numbers.{seq};
ghost use Rattle.model_link.specs.Words as word;
ghost use Rattle.lapd_link_steps.specs.Parts.{establishing, ready_reported};
ghost use Rattle.lapd_link_steps.specs.Past.{Past, link_of};
ghost use Rattle.lapd_link_steps.specs.Does.{Does, HasRoom, Tells};

use crate::entity::Entity;
use crate::report::BareReport;
use lapd_frame::Control;
use model_link::{ControlFrame, LinkTimer, State, Terms};

impl Entity {
    // Puts a frame into the ring. Where the ring is full, it is lost.
    #[inline(always)]
    pub(crate) fn send(&mut self, terms: &Terms, told: &mut BareReport, frame: ControlFrame)
        requires { HasRoom 0 1 told.old }
        ensures tells { Tells 0 1 told.old told.new }
        ensures repeats { self.new.repeats ≡ self.old.repeats }
        ensures does { (info : List ℕ) → Does terms.now info (word.send terms.now frame) self.old told.old self.new told.new }
    {
        if self.waiting.try_push_back(frame).is_err() {
            told.lost += 1;
        }
    }

    pub(crate) fn command(&mut self, terms: &Terms, told: &mut BareReport, control: Control)
        requires { HasRoom 0 1 told.old }
        ensures tells { Tells 0 1 told.old told.new }
        ensures repeats { self.new.repeats ≡ self.old.repeats }
        ensures does { (info : List ℕ) → Does terms.now info (word.send terms.now (word.command control)) self.old told.old self.new told.new }
    {
        self.send(
            terms,
            told,
            ControlFrame {
                command: true,
                control,
            },
        );
    }

    #[inline(always)]
    pub(crate) fn response(&mut self, terms: &Terms, told: &mut BareReport, control: Control)
        requires { HasRoom 0 1 told.old }
        ensures tells { Tells 0 1 told.old told.new }
        ensures does { (info : List ℕ) → Does terms.now info (word.send terms.now (word.response control)) self.old told.old self.new told.new }
    {
        self.send(
            terms,
            told,
            ControlFrame {
                command: false,
                control,
            },
        );
    }

    // RR, or RNR where own busy is on.
    #[inline(always)]
    fn rr_or_rnr(&self, pf: bool) -> Control
        ensures { (p : Past) → self.now.vr ≡ seq p.r → result ≡ word.rr_or_rnr pf (link_of self.now p) }
    {
        if self.own_busy {
            Control::ReceiveNotReady { nr: self.vr, pf }
        } else {
            Control::ReceiveReady { nr: self.vr, pf }
        }
    }

    // Asks for the terminal's state.
    pub(crate) fn enquire(&mut self, terms: &Terms, told: &mut BareReport)
        requires { HasRoom 0 1 told.old }
        ensures tells { Tells 0 1 told.old told.new }
        ensures repeats { self.new.repeats ≡ self.old.repeats }
        ensures does { (info : List ℕ) → Does terms.now info (word.enquire terms.now) self.old told.old self.new told.new }
    {
        let ready = self.rr_or_rnr(true);
        self.command(terms, told, ready);
        self.pending = false;
    }

    // Says, as the answer to a command with P (`pf`) or unasked, whether own busy is on.
    #[inline(always)]
    pub(crate) fn report_receiver_status(&mut self, terms: &Terms, told: &mut BareReport, pf: bool)
        requires { HasRoom 0 1 told.old }
        ensures tells { Tells 0 1 told.old told.new }
        ensures does { (info : List ℕ) → Does terms.now info (ready_reported terms.now pf) self.old told.old self.new told.new }
    {
        let ready = self.rr_or_rnr(pf);
        self.response(terms, told, ready);
        self.pending = false;
    }

    // Asks for the I-frames from V(R) on again.
    pub(crate) fn reject(&mut self, terms: &Terms, told: &mut BareReport, pf: bool)
        requires { HasRoom 0 1 told.old }
        ensures tells { Tells 0 1 told.old told.new }
        ensures does { (info : List ℕ) → Does terms.now info (word.reject terms.now pf) self.old told.old self.new told.new }
    {
        self.response(terms, told, Control::Reject { nr: self.vr, pf });
        self.pending = false;
    }

    // Begins the establishment, which layer 3 asked for, or after an error.
    pub(crate) fn establish(&mut self, terms: &Terms, told: &mut BareReport, asked: bool)
        requires { HasRoom 0 1 told.old }
        ensures tells { Tells 0 1 told.old told.new }
        ensures does { (info : List ℕ) → Does terms.now info (establishing terms.now asked) self.old told.old self.new told.new }
    {
        self.clear_flags();
        self.command(terms, told, Control::Sabme { pf: true });
        self.repeats = 0;
        self.start_timer(told, LinkTimer::T200);
        self.asked = asked;
        self.state = State::AwaitingEstablishment;
    }
}

//! What layer 3 asks for, and the end of a TEI.

ghost use Rattle.std.specs.Prelude.{ℕ, List};
ghost use Rattle.lapd_link_steps.specs.{cleared_step, IsFresh, HasRoom, Tells, established_by_state, released_by_state, told_of_clearing_by_state};
ghost use Rattle.lapd_link_steps.specs.Does.{Does};

use crate::entity::Entity;
use crate::report::{ALL, BareReport};
use lapd_frame::Note;
use lapd_seq::{Seq, Window};
use model_link::{LinkCounts, State, Terms};

impl Entity {
    /// Layer 3 asks for the establishment. In states 6 to 8 nothing is done.
    pub fn ask_establishment(&mut self, terms: &Terms, told: &mut BareReport)
        requires { HasRoom 2 2 told.old }
        ensures tells { Tells 2 2 told.old told.new }
        ensures does { (info : List ℕ) → Does terms.now info (established_by_state terms.now) self.old told.old self.new told.new }
    {
        match self.state {
            State::TeiAssigned => self.establish_in_4(terms, told),
            State::AwaitingEstablishment => self.establish_in_5(told),
            State::AwaitingRelease | State::Established | State::TimerRecovery => {}
        }
    }

    /// Layer 3 asks for the release. In state 6 nothing is done.
    pub fn release(&mut self, terms: &Terms, told: &mut BareReport)
        requires { HasRoom 2 2 told.old }
        ensures tells { Tells 2 2 told.old told.new }
        ensures does { (info : List ℕ) → Does terms.now info (released_by_state terms.now) self.old told.old self.new told.new }
    {
        match self.state {
            State::TeiAssigned => told.note(Note::ReleaseConfirm(terms.service, terms.tei)),
            State::AwaitingEstablishment => self.release_in_5(told),
            State::AwaitingRelease => {}
            State::Established | State::TimerRecovery => self.release_in_7_8(terms, told),
        }
    }

    /// The TEI leaves the line: layer 3 is told as the state has it, and the entity is as one that begins.
    pub fn clear(&mut self, terms: &Terms, told: &mut BareReport)
        requires { HasRoom 2 2 told.old }
        ensures tells { Tells 2 2 told.old told.new }
        ensures does { (info : List ℕ) → Does terms.now info (cleared_step terms.now) self.old told.old self.new told.new }
    {
        self.tell_clearing(terms, told);
        self.begin();
        told.started = None;
        told.given_up_from = told.given_up_from.min(told.released);
        told.released = ALL;
    }

    fn tell_clearing(&mut self, terms: &Terms, told: &mut BareReport)
        requires { HasRoom 1 0 told.old }
        ensures tells { Tells 1 0 told.old told.new }
        ensures does { (info : List ℕ) →
            Does terms.now info (told_of_clearing_by_state terms.now) self.old told.old self.new told.new }
    {
        match self.state {
            State::TeiAssigned => {}
            State::AwaitingRelease => told.note(Note::ReleaseConfirm(terms.service, terms.tei)),
            State::AwaitingEstablishment => self.tell_failure(terms, told),
            State::Established | State::TimerRecovery => {
                told.note(Note::ReleaseIndication(terms.service, terms.tei));
            }
        }
    }

    /// The entity is as one that begins, with its ring empty.
    pub fn begin(&mut self)
        ensures { IsFresh self.old.waiting.capacity self.new }
    {
        self.state = State::TeiAssigned;
        self.window = Window::new();
        self.vr = Seq::zero();
        self.again = 0;
        self.peer_busy = false;
        self.own_busy = false;
        self.rejecting = false;
        self.pending = false;
        self.asked = false;
        self.owed = false;
        self.repeats = 0;
        self.running = None;
        self.waiting.clear();
        self.counts = LinkCounts::none();
    }
}

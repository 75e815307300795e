//! Timers that expire.

ghost use Rattle.std.specs.Prelude.{◌≡◌, ℕ, ◌<◌, true, List};
ghost use Rattle.lapd_link_steps.specs.{runs, expired_step, expire_running, HasRoom, Tells};
ghost use Rattle.lapd_link_steps.specs.Does.{Does};
ghost use Rattle.lapd_link_steps.specs.Past.{Past, link_of};
ghost use Rattle.model_link.specs.Link.{may_repeat, most_rc, most_repeats};

use crate::entity::Entity;
use crate::report::BareReport;
use model_link::{LinkTimer, State, Terms};

/// Whether the one that runs, or the one that was started, is this timer.
pub fn is_the(timer: LinkTimer, other: Option<LinkTimer>) -> bool
    ensures { result ≡ runs timer other }
{
    match (other, timer) {
        (Some(LinkTimer::T200), LinkTimer::T200) => true,
        (Some(LinkTimer::T203), LinkTimer::T203) => true,
        _ => false,
    }
}

// How often SABME, DISC or the enquiry is repeated at most, whichever state awaits its answer; and so what RC comes to at most.
pub(crate) fn most_repeats(terms: &Terms) -> u8
    ensures repeats { (state : ℕ) → result ≡ most_repeats terms.now state }
    ensures rc { result ≡ most_rc terms.now }
{
    terms.n200
}

impl Entity {
    /// A timer expires. One that does not run changes nothing.
    #[tactic(auto, using(crate::proofs::Steps::where_yes))]
    pub fn expire(&mut self, terms: &Terms, told: &mut BareReport, timer: LinkTimer)
        requires { HasRoom 2 2 told.old }
        ensures tells { Tells 2 2 told.old told.new }
        ensures does { (info : List ℕ) → Does terms.now info (expired_step terms.now timer) self.old told.old self.new told.new }
    {
        if self.runs(timer) {
            self.expire_running(terms, told, timer);
        }
    }

    // Whether a command or an enquiry that was not answered goes again. Then RC can count it.
    pub(crate) fn may_repeat(&self, terms: &Terms) -> bool
        ensures machine { (past : Past) → result ≡ may_repeat terms.now (link_of self.now past) }
        ensures counted { result ≡ true → self.now.repeats < 255 }
    {
        self.repeats < most_repeats(terms)
    }

    // Whether the timer runs.
    pub(crate) fn runs(&self, timer: LinkTimer) -> bool
        ensures { result ≡ runs timer self.now.running }
    {
        is_the(timer, self.running)
    }

    fn expire_running(&mut self, terms: &Terms, told: &mut BareReport, timer: LinkTimer)
        requires { HasRoom 2 2 told.old }
        ensures tells { Tells 2 2 told.old told.new }
        ensures does { (info : List ℕ) → Does terms.now info (expire_running timer terms.now) self.old told.old self.new told.new }
    {
        self.counts.expired(timer);
        match (self.state, timer) {
            (State::AwaitingEstablishment, LinkTimer::T200) => self.t200_in_5(terms, told),
            (State::AwaitingRelease, LinkTimer::T200) => self.t200_in_6(terms, told),
            (State::Established, _) => self.timer_in_7(terms, told, timer),
            (State::TimerRecovery, LinkTimer::T200) => self.t200_in_8(terms, told),
            // In state 4 no timer runs, and T203 runs in state 7 alone.
            (State::TeiAssigned, _) => {}
            (_, LinkTimer::T203) => {}
        }
    }
}

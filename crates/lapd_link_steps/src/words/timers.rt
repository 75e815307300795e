//! Timers, of which one at most runs, and flags.

ghost use Rattle.std.specs.Prelude.{ℕ, List};
ghost use Rattle.model_link.specs.declared.terms.Terms.{Terms};
ghost use Rattle.model_link.specs.Words as word;
ghost use Rattle.lapd_link_steps.specs.Does.{Does, Changes, Tells};

use crate::entity::Entity;
use crate::report::BareReport;
use model_link::LinkTimer;

impl Entity {
    // Starts a timer, or starts it anew; the other is stopped.
    pub(crate) fn start_timer(&mut self, told: &mut BareReport, timer: LinkTimer)
        ensures tells { Tells 0 0 told.old told.new }
        ensures does { (terms : Terms) (info : List ℕ) → Does terms info (word.start timer) self.old told.old self.new told.new }
    {
        self.running = Some(timer);
        told.started = Some(timer);
    }

    // Stops both timers.
    pub(crate) fn no_timer(&mut self, told: &mut BareReport)
        ensures tells { Tells 0 0 told.old told.new }
        ensures does { (terms : Terms) (info : List ℕ) → Does terms info word.no_timer self.old told.old self.new told.new }
    {
        self.running = None;
        told.started = None;
    }

    pub(crate) fn clear_flags(&mut self)
        ensures { Changes word.clear_flags self.old self.new }
    {
        self.peer_busy = false;
        self.own_busy = false;
        self.rejecting = false;
        self.pending = false;
    }
}

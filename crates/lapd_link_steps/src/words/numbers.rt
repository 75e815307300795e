//! V(A), V(S), V(R), and the contents that they count.

ghost use Rattle.std.specs.Prelude.{◌≡◌, ℕ, List, ◌↔◌, IsTrue, false, MatchOption};
ghost use Rattle.lapd_link_steps.specs.{IsNamed, IsValid, named, va_of, vs_of, WindowStands, Terms, DoesBy, Changes, Tells};
ghost use Rattle.model_link.specs.Words as word;
ghost use Rattle.lapd_link_steps.specs.Does.{Does};

use crate::entity::Entity;
use crate::report::{ALL, BareReport};
use lapd_seq::{Seq, Window, distance, valid};

impl Entity {
    // Gives up all contents that are kept.
    pub(crate) fn discard(&mut self, told: &mut BareReport)
        ensures tells { Tells 0 0 told.old told.new }
        ensures does { (terms : Terms) (info : List ℕ) → Does terms info word.discard self.old told.old self.new told.new }
    {
        let va = self.window.va();
        self.window.go_back(va);
        self.again = 0;
        told.given_up_from = told.given_up_from.min(told.released);
        told.released = ALL;
    }

    // The link is established, and that is counted.
    pub(crate) fn zero_numbers(&mut self, told: &mut BareReport)
        ensures tells { Tells 0 0 told.old told.new }
        ensures does { (terms : Terms) (info : List ℕ) → Does terms info word.zero_numbers self.old told.old self.new told.new }
    {
        self.reset_numbers(told);
        self.counts.establishment();
    }

    // The numbers become 0, and what was sent goes.
    pub(crate) fn reset_numbers(&mut self, told: &mut BareReport)
        ensures tells { Tells 0 0 told.old told.new }
        ensures does { (terms : Terms) (info : List ℕ) → Does terms info word.reset_numbers self.old told.old self.new told.new }
    {
        told.released = (told.released + self.window.outstanding()).min(ALL);
        self.window = Window::new();
        self.vr = Seq::zero();
        self.again = 0;
    }

    // One more I-frame was received in sequence.
    pub(crate) fn count_received(&mut self)
        ensures { Changes word.count_received self.old self.new }
    {
        self.vr = self.vr.next();
    }

    // Whether an N(R) is valid.
    pub(crate) fn names(&self, nr: Seq) -> bool
        ensures circle { IsTrue result ↔ IsValid (va_of self.now.window) nr (vs_of self.now.window) }
        ensures named { (a s : ℕ) → WindowStands self.now.window a s →
            MatchOption (named a s nr) (result ≡ false) (λ n. IsTrue result × IsNamed a s nr n) }
    {
        valid(self.window.va(), nr, self.window.vs())
    }

    // The contents before the number that a valid N(R) names are acknowledged, and go.
    pub(crate) fn acknowledge(&mut self, told: &mut BareReport, nr: Seq)
        requires { IsValid (va_of self.old.window) nr (vs_of self.old.window) }
        ensures tells { Tells 0 0 told.old told.new }
        ensures valid { IsValid (va_of self.new.window) nr (vs_of self.new.window) }
        ensures does { (terms : Terms) (info : List ℕ) → DoesBy terms info nr word.acknowledge self.old told.old self.new told.new }
    {
        let count = self.window.acknowledged_by(nr);
        if count == 0 {
            return;
        }
        told.released = (told.released + count).min(ALL);
        self.window.acknowledge(nr);
    }

    // Those from it on are to be sent again.
    pub(crate) fn send_again_from(&mut self, nr: Seq)
        requires { IsValid (va_of self.old.window) nr (vs_of self.old.window) }
        ensures { (terms : Terms) (info : List ℕ) (told : _) → DoesBy terms info nr word.send_again_from self.old told self.new told }
    {
        let back = distance(nr, self.window.vs());
        self.window.go_back(nr);
        self.again = self.again.saturating_add(back);
    }
}

//! The I-frames that were sent and are not yet acknowledged.

ghost use Rattle.std.specs.Prelude.{◌≡◌, ℕ, ◌+◌, ◌<◌, ◌≤◌, ◌↔◌, IsTrue};
ghost use Rattle.lapd_seq.specs.Numbers.{seq};
ghost use Rattle.lapd_seq.specs.Circle.{distance_of, IsValid, IsNamed};
ghost use Rattle.lapd_seq.specs.Windows.{va_of, vs_of, outstanding_of, WindowStands};

use crate::circle::distance;
use crate::numbers::{MODULUS, Seq};

/// The variables V(A) and V(S) of one link (Q.921 clauses 3.5.2.3 and 3.5.2.2).
///
/// It stands for two plain numbers, which count from 0 since the link was established: the first
/// `a` I-frames are acknowledged and the first `s` are sent, with `a <= s`, at most 127 apart. V(A)
/// and V(S) are their remainders.
#[derive(Clone, Copy, PartialEq, Eq, Debug)]
pub struct Window {
    va: Seq,
    vs: Seq,
}

impl Window {
    /// The window of a link that has just been established: nothing sent.
    pub fn new() -> Self
        ensures numbers { WindowStands result 0 0 }
        ensures count { outstanding_of result ≡ 0 }
    {
        Window {
            va: Seq::zero(),
            vs: Seq::zero(),
        }
    }

    /// The window with this V(A) in which so many I-frames are outstanding: 0 to 127.
    pub fn at(va: Seq, outstanding: u8) -> Self
        requires { outstanding < 128 }
        ensures held { va_of result ≡ va }
        ensures count { outstanding_of result ≡ outstanding }
        ensures numbers { WindowStands result va.value (va.value + outstanding) }
    {
        Window {
            va,
            vs: Seq::new((va.value + outstanding) % MODULUS),
        }
    }

    /// V(A), the number of the oldest I-frame that is not acknowledged, or of the next to be sent
    /// if there is none.
    pub fn va(&self) -> Seq
        ensures held { result ≡ va_of self.now }
        ensures plain { (a s : ℕ) → WindowStands self.now a s → result ≡ seq a }
        ensures valid { IsValid (va_of self.now) result (vs_of self.now) }
    {
        self.va
    }

    /// V(S), the number of the next I-frame to be sent.
    pub fn vs(&self) -> Seq
        ensures held { result ≡ vs_of self.now }
        ensures plain { (a s : ℕ) → WindowStands self.now a s → result ≡ seq s }
        ensures valid { IsValid (va_of self.now) result (vs_of self.now) }
    {
        self.vs
    }

    /// How many I-frames are sent and not acknowledged: 0 to 127.
    pub fn outstanding(&self) -> u8
        ensures held { result ≡ outstanding_of self.now }
        ensures bound { result < 128 }
        ensures plain { (a s : ℕ) → WindowStands self.now a s → a + result ≡ s }
        ensures stands { WindowStands self.now (va_of self.now).value ((va_of self.now).value + result) }
    {
        distance(self.va, self.vs)
    }

    /// Whether every I-frame that was sent is acknowledged: V(A) is V(S).
    pub fn is_settled(&self) -> bool
        ensures held { IsTrue result ↔ (outstanding_of self.now ≡ 0) }
        ensures plain { (a s : ℕ) → WindowStands self.now a s → (IsTrue result ↔ (a ≡ s)) }
    {
        self.outstanding() == 0
    }

    /// Whether `nr` names the next I-frame to be sent: N(R) is V(S). A valid one then acknowledges all that were sent.
    pub fn names_next(&self, nr: Seq) -> bool
        ensures held { IsTrue result ↔ (nr ≡ vs_of self.now) }
        ensures plain { (a s n : ℕ) → WindowStands self.now a s → IsNamed a s nr n → (IsTrue result ↔ (n ≡ s)) }
    {
        nr == self.vs
    }

    /// How many I-frames a valid `nr` acknowledges.
    pub fn acknowledged_by(&self, nr: Seq) -> u8
        requires { IsValid (va_of self.now) nr (vs_of self.now) }
        ensures held { result ≡ distance_of (va_of self.now) nr }
        ensures bound { result < 128 }
        ensures within { result ≤ outstanding_of self.now }
        ensures plain { (a s n : ℕ) → WindowStands self.now a s → IsNamed a s nr n → a + result ≡ n }
    {
        distance(self.va, nr)
    }

    /// Whether one more I-frame may be sent where at most `k` may be outstanding (Q.921 clause
    /// 5.9.5). Any `k` is taken; if it is at most 127, a yes allows `advance`.
    pub fn may_send(&self, k: u8) -> bool
        ensures held { IsTrue result ↔ (outstanding_of self.now < k) }
        ensures plain { (a s : ℕ) → WindowStands self.now a s → (IsTrue result ↔ (s < a + k)) }
    {
        self.outstanding() < k
    }

    /// One more I-frame is sent. Fewer than 127 may be outstanding before.
    pub fn advance(&mut self)
        requires { outstanding_of self.old < 127 }
        ensures held { vs_of self.new ≡ seq ((vs_of self.old).value + 1) }
        ensures same { va_of self.new ≡ va_of self.old }
        ensures count { outstanding_of self.new ≡ outstanding_of self.old + 1 }
        ensures plain { (a s : ℕ) → WindowStands self.old a s → WindowStands self.new a (s + 1) }
    {
        self.vs = self.vs.next();
    }

    /// All I-frames before the one that a valid `nr` names are acknowledged.
    pub fn acknowledge(&mut self, nr: Seq)
        requires { IsValid (va_of self.old) nr (vs_of self.old) }
        ensures held { va_of self.new ≡ nr }
        ensures same { vs_of self.new ≡ vs_of self.old }
        ensures count { distance_of (va_of self.old) nr + outstanding_of self.new ≡ outstanding_of self.old }
        ensures valid { IsValid (va_of self.new) nr (vs_of self.new) }
        ensures plain { (a s n : ℕ) → WindowStands self.old a s → IsNamed a s nr n → WindowStands self.new n s }
    {
        self.va = nr;
    }

    /// The I-frame that a valid `nr` names is the next to be sent, and so are those after it again.
    pub fn go_back(&mut self, nr: Seq)
        requires { IsValid (va_of self.old) nr (vs_of self.old) }
        ensures held { vs_of self.new ≡ nr }
        ensures same { va_of self.new ≡ va_of self.old }
        ensures count { outstanding_of self.new ≡ distance_of (va_of self.old) nr }
        ensures plain { (a s n : ℕ) → WindowStands self.old a s → IsNamed a s nr n → WindowStands self.new a n }
    {
        self.vs = nr;
    }
}

impl Default for Window {
    ghost is_default = { λ window. WindowStands window 0 0 };

    /// `Window::new`.
    fn default() -> Self {
        Window::new()
    }
}

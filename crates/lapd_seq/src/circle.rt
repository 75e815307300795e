//! Two and three sequence numbers on their circle.

ghost use Rattle.std.specs.Prelude.{◌≡◌, ℕ, ◌+◌, ◌<◌, ◌↔◌, IsTrue, false, MatchOption};
ghost use Rattle.lapd_seq.specs.declared.numbers.Seq.{Seq};
ghost use Rattle.lapd_seq.specs.Circle.{distance_of, AreNumbers, IsValid, IsNamed, named};

use crate::numbers::{MODULUS, Seq};

/// How many steps upwards, each to the next number, lead from `from` to `to`: 0 to 127.
pub fn distance(from: Seq, to: Seq) -> u8
    ensures circle { result ≡ distance_of from to }
    ensures bound { result < 128 }
    ensures plain { (a s : ℕ) → AreNumbers from to a s → a + result ≡ s }

    // From V(A) it leads to the plain number that an N(R) names.
    ensures named { (vs : Seq) (a s n : ℕ) → AreNumbers from vs a s → IsNamed a s to n → a + result ≡ n }
{
    (MODULUS + to.value - from.value) % MODULUS
}

/// Whether an N(R) is valid: `V(A) <= N(R) <= V(S)`, counted upwards from V(A) (Q.921 clauses
/// 3.5.2.3 and 5.8.2). It then acknowledges all numbers before the one that it names.
pub fn valid(va: Seq, nr: Seq, vs: Seq) -> bool
    ensures circle { IsTrue result ↔ IsValid va nr vs }

    // An N(R) is valid where it is the remainder of one of the plain numbers from V(A)'s to V(S)'s,
    ensures plain { (a s : ℕ) → AreNumbers va vs a s → (IsTrue result ↔ (n : ℕ) × IsNamed a s nr n) }
    // and it is the remainder of only one.
    ensures only { (a s m n : ℕ) → AreNumbers va vs a s → IsNamed a s nr m → IsNamed a s nr n → m ≡ n }
    // `named` finds it.
    ensures named { (a s : ℕ) → AreNumbers va vs a s →
        MatchOption (named a s nr) (result ≡ false) (λ n. IsTrue result × IsNamed a s nr n) }
{
    distance(va, nr) <= distance(va, vs)
}

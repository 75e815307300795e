//! One sequence number.

ghost use Rattle.std.specs.Prelude.{◌<◌};

/// How many sequence numbers there are (Q.921 clause 3.5.2.1).
pub(crate) const MODULUS: u8 = 128;

/// A sequence number: N(S) or N(R) of a frame, or one of the variables V(S), V(A) and V(R) (Q.921
/// clauses 3.5.2.1 to 3.5.2.6). Sequence numbers have no order: after 127 comes 0.
#[derive(Clone, Copy, PartialEq, Eq, Hash, Debug)]
pub struct Seq {
    /// 0 to 127.
    pub value: u8,
    pub ghost in_range: { value < 128 },
}

impl Seq {
    ghost use Rattle.std.specs.Prelude.{◌≡◌, ℕ, ◌+◌, ◌<◌};
    ghost use Rattle.lapd_seq.specs.Numbers.{seq};

    /// The sequence number with which every count begins: 0.
    pub fn zero() -> Self
        ensures { result ≡ seq 0 }
    {
        Seq::new(0)
    }

    /// The sequence number `value`, which is 0 to 127.
    pub fn new(value: u8) -> Self
        requires { value < 128 }
        ensures number { result ≡ seq value }
        ensures held { result.value ≡ value }
    {
        Seq { value }
    }

    /// The sequence number after this one.
    pub fn next(self) -> Self
        ensures circle { result ≡ seq (self.value + 1) }
        ensures plain { (n : ℕ) → self ≡ seq n → result ≡ seq (n + 1) }
    {
        Seq {
            value: (self.value + 1) % MODULUS,
        }
    }
}

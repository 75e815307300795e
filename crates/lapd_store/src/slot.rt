//! The name of a place on a shelf.
use std::marker::Model;

/// A slot of a shelf: the number by which a message's contents are found again.
///
/// A slot is good from the `put` that answered it to its `release`, on that shelf. Then the shelf can give it out
/// again.
#[derive(Clone, Copy, PartialEq, Eq, Debug)]
pub struct Slot {
    pub(crate) number: usize,
}

impl Model for Slot {
    ghost use Rattle.std.specs.Prelude.{ℕ};

    ghost Value = { ℕ };

    ghost view = { λ s. s.number };

    ghost inverse = { λ n. record { number = n } };
}

impl Slot {
    ghost use Rattle.std.specs.Prelude.{◌≡◌};

    /// The slot of this number, as a shelf of the caller's own numbers its places. A shelf answers only such as it has.
    pub const fn new(number: usize) -> Slot
        ensures { result ≡ number }
    {
        Slot { number }
    }

    /// Its number on the shelf that answered it.
    pub const fn number(self) -> usize
        ensures { result ≡ self }
    {
        self.number
    }
}

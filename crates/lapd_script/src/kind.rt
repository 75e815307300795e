//! What can be wrong with a line of a script.

ghost use Rattle.std.specs.Prelude.{◌≡◌, Some};
ghost use Rattle.lapd_script.specs.Kinds.{kind_words};

use std::error::Error;
use std::fmt;

/// What is wrong with a line of a script: the first of these that holds, in this order.
#[derive(Clone, Copy, PartialEq, Eq, Debug)]
pub enum FaultKind {
    /// The line has more than 4,096 octets without its line feed, or the script up to and with the line more than
    /// `2^63`. It is tested on lines that are skipped, too.
    TooLong,
    /// The first word is no word of a script.
    UnknownWord,
    /// Too many or too few words for the first one.
    BadNumberOfWords,
    /// A word that stands for a number is no number, or one that is out of its range.
    BadNumber,
    /// A word that stands for octets is neither an even number of hexadecimal digits nor `-`.
    BadOctets,
    /// A word that stands for a cause is none of `fcs`, `abort`, `ragged` and `short`.
    BadCause,
    /// A line that needs the card stands before the card line.
    NoCard,
    /// There was a card line before.
    SecondCard,
    /// The card line has a configuration that is out of range.
    BadCard,
    /// The line is about octets if the card is for frames, or about frames if it is for octets.
    WrongCard,
    /// The card does not have the line.
    BadLine,
    /// The frame of an `in` has fewer than 3 or more than 1,028 octets, at a card of octets.
    BadFrame,
    /// The clock would pass `2^63 - 1` ms.
    TimeOver,
}

impl FaultKind {
    /// What is wrong, in words, as a fault line tells it.
    pub fn words(self) -> &'static str
        ensures { result.now ≡ kind_words self }
    {
        match self {
            FaultKind::TooLong => "too long",
            FaultKind::UnknownWord => "unknown word",
            FaultKind::BadNumberOfWords => "bad number of words",
            FaultKind::BadNumber => "bad number",
            FaultKind::BadOctets => "bad octets",
            FaultKind::BadCause => "bad cause",
            FaultKind::NoCard => "no card",
            FaultKind::SecondCard => "second card",
            FaultKind::BadCard => "bad card",
            FaultKind::WrongCard => "wrong card",
            FaultKind::BadLine => "bad line",
            FaultKind::BadFrame => "bad frame",
            FaultKind::TimeOver => "time over",
        }
    }
}

impl fmt::Display for FaultKind {
    ghost output = { λ kind. Some (kind_words kind) };

    fn fmt<W: fmt::Write>(&self, f: &mut fmt::Formatter<W>) -> fmt::Result {
        f.write_str(self.words())
    }
}

impl Error for FaultKind {}

//! Frames that are too long to keep.

ghost use Rattle.std.specs.Prelude.{◌≡◌, ℕ, ◌≤◌, List, length, ◌++◌};
ghost use Rattle.model_bits.specs.StuffingLaws.{AreOctets};
ghost use Rattle.lapd_frame.specs.{IsLong, Parts, Spells, is_ui, is_unit, reading, long_of, long_reading};
ghost use Rattle.lapd_frame.specs.declared.addresses.Side.{Side};

use crate::addresses::{Address, Side};
use crate::controls::Control;
use crate::faults::ReadFault;
use crate::headers::header;

/// What a frame is of which only the first four octets were kept, since it is too long.
#[derive(Clone, Copy, PartialEq, Eq, Debug)]
pub enum Long {
    /// An I-frame.
    Information(Address),
    /// A UI or XID frame.
    Unnumbered(Address),
}

/// Reads the first four octets of a frame of 9 octets or more, which `side` sent, without its frame
/// check (profile: a frame that is too long is kept only by its first four octets).
///
/// An I-frame is `Long::Information`, a UI or XID frame `Long::Unnumbered`. The others are faults,
/// tested in the order `BadExtension`, `Undefined`, `WrongSize`: frames of the remaining kinds are
/// never so long.
pub fn read_long(side: Side, octets: &[u8; 4]) -> Result<Long, ReadFault>
    // The answer is what the four octets alone tell.
    ensures kept { result ≡ long_reading side octets.now }
    // Whatever follows them, it is right of the whole,
    ensures grammar { (rest : List ℕ) → AreOctets rest → 5 ≤ length rest → IsLong side (octets.now ++ rest) result }
    // and is what `read` would say of it.
    ensures reading { (rest : List ℕ) → 5 ≤ length rest → result ≡ long_of (reading side (octets.now ++ rest)) }
{
    kind(side, octets)
}

/// Whether the first four octets of a frame are those of UI, by the third of them (Q.921 clause 3.6.3, table 5).
#[tactic(auto, using(crate::proofs::Spelling::unit_told))]
pub fn is_unit(octets: &[u8; 4]) -> bool
    ensures kept { result ≡ is_unit octets.now }
    // Whatever follows them, it tells UI from all other frames.
    ensures grammar { (side : Side) (frame : Parts) (rest : List ℕ) → Spells side frame (octets.now ++ rest) → result ≡ is_ui frame.control }
{
    octets[2] == 0x03 || octets[2] == 0x13
}

// What `read_long` answers.
#[tactic(auto, unfolding(crate::specs::Reading::reading))]
fn kind(side: Side, octets: &[u8; 4]) -> Result<Long, ReadFault>
    ensures kept { result ≡ long_reading side octets.now }
    ensures reading { (rest : List ℕ) → 5 ≤ length rest → result ≡ long_of (reading side (octets.now ++ rest)) }
{
    let (address, control) = header(side, octets)?;
    match control {
        Control::Information { .. } => Ok(Long::Information(address)),
        Control::Ui { .. } | Control::Xid { .. } => Ok(Long::Unnumbered(address)),
        _ => Err(ReadFault::WrongSize(address)),
    }
}

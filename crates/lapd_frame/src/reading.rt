//! From octets to a frame.

ghost use Rattle.std.specs.Prelude.{◌≡◌, ◌+◌, ◌↔◌, IfOk, IsOkAnd, drop, get_or, length};
ghost use Rattle.lapd_frame.specs.{ReadFault, IsFault, Parts, parts_of, Spells, reading, outcome_of, start_of};

use crate::addresses::{Address, Side};
use crate::faults::ReadFault;
use crate::frames::Frame;
use crate::headers::{control_of, is_short};

/// Reads a frame that `side` sent, without its frame check.
///
/// The information is lent from `octets`, of which it is the tail from [`Control::start`] on: so it can be lent again
/// from there. The faults are tested in this
/// order: `Short`, `BadExtension`, `Undefined`, `WrongSize`.
#[inline(always)]
pub fn read(side: Side, octets: &[u8]) -> Result<Frame<'_>, ReadFault>
    // A frame is answered exactly where the octets spell it,
    ensures spelled { IfOk result (λ frame. Spells side (parts_of frame) octets.now) }
    ensures only { (frame : Parts) → Spells side frame octets.now → IsOkAnd result (λ read. parts_of read ≡ frame) }
    ensures tail { IfOk result (λ frame. frame.info.now ≡ drop (start_of frame.control) octets.now) }
    ensures whole { IfOk result (λ frame. start_of frame.control + length frame.info.now ≡ length octets.now) }

    // and a fault exactly where it is the first that holds.
    ensures fault { (fault : ReadFault) → (result ≡ Err fault) ↔ IsFault side octets.now fault }

    // The same as a function of the octets.
    ensures reading { outcome_of result ≡ reading side octets.now }
{
    parse(side, octets)
}

// What `read` answers. It builds the address itself, so that this is compiled to numbers in registers.
#[tactic(auto, unfolding(crate::specs::Reading::reading, crate::specs::Reading::header_of))]
#[inline(always)]
fn parse(side: Side, octets: &[u8]) -> Result<Frame<'_>, ReadFault>
    ensures tail { IfOk result (λ frame. frame.info.now ≡ drop (start_of frame.control) octets.now) }
    ensures whole { IfOk result (λ frame. start_of frame.control + length frame.info.now ≡ length octets.now) }
    ensures reading { outcome_of result ≡ reading side octets.now }
{
    if is_short(octets) {
        return Err(ReadFault::Short);
    }
    let fourth = octet_at(octets, 3);
    if octets[0] % 2 != 0 || octets[1] % 2 != 1 {
        return Err(ReadFault::BadExtension);
    }
    let address = Address::of(side, octets[0], octets[1]);
    let Some(control) = control_of(octets[2], fourth, address.command) else {
        return Err(ReadFault::Undefined(address));
    };
    let (_, info) = octets.split_at(control.start());
    if !control.takes(info.len()) {
        return Err(ReadFault::WrongSize(address));
    }
    Ok(Frame {
        address,
        control,
        info,
    })
}

/// The octet at a place of a frame; 0 if there is none.
#[inline(always)]
pub fn octet_at(octets: &[u8], place: usize) -> u8
    ensures { result ≡ get_or octets.now place 0 }
{
    octets.get(place).copied().unwrap_or(0)
}

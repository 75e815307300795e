//! What octets say in words.

ghost use Rattle.std.specs.Prelude.{◌≡◌, ◌≢◌, true, length, IfOk, IfErr};
ghost use Rattle.lapd_c.specs.{IsPutIn, text_of};
ghost use Rattle.lapd_c.specs.Statuses as status;

use crate::plain::{BAD_SIDE, OK, WRONG_LENGTH, side_in};
use lapd_text::write_text;

/// Of more octets than the simulator shows nothing is said.
const MOST: usize = 1028;

/// Writes what octets say, as a side sent them, without a check, in front of `text`: the line that `lapdsim frame` prints,
/// or tells of octets that are no frame, with a 0 in place of its line feed. A message of TEI management stands in words
/// after its octets.
#[unsafe(no_mangle)]
pub extern "C" fn lapd_frame_text(octets: &[u8], side: u16, text: &mut [u8]) -> u32
    ensures unwritten { result ≢ status.ok → text.new ≡ text.old }
    ensures wrong { IfErr (text_of octets.now side (length text.old)) (λ wrong. result ≡ wrong) }
    ensures told { IfOk (text_of octets.now side (length text.old)) (λ said. (result ≡ status.ok) × IsPutIn true said text.old text.new) }
{
    if octets.len() > MOST {
        return WRONG_LENGTH;
    }
    if side > 2 {
        return BAD_SIDE;
    }
    if write_text(side_in(side), octets, text) {
        OK
    } else {
        WRONG_LENGTH
    }
}

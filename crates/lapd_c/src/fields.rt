//! What octets say as a frame, in fields.

ghost use Rattle.std.specs.Prelude.{◌≡◌, ◌≢◌, IfOk, IfErr};
ghost use Rattle.lapd_c.specs.{fields_of};
ghost use Rattle.lapd_c.specs.Statuses as status;

use crate::plain::{BAD_SIDE, OK, PlainFields, WRONG_LENGTH, fault_status, side_in};
use lapd_frame::read;

/// No card takes more octets as a frame: SAPI, TEI and control field in 4 octets, and N201 of 1,024.
const MOST: usize = 1028;

/// Writes what octets say as a frame that a side sent, or answers why they are none: the first of `frame short`, `frame
/// extension`, `frame undefined` and `frame size`, by the grammar by which a card reads (Q.921 clauses 2.9 and 3).
#[unsafe(no_mangle)]
pub extern "C" fn lapd_frame_read(octets: &[u8], side: u16, fields: &mut PlainFields) -> u32
    ensures unwritten { result ≢ status.ok → fields.new ≡ fields.old }
    ensures wrong { IfErr (fields_of octets.now side) (λ wrong. result ≡ wrong) }
    ensures told { IfOk (fields_of octets.now side) (λ said. (result ≡ status.ok) × (fields.new ≡ said)) }
{
    if octets.len() > MOST {
        return WRONG_LENGTH;
    }
    if side > 2 {
        return BAD_SIDE;
    }
    match read(side_in(side), octets) {
        Ok(frame) => {
            *fields = PlainFields::of(&frame);
            OK
        }
        Err(fault) => fault_status(fault),
    }
}

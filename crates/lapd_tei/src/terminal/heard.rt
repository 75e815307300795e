//! The messages of the network.

ghost use Rattle.std.specs.Prelude.{◌≡◌};
ghost use Rattle.model_teis.specs.terminal.Messages.{heard_in};

use crate::information::{ENTITY, NO_TEI, looked_at};
use lapd_frame::Reading;
use model_teis::terminal::Heard;

/// Which message the information of a UI frame is.
pub(crate) fn read(reading: Reading, information: &[u8]) -> Option<Heard>
    ensures { result ≡ heard_in reading information.now }
{
    let &[entity, high, low, kind, last] = looked_at(reading, information) else {
        return None;
    };
    if entity != ENTITY || last % 2 != 1 {
        return None;
    }
    let ri = u16::from_be_bytes([high, low]);
    let tei = last / 2;
    match kind {
        2 => Some(Heard::IdentityAssigned { ri, tei }),
        3 if tei == NO_TEI => Some(Heard::IdentityDenied { ri }),
        4 => Some(Heard::IdentityCheckRequest { tei }),
        6 => Some(Heard::IdentityRemove { tei }),
        _ => None,
    }
}

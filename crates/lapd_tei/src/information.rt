//! What the messages of both sides have in common (Q.921 clause 5.3.6).

ghost use Rattle.std.specs.Prelude.{◌≡◌, ◌<◌};
ghost use Rattle.model_teis.specs.Information.{in_frame, information, looked_at};

use lapd_frame::{Address, Control, Frame, GROUP, MANAGEMENT, Reading, Side, write};

/// The entity identifier of TEI management (Q.921 clause 5.3.6).
pub const ENTITY: u8 = 0x0F;

/// The Ai that names no TEI of its own: any will do, each is meant, or there is none to be had (Q.921 clause 5.3.6).
pub const NO_TEI: u8 = GROUP;

// A message with one Ai has so many octets.
const SIZE: usize = 5;

/// What is looked at of the information of a UI frame: by annex B its first five octets at most.
pub(crate) fn looked_at(reading: Reading, information: &[u8]) -> &[u8]
    ensures { result.now ≡ looked_at reading information.now }
{
    match reading {
        Reading::AnnexB if information.len() > SIZE => &information[..SIZE],
        _ => information,
    }
}

/// An information field: entity identifier, Ri with the high octet first, type, and Ai.
pub(crate) fn information(ri: u16, kind: u8, action: u8) -> [u8; 5]
    requires { action < 128 }
    ensures { result ≡ information ri kind action }
{
    let [high, low] = ri.to_be_bytes();
    [ENTITY, high, low, kind, 2 * action + 1]
}

/// The frame with an information field, without its frame check, as a side sends it.
pub(crate) fn in_frame(side: Side, information: &[u8; 5]) -> [u8; 8]
    ensures { result ≡ in_frame side information.now }
{
    let frame = Frame {
        address: Address {
            sapi: MANAGEMENT,
            command: true,
            tei: GROUP,
        },
        control: Control::Ui { pf: false },
        info: information,
    };
    let mut octets = [0; 8];
    let _ = write(side, &frame, &mut octets);
    octets
}

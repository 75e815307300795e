//! The messages of the network.

ghost use Rattle.std.specs.Prelude.{◌≡◌, ◌<◌};
ghost use Rattle.model_teis.specs.network.Messages.{action_of, information_of, frame_of, type_of};
ghost use Rattle.model_teis.specs.network.Rows.{asks_for, assigns_for};

mod saved;

use crate::information::{in_frame, information};
use lapd_frame::Side;
use model_teis::network::Message;
pub(crate) use saved::{restored, save};

// The frame of the message, without its frame check, as a side sends it.
pub(crate) fn frame(message: Message, side: Side) -> [u8; 8]
    requires { action_of message < 128 }
    ensures { result ≡ frame_of side message }
{
    in_frame(side, &information_of(message))
}

// Whether it is a check request of this TEI.
pub(crate) fn asks_for(message: Message, tei: u8) -> bool
    ensures { result ≡ asks_for tei message }
{
    match message {
        Message::IdentityCheckRequest { tei: other } => other == tei,
        _ => false,
    }
}

// Whether it assigns a TEI for this Ri.
pub(crate) fn assigns_for(message: Message, ri: u16) -> bool
    ensures { result ≡ assigns_for ri message }
{
    match message {
        Message::IdentityAssigned { ri: other, .. } => other == ri,
        _ => false,
    }
}

// Its message type (table 8).
pub(crate) fn kind(message: Message) -> u8
    ensures { result ≡ type_of message }
{
    match message {
        Message::IdentityAssigned { .. } => 2,
        Message::IdentityDenied { .. } => 3,
        Message::IdentityCheckRequest { .. } => 4,
        Message::IdentityRemove { .. } => 6,
    }
}

// Its information field.
fn information_of(message: Message) -> [u8; 5]
    requires { action_of message < 128 }
    ensures { result ≡ information_of message }
{
    let (ri, action) = match message {
        Message::IdentityAssigned { ri, tei } | Message::IdentityDenied { ri, tei } => (ri, tei),
        Message::IdentityCheckRequest { tei } | Message::IdentityRemove { tei } => (0, tei),
    };
    information(ri, kind(message), action)
}

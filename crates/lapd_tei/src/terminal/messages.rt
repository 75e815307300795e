//! The messages of the terminal.

ghost use Rattle.std.specs.Prelude.{◌≡◌, ◌<◌};
ghost use Rattle.model_teis.specs.terminal.Messages.{action_of, information_of, frame_of, type_of};
ghost use Rattle.model_teis.specs.terminal.Words.{is_request, is_verify, is_response, is_response_of};

mod saved;

use crate::information::{NO_TEI, in_frame, information};
use lapd_frame::Side;
use model_teis::terminal::Message;
pub(crate) use saved::{restored, save};

/// The frame of the message, without its frame check.
pub(crate) fn frame(message: Message) -> [u8; 8]
    requires { action_of message < 128 }
    ensures { result ≡ frame_of message }
{
    in_frame(Side::User, &information_of(message))
}

/// Its message type (table 8).
pub(crate) fn kind(message: Message) -> u8
    ensures { result ≡ type_of message }
{
    match message {
        Message::IdentityRequest { .. } => 1,
        Message::IdentityCheckResponse { .. } => 5,
        Message::IdentityVerify { .. } => 7,
    }
}

// Its information field.
fn information_of(message: Message) -> [u8; 5]
    requires { action_of message < 128 }
    ensures { result ≡ information_of message }
{
    let (ri, action) = match message {
        Message::IdentityRequest { ri } => (ri, NO_TEI),
        Message::IdentityCheckResponse { ri, tei } => (ri, tei),
        Message::IdentityVerify { tei } => (0, tei),
    };
    information(ri, kind(message), action)
}

/// Whether it is an identity request,
pub(crate) fn is_request(message: Message) -> bool
    ensures { result ≡ is_request message }
{
    matches!(message, Message::IdentityRequest { .. })
}

/// a verify,
pub(crate) fn is_verify(message: Message) -> bool
    ensures { result ≡ is_verify message }
{
    matches!(message, Message::IdentityVerify { .. })
}

/// a check response,
pub(crate) fn is_response(message: Message) -> bool
    ensures { result ≡ is_response message }
{
    matches!(message, Message::IdentityCheckResponse { .. })
}

/// or that for this TEI.
pub(crate) fn is_response_of(message: Message, tei: u8) -> bool
    ensures { result ≡ is_response_of tei message }
{
    match message {
        Message::IdentityCheckResponse { tei: own, .. } => own == tei,
        Message::IdentityRequest { .. } | Message::IdentityVerify { .. } => false,
    }
}

//! A message of the terminal in an image of its card.

ghost use Rattle.std.specs.Prelude.{◌≡◌, ◌<◌, ◌≤◌, length, IfNone, IfOk, IfSome, OnErr};
ghost use Rattle.lapd_image.specs.Puts.{Puts};
ghost use Rattle.lapd_image.specs.Reads.{HasNone, IsReadAs};
ghost use Rattle.model_teis.specs.terminal.Image.{IsOfOctets};
ghost use Rattle.model_teis.specs.declared.terminal.messages.Message.{Message};
ghost use Rattle.model_teis.specs.terminal.Messages.{action_of, information_of};

use super::information_of;
use crate::information::{ENTITY, NO_TEI};
use lapd_image::{BadImage, Reader, put_octets};
use model_teis::terminal::Message;

/// Writes the information field into a room, from a place on, and answers the place after. What does not fit is left out.
pub(crate) fn save(message: Message, out: &mut [u8], at: usize) -> usize
    requires action { action_of message < 128 }
    requires within { at ≤ length out.old }
    ensures puts { Puts (information_of message) at out.old result out.new }
    ensures octets { IsOfOctets message }
{
    put_octets(out, at, &information_of(message))
}

/// Reads a message.
///
/// # Errors
///
/// [`BadImage`] if no information field of a message is at the front.
pub(crate) fn restored(reader: &mut Reader<'_>) -> Result<Message, BadImage>
    ensures read { IfOk result (λ message. IsReadAs information_of IsOfOctets message reader.old reader.new) }
    ensures none { OnErr result (HasNone information_of IsOfOctets reader.old) }
{
    let information = reader.octets(5)?;
    match spelled(information) {
        Some(message) => Ok(message),
        None => Err(BadImage),
    }
}

// Which message has this information field.
fn spelled(information: &[u8]) -> Option<Message>
    ensures one { IfSome result (λ message. information.now ≡ information_of message) }
    ensures none { IfNone result ((message : Message) → information.now ≡ information_of message → ⊥) }
{
    let &[entity, high, low, kind, last] = information else {
        return None;
    };
    if entity != ENTITY || last % 2 != 1 {
        return None;
    }
    let ri = u16::from_be_bytes([high, low]);
    let tei = last / 2;
    match kind {
        1 if tei == NO_TEI => Some(Message::IdentityRequest { ri }),
        5 => Some(Message::IdentityCheckResponse { ri, tei }),
        7 if ri == 0 => Some(Message::IdentityVerify { tei }),
        _ => None,
    }
}

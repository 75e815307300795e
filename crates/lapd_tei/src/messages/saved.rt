//! A message in an image of its card.

ghost use Rattle.std.specs.Prelude.{◌≡◌, ◌<◌, ◌≤◌, length, IfNone, IfOk, IfSome, OnErr};
ghost use Rattle.lapd_image.specs.Puts.{Puts};
ghost use Rattle.lapd_image.specs.Reads.{HasNone, IsReadAs};
ghost use Rattle.model_teis.specs.network.Image.{IsOfOctets};
ghost use Rattle.model_teis.specs.declared.network.messages.Message.{Message};
ghost use Rattle.model_teis.specs.network.Messages.{action_of, information_of};

use super::information_of;
use crate::information::ENTITY;
use lapd_image::{BadImage, Reader, put_octets};
use model_teis::network::Message;

/// Writes the information field.
pub(crate) fn save(message: Message, out: &mut [u8], at: usize) -> usize
    requires action { action_of message < 128 }
    requires within { at ≤ length out.old }
    ensures puts { Puts (information_of message) at out.old result out.new }
    ensures saved { IsOfOctets message }
{
    put_octets(out, at, &information_of(message))
}

/// Reads an information field.
pub(crate) fn restored(reader: &mut Reader<'_>) -> Result<Message, BadImage>
    ensures read { IfOk result (λ message. IsReadAs information_of IsOfOctets message reader.old reader.new) }
    ensures none { OnErr result (HasNone information_of IsOfOctets reader.old) }
{
    let information = reader.octets(5)?;
    match spelled(information) {
        Some(message) => Ok(message),
        None => Err(BadImage),
    }
}

// Which message has this information field.
fn spelled(information: &[u8]) -> Option<Message>
    ensures one { IfSome result (λ message. information.now ≡ information_of message) }
    ensures none { IfNone result ((message : Message) → information.now ≡ information_of message → ⊥) }
{
    let &[entity, high, low, kind, last] = information else {
        return None;
    };
    if entity != ENTITY || last % 2 != 1 {
        return None;
    }
    let ri = u16::from_be_bytes([high, low]);
    let tei = last / 2;
    match kind {
        2 => Some(Message::IdentityAssigned { ri, tei }),
        3 => Some(Message::IdentityDenied { ri, tei }),
        4 if ri == 0 => Some(Message::IdentityCheckRequest { tei }),
        6 if ri == 0 => Some(Message::IdentityRemove { tei }),
        _ => None,
    }
}

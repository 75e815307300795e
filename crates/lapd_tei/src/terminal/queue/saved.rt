//! The messages that wait in an image of their card.

ghost use Rattle.std.specs.Prelude.{◌≡◌, ◌≤◌, ◌<◌, [], ◌∷◌, ◌++◌, ◌&&◌, not, length, All, IfOk, OnErr};
ghost use Rattle.std.specs.List.{list_any};
ghost use Rattle.lapd_image.specs.Numbers.{list_of};
ghost use Rattle.lapd_image.specs.Puts.{Puts};
ghost use Rattle.lapd_image.specs.Reads.{HasNone, IsReadAs};
ghost use Rattle.model_teis.specs.terminal.Image.{IsOfOctets};
ghost use Rattle.model_teis.specs.terminal.Messages.{action_of, information_of};
ghost use Rattle.model_teis.specs.terminal.Sound.{has_slot, is_asked, is_due, slot_of};
ghost use Rattle.lapd_tei.specs.terminal.Saved.{MayWait};

use super::{MOST, Queue};
use crate::information::NO_TEI;
use crate::table::Table;
use crate::terminal::messages;
use crate::terminal::procedure::is_verified;
use lapd_image::{BadImage, Reader, put_octet};
use model_teis::terminal::{Message, Procedure};

impl Queue {
    /// Writes the list of the messages that wait.
    pub fn save(&self, out: &mut [u8], at: usize) -> usize
        requires actions { All (λ message. action_of message < 128) self.now }
        requires within { at ≤ length out.old }
        ensures puts { Puts (list_of information_of self.now) at out.old result out.new }
        ensures octets { All IsOfOctets self.now }
    {
        let mut end = put_octet(out, at, self.len() as u8);
        for message in self.messages.as_slice() {
            end = messages::save(*message, out, end);
        }
        end
    }

    /// Reads a list of messages that may wait on a line with the TEIs of this table, while this procedure runs.
    pub fn restored(
        table: &Table,
        procedure: Option<Procedure>,
        reader: &mut Reader<'_>,
    ) -> Result<Queue, BadImage>
        requires { length table.now ≤ 8 }
        ensures read { IfOk result (λ queue. IsReadAs (list_of information_of) (MayWait table.now procedure) queue reader.old reader.new) }
        ensures none { OnErr result (HasNone (list_of information_of) (MayWait table.now procedure) reader.old) }
    {
        let count = usize::from(reader.octet()?);
        if count > MOST {
            return Err(BadImage);
        }
        let mut queue = Queue::new();
        for _ in 0..count {
            let message = queue.next(table, procedure, reader)?;
            queue.push(message);
        }
        Ok(queue)
    }

    // Reads a message that may wait after these.
    fn next(
        &self,
        table: &Table,
        procedure: Option<Procedure>,
        reader: &mut Reader<'_>,
    ) -> Result<Message, BadImage>
        requires { MayWait table.now procedure self.now }
        ensures read { IfOk result (λ message. IsReadAs information_of (λ message. MayWait table.now procedure (self.now ++ message ∷ [])) message reader.old reader.new) }
        ensures none { OnErr result (HasNone information_of (λ message. MayWait table.now procedure (self.now ++ message ∷ [])) reader.old) }
    {
        let message = messages::restored(reader)?;
        if !self.may_precede(table, procedure, message) {
            return Err(BadImage);
        }
        Ok(message)
    }

    // Whether a message may wait after these.
    fn may_precede(&self, table: &Table, procedure: Option<Procedure>, message: Message) -> bool
        ensures { result ≡ (is_due table.now procedure message && not (list_any (has_slot (slot_of message)) self.now)) }
    {
        is_due(table, procedure, message) && !self.has_slot(slot_of(message))
    }

    // Whether a message with this slot waits.
    fn has_slot(&self, slot: u8) -> bool
        ensures { result ≡ list_any (has_slot slot) self.now }
    {
        self.messages
            .as_slice()
            .iter()
            .any(|one| slot_of(*one) == slot)
    }
}

// Whether a message may wait.
fn is_due(table: &Table, procedure: Option<Procedure>, message: Message) -> bool
    ensures { result ≡ is_due table.now procedure message }
{
    match message {
        Message::IdentityRequest { ri } => is_asked(procedure, ri),
        Message::IdentityCheckResponse { tei, .. } => table.is_on(tei),
        Message::IdentityVerify { tei } => is_verified(procedure, tei),
    }
}

// Whether a TEI is asked for with this reference number.
fn is_asked(procedure: Option<Procedure>, ri: u16) -> bool
    ensures { result ≡ is_asked ri procedure }
{
    match procedure {
        Some(Procedure::Asking { ri: own, .. }) => own == ri,
        Some(Procedure::Verifying { .. }) | None => false,
    }
}

// The slot of a message: a TEI, or 127 for one of the procedure that runs.
fn slot_of(message: Message) -> u8
    ensures { result ≡ slot_of message }
{
    match message {
        Message::IdentityRequest { .. } | Message::IdentityVerify { .. } => NO_TEI,
        Message::IdentityCheckResponse { tei, .. } => tei,
    }
}

//! The messages that wait in an image of their card.

ghost use Rattle.std.specs.Prelude.{◌<◌, ◌≤◌, length, get_or, All, OnErr, OnOk};
ghost use Rattle.lapd_image.specs.Numbers.{list_of};
ghost use Rattle.lapd_image.specs.Puts.{Puts};
ghost use Rattle.lapd_image.specs.Reads.{HasNone, IsReadAs};
ghost use Rattle.model_teis.specs.network.Image.{IsOfOctets, IsQueue};
ghost use Rattle.model_teis.specs.declared.network.messages.Message.{Message};
ghost use Rattle.model_teis.specs.network.Messages.{information_of};
ghost use Rattle.model_teis.specs.network.Sound.{IsSoundQueue};

use super::{LIMIT, Queue};
use crate::messages;
use lapd_image::{BadImage, Reader, put_octet};

impl Queue {
    /// Writes the list of the messages that wait.
    pub fn save(&self, out: &mut [u8], at: usize) -> usize
        requires sound { IsSoundQueue self.now }
        requires within { at ≤ length out.old }
        ensures puts { Puts (list_of information_of self.now) at out.old result out.new }
        ensures saved { All IsOfOctets self.now }
    {
        let mut end = put_octet(out, at, self.len() as u8);
        for place in 0..self.len() {
            end = self.save_at(place, out, end);
        }
        end
    }

    // The message at a place.
    fn save_at(&self, place: usize, out: &mut [u8], at: usize) -> usize
        requires sound { IsSoundQueue self.now }
        requires there { place < length self.now }
        requires within { at ≤ length out.old }
        ensures puts { (other : Message) → Puts (information_of (get_or self.now place other)) at out.old result out.new }
        ensures saved { (other : Message) → IsOfOctets (get_or self.now place other) }
    {
        match self.messages.get(place) {
            Some(message) => messages::save(*message, out, at),
            None => at,
        }
    }
    /// Reads which messages wait.
    ///
    /// # Errors
    ///
    /// [`BadImage`] if no messages that may wait are at the front. Then any may.
    pub fn restore(&mut self, reader: &mut Reader<'_>) -> Result<(), BadImage>
        ensures read { OnOk result (IsReadAs (list_of information_of) IsQueue self.new reader.old reader.new) }
        ensures none { OnErr result (HasNone (list_of information_of) IsQueue reader.old) }
        ensures sound { IsSoundQueue self.new }
    {
        self.clear();
        let count = reader.octet()?;
        if usize::from(count) > LIMIT {
            return Err(BadImage);
        }
        for _ in 0..count {
            let message = messages::restored(reader)?;
            self.send(message);
        }
        Ok(())
    }
}

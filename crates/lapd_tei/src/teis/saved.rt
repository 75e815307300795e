//! TEI management in an image of its card.

ghost use Rattle.std.specs.Prelude.{◌≤◌, length, OnOk, OnErr};
ghost use Rattle.model_teis.specs.network.Image.{image, IsSavedOf};
ghost use Rattle.lapd_image.specs.Puts.{Puts};
ghost use Rattle.lapd_image.specs.Reads.{IsReadAs, HasNone};

use super::Teis;
use crate::check;
use crate::due::Due;
use crate::remembered::Memory;
use lapd_image::{BadImage, Reader};

impl Teis {
    /// Writes the table and the rest into a room, from a place on, and answers the place after. What does not fit is left out.
    pub fn save(&self, out: &mut [u8], at: usize) -> usize
        requires { at ≤ length out.old }
        ensures puts { Puts (image self.now) at out.old result out.new }
        ensures saved { IsSavedOf self.now self.now }
    {
        let end = self.table.save(out, at);
        let end = self.memory.save(out, end);
        let end = check::save(self.check, out, end);
        let end = self.due.save(out, end);
        self.queue.save(out, end)
    }

    /// Reads what was saved of one with as many places, and the same reading of the rows.
    ///
    /// # Errors
    ///
    /// [`BadImage`] if nothing that may be saved of such a one is at the front. Then it is of any state.
    pub fn restore(&mut self, reader: &mut Reader<'_>) -> Result<(), BadImage>
        ensures read { OnOk result (IsReadAs image (IsSavedOf self.old) self.new reader.old reader.new) }
        ensures none { OnErr result (HasNone image (IsSavedOf self.old) reader.old) }
    {
        let table = self.table.restored(reader)?;
        let memory = Memory::restored(self.reading, &table, reader)?;
        let check = check::restored(self.reading, &table, reader)?;
        let due = Due::restored(self.reading, &table, check, reader)?;
        self.queue.restore(reader)?;
        self.table = table;
        self.memory = memory;
        self.check = check;
        self.due = due;
        Ok(())
    }
}

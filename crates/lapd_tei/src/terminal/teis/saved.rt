//! TEI management of a terminal in an image of its card.

ghost use Rattle.std.specs.Prelude.{◌≤◌, length, OnOk, OnErr};
ghost use Rattle.model_teis.specs.terminal.Image.{image, IsSavedOf};
ghost use Rattle.lapd_image.specs.Puts.{Puts};
ghost use Rattle.lapd_image.specs.Reads.{IsReadAs, HasNone};

use super::TerminalTeis;
use crate::terminal::procedure;
use crate::terminal::queue::Queue;
use lapd_image::{BadImage, Reader, put_number};

impl TerminalTeis {
    /// Writes the table and the rest into a room, from a place on, and answers the place after. What does not fit is left out.
    pub fn save(&self, out: &mut [u8], at: usize) -> usize
        requires { at ≤ length out.old }
        ensures puts { Puts (image self.now) at out.old result out.new }
        ensures saved { IsSavedOf self.now self.now }
    {
        let end = self.table.save(out, at);
        let end = put_number(out, end, 2, u64::from(self.number));
        let end = procedure::save(self.procedure, out, end);
        self.queue.save(out, end)
    }

    /// Reads what was saved of one with as many places, and the same reading of the rows.
    ///
    /// # Errors
    ///
    /// [`BadImage`] if nothing that may be saved of such a one is at the front. Then it is of any state.
    pub fn restore(&mut self, reader: &mut Reader<'_>) -> Result<(), BadImage>
        ensures read { OnOk result (IsReadAs image (IsSavedOf self.old) self.new reader.old reader.new) }
        ensures none { OnErr result (HasNone image (IsSavedOf self.old) reader.old) }
    {
        let table = self.table.restored(reader)?;
        let number = reader.number(2)? as u16;
        let procedure = procedure::restore(&table, reader)?;
        let queue = Queue::restored(&table, procedure, reader)?;
        *self = TerminalTeis {
            reading: self.reading,
            table,
            number,
            procedure,
            queue,
        };
        Ok(())
    }
}

//! TEI management of a line in an image of its card.

ghost use Rattle.std.specs.Prelude.{◌≡◌, ◌≤◌, None, get_or, length, OnOk, OnErr};
ghost use Rattle.lapd_image.specs.Puts.{Puts};
ghost use Rattle.lapd_image.specs.Reads.{IsReadAs, HasNone};
ghost use Rattle.lapd_line.specs.ImageParts.{AreSavedTeis, teis_image};
ghost use Rattle.lapd_line.specs.{places_of};

use super::Managing;
use lapd_image::{BadImage, Reader};

impl Managing {
    /// The TEI at a place.
    pub fn tei_at(&self, place: usize) -> Option<u8>
        ensures { result ≡ get_or (places_of self.now) place None }
    {
        match self {
            Managing::Network(own) => own.tei_at(place),
            Managing::Terminal(own) => own.tei_at(place),
        }
    }

    /// Writes it into a room, from a place on, and answers the place after. What does not fit is left out.
    pub fn save(&self, out: &mut [u8], at: usize) -> usize
        requires { at ≤ length out.old }
        ensures puts { Puts (teis_image self.now) at out.old result out.new }
        ensures saved { AreSavedTeis self.now self.now }
    {
        match self {
            Managing::Network(own) => own.save(out, at),
            Managing::Terminal(own) => own.save(out, at),
        }
    }

    /// Reads what was saved of one of the same kind, with as many places and the same reading of the rows.
    ///
    /// # Errors
    ///
    /// [`BadImage`] if nothing that may be saved of such a one is at the front. Then it is of any state.
    pub fn restore(&mut self, reader: &mut Reader<'_>) -> Result<(), BadImage>
        ensures read { OnOk result (IsReadAs teis_image (AreSavedTeis self.old) self.new reader.old reader.new) }
        ensures none { OnErr result (HasNone teis_image (AreSavedTeis self.old) reader.old) }
    {
        match self {
            Managing::Network(own) => own.restore(reader),
            Managing::Terminal(own) => own.restore(reader),
        }
    }
}

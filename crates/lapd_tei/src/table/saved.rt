//! The table in an image of its card.

ghost use Rattle.std.specs.Prelude.{◌≡◌, ◌≤◌, [], ◌∷◌, ◌++◌, length, IfOk, OnErr};
ghost use Rattle.lapd_image.specs.Puts.{Puts};
ghost use Rattle.lapd_image.specs.Reads.{HasNone, IsReadAs};
ghost use Rattle.model_teis.specs.TableImage.{IsTableOf, one_place, place, table};
ghost use Rattle.model_teis.specs.Table.{IsSoundTable};

use super::Table;
use arrayvec::ArrayVec;
use lapd_frame::GROUP;
use lapd_image::{BadImage, Reader, put_octet};

// A place that is free, in an image.
const FREE: u8 = 255;

impl Table {
    /// Writes each place into a room, from a place of it on, and answers the place after. What does not fit is left out.
    pub fn save(&self, out: &mut [u8], at: usize) -> usize
        requires { at ≤ length out.old }
        ensures { Puts (table self.now) at out.old result out.new }
    {
        let mut end = at;
        for own in self.places.as_slice() {
            end = put_octet(out, end, octet_of(*own));
        }
        end
    }

    /// Reads a table of as many places.
    ///
    /// # Errors
    ///
    /// [`BadImage`] if no such table is at the front.
    pub fn restored(&self, reader: &mut Reader<'_>) -> Result<Table, BadImage>
        ensures read { IfOk result (λ places. IsReadAs table (IsTableOf self.now) places reader.old reader.new) }
        ensures none { OnErr result (HasNone table (IsTableOf self.now) reader.old) }
    {
        let mut table = Table {
            places: ArrayVec::new(),
        };
        for _ in 0..self.places.len() {
            let own = table.next_restored(reader)?;
            table.places.push(own);
        }
        Ok(table)
    }

    // Reads the place after those of a table.
    fn next_restored(&self, reader: &mut Reader<'_>) -> Result<Option<u8>, BadImage>
        requires { IsSoundTable self.now }
        ensures read { IfOk result (λ own. IsReadAs one_place (λ own. IsSoundTable (self.now ++ own ∷ [])) own reader.old reader.new) }
        ensures none { OnErr result (HasNone one_place (λ own. IsSoundTable (self.now ++ own ∷ [])) reader.old) }
    {
        let octet = reader.octet()?;
        if octet == FREE {
            return Ok(None);
        }
        if octet >= GROUP || self.is_on(octet) {
            return Err(BadImage);
        }
        Ok(Some(octet))
    }
}

// A place in an image.
fn octet_of(own: Option<u8>) -> u8
    ensures { result ≡ place own }
{
    own.unwrap_or(FREE)
}

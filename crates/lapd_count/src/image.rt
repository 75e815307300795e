//! The counters of a line in an image of its card.

ghost use Rattle.std.specs.Prelude.{◌≤◌, length, flat_map, All, IfOk, OnErr};
ghost use Rattle.lapd_count.specs.Counters.{most};
ghost use Rattle.lapd_count.specs.Image.{counters, IsCounted};
ghost use Rattle.lapd_image.specs.Numbers.{number};
ghost use Rattle.lapd_image.specs.Puts.{Puts};
ghost use Rattle.lapd_image.specs.Reads.{IsReadAs, HasNone};

use crate::counters::{COUNT, Counters};
use lapd_image::{BadImage, Reader, put_number};

impl Counters {
    /// Writes all of them into a room, from a place on, and answers the place after. What does not fit is left out.
    pub fn save(&self, out: &mut [u8], at: usize) -> usize
        requires { at ≤ length out.old }
        ensures puts { Puts (counters self.now) at out.old result out.new }
        ensures saved { IsCounted self.now }
    {
        put_each(&self.values, out, at)
    }

    /// Reads them.
    ///
    /// # Errors
    ///
    /// [`BadImage`] if no counters are at the front.
    pub fn restore(reader: &mut Reader<'_>) -> Result<Counters, BadImage>
        ensures read { IfOk result (λ read. IsReadAs counters IsCounted read reader.old reader.new) }
        ensures none { OnErr result (HasNone counters IsCounted reader.old) }
    {
        let mut values = [0; COUNT];
        for value in &mut values {
            *value = reader.number(8)?;
        }
        Ok(Counters { values })
    }
}

// Numbers of 64 bits.
fn put_each(values: &[u64], out: &mut [u8], at: usize) -> usize
    requires { at ≤ length out.old }
    ensures puts { Puts (flat_map (number 8) values.now) at out.old result out.new }
    ensures few { All (λ value. value ≤ most) values.now }
{
    let mut place = at;
    for value in values {
        place = put_number(out, place, 8, *value);
    }
    place
}

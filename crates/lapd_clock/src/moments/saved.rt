//! The moments of timers in an image.

ghost use Rattle.std.specs.Prelude.{◌≡◌, ◌<◌, ◌≤◌, length, OnOk, OnErr};
ghost use Rattle.lapd_clock.specs.Firsts.{never};
ghost use Rattle.lapd_image.specs.Numbers.{number};
ghost use Rattle.lapd_image.specs.Puts.{Puts};
ghost use Rattle.lapd_image.specs.Reads.{HasNone};
ghost use Rattle.lapd_clock.specs.MomentImage.{moment_at, IsStartedBy};
ghost use Rattle.lapd_clock.specs.OwnPlaces.{AreUntil};

use super::Moments;
use crate::timers::NEVER;
use lapd_frame::Timer;
use lapd_image::{BadImage, Reader, put_number};

impl Moments {
    /// Writes the moment of a place into a room, if its timer runs, from a place of the room on. It answers the place after. What
    /// does not fit is left out.
    pub fn save(&self, place: usize, out: &mut [u8], at: usize) -> usize
        requires place { place < length self.now }
        requires within { at ≤ length out.old }
        ensures { Puts (moment_at place self.now) at out.old result out.new }
    {
        let moment = self.places[place].moment;
        if moment == NEVER {
            return at;
        }
        put_number(out, at, 8, moment)
    }

    /// Reads a moment, and starts the timer of a place with it. It may fall due at the latest moment that is told, and no later.
    ///
    /// # Errors
    ///
    /// [`BadImage`] if no such moment is at the front. Then nothing has changed but the reader.
    pub fn restore(
        &mut self,
        place: usize,
        timer: Timer,
        latest: u64,
        reader: &mut Reader<'_>,
    ) -> Result<(), BadImage>
        requires place { place < length self.old }
        requires some_time { latest < never }
        ensures read { OnOk result (IsStartedBy place timer reader.old reader.new self.old self.new) }
        ensures until { OnOk result (AreUntil latest self.old → AreUntil latest self.new) }
        ensures none { OnErr result (HasNone (number 8) (λ moment. moment ≤ latest) reader.old) }
        ensures unchanged { OnErr result (self.new ≡ self.old) }
    {
        let moment = reader.number(8)?;
        if moment > latest {
            return Err(BadImage);
        }
        self.start(place, timer, moment);
        Ok(())
    }
}

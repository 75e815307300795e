//! A line in an image of its card.

ghost use Rattle.std.specs.Prelude.{◌≡◌, ◌≤◌, ℕ, List, length, OnOk, OnErr};
ghost use Rattle.lapd_count.specs.Image.{counters, IsCounted};
ghost use Rattle.lapd_image.specs.Puts.{Puts};
ghost use Rattle.lapd_image.specs.Reads.{IsReadAs, HasNone};
ghost use Rattle.lapd_line.specs.{Owned, used_slots, SameLimits, config_of};
ghost use Rattle.lapd_line.specs.Image.{Restores, HasNoLine};
ghost use Rattle.model_line.specs.Image as image;
ghost use Rattle.model_line.specs.Image.{IsWhole};
ghost use Rattle.model_line.specs.Line as machine;
ghost use Rattle.model_link.specs.Timed.{IsTimed};

use crate::frame_line::FrameLine;
use lapd_image::{BadImage, Reader};
use lapd_store::Shelf;

impl FrameLine {
    ghost use Rattle.lapd_line.specs.Stands.{LineStands};

    /// Writes the line, without its counters, into a room, from a place on, and answers the place after. What does not fit is
    /// left out.
    pub fn save<S: Shelf>(&self, shelf: &S, out: &mut [u8], at: usize) -> usize
        requires within { at ≤ length out.old }
        requires stands { (others : List Owned) × (m : machine.Line) × LineStands self.now (S.store shelf.now) others m }
        ensures puts { (others : List Owned) (m : machine.Line) → LineStands self.now (S.store shelf.now) others m
            → Puts (image.line (config_of self.now) m) at out.old result out.new }
        // If its timers are those of the states of its links, it may be saved.
        ensures saved { (others : List Owned) (m : machine.Line) → LineStands self.now (S.store shelf.now) others m
            → ((number : ℕ) → IsTimed (machine.link_at number m)) → IsWhole (config_of self.now) m }
    {
        self.layer.save(shelf, out, at)
    }

    /// Reads what was saved of a line with this configuration. This one has to be as one that begins. All users of the shelf
    /// together may hold `slots` contents, at most as many as the shelf has slots. The counters stay.
    ///
    /// # Errors
    ///
    /// [`BadImage`] if no line that may be saved is at the front, or its contents are too many. Then it is of any state, and
    /// may have left contents on the shelf.
    pub fn restore<S: Shelf>(
        &mut self,
        reader: &mut Reader<'_>,
        shelf: &mut S,
        slots: u32,
    ) -> Result<(), BadImage>
        requires fresh { (others : List Owned) × LineStands self.old (S.store shelf.old) others (machine.fresh_line (config_of self.old)) }
        requires slots { slots ≤ (S.store shelf.old).slots }
        requires used { used_slots (S.store shelf.old) ≤ slots }
        ensures read { OnOk result (Restores reader.old reader.new self.old (S.store shelf.old) self.new (S.store shelf.new)) }
        ensures none { OnErr result (HasNoLine slots reader.old self.old (S.store shelf.old)) }
        ensures config { config_of self.new ≡ config_of self.old }
        ensures counters { self.new.counters ≡ self.old.counters }
        ensures limits { SameLimits (S.store shelf.old) (S.store shelf.new) }
        ensures used { used_slots (S.store shelf.new) ≤ slots }
    {
        self.layer.restore(reader, shelf, slots)
    }

    /// Writes its counters, in the same way.
    pub fn save_counters(&self, out: &mut [u8], at: usize) -> usize
        requires { at ≤ length out.old }
        ensures puts { Puts (counters self.now.counters) at out.old result out.new }
        ensures saved { IsCounted self.now.counters }
    {
        self.counters.save(out, at)
    }

    /// Reads its counters.
    ///
    /// # Errors
    ///
    /// [`BadImage`] if no counters are at the front. Then nothing has changed but the reader.
    pub fn restore_counters(&mut self, reader: &mut Reader<'_>) -> Result<(), BadImage>
        ensures read { OnOk result (IsReadAs counters IsCounted self.new.counters reader.old reader.new) }
        ensures none { OnErr result (HasNone counters IsCounted reader.old) }
        ensures unchanged { OnErr result (self.new ≡ self.old) }
        ensures layer { self.new.layer ≡ self.old.layer }
    {
        self.counters = lapd_count::Counters::restore(reader)?;
        Ok(())
    }
}

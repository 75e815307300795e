//! A link is read from an image of its card.

ghost use Rattle.std.specs.Prelude.{◌≡◌, ◌-◌, ◌<◌, ◌≤◌, ℕ, List, [], IfOk, OnOk, OnErr};
ghost use Rattle.lapd_image.specs.Numbers.{contents, list_of};
ghost use Rattle.lapd_image.specs.Reads.{HasNone, IsReadAs};
ghost use Rattle.lapd_link.specs.{Keeps, used_slots, SameLimits, Owned, Stays, terms_of};
ghost use Rattle.lapd_link.specs.Image.{AreContents, IsContents, Takes, Restores, HasNoLink};
ghost use Rattle.model_link.specs.Link as machine;

use crate::link::Link;
use lapd_image::{BadImage, Reader};
use lapd_store::Shelf;

impl Link {
    ghost use Rattle.lapd_link.specs.Stands.{LinkStands};

    /// Reads what was saved of one with the same parameters. This one has to be as one that begins. All users of the shelf
    /// together may hold `slots` contents, at most as many as the shelf has slots.
    ///
    /// # Errors
    ///
    /// [`BadImage`] if no link that may be saved is at the front, or its contents are too many. Then it is of any state, and
    /// may have left contents on the shelf.
    pub fn restore<S: Shelf>(
        &mut self,
        reader: &mut Reader<'_>,
        shelf: &mut S,
        slots: u32,
    ) -> Result<(), BadImage>
        requires fresh { (others : List Owned) × LinkStands self.old (S.store shelf.old) others machine.fresh }
        requires slots { slots ≤ (S.store shelf.old).slots }
        requires used { used_slots (S.store shelf.old) ≤ slots }
        ensures read { OnOk result (Restores reader.old reader.new self.old (S.store shelf.old) self.new (S.store shelf.new)) }
        ensures none { OnErr result (HasNoLink slots reader.old self.old (S.store shelf.old)) }
        ensures terms { terms_of self.new ≡ terms_of self.old }
        ensures limits { SameLimits (S.store shelf.old) (S.store shelf.new) }
        ensures used { used_slots (S.store shelf.new) ≤ slots }
    {
        self.entity.restore(reader)?;
        self.restore_queue(reader, shelf, slots)?;
        self.entity.restore_waiting(reader)?;
        if !self.entity.is_fit(&self.terms, self.queue.len()) {
            return Err(BadImage);
        }
        Ok(())
    }

    // Reads the contents, and keeps them. None is kept before.
    fn restore_queue<S: Shelf>(
        &mut self,
        reader: &mut Reader<'_>,
        shelf: &mut S,
        slots: u32,
    ) -> Result<(), BadImage>
        requires empty { (others : List Owned) × Keeps (S.store shelf.old) self.old.queue.slots [] others }
        requires capacity { (terms_of self.old).queue ≡ self.old.queue.capacity }
        requires width { (terms_of self.old).n201 ≤ (S.store shelf.old).width }
        requires n201 { (terms_of self.old).n201 ≤ 260 }
        requires slots { slots ≤ (S.store shelf.old).slots }
        requires used { used_slots (S.store shelf.old) ≤ slots }
        ensures read { OnOk result ((messages : List (List ℕ)) × Takes (slots - used_slots (S.store shelf.old)) messages reader.old reader.new self.old (S.store shelf.old) self.new (S.store shelf.new)) }
        ensures none { OnErr result (HasNone (list_of contents) (AreContents (terms_of self.old) (slots - used_slots (S.store shelf.old))) reader.old) }
        ensures entity { self.new.entity ≡ self.old.entity }
        ensures stays { Stays self.old self.new }
        ensures limits { SameLimits (S.store shelf.old) (S.store shelf.new) }
        ensures used { used_slots (S.store shelf.new) ≤ slots }
    {
        let count = reader.octet()?;
        if count > self.terms.queue || u32::from(count) > slots.saturating_sub(shelf.used()) {
            return Err(BadImage);
        }
        let most = self.terms.n201;
        for _ in 0..count {
            let octets = next_contents(reader, most)?;
            self.keep(octets, shelf);
        }
        Ok(())
    }
}

// Contents of at most so many octets.
fn next_contents<'r>(reader: &mut Reader<'r>, most: u16) -> Result<&'r [u8], BadImage>
    ensures read { IfOk result (λ octets. IsReadAs contents (IsContents most) octets.now reader.old reader.new) }
    ensures none { OnErr result (HasNone contents (IsContents most) reader.old) }
{
    let count = reader.number(2)?;
    if count > u64::from(most) {
        return Err(BadImage);
    }
    let octets = reader.octets(count as usize)?;
    Ok(octets)
}

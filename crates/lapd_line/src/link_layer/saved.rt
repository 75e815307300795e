//! The data link layer entities of a line in an image of its card.

ghost use Rattle.std.specs.Prelude.{◌≡◌, ◌<◌, ◌≤◌, ◌∷◌, ℕ, All, List, flat_map, length, replicate, IfOk, OnOk, OnErr};
ghost use Rattle.std.specs.List.{range_with_len};
ghost use Rattle.lapd_image.specs.Puts.{Puts};
ghost use Rattle.lapd_line.specs.ImageParts.{HasNoLayer, HasNoLinkAt, HasNoLinks, HasNoTurn, LinksAwake, RestoresLayer, RestoresLink, RestoresLinks, SameButLinks, tei_in};
ghost use Rattle.lapd_line.specs.LinkLayer.{LayerStands};
ghost use Rattle.lapd_line.specs.{IsInRange, LinksStand, Owned, SameLimits, Standing, link_count, machine_at, places_of, used_slots};
ghost use Rattle.model_line.specs.Image as image;
ghost use Rattle.model_teis.specs.Table.{IsSoundTable};
ghost use Rattle.model_link.specs.Image.{IsSavedLink};
ghost use Rattle.model_line.specs.Image.{IsWhole};
ghost use Rattle.model_line.specs.Line as machine;
ghost use Rattle.model_link.specs.Link as link;
ghost use Rattle.model_link.specs.Timed.{IsTimed};

use super::LinkLayer;
use lapd_frame::Service;
use lapd_image::{BadImage, Reader, put_octet};
use lapd_store::Shelf;

/// The service of a link by its number.
fn service_at(number: usize) -> Service
    ensures { result ≡ machine.service_at number }
{
    if number % 2 == 0 {
        Service::Call
    } else {
        Service::Packet
    }
}

impl LinkLayer {
    /// Writes them into a room, from a place on, and answers the place after. What does not fit is left out.
    pub(crate) fn save<S: Shelf>(&self, shelf: &S, out: &mut [u8], at: usize) -> usize
        requires within { at ≤ length out.old }
        requires stands { Standing self.now (S.store shelf.now) }
        ensures puts { (others : List Owned) (m : machine.Line) → LayerStands self.now (S.store shelf.now) others m
            → Puts (image.line self.now.config m) at out.old result out.new }
        ensures saved { (others : List Owned) (m : machine.Line) → LayerStands self.now (S.store shelf.now) others m
            → ((number : ℕ) → IsTimed (machine.link_at number m)) → IsWhole self.now.config m }
    {
        let at = self.teis.save(out, at);
        let at = self.units.save(shelf, out, at);
        let at = put_octet(out, at, self.turn as u8);
        self.save_links(shelf, out, at)
    }

    /// The links of the TEIs, in the same way.
    fn save_links<S: Shelf>(&self, shelf: &S, out: &mut [u8], at: usize) -> usize
        requires within { at ≤ length out.old }
        requires stands { Standing self.now (S.store shelf.now) }
        ensures puts { (others : List Owned) (m : machine.Line) → LayerStands self.now (S.store shelf.now) others m
            → Puts (flat_map (image.link_numbered m) (range_with_len 0 (link_count self.now.config))) at out.old result out.new }
        ensures saved { (others : List Owned) (m : machine.Line) → LayerStands self.now (S.store shelf.now) others m
            → ((number : ℕ) → IsTimed (machine.link_at number m)) → All IsSavedLink m.links }
    {
        let mut end = at;
        for number in 0..2 * usize::from(self.config.terminals) {
            end = self.save_link(number, shelf, out, end);
        }
        end
    }

    /// One of them. If there is no TEI at its place, nothing is written.
    fn save_link<S: Shelf>(&self, number: usize, shelf: &S, out: &mut [u8], at: usize) -> usize
        requires few { number < link_count self.now.config }
        requires within { at ≤ length out.old }
        requires stands { Standing self.now (S.store shelf.now) }
        ensures puts { (others : List Owned) (m : machine.Line) → LayerStands self.now (S.store shelf.now) others m
            → Puts (image.link_numbered m number) at out.old result out.new }
        ensures saved { (others : List Owned) (m : machine.Line) → LayerStands self.now (S.store shelf.now) others m
            → IsTimed (machine.link_at number m) → IsSavedLink (machine.link_at number m) }
    {
        if self.teis.tei_at(number / 2).is_none() {
            return at;
        }
        self.links[number].save(shelf, out, at)
    }

    /// Reads what was saved of entities with this configuration. These have to be as those that begin. All users of the shelf
    /// together may hold `slots` contents, at most as many as the shelf has slots.
    ///
    /// # Errors
    ///
    /// [`BadImage`] if none that may be saved are at the front, or their contents are too many.
    pub(crate) fn restore<S: Shelf>(
        &mut self,
        reader: &mut Reader<'_>,
        shelf: &mut S,
        slots: u32,
    ) -> Result<(), BadImage>
        requires fresh { (others : List Owned) × LayerStands self.old (S.store shelf.old) others (machine.fresh_line self.old.config) }
        requires slots { slots ≤ (S.store shelf.old).slots }
        requires used { used_slots (S.store shelf.old) ≤ slots }
        ensures read { OnOk result (RestoresLayer reader.old reader.new self.old (S.store shelf.old) self.new (S.store shelf.new)) }
        ensures none { OnErr result (HasNoLayer slots reader.old self.old (S.store shelf.old)) }
        ensures config { self.new.config ≡ self.old.config }
        ensures limits { SameLimits (S.store shelf.old) (S.store shelf.new) }
        ensures used { used_slots (S.store shelf.new) ≤ slots }
    {
        self.teis.restore(reader)?;
        self.units.restore(self.config.n201, reader, shelf, slots)?;
        let turn = self.turn_in(reader)?;
        self.turn = turn;
        self.restore_links(reader, shelf, slots)
    }

    /// At which link the next round begins.
    fn turn_in(&self, reader: &mut Reader<'_>) -> Result<usize, BadImage>
        ensures few { IfOk result (λ turn. turn ≤ link_count self.now.config) }
        ensures read { IfOk result (λ turn. reader.old ≡ turn ∷ reader.new) }
        ensures none { OnErr result (HasNoTurn reader.old self.now.config) }
    {
        let turn = usize::from(reader.octet()?);
        if turn > 2 * usize::from(self.config.terminals) {
            return Err(BadImage);
        }
        Ok(turn)
    }

    /// Reads the links of the TEIs, all of which have to be as those that begin.
    fn restore_links<S: Shelf>(
        &mut self,
        reader: &mut Reader<'_>,
        shelf: &mut S,
        slots: u32,
    ) -> Result<(), BadImage>
        requires range { IsInRange self.old.config }
        requires table { IsSoundTable (places_of self.old.teis) }
        requires begun { (others : List Owned) × LinksAwake self.old (S.store shelf.old) others (replicate (link_count self.old.config) link.fresh) }
        requires slots { slots ≤ (S.store shelf.old).slots }
        requires used { used_slots (S.store shelf.old) ≤ slots }
        ensures read { OnOk result (RestoresLinks reader.old reader.new self.old (S.store shelf.old) self.new (S.store shelf.new)) }
        ensures none { OnErr result (HasNoLinks slots reader.old self.old.config (places_of self.old.teis) (S.store shelf.old)) }
        ensures others { SameButLinks self.old self.new }
        ensures limits { SameLimits (S.store shelf.old) (S.store shelf.new) }
        ensures used { used_slots (S.store shelf.new) ≤ slots }
    {
        for number in 0..2 * usize::from(self.config.terminals) {
            self.restore_link(number, reader, shelf, slots)?;
        }
        Ok(())
    }

    /// Reads one of them. If there is no TEI at its place, it stays as it begins.
    fn restore_link<S: Shelf>(
        &mut self,
        number: usize,
        reader: &mut Reader<'_>,
        shelf: &mut S,
        slots: u32,
    ) -> Result<(), BadImage>
        requires range { IsInRange self.old.config }
        requires table { IsSoundTable (places_of self.old.teis) }
        requires few { number < link_count self.old.config }
        requires begun { (others : List Owned) × (ms : List link.Link) × LinksStand self.old.config self.old.links.items (S.store shelf.old) others ms
            × (length ms ≡ link_count self.old.config) × (machine_at ms number ≡ link.fresh) }
        requires slots { slots ≤ (S.store shelf.old).slots }
        requires used { used_slots (S.store shelf.old) ≤ slots }
        ensures read { OnOk result (RestoresLink number (tei_in (places_of self.old.teis) number) reader.old reader.new self.old (S.store shelf.old) self.new (S.store shelf.new)) }
        ensures none { OnErr result (HasNoLinkAt slots number (tei_in (places_of self.old.teis) number) reader.old self.old (S.store shelf.old)) }
        ensures others { SameButLinks self.old self.new }
        ensures limits { SameLimits (S.store shelf.old) (S.store shelf.new) }
        ensures used { used_slots (S.store shelf.new) ≤ slots }
    {
        let Some(tei) = self.teis.tei_at(number / 2) else {
            return Ok(());
        };
        self.links[number].with_terms(self.config.terms(service_at(number), tei));
        let link = &mut self.links[number];
        link.restore(reader, shelf, slots)?;
        self.has_frame.set(number, link.has_frame());
        Ok(())
    }
}

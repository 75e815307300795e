//! Read-only queries of a line.

ghost use Rattle.std.specs.Prelude.{◌≡◌, ◌≤◌, ◌+◌, ◌-◌, List};
ghost use Rattle.lapd_line.specs.{Owned, Store, used_slots, held_in, has_next, config_of};
ghost use Rattle.model_line.specs.Line as machine;
ghost use Rattle.model_line.specs.Room.{room_in};
ghost use Rattle.model_line.specs.Stored.{held_most};

use crate::frame_line::FrameLine;
use crate::link_layer::link_number;
use lapd_count::Counters;
use lapd_frame::{LAST_TEI, Refusal, Service};
use lapd_link::{LinkCounts, Room};
use lapd_store::Shelf;

impl FrameLine {
    ghost use Rattle.lapd_line.specs.Stands.{LineStands};

    /// Whether a frame waits, so that a call for the next gives one: a message of TEI management, unit data, or one of a link.
    #[inline(always)]
    pub fn has_next(&self) -> bool
        ensures { (store : Store) (others : List Owned) (m : machine.Line) → LineStands self.now store others m
            → result ≡ has_next (config_of self.now) m }
    {
        if self.layer.has_frame.any() {
            return true;
        }
        if self.layer.teis.has_message() {
            return true;
        }
        self.layer.units.oldest().is_some()
    }

    /// The state of the link of a service with this TEI, by its number in Q.921 (annex B): 4 to 8. None where the TEI is
    /// not on the line.
    pub fn state(&self, service: Service, tei: u8) -> Option<u8>
        ensures { (store : Store) (others : List Owned) (m : machine.Line) → LineStands self.now store others m
            → result ≡ machine.state_of service tei m }
    {
        let place = self.layer.teis.place(tei)?;
        Some(self.layer.links.get(link_number(place, service))?.state())
    }

    /// What was counted of the link of a service with this TEI. None where the TEI is not on the line.
    pub fn link_counts(&self, service: Service, tei: u8) -> Option<LinkCounts>
        ensures { (store : Store) (others : List Owned) (m : machine.Line) → LineStands self.now store others m
            → result ≡ machine.counts_of service tei m }
    {
        let place = self.layer.teis.place(tei)?;
        Some(self.layer.links.get(link_number(place, service))?.counts())
    }

    /// The place of a TEI on the line, in the table of its TEIs. None where the TEI is not on the line.
    #[inline(always)]
    pub fn place(&self, tei: u8) -> Option<usize>
        ensures { (store : Store) (others : List Owned) (m : machine.Line) → LineStands self.now store others m
            → result ≡ machine.place_in m tei }
    {
        self.layer.teis.place(tei)
    }

    /// How much room the link of a service with this TEI has for contents, and its V(A). The whole card may hold `slots`.
    ///
    /// # Errors
    ///
    /// There is no such link: `BadTei` if the TEI is over 126, `NoLink` if it is not on the line.
    pub fn room<S: Shelf>(
        &self,
        service: Service,
        tei: u8,
        shelf: &S,
        slots: u32,
    ) -> Result<Room, Refusal>
        ensures { (others : List Owned) (m : machine.Line) → LineStands self.now (S.store shelf.now) others m
            → result ≡ room_in (config_of self.now) (slots - used_slots (S.store shelf.now)) service tei m }
    {
        if tei > LAST_TEI {
            return Err(Refusal::BadTei);
        }
        let Some(place) = self.layer.teis.place(tei) else {
            return Err(Refusal::NoLink);
        };
        match self.layer.links.get(link_number(place, service)) {
            Some(link) => Ok(link.room(shelf, slots)),
            // It is there, as its TEI has a place.
            None => Err(Refusal::NoLink),
        }
    }

    /// What was counted of the line since its start.
    pub fn counters(&self) -> &Counters
        ensures { result.now ≡ self.now.counters }
    {
        &self.counters
    }

    /// How many octets the line stores beside those in slots of the shelf: of control frames and messages that wait, and of
    /// assignments that are remembered, and one while a check is due. It keeps nothing of the frames that come and go.
    pub fn held(&self) -> u32
        requires { (store : Store) × (others : List Owned) × (m : machine.Line) × LineStands self.now store others m }
        ensures held { (store : Store) (others : List Owned) (m : machine.Line) → LineStands self.now store others m
            → result ≡ held_in (config_of self.now) m }
        ensures few { result ≤ 1024 + held_most (config_of self.now) }
    {
        self.layer.teis.held() + self.layer.held_by_links()
    }
}

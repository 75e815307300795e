//! The table of the TEIs of a line.

ghost use Rattle.std.specs.Prelude.{◌≡◌, ◌<◌, ◌≤◌, [], ◌∷◌, ◌++◌, Some, None, length, option_map, replicate, set, IfSome};
ghost use Rattle.lapd_tei.specs.{Places, is_on, is_in_use, named, place_of, tei_at, free_place, free_tei, freed, left, teis_on};

mod saved;

use arrayvec::ArrayVec;
use lapd_frame::GROUP;
use model_teis::Change;
use std::marker::Model;

/// The most places that a table has.
pub(crate) const MOST: usize = 8;

/// The lowest TEI that the network assigns; they end before that of the group (Q.921 clause 3.3.4).
pub(crate) const LOWEST: u8 = 64;

/// The TEIs of a line, each at a place, on either side of it: the TEI at each place, `None` if it is free.
#[derive(Drop, Debug)]
pub struct Table {
    places: ArrayVec<Option<u8>, MOST>,
}

impl Model for Table {
    ghost use Rattle.model_teis.specs.Table.{Places};

    ghost Value = { Places };

    ghost view = { λ t. t.places.items };
}

impl Table {
    /// A table whose places are all free, at most eight.
    pub fn empty(places: usize) -> Table
        requires { places ≤ 8 }
        ensures { result ≡ replicate places None }
    {
        let mut all = ArrayVec::from([None; MOST]);
        all.truncate(places);
        Table { places: all }
    }

    /// How many places it has: at most eight.
    pub(crate) fn len(&self) -> usize
        ensures len { result ≡ length self.now }
        ensures few { result ≤ 8 }
    {
        self.places.len()
    }

    /// Whether the TEI is on the line.
    pub fn is_on(&self, tei: u8) -> bool
        ensures { result ≡ is_on tei self.now }
    {
        self.places.as_slice().iter().any(|own| *own == Some(tei))
    }

    /// Whether the TEI is on the line, or any TEI if it is 127, which means all.
    pub fn is_in_use(&self, tei: u8) -> bool
        ensures { result ≡ is_in_use tei self.now }
    {
        self.places
            .as_slice()
            .iter()
            .any(|own| own.is_some_and(|own| tei == GROUP || own == tei))
    }

    /// The place of a TEI.
    pub fn place_of(&self, tei: u8) -> Option<usize>
        ensures place { result ≡ place_of tei self.now }
        ensures within { IfSome result (λ place. place < length self.now) }
    {
        self.places
            .as_slice()
            .iter()
            .position(|own| *own == Some(tei))
    }

    /// The TEI at a place.
    pub fn tei_at(&self, place: usize) -> Option<u8>
        ensures { result ≡ tei_at self.now (Some place) }
    {
        *self.places.as_slice().get(place)?
    }

    /// The lowest place that is free.
    pub fn free_place(&self) -> Option<usize>
        ensures place { result ≡ free_place self.now }
        ensures within { IfSome result (λ place. place < length self.now) }
    {
        self.places.as_slice().iter().position(|own| own.is_none())
    }

    /// The lowest TEI of 64 to 126 that is not on the line.
    pub fn free_tei(&self) -> Option<u8>
        ensures { result ≡ free_tei self.now }
    {
        (LOWEST..GROUP).find(|tei| !self.is_on(*tei))
    }

    /// The TEIs that an Ai names: each that is on the line, by place, or this one, if it is on the line.
    pub fn named(&self, tei: u8) -> ArrayVec<u8, MOST>
        ensures { result.items ≡ named tei self.now }
    {
        if tei == GROUP {
            return self.teis();
        }
        let mut one = ArrayVec::new();
        if self.is_on(tei) {
            one.push(tei);
        }
        one
    }

    /// Puts a TEI at a place.
    pub fn put(&mut self, place: usize, tei: u8)
        requires { place < length self.old }
        ensures { self.new ≡ set self.old place (Some tei) }
    {
        self.places[place] = Some(tei);
    }

    /// Takes a TEI out, and answers its place.
    pub fn take(&mut self, tei: u8) -> Option<usize>
        ensures place { result ≡ place_of tei self.old }
        ensures freed { self.new ≡ freed self.old (place_of tei self.old) }
    {
        let place = self.place_of(tei)?;
        self.places[place] = None;
        Some(place)
    }

    // The TEIs that are on the line, by place.
    #[tactic(auto, using(crate::proofs::Named::teis_more, crate::proofs::Named::teis_room))]
    fn teis(&self) -> ArrayVec<u8, MOST>
        ensures { result.items ≡ teis_on self.now }
    {
        let mut teis = ArrayVec::new();
        for own in self.places.as_slice() {
            add(&mut teis, *own);
        }
        teis
    }
}

// The TEI at one place more, if there is one.
fn add(teis: &mut ArrayVec<u8, MOST>, own: Option<u8>)
    requires { length teis.old.items < 8 }
    ensures { teis.new.items ≡ teis.old.items ++ teis_on (own ∷ []) }
{
    if let Some(tei) = own {
        teis.push(tei);
    }
}

// The change of a TEI that was at this place.
pub(crate) fn left(tei: u8, place: Option<usize>) -> Option<Change>
    ensures { result ≡ option_map (left tei) place }
{
    Some(Change::Left { tei, place: place? })
}

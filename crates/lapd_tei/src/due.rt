//! Which TEIs are checked once the check that runs has ended.

ghost use Rattle.std.specs.Prelude.{◌≡◌, ◌<◌, ◌≤◌, false, length, replicate, IfSome};
ghost use Rattle.std.specs.List.{list_any, position};
ghost use Rattle.lapd_tei.specs.{due_at, is_due};

mod saved;

use crate::table::MOST;
use arrayvec::ArrayVec;
use std::marker::Model;

/// For each place of the table, whether a check of its TEI is due.
#[derive(Drop, Debug)]
pub(crate) struct Due {
    places: ArrayVec<bool, MOST>,
}

impl Model for Due {
    ghost use Rattle.std.specs.Prelude.{Bool, List};

    ghost Value = { List Bool };

    ghost view = { λ d. d.places.items };
}

impl Due {
    /// No check is due, of so many places, at most eight.
    pub fn none(places: usize) -> Due
        requires { places ≤ 8 }
        ensures { result ≡ replicate places false }
    {
        let mut all = ArrayVec::from([false; MOST]);
        all.truncate(places);
        Due { places: all }
    }

    /// Whether any check is due.
    pub fn is_any(&self) -> bool
        ensures { result ≡ list_any is_due self.now }
    {
        self.places.as_slice().iter().any(|due| *due)
    }

    /// The lowest place of those whose check is due.
    pub fn lowest(&self) -> Option<usize>
        ensures place { result ≡ position is_due self.now }
        ensures within { IfSome result (λ place. place < length self.now) }
    {
        self.places.as_slice().iter().position(|due| *due)
    }

    /// Whether the check at a place is due from now on, if there is such a place.
    pub fn put(&mut self, place: Option<usize>, due: bool)
        requires { IfSome place (λ place. place < length self.old) }
        ensures { self.new ≡ due_at place due self.old }
    {
        if let Some(place) = place {
            self.places[place] = due;
        }
    }

    /// No check is due any more.
    pub fn clear(&mut self)
        ensures { self.new ≡ replicate (length self.old) false }
    {
        *self = Due::none(self.places.len());
    }
}

//! The assignments that are remembered.

ghost use Rattle.std.specs.Prelude.{◌≡◌, ◌≤◌, List, [], ◌∷◌, ◌++◌, length, filter};
ghost use Rattle.lapd_frame.specs.Readings.{by_reading};
ghost use Rattle.lapd_tei.specs.{remembered_in, latest, is_of_other};

mod saved;

use arrayvec::ArrayVec;
use lapd_frame::Reading;
use model_teis::network::Remembered;
use std::marker::Model;

/// The latest assignments of a line, the oldest first: at most four.
#[derive(Drop, Debug)]
pub(crate) struct Memory {
    latest: ArrayVec<Remembered, 4>,
}

impl Model for Memory {
    ghost use Rattle.std.specs.Prelude.{List};
    ghost use Rattle.model_teis.specs.declared.network.remembered.Remembered.{Remembered};

    ghost Value = { List Remembered };

    ghost view = { λ m. m.latest.items };
}

impl Memory {
    /// Nothing remembered.
    pub fn new() -> Memory
        ensures { result ≡ [] }
    {
        Memory {
            latest: ArrayVec::new(),
        }
    }

    /// How many assignments are remembered.
    pub fn len(&self) -> usize
        ensures len { result ≡ length self.now }
        ensures few { result ≤ 4 }
    {
        self.latest.as_slice().len()
    }

    /// The TEI that was assigned to a request with this Ri.
    pub fn tei_for(&self, ri: u16) -> Option<u8>
        ensures { result ≡ remembered_in ri self.now }
    {
        let found = self.latest.as_slice().iter().find(|one| one.ri == ri)?;
        Some(found.tei)
    }

    /// Remembers an assignment in the profile, and forgets the oldest if there is no room for one more.
    pub fn remember(&mut self, reading: Reading, ri: u16, tei: u8)
        ensures { self.new ≡ by_reading reading (latest (self.old ++ record { ri = ri; tei = tei } ∷ [])) self.old }
    {
        match reading {
            Reading::Profile => self.add(Remembered { ri, tei }),
            Reading::AnnexB => {}
        }
    }

    // One more, in place of the oldest if there is no room.
    fn add(&mut self, one: Remembered)
        ensures { self.new ≡ latest (self.old ++ one ∷ []) }
    {
        if self.latest.is_full() {
            self.latest.remove(0);
        }
        self.latest.push(one);
    }

    /// Forgets the assignment of a TEI.
    pub fn forget(&mut self, tei: u8)
        ensures { self.new ≡ filter (is_of_other tei) self.old }
    {
        self.latest.retain(|one| one.tei != tei);
    }
}

//! A region of octets that is taken once, uninitialised.
ghost use Rattle.std.specs.Prelude.{◌≡◌, ℕ, ◌+◌, ◌^◌, ◌<◌, ◌≤◌, List, None, length, replicate, IfOk};
ghost use Rattle.lapd_store.specs.Region.{Holds, SameOutside};

use crate::octets::{Base, Deed, Octets, give_back, take};
use crate::run::write_run;
use std::alloc::{AllocError, Global};
use std::fmt;
use std::marker::Model;

/// A block of octets, each of which was written or not; nothing is written in it when it is taken.
///
/// A contract sees it as a list with an entry for each octet: its value if it was written, otherwise `None`. So a read
/// asks that what it lends was written. Its drop gives the block back.
pub(crate) struct Region {
    octets: Octets,
    deed: Deed<Global>,
    base: Base,
    size: usize,
    alloc: Global,
}

impl Model for Region {
    ghost use Rattle.std.specs.Prelude.{ℕ, List, Option};
    ghost use Rattle.std.specs.Coded.{coded_list, coded_option, coded_ℕ};

    ghost Value = { List (Option ℕ) };

    ghost coded = { coded_list (coded_option coded_ℕ) };

    ghost use Rattle.lapd_store.specs.Block.{IsBlock};

    ghost view = { λ r. r.octets.written };

    ghost invariant = { IsBlock };
}

impl Region {
    /// A region of `size` octets, below 2^63, of which none is written.
    ///
    /// # Errors
    ///
    /// `AllocError` if there is no memory for them.
    pub(crate) fn take(alloc: Global, size: usize) -> Result<Region, AllocError>
        requires { size < 2 ^ 63 }
        ensures { IfOk result (λ region. region ≡ replicate size None) }
    {
        let (base, octets, deed) = take(&alloc, size)?;
        Ok(Region {
            octets,
            deed,
            base,
            size,
            alloc,
        })
    }

    /// Writes `octets` from the place `from` on, over whatever was there. They end within the region.
    pub(crate) fn write(&mut self, from: usize, octets: &[u8])
        requires within { from + length octets.now ≤ length self.old }
        ensures written { Holds self.new from octets.now }
        ensures others { SameOutside self.old self.new from (length octets.now) }
    {
        write_run(&mut self.octets, self.base, from, octets);
    }

    /// Lends the `len` octets from the place `from` on, all of which were written.
    pub(crate) fn lend(&self, from: usize, len: usize) -> &[u8]
        requires within { from + len ≤ length self.now }
        requires written { (octets : List ℕ) × (length octets ≡ len) × Holds self.now from octets }
        ensures octets { Holds self.now from result.now }
        ensures len { length result.now ≡ len }
    {
        self.octets.lend(self.base, from, len)
    }
}

/// Shows the size alone: which octets were written is known to contracts only.
impl fmt::Debug for Region {
    fn fmt<W: fmt::Write>(&self, f: &mut fmt::Formatter<W>) -> fmt::Result {
        f.debug_struct("Region")
            .field("size", &self.size)
            .finish_non_exhaustive()
    }
}

impl Drop for Region {
    fn drop(self) {
        let Region {
            octets,
            deed,
            base,
            size,
            alloc,
        } = self;
        give_back(&alloc, base, size, octets, deed);
    }
}

//! A shelf over one region of octets.
ghost use Rattle.std.specs.Prelude.{◌≡◌, ℕ, ◌+◌, ◌*◌, ◌<◌, ◌≤◌, length, IfOk};
ghost use Rattle.lapd_store.specs.Region.{Holds, SameOutside};
ghost use Rattle.lapd_store.specs.RawStore.{link, or_end};

use crate::region::Region;
use crate::{Shelf, Slot, StartFault};
use std::alloc::Global;
use std::marker::Model;

// What stands in the list of lengths for a free slot. A used slot has fewer octets.
const FREE: u16 = 0xFFFF;

// What stands for the next free slot after the last.
const END: u16 = 0xFFFF;

/// A shelf that keeps all messages in one region, each in a slot of exactly `width` octets.
///
/// Its start takes the region uninitialised, `width` octets for each slot, and two octets for each slot's length. A
/// free slot holds the number of the next free one in its own first two octets. The time of a call does not depend on
/// the number of slots.
#[derive(Drop, Debug)]
pub struct RawShelf {
    region: Region,
    lengths: Vec<u16>,
    octets: u64,
    used: u32,
    first: u16,
    width: u16,
}

impl Model for RawShelf {
    ghost use Rattle.lapd_store.specs.Store.{Store, store_code};

    ghost Value = { Store };

    ghost coded = { store_code };

    ghost use Rattle.lapd_store.specs.RawStore.{raw_store, IsSoundRaw};

    ghost view = { raw_store };

    ghost invariant = { IsSoundRaw };
}

impl RawShelf {
    ghost use Rattle.lapd_store.specs.Store.{empty_store};

    /// A shelf of `slots` free slots, at most 8192, for contents of at most `width` octets each, where `width` is 8
    /// to 260.
    ///
    /// # Errors
    ///
    /// `OutOfMemory` if there is no room for all of them.
    pub fn start(alloc: Global, slots: u32, width: u16) -> Result<RawShelf, StartFault>
        requires least { 8 ≤ width }
        requires most { width ≤ 260 }
        requires few { slots ≤ 8192 }
        ensures { IfOk result (λ shelf. shelf ≡ empty_store slots width) }
    {
        let count = slots as usize;
        let lengths = Vec::from_elem(alloc, FREE, count)?;
        let mut region = Region::take(alloc, count * usize::from(width))?;
        link_all(&mut region, count, usize::from(width));
        Ok(RawShelf {
            region,
            lengths,
            octets: 0,
            used: 0,
            first: slot_or_end(0, count),
            width,
        })
    }
}

// Writes the number of the next free slot at a place.
fn write_link(region: &mut Region, at: usize, next: u16)
    requires { at + 2 ≤ length region.old }
    ensures linked { Holds region.new at (link next) }
    ensures others { SameOutside region.old region.new at 2 }
{
    region.write(at, &[(next % 256) as u8, (next / 256) as u8]);
}

// Reads the number that was written there.
fn read_link(region: &Region, at: usize) -> u16
    requires within { at + 2 ≤ length region.now }
    requires linked { (next : ℕ) × Holds region.now at (link next) }
    ensures { (next : ℕ) → Holds region.now at (link next) → result ≡ next }
{
    let octets = region.lend(at, 2);
    u16::from(octets[0]) + 256 * u16::from(octets[1])
}

// The number of a slot, `END` past the last.
fn slot_or_end(slot: usize, slots: usize) -> u16
    requires { slots ≤ 8192 }
    ensures { result ≡ or_end slot slots }
{
    if slot < slots { slot as u16 } else { END }
}

// Makes a free list of all slots, by rising number.
fn link_all(region: &mut Region, slots: usize, width: usize)
    requires covers { length region.old ≡ slots * width }
    requires few { slots ≤ 8192 }
    requires least { 8 ≤ width }
    requires most { width ≤ 260 }
    ensures linked { (slot : ℕ) → slot < slots → Holds region.new (slot * width) (link (or_end (slot + 1) slots)) }
    ensures size { length region.new ≡ length region.old }
{
    for slot in 0..slots {
        let next = slot_or_end(slot + 1, slots);
        write_link(region, slot * width, next);
    }
}

impl Shelf for RawShelf {
    ghost store = { λ s. s };

    fn slots(&self) -> u32 {
        self.lengths.len() as u32
    }

    fn width(&self) -> u16 {
        self.width
    }

    fn used(&self) -> u32 {
        self.used
    }

    fn octets(&self) -> u64 {
        self.octets
    }

    fn put(&mut self, octets: &[u8]) -> Option<Slot> {
        if self.first == END {
            return None;
        }
        let number = usize::from(self.first);
        let at = number * usize::from(self.width);
        self.first = read_link(&self.region, at);
        self.lengths[number] = octets.len() as u16;
        self.octets += octets.len() as u64;
        self.used += 1;
        self.region.write(at, octets);
        Some(Slot { number })
    }

    fn get(&self, slot: &Slot) -> &[u8] {
        let at = slot.number * usize::from(self.width);
        self.region.lend(at, usize::from(self.lengths[slot.number]))
    }

    fn release(&mut self, slot: Slot) {
        let number = slot.number;
        self.octets -= u64::from(self.lengths[number]);
        self.used -= 1;
        self.lengths[number] = FREE;
        write_link(
            &mut self.region,
            number * usize::from(self.width),
            self.first,
        );
        self.first = number as u16;
    }
}

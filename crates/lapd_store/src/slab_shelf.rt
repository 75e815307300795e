//! A shelf over a slab of octet vectors.
ghost use Rattle.std.specs.Prelude.{◌≡◌, ◌+◌, ◌≤◌, Some, None, IfOk, length};
ghost use Rattle.slab.specs.Slab.{get, slab_len, HasRoomFor, Updates};

use crate::{Shelf, Slot, StartFault};
use arrayvec::ArrayVec;
use lapd_frame::MOST_N201;
use slab::Slab;
use std::alloc::Global;
use std::marker::Model;

// The longest information field.
const WIDEST: usize = MOST_N201 as usize;

/// A shelf that keeps each message in an octet vector of its own, and the vectors in a slab.
///
/// Its start takes the memory of all slots in one block, about 280 octets for each slot whatever the width. The time of
/// a call does not depend on the number of slots.
#[derive(Drop, Debug)]
pub struct SlabShelf {
    contents: Slab<ArrayVec<u8, WIDEST>>,
    octets: u64,
    slots: u32,
    width: u16,
}

impl Model for SlabShelf {
    ghost use Rattle.lapd_store.specs.Store.{Store, store_code};

    ghost Value = { Store };

    ghost coded = { store_code };

    ghost use Rattle.lapd_store.specs.SlabStore.{slab_store, IsSoundSlab};

    ghost view = { slab_store };

    ghost invariant = { IsSoundSlab };
}

impl SlabShelf {
    ghost use Rattle.lapd_store.specs.Store.{empty_store};

    /// A shelf of `slots` free slots for contents of at most `width` octets each, where `width` is 8 to 260.
    ///
    /// # Errors
    ///
    /// `OutOfMemory` if there is no room for all of them.
    pub fn start(alloc: Global, slots: u32, width: u16) -> Result<SlabShelf, StartFault>
        requires least { 8 ≤ width }
        requires most { width ≤ 260 }
        ensures { IfOk result (λ shelf. shelf ≡ empty_store slots width) }
    {
        let contents = Slab::with_capacity(alloc, slots as usize)?;
        Ok(SlabShelf {
            contents,
            octets: 0,
            slots,
            width,
        })
    }
}

// Answers the key of a new vector, into which the octets were copied at its place in the slab.
fn insert_copy(contents: &mut Slab<ArrayVec<u8, WIDEST>>, octets: &[u8]) -> usize
    requires room { HasRoomFor contents.old 1 }
    requires fits { length octets.now ≤ 260 }
    ensures was_vacant { get contents.old result ≡ None }
    ensures updates { Updates contents.old contents.new result (Some (record { items = octets.now })) }
    ensures len { slab_len contents.new ≡ slab_len contents.old + 1 }
    ensures capacity { contents.new.capacity ≡ contents.old.capacity }
{
    let key = contents.insert_reserved(ArrayVec::new());
    contents[key].try_extend_from_slice(octets).unwrap();
    key
}

impl Shelf for SlabShelf {
    ghost store = { λ s. s };

    fn slots(&self) -> u32 {
        self.slots
    }

    fn width(&self) -> u16 {
        self.width
    }

    fn used(&self) -> u32 {
        self.contents.len() as u32
    }

    fn octets(&self) -> u64 {
        self.octets
    }

    fn put(&mut self, octets: &[u8]) -> Option<Slot> {
        if self.used() == self.slots {
            return None;
        }
        let number = insert_copy(&mut self.contents, octets);
        self.octets += octets.len() as u64;
        Some(Slot { number })
    }

    fn get(&self, slot: &Slot) -> &[u8] {
        self.contents[slot.number].as_slice()
    }

    fn release(&mut self, slot: Slot) {
        let contents = self.contents.remove(slot.number);
        self.octets -= contents.len() as u64;
    }
}

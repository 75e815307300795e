//! A queue of slots.
ghost use Rattle.std.specs.Prelude.{◌≡◌, ◌<◌, ◌≤◌, ◌↔◌, [], length, IsTrue, IfOk, slice_get};

use crate::{Slot, StartFault};
use circular_buffer::HeapCircularBuffer;
use std::alloc::Global;
use std::marker::Model;

/// A ring of slots, the oldest first, of a capacity that is fixed at its start.
///
/// To drop it frees no slot on the shelf: [`SlotQueue::release_oldest`] does, before.
#[derive(Drop, Debug)]
pub struct SlotQueue {
    ring: HeapCircularBuffer<Slot>,
}

impl Model for SlotQueue {
    ghost use Rattle.lapd_store.specs.SlotRing.{SlotRing};

    ghost Value = { SlotRing };

    ghost view = { λ q. record { slots = q.ring.items; capacity = q.ring.capacity } };

    ghost use Rattle.std.specs.Prelude.{◌≤◌, length};

    ghost invariant = { λ q. length q.ring.items ≤ q.ring.capacity };
}

impl SlotQueue {
    ghost use Rattle.lapd_store.specs.SlotRing.{empty_ring, with_newest, without_oldest};

    /// An empty queue for at most `capacity` slots, with all the room that it will need.
    ///
    /// # Errors
    ///
    /// `OutOfMemory` if there is no room for them.
    pub fn start(alloc: Global, capacity: usize) -> Result<SlotQueue, StartFault>
        ensures { IfOk result (λ queue. queue ≡ empty_ring capacity) }
    {
        let ring = HeapCircularBuffer::with_capacity(alloc, capacity)?;
        Ok(SlotQueue { ring })
    }

    /// How many slots the queue holds.
    pub fn len(&self) -> usize
        ensures count { result ≡ length self.now.slots }
        ensures fits { result ≤ self.now.capacity }
    {
        self.ring.len()
    }

    /// How many slots the queue can hold.
    pub fn capacity(&self) -> usize
        ensures limit { result ≡ self.now.capacity }
        ensures fits { length self.now.slots ≤ result }
    {
        self.ring.capacity()
    }

    /// Whether the queue holds no slot.
    pub fn is_empty(&self) -> bool
        ensures { IsTrue result ↔ (self.now.slots ≡ []) }
    {
        self.ring.is_empty()
    }

    /// Whether there is no room for one more slot.
    pub fn is_full(&self) -> bool
        ensures full { IsTrue result ↔ (length self.now.slots ≡ self.now.capacity) }
        ensures fits { length self.now.slots ≤ self.now.capacity }
    {
        self.ring.is_full()
    }

    /// The slot at `index`, where 0 is the oldest, or `None` past the newest.
    pub fn get(&self, index: usize) -> Option<Slot>
        ensures { result ≡ slice_get self.now.slots index }
    {
        self.ring.get(index).copied()
    }

    /// Takes in `slot` as the newest. There must be room.
    pub fn push(&mut self, slot: Slot)
        requires { length self.old.slots < self.old.capacity }
        ensures { self.new ≡ with_newest self.old slot }
    {
        self.ring.push_back(slot);
    }

    /// Takes out the oldest slot, or answers `None` if there is none.
    pub fn pop(&mut self) -> Option<Slot>
        ensures oldest { result ≡ slice_get self.old.slots 0 }
        ensures rest { self.new ≡ without_oldest self.old }
    {
        self.ring.pop_front()
    }
}

//! Unit data that waits to be sent.

ghost use Rattle.std.specs.Prelude.{◌≡◌, ◌<◌, ◌≤◌, length, IfOk, slice_get};

mod saved;

use circular_buffer::HeapCircularBuffer;
use lapd_frame::Service;
use lapd_store::Slot;
use std::alloc::{AllocError, Global};
use std::marker::Model;

/// Unit data: for which terminals it is, and where its contents lie.
#[derive(Clone, Copy, Debug)]
pub(crate) struct QueuedUnit {
    pub(crate) service: Service,
    pub(crate) tei: u8,
    pub(crate) slot: Slot,
}

/// The unit data of a line, oldest first.
#[derive(Debug, Drop)]
pub(crate) struct Units {
    ring: HeapCircularBuffer<QueuedUnit>,
}

impl Model for Units {
    ghost use Rattle.lapd_line.specs.Units.{UnitRing};

    ghost Value = { UnitRing };

    ghost view = { λ u. record { waiting = u.ring.items; capacity = u.ring.capacity } };

    ghost use Rattle.std.specs.Prelude.{◌≤◌, length};

    ghost invariant = { λ u. length u.ring.items ≤ u.ring.capacity };
}

impl Units {
    ghost use Rattle.lapd_line.specs.Units.{empty_ring, with_newest, without_oldest};

    /// No unit data, and room for so many.
    pub(crate) fn start(alloc: Global, capacity: usize) -> Result<Units, AllocError>
        ensures { IfOk result (λ units. units ≡ empty_ring capacity) }
    {
        let ring = HeapCircularBuffer::with_capacity(alloc, capacity)?;
        Ok(Units { ring })
    }

    /// How many wait.
    pub(crate) fn len(&self) -> usize
        ensures { result ≡ length self.now.waiting }
    {
        self.ring.len()
    }

    /// How many there may be.
    fn capacity(&self) -> usize
        ensures { result ≡ self.now.capacity }
    {
        self.ring.capacity()
    }

    /// The oldest.
    pub(crate) fn oldest(&self) -> Option<QueuedUnit>
        ensures { result ≡ slice_get self.now.waiting 0 }
    {
        self.at(0)
    }

    /// The one at a place, from the oldest on.
    fn at(&self, index: usize) -> Option<QueuedUnit>
        ensures { result ≡ slice_get self.now.waiting index }
    {
        self.ring.get(index).copied()
    }

    /// Takes in the newest. There must be room.
    pub(crate) fn push(&mut self, unit: QueuedUnit)
        requires { length self.old.waiting < self.old.capacity }
        ensures { self.new ≡ with_newest unit self.old }
    {
        self.ring.push_back(unit);
    }

    /// Takes out the oldest, if there is one.
    pub(crate) fn pop(&mut self)
        ensures { self.new ≡ without_oldest self.old }
    {
        self.ring.pop_front();
    }
}

//! Storage for message contents, in room that is taken once.
//!
//! A queue of messages needs a place for the octets of each message until it has been sent and acknowledged. In this
//! crate a [`Shelf`] is that place: a fixed number of slots, each of a fixed width. `put` copies a message into a free
//! slot and answers the slot, `get` lends the octets, and `release` frees the slot. Queues then hold slots, not octets:
//! a [`SlotQueue`] is a ring of them. All queues of a line card share one shelf.
//!
//! Only the starts take memory. No later call does, whatever the order of puts and releases.
//!
//! - [`Shelf`]: what a shelf does, by a trait, so that its users are proved once for every shelf;
//! - [`SlabShelf`]: a shelf over a slab of octet vectors;
//! - [`RawShelf`]: a shelf over one region of octets, for less memory;
//! - [`SlotQueue`]: a ring of slots of fixed capacity;
//! - `region`: one block of memory, taken uninitialised, of whose octets the contracts know which were written;
//! - `specs/Store.antt`: a shelf as a finite map, with which the contracts speak of it;
//! - `specs/Ownership.antt`: how several owners share a shelf, with its laws in `proofs/Ownership.antt`; for an owner
//!   that is a queue of slots in `proofs/Queues.antt`, and for one of many owners in `proofs/Focus.antt`.
//!
//! # Only tested
//!
//! Starts with 0, 1 and 8,192 slots of 8 and of 260 octets; that a region is taken if there is memory, and given back
//! (`tests/memory` counts the blocks).
//!
//! # Open
//!
//! What `Debug` shows of a region.
#![tactic(auto)]

mod fault;
mod octets;
mod raw_shelf;
mod region;
mod releases;
mod run;
mod shelf;
mod slab_shelf;
mod slot;
mod slot_queue;

pub use fault::StartFault;
pub use raw_shelf::RawShelf;
pub use shelf::Shelf;
pub use slab_shelf::SlabShelf;
pub use slot::Slot;
pub use slot_queue::SlotQueue;

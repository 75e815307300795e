//! Messages that a queue lets go.
ghost use Rattle.std.specs.Prelude.{◌≡◌, List, ℕ, drop};
ghost use Rattle.lapd_store.specs.Ownership.{Owned, Keeps};
ghost use Rattle.lapd_store.specs.Store.{SameLimits};

use crate::{Shelf, SlotQueue};

impl SlotQueue {
    ghost use Rattle.lapd_store.specs.SlotRing.{without_oldest_ones};

    /// Takes out the oldest `count` slots and releases them on their shelf, or all slots if there are fewer.
    ///
    /// The shelf has to keep the queue's messages. It keeps those that are left, beside the same messages of others.
    pub fn release_oldest<S: Shelf>(&mut self, count: usize, shelf: &mut S)
        requires { (messages : List (List ℕ)) × (others : List Owned) × Keeps (S.store shelf.old) self.old.slots messages others }
        ensures kept { (messages : List (List ℕ)) (others : List Owned) → Keeps (S.store shelf.old) self.old.slots messages others
            → Keeps (S.store shelf.new) self.new.slots (drop count messages) others }
        ensures slots { self.new ≡ without_oldest_ones count self.old }
        ensures limits { SameLimits (S.store shelf.old) (S.store shelf.new) }
    {
        // Mostly none is to go.
        if count == 0 {
            return;
        }
        for released in 0..count.min(self.len()) {
            self.release_one(shelf);
        }
    }

    fn release_one<S: Shelf>(&mut self, shelf: &mut S)
        requires { (messages : List (List ℕ)) × (others : List Owned) × Keeps (S.store shelf.old) self.old.slots messages others }
        ensures kept { (messages : List (List ℕ)) (others : List Owned) → Keeps (S.store shelf.old) self.old.slots messages others
            → Keeps (S.store shelf.new) self.new.slots (drop 1 messages) others }
        ensures slots { self.new ≡ without_oldest_ones 1 self.old }
        ensures limits { SameLimits (S.store shelf.old) (S.store shelf.new) }
    {
        if let Some(slot) = self.pop() {
            shelf.release(slot);
        }
    }
}

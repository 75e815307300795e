//! What a shelf does.
ghost use Rattle.std.specs.Prelude.{◌≡◌, ◌≤◌, ◌↔◌, length, Some, IsNone, IfSome, IfNone};
ghost use Rattle.lapd_store.specs.Store.{Store, contents_of, used_slots, stored_octets, with_contents, without, IsUsed, IsFree, IsFull, IsWithinLimits, SameLimits};

use crate::Slot;

/// Slots of equal width for the contents of messages.
///
/// A contract sees a shelf as its `store`: a finite map from slots to octet lists, with at most `slots` entries of at
/// most `width` octets each. Both limits stay as they were at the start. The methods of this crate's shelves
/// take no memory (tested).
pub trait Shelf: Drop {
    /// The slots in use with their contents, and the shelf's limits.
    ghost store: { Self → Store };

    /// How many slots there are, free or in use.
    fn slots(&self) -> u32
        ensures { result ≡ (store self.now).slots };

    /// How many octets a slot can hold.
    fn width(&self) -> u16
        ensures { result ≡ (store self.now).width };

    /// How many slots are in use.
    fn used(&self) -> u32
        ensures count { result ≡ used_slots (store self.now) }
        ensures within { IsWithinLimits (store self.now) };

    /// The sum of the lengths of all contents.
    fn octets(&self) -> u64
        ensures { result ≡ stored_octets (store self.now) };

    /// Copies `octets`, which may be empty, into a free slot and answers the slot. They are at most `width` octets.
    ///
    /// `None` comes exactly where every slot is in use. Then nothing changes.
    fn put(&mut self, octets: &[u8]) -> Option<Slot>
        requires { length octets.now ≤ (store self.old).width }

        ensures full { IsNone result ↔ IsFull (store self.old) }
        ensures unchanged { IfNone result (self.new ≡ self.old) }

        ensures free { IfSome result (λ slot. IsFree (store self.old) slot) }
        ensures held { IfSome result (λ slot. contents_of (store self.new) slot ≡ Some octets.now) }
        ensures stored { IfSome result (λ slot. store self.new ≡ with_contents (store self.old) slot octets.now) }

        ensures limits { SameLimits (store self.old) (store self.new) }
        ensures within { IsWithinLimits (store self.new) };

    /// Lends the octets that were put into the slot, which is in use.
    fn get(&self, slot: &Slot) -> &[u8]
        requires { IsUsed (store self.now) slot.now }
        ensures octets { contents_of (store self.now) slot.now ≡ Some result.now }
        ensures fits { length result.now ≤ (store self.now).width };

    /// Frees the slot, which is in use, and lets its contents go. A later `put` may answer it again.
    fn release(&mut self, slot: Slot)
        requires { IsUsed (store self.old) slot }
        ensures released { store self.new ≡ without (store self.old) slot }
        ensures limits { SameLimits (store self.old) (store self.new) }
        ensures within { IsWithinLimits (store self.new) };
}

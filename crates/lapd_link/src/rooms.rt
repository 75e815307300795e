//! How much room a link has.

ghost use Rattle.std.specs.Prelude.{◌≡◌, ◌-◌, List};
ghost use Rattle.lapd_link.specs.{used_slots, Owned, room_of, terms_of};
ghost use Rattle.model_link.specs.Link as machine;

use crate::link::Link;
use lapd_store::Shelf;
use model_link::Room;

impl Link {
    ghost use Rattle.lapd_link.specs.Stands.{LinkStands};

    /// How much room the link has for contents, and V(A). All users of the shelf together may hold `slots` contents.
    /// It says what a request to send more will be refused for. Each acknowledgement of contents lets `queue` and V(A)
    /// rise by one.
    pub fn room<S: Shelf>(&self, shelf: &S, slots: u32) -> Room
        ensures { (others : List Owned) (m : machine.Link) → LinkStands self.now (S.store shelf.now) others m
            → result ≡ room_of (terms_of self.now) (slots - used_slots (S.store shelf.now)) m }
    {
        Room {
            queue: usize::from(self.terms.queue).saturating_sub(self.queue.len()) as u8,
            pool: slots.saturating_sub(shelf.used()),
            va: self.entity.va().value,
        }
    }
}

//! A link is written into an image of its card.

ghost use Rattle.std.specs.Prelude.{ℕ, ◌<◌, ◌≤◌, List, [], length, get_or, flat_map, All};
ghost use Rattle.lapd_image.specs.Numbers.{contents};
ghost use Rattle.lapd_image.specs.Puts.{Puts};
ghost use Rattle.lapd_link.specs.{Keeps, Owned, terms_of};
ghost use Rattle.lapd_link.specs.Image.{IsSaved};
ghost use Rattle.model_bits.specs.StuffingLaws.{AreOctets};
ghost use Rattle.model_link.specs.Image as image;
ghost use Rattle.model_link.specs.Link as machine;
ghost use Rattle.model_link.specs.Timed.{IsTimed};

use crate::link::Link;
use lapd_image::{put_contents, put_octet};
use lapd_store::Shelf;

impl Link {
    ghost use Rattle.lapd_link.specs.Stands.{LinkStands};

    /// Writes it into a room, from a place on, and answers the place after. What does not fit is left out. Its parameters are
    /// not in an image.
    pub fn save<S: Shelf>(&self, shelf: &S, out: &mut [u8], at: usize) -> usize
        requires within { at ≤ length out.old }
        requires stands { (others : List Owned) × (m : machine.Link) × LinkStands self.now (S.store shelf.now) others m }
        ensures puts { (others : List Owned) (m : machine.Link) → LinkStands self.now (S.store shelf.now) others m → Puts (image.link m) at out.old result out.new }
        ensures saved { (others : List Owned) (m : machine.Link) → LinkStands self.now (S.store shelf.now) others m → IsTimed m → IsSaved (terms_of self.now) m }
    {
        let at = self.entity.save(out, at);
        let at = put_octet(out, at, self.queue.len() as u8);
        let at = self.save_queue(shelf, out, at);
        self.entity.save_waiting(out, at)
    }

    // The contents one after the other.
    fn save_queue<S: Shelf>(&self, shelf: &S, out: &mut [u8], at: usize) -> usize
        requires within { at ≤ length out.old }
        requires kept { (messages : List (List ℕ)) × (others : List Owned) × Keeps (S.store shelf.now) self.now.queue.slots messages others }
        ensures puts { (messages : List (List ℕ)) (others : List Owned) → Keeps (S.store shelf.now) self.now.queue.slots messages others
            → Puts (flat_map contents messages) at out.old result out.new }
        ensures octets { (messages : List (List ℕ)) (others : List Owned) → Keeps (S.store shelf.now) self.now.queue.slots messages others → All AreOctets messages }
    {
        let mut end = at;
        for place in 0..self.queue.len() {
            end = self.save_contents(place, shelf, out, end);
        }
        end
    }

    // The contents at a place of the queue.
    fn save_contents<S: Shelf>(&self, place: usize, shelf: &S, out: &mut [u8], at: usize) -> usize
        requires within { at ≤ length out.old }
        requires place { place < length self.now.queue.slots }
        requires kept { (messages : List (List ℕ)) × (others : List Owned) × Keeps (S.store shelf.now) self.now.queue.slots messages others }
        ensures puts { (messages : List (List ℕ)) (others : List Owned) → Keeps (S.store shelf.now) self.now.queue.slots messages others
            → Puts (contents (get_or messages place [])) at out.old result out.new }
        ensures octets { (messages : List (List ℕ)) (others : List Owned) → Keeps (S.store shelf.now) self.now.queue.slots messages others → AreOctets (get_or messages place []) }
    {
        match self.queue.get(place) {
            Some(slot) => put_message(out, at, shelf.get(&slot)),
            None => at,
        }
    }
}

// Contents, of which each number is an octet.
fn put_message(out: &mut [u8], at: usize, message: &[u8]) -> usize
    requires { at ≤ length out.old }
    ensures puts { Puts (contents message.now) at out.old result out.new }
    ensures octets { AreOctets message.now }
{
    put_contents(out, at, message)
}

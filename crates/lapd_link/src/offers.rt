//! The next frame that is sent.

ghost use Rattle.std.specs.Prelude.{◌≡◌, ◌+◌, ◌*◌, ◌≤◌, List, None, is_some, slice_get, IfSome, MatchOption};
ghost use Rattle.lapd_link.specs.{Store, IsUsed, Owned, IsFrame, frame_of, after, given, RisesByEvent, sent, may_send, orders_for, listed, terms_of, given_by, HasMessage};
ghost use Rattle.model_link.specs.Link as machine;
ghost use Rattle.model_link.specs.Events as event;

use crate::link::Link;
use crate::orders::orders;
use lapd_frame::{Order, ShortList};
use lapd_link_steps::BareReport;
use lapd_store::Slot;
use model_link::{ControlFrame, LinkTimer};

/// A frame that a link gives to be sent.
#[derive(Clone, Copy)]
pub struct Offer {
    /// Command or response, and the control field.
    pub frame: ControlFrame,
    /// The slot of the shelf in which the contents of an I-frame lie. They stay there until the link's next event.
    pub contents: Option<Slot>,
    /// What is to be done with T200 and then T203.
    pub orders: ShortList<Order>,
}

impl Link {
    ghost use Rattle.lapd_link.specs.Stands.{LinkStands};

    /// The next frame to be sent, if there is one. It is the control frame that has waited longest. Otherwise, in state 7,
    /// it is an I-frame with the first contents that are unsent, if the terminal is not busy and the window is open.
    /// Otherwise it is the acknowledgement that is owed.
    #[inline(always)]
    pub fn offer(&mut self) -> Option<Offer>
        requires { (store : Store) × (others : List Owned) × (m : machine.Link) × LinkStands self.old store others m }
        ensures stands { (store : Store) (others : List Owned) (m : machine.Link) → LinkStands self.old store others m →
            LinkStands self.new store others (after (terms_of self.old) event.offer m) }
        ensures given { (store : Store) (others : List Owned) (m : machine.Link) → LinkStands self.old store others m →
            given_by store result ≡ given (terms_of self.old) m }
        // It is a frame, and the contents of an I-frame lie in a slot that is in use.
        ensures frame { (store : Store) (others : List Owned) (m : machine.Link) → LinkStands self.old store others m →
            IfSome result (λ offer. IsFrame (frame_of (terms_of self.old) offer.frame)) }
        ensures slot { (store : Store) (others : List Owned) (m : machine.Link) → LinkStands self.old store others m →
            IfSome result (λ offer. IfSome offer.contents (HasMessage store (terms_of self.old).n201)) }
        ensures used { (store : Store) (others : List Owned) (m : machine.Link) → LinkStands self.old store others m →
            IfSome result (λ offer. IfSome offer.contents (λ slot. IsUsed store slot)) }
        ensures frames { (store : Store) (others : List Owned) (m : machine.Link) → LinkStands self.old store others m →
            RisesByEvent (terms_of self.old) event.offer m }
        // A frame that goes was waiting, with at most one other that it makes needless.
        ensures falls { (store : Store) (others : List Owned) (m : machine.Link) → LinkStands self.old store others m →
            may_send (terms_of self.old) m ≤ may_send (terms_of self.old) (after (terms_of self.old) event.offer m) + 2 * sent (terms_of self.old) event.offer m }
        ensures terms { terms_of self.new ≡ terms_of self.old }
    {
        let before = self.entity.running();
        let mut report = BareReport::nothing();
        match self
            .entity
            .offer(&self.terms, &mut report, self.queue.len())
        {
            None => None,
            Some(given) => Some(Offer {
                frame: given.frame,
                contents: self.slot_at(given.place),
                orders: self.orders_with(given.place, before, report.started),
            }),
        }
    }

    /// Whether it has a frame to give.
    #[inline(always)]
    pub fn has_frame(&self) -> bool
        ensures { (store : Store) (others : List Owned) (m : machine.Link) → LinkStands self.now store others m →
            result ≡ is_some (given (terms_of self.now) m) }
    {
        self.entity.has_frame(&self.terms, self.queue.len())
    }

    // The orders that go with a frame. One whose contents are at no place of the queue has nothing to do with timers.
    #[inline(always)]
    fn orders_with(
        &self,
        place: Option<usize>,
        before: Option<LinkTimer>,
        started: Option<LinkTimer>,
    ) -> ShortList<Order>
        requires quiet { place ≡ None → (self.now.entity.running ≡ before) × (started ≡ None) }
        ensures { listed result ≡ orders_for (terms_of self.now) before started self.now.entity.running }
    {
        match place {
            None => ShortList::none(),
            Some(_) => orders(&self.terms, before, started, self.entity.running()),
        }
    }

    // The slot at a place of the queue.
    fn slot_at(&self, place: Option<usize>) -> Option<Slot>
        ensures { MatchOption place (result ≡ None) (λ at. result ≡ slice_get self.now.queue.slots at) }
    {
        self.queue.get(place?)
    }
}

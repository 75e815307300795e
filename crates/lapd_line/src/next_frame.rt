//! The next frame of a line: it is written as octets, or loaded into a port.

ghost use Rattle.std.specs.Prelude.{◌≡◌, ◌+◌, ◌<◌, ◌≤◌, ◌++◌, List, length, take, drop};
ghost use Rattle.lapd_line.specs.{Owned, answer, IsFree, in_octets, room_in, TakesNext, orders_taken};
ghost use Rattle.model_line.specs.Event as line_event;
ghost use Rattle.model_line.specs.Line as machine;

use crate::frame_line::FrameLine;
use crate::outlet::Outlet;
use crate::port::Port;
use lapd_frame::{Order, ShortList};
use lapd_store::Shelf;

/// The next frame to be sent, which lies in front of the octets that a call for it was given.
#[derive(Clone, Copy, PartialEq, Eq, Debug)]
pub struct NextFrame {
    /// How many octets it has, from its address to its information, without its check.
    pub length: usize,
    orders: ShortList<Order>,
}

impl NextFrame {
    ghost use Rattle.lapd_frame.specs.ShortLists.{listed};

    /// What is to be done with timers of the link whose frame was taken, in order: at most two orders
    /// (`answers_are_short` of `laws_line`).
    pub fn orders(&self) -> &[Order]
        ensures { result.now ≡ listed self.now.orders }
    {
        self.orders.as_slice()
    }

    /// The same as a list.
    pub fn order_list(&self) -> ShortList<Order>
        ensures { result ≡ self.now.orders }
    {
        self.orders
    }
}

/// The room of a caller, of which so many octets in front are the frame that was taken.
#[derive(Drop)]
struct RoomOf<'a> {
    octets: &'a mut [u8],
    length: usize,
}

impl Outlet for RoomOf<'_> {
    ghost loading = { λ room. in_octets room.octets.now room.length room.octets.ghost_name };

    fn load(&mut self, head: &[u8], info: &[u8]) {
        put_head(self.octets, head);
        if !info.is_empty() {
            put(self.octets, head.len(), info);
        }
        self.length = head.len() + info.len();
    }
}

/// Writes an address and a control field in front, of three octets or four.
#[inline(always)]
fn put_head(out: &mut [u8], head: &[u8])
    requires low { 3 ≤ length head.now }
    requires high { length head.now ≤ 4 }
    requires room { 4 ≤ length out.old }
    ensures { out.new ≡ head.now ++ drop (length head.now) out.old }
{
    out[0] = head[0];
    out[1] = head[1];
    out[2] = head[2];
    if head.len() > 3 {
        out[3] = head[3];
    }
}

/// Writes octets at a place.
fn put(out: &mut [u8], at: usize, octets: &[u8])
    requires { at + length octets.now ≤ length out.old }
    ensures { out.new ≡ take at out.old ++ octets.now ++ drop (at + length octets.now) out.old }
{
    out[at..at + octets.len()].copy_from_slice(octets);
}

impl FrameLine {
    ghost use Rattle.lapd_line.specs.{IsLoaded, gave_in, written, Leads, config_of};
    ghost use Rattle.lapd_line.specs.Stands.{LineStands};

    /// Writes the next frame to be sent in front of `out`, without its check: a message of TEI management, otherwise unit
    /// data, otherwise a frame of a link, each link in its turn (profile); none if none waits. There is room for the
    /// longest.
    pub fn next_frame<S: Shelf>(&mut self, out: &mut [u8], shelf: &mut S) -> Option<NextFrame>
        requires stands { (others : List Owned) × (m : machine.Line) × LineStands self.old (S.store shelf.old) others m }
        requires room { (config_of self.old).n201 + 4 ≤ length out.old }
        ensures gave { (others : List Owned) (m : machine.Line) → LineStands self.old (S.store shelf.old) others m
            → gave_in out.new result ≡ answer (config_of self.old) line_event.next m }
        ensures fits { written result ≤ length out.new }
        ensures rest { drop (written result) out.new ≡ drop (written result) out.old }
        ensures room { length out.new ≡ length out.old }
        ensures after { Leads line_event.next self.old (S.store shelf.old) self.new (S.store shelf.new) }
    {
        let mut room = RoomOf {
            octets: &mut *out,
            length: 0,
        };
        let orders = self.take(&mut room, shelf)?;
        let length = room.length;
        self.counters.given(self.layer.config.side, &out[..length]);
        Some(NextFrame { length, orders })
    }

    /// Loads the next frame into a port of which fewer than eight bits are left to send, and answers its orders for timers;
    /// none if no frame waits.
    pub fn load_next<S: Shelf>(
        &mut self,
        port: &mut Port,
        shelf: &mut S,
    ) -> Option<ShortList<Order>>
        requires stands { (others : List Owned) × (m : machine.Line) × LineStands self.old (S.store shelf.old) others m }
        requires few { length port.old.framer.left < 8 }
        requires room { port.old.framer.room ≡ (config_of self.old).n201 }
        ensures loaded { (others : List Owned) (m : machine.Line) → LineStands self.old (S.store shelf.old) others m
            → IsLoaded (answer (config_of self.old) line_event.next m) (orders_taken result) port.old port.new }
        ensures after { Leads line_event.next self.old (S.store shelf.old) self.new (S.store shelf.new) }
    {
        let side = self.layer.config.side;
        let message = self.layer.teis.next_type();
        let orders = self.take(&mut port.framer, shelf)?;
        if let Some(head) = port.begun() {
            self.counters.begun(side, &head, message);
        }
        Some(orders)
    }

    /// Takes the next frame, and counts nothing.
    #[inline(always)]
    fn take<O: Outlet, S: Shelf>(&mut self, out: &mut O, shelf: &mut S) -> Option<ShortList<Order>>
        requires stands { (others : List Owned) × (m : machine.Line) × LineStands self.old (S.store shelf.old) others m }
        requires free { IsFree (O.loading out.old) }
        requires room { (config_of self.old).n201 ≤ room_in (O.loading out.old) }
        ensures { TakesNext self.old (S.store shelf.old) (O.loading out.old) self.new (S.store shelf.new) (O.loading out.new) (orders_taken result) }
    {
        self.layer.take(out, shelf)
    }
}

//! The report of an event.

ghost use Rattle.std.specs.Prelude.{◌≡◌, ◌≤◌, Bool, [], false, true, length, take, map, min};
ghost use Rattle.std.specs.Option.{option_copied};
ghost use Rattle.lapd_c.specs.{given_up_tei, listed, told_beside, no_timer, unused, nothing, plain_note, plain_order, plain_timer, ShowsReopened, with_reopened, Shows, ShowsPull, SameButContents, contents_in, contents_or_none, mark_of, orders_of};

use crate::plain::links::service_at;
use crate::plain::notes::{PlainNote, cause_number};
use crate::plain::timers::{PlainOrder, PlainTimer};
use lapd_card::BareReport;
use lapd_frame::{MOST_N201, Note, Order, ShortList, Timer};

/// The most octets of contents that a configuration allows.
const MOST_OCTETS: usize = MOST_N201 as usize;

/// The greatest number of a line that a report has room for; no card has so many lines.
const MOST_LINE: usize = 65535;

/// What a report has in place of a TEI, if nothing is given up.
const NO_TEI: u8 = 255;

/// What an event led to. After as many as there are notes, orders and octets, the arrays may hold anything.
#[repr(C)]
#[derive(Clone, Copy)]
pub struct PlainReport {
    /// 0 to 4.
    pub note_count: u8,
    /// 0 to 4.
    pub order_count: u8,
    /// 1 to 8, or 0 if nothing was dropped.
    pub cause: u8,
    /// How many frames found no room to wait.
    pub lost: u8,
    /// Of a pull: 1 if it began a frame; otherwise 0.
    pub begun: u8,
    /// 1 if contents were delivered; otherwise 0.
    pub delivered: u8,
    /// Octets of contents.
    pub length: u16,
    /// The notes, in order.
    pub notes: [PlainNote; 4],
    /// The orders, in order.
    pub orders: [PlainOrder; 4],
    /// The contents.
    pub contents: [u8; MOST_OCTETS],
    /// Of the next frame: 1 if another frame waits on its line; otherwise 0.
    pub more: u8,
    /// Of what falls due: the timer that did; otherwise 0 in each of its fields.
    pub expired: PlainTimer,
    /// 1 if a link that was refused contents has room again; otherwise 0.
    pub reopened: u8,
    /// If one has, its service: 0 or 16.
    pub reopened_service: u8,
    /// And its TEI, 0 to 126.
    pub reopened_tei: u8,
    /// The line of the event.
    pub line: u16,
    /// How many contents that were granted are given up: the latest of the link of call control,
    pub given_up: u8,
    /// and of that of the second service.
    pub given_up_16: u8,
    /// The TEI of these links; 255 if nothing is given up.
    pub given_up_tei: u8,
    /// For a later version: 0.
    pub reserved: [u8; 15],
}

impl PlainReport {
    /// Shows that nothing was told: of an octet, of an expiry, of a request, or of a pull that began no frame.
    pub fn show_nothing(&mut self)
        ensures told { Shows self.new nothing }
        ensures pulled { ShowsPull self.new false false [] }
    {
        self.note_count = 0;
        self.order_count = 0;
        self.cause = 0;
        self.lost = 0;
        self.begun = 0;
        self.delivered = 0;
        self.length = 0;
        self.more = 0;
        self.given_up = 0;
        self.given_up_16 = 0;
    }

    /// Shows orders alone.
    #[inline(always)]
    pub fn show_orders(&mut self, orders: &ShortList<Order>)
        ensures told { Shows self.new (record nothing { orders = listed orders.now }) }
        ensures pulled { ShowsPull self.new false false (listed orders.now) }
    {
        self.show_nothing();
        self.order_count = write_order_list(&mut self.orders, orders);
    }

    /// Shows the orders, too, of an answer to a pull of which all else is shown.
    #[inline(always)]
    pub fn add_orders(&mut self, orders: &ShortList<Order>)
        ensures { (begun more : Bool) → ShowsPull self.old begun more [] → ShowsPull self.new begun more (listed orders.now) }
    {
        self.order_count = write_order_list(&mut self.orders, orders);
    }

    /// Shows that a frame was given to be sent, and whether another waits on its line, and no orders.
    #[inline(always)]
    pub fn show_begun(&mut self, more: bool)
        ensures { ShowsPull self.new true more [] }
    {
        self.show_nothing();
        self.begun = 1;
        self.more = u8::from(more);
    }

    /// Shows what a pull was answered with: whether it began a frame, and at most four orders.
    #[inline(always)]
    pub fn show_pull(&mut self, begun: bool, orders: &[Order])
        requires { length orders.now ≤ 4 }
        ensures { ShowsPull self.new begun false orders.now }
    {
        self.show_nothing();
        self.begun = u8::from(begun);
        self.order_count = write_orders(&mut self.orders, orders);
    }

    /// Shows what an octet, a frame, an expiry or a request was answered with, and the contents that it delivered. These have
    /// at most 260 octets, as no configuration allows more; of longer ones the first 260 are shown.
    ///
    /// It stands apart, so that what tells nothing, or orders alone, has no part of it in its way.
    #[inline(never)]
    pub fn show(&mut self, told: &BareReport, delivered: Option<&[u8]>)
        ensures { length (contents_or_none (option_copied delivered.entry)) ≤ 260
            → Shows self.new (told_beside (option_copied delivered.entry) told.now) }
    {
        self.show_orders(&told.orders);
        self.deliver(delivered);
        self.note_count = write_notes(&mut self.notes, items(&told.notes));
        self.cause = cause_number(told.cause());
        self.lost = told.lost;
        self.given_up = told.given_up;
        self.given_up_16 = told.given_up_16;
    }

    /// Shows the line, and which link of it has room again, by its place, or that none has that waited for it; and that no timer
    /// fell due. And whose contents are given up, if the call names a TEI that of these, and otherwise that of the first note.
    #[inline(always)]
    pub fn show_reopened(&mut self, line: usize, named: Option<u8>, place: Option<u8>)
        ensures shown { ShowsReopened self.new place }
        ensures expired { self.new.expired ≡ no_timer }
        ensures line { self.new.line ≡ min line 65535 }
        ensures given_up { self.new.given_up_tei ≡ given_up_tei named self.new }
        ensures tail { self.new.reserved ≡ unused 15 }
        ensures rest { self.new ≡ with_reopened self.new self.old }
    {
        self.line = line.min(MOST_LINE) as u16;
        self.expired = PlainTimer::none();
        self.given_up_tei = self.given_up_by(named);
        self.reserved = [0; 15];
        match place {
            None => self.reopened = 0,
            Some(place) => {
                self.reopened = 1;
                self.reopened_service = service_at(place).usual_sapi();
                self.reopened_tei = place / 2;
            }
        }
    }

    /// Shows which timer fell due.
    pub fn show_expired(&mut self, timer: Timer)
        ensures { self.new ≡ record self.old { expired = plain_timer timer } }
    {
        self.expired.show(timer);
    }

    /// The orders that it shows.
    pub fn orders_told(&self) -> &[PlainOrder]
        requires { self.now.order_count ≤ 4 }
        ensures { result.now ≡ orders_of self.now }
    {
        &self.orders[..usize::from(self.order_count)]
    }

    // The TEI whose links gave up what it counts.
    #[inline(always)]
    fn given_up_by(&self, named: Option<u8>) -> u8
        ensures { result ≡ given_up_tei named self.now }
    {
        if self.given_up == 0 && self.given_up_16 == 0 {
            return NO_TEI;
        }
        match named {
            Some(tei) => tei,
            None if self.note_count == 0 => NO_TEI,
            None => self.notes[0].tei,
        }
    }

    // The contents, where nothing is shown as delivered yet.
    #[inline(always)]
    fn deliver(&mut self, delivered: Option<&[u8]>)
        requires mark { self.old.delivered ≡ 0 }
        requires length { self.old.length ≡ 0 }
        ensures rest { SameButContents self.old self.new }
        ensures mark { self.new.delivered ≡ mark_of (option_copied delivered.entry) }
        ensures length { length (contents_or_none (option_copied delivered.entry)) ≤ 260
            → self.new.length ≡ length (contents_or_none (option_copied delivered.entry)) }
        ensures contents { length (contents_or_none (option_copied delivered.entry)) ≤ 260
            → contents_in self.new ≡ option_copied delivered.entry }
    {
        if let Some(contents) = delivered {
            let count = contents.len().min(MOST_OCTETS);
            self.delivered = 1;
            self.length = count as u16;
            self.contents[..count].copy_from_slice(&contents[..count]);
        }
    }
}

// The items of a short list, of which there are at most four.
fn items<T: Copy>(list: &ShortList<T>) -> &[T]
    ensures items { result.now ≡ listed list.now }
    ensures few { length result.now ≤ 4 }
{
    match list {
        ShortList::None => &[],
        ShortList::One(items) => items,
        ShortList::Two(items) => items,
        ShortList::Three(items) => items,
        ShortList::Four(items) => items,
    }
}

// Writes notes to the first places, and answers how many there are.
fn write_notes(places: &mut [PlainNote; 4], notes: &[Note]) -> u8
    requires { length notes.now ≤ 4 }
    ensures count { result ≡ length notes.now }
    ensures notes { take result places.new ≡ map plain_note notes.now }
{
    for i in 0..notes.len() {
        places[i] = PlainNote::of(notes[i]);
    }
    notes.len() as u8
}

// Mostly there is one order, or none, or two, and then it is written in place.
#[inline(always)]
fn write_order_list(places: &mut [PlainOrder; 4], orders: &ShortList<Order>) -> u8
    ensures count { result ≡ length (listed orders.now) }
    ensures orders { take result places.new ≡ map plain_order (listed orders.now) }
{
    if let ShortList::One(orders) = orders {
        return write_orders(places, orders);
    }
    match orders {
        ShortList::None => 0,
        ShortList::One(orders) => write_orders(places, orders),
        ShortList::Two(orders) => write_orders(places, orders),
        ShortList::Three(_) | ShortList::Four(_) => write_several_orders(places, *orders),
    }
}

#[cold]
#[inline(never)]
fn write_several_orders(places: &mut [PlainOrder; 4], orders: ShortList<Order>) -> u8
    ensures count { result ≡ length (listed orders) }
    ensures orders { take result places.new ≡ map plain_order (listed orders) }
{
    write_orders(places, items(&orders))
}

// Writes orders to the first places, and answers how many there are.
#[inline(always)]
fn write_orders(places: &mut [PlainOrder; 4], orders: &[Order]) -> u8
    requires { length orders.now ≤ 4 }
    ensures count { result ≡ length orders.now }
    ensures orders { take result places.new ≡ map plain_order orders.now }
{
    for i in 0..orders.len() {
        places[i].show(orders[i]);
    }
    orders.len() as u8
}

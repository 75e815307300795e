//! The place of any value, and the places of a card and of a clock in C.

ghost use Rattle.std.specs.Borrow.{sem};
ghost use Rattle.std.specs.Coded.{coded_option};
ghost use Rattle.std.specs.Prelude.{◌≡◌, Option, None, Some, IsSome};
ghost use Rattle.lapd_c.specs.Slots.{HeldCard, HeldClock, card_row, clock_row, slot_owns};

use crate::kept::KeptCard;
use lapd_clock::Clock;
use std::alloc::Global;
use std::marker::Model;
use std::mem::replace;
use std::ptr::null_mut;

/// The place of a boxed value, or that there is none. It owns the value.
// In memory it is what the places of C are, so that a reference to one of these can become one to it.
#[repr(C)]
pub(crate) struct BoxSlot<T> {
    at: *mut T,
    ghost held: { Option T } by { coded_option T.code },
}

impl<T> Model for BoxSlot<T> {
    ghost also_owns = { λ slot. slot_owns T.row slot.at slot.held };
}

impl<T> BoxSlot<T> {
    ghost use Rattle.lapd_c.specs.SlotLends.{LendsHeld};

    // No value.
    fn none() -> BoxSlot<T>
        ensures { result.held ≡ None }
    {
        BoxSlot { at: null_mut() }
    }

    // The value that lies there.
    fn into_box(self, alloc: Global) -> Box<T>
        requires { IsSome self.held }
        ensures { self.held ≡ Some result.value }
    {
        let BoxSlot { at } = self;
        unsafe { Box::from_raw(alloc, at) }
    }

    /// The value that lies there, where it lies.
    pub(crate) fn get_mut(&mut self) -> &mut T
        requires { IsSome self.old.held }
        ensures* lends { sem 𝓛 (LendsHeld T.row self.entry result) }
        ensures value { self.old.held ≡ Some result.now }
    {
        unsafe { &mut *self.at }
    }
}

impl<T: Drop> BoxSlot<T> {
    // The place of this value.
    fn of(value: Box<T>) -> BoxSlot<T>
        ensures { result.held ≡ Some value.value }
    {
        BoxSlot {
            at: Box::into_raw(value),
        }
    }

    /// Takes the value out.
    pub(crate) fn take(&mut self, alloc: Global) -> Box<T>
        requires { IsSome self.old.held }
        ensures value { self.old.held ≡ Some result.value }
        ensures empty { self.new.held ≡ None }
    {
        replace(self, BoxSlot::none()).into_box(alloc)
    }

    /// Puts a value in, if none is.
    pub(crate) fn put(&mut self, value: Box<T>)
        requires { self.old.held ≡ None }
        ensures { self.new.held ≡ Some value.value }
    {
        // The old slot is empty, so no value is lost.
        let BoxSlot { at: _ } = replace(self, BoxSlot::of(value));
    }
}

/// The place of a card in C, or that there is none. It owns the card.
#[repr(C)]
pub struct CardSlot {
    at: *mut u8,
    ghost card: { HeldCard } by { coded_option card_row.coded },
}

impl Model for CardSlot {
    ghost also_owns = { λ slot. slot_owns card_row slot.at slot.card };
}

impl CardSlot {
    ghost use Rattle.lapd_c.specs.SlotLends.{LendsCardSlot};

    /// The same place, as a slot of any value.
    pub(crate) fn as_slot(&mut self) -> &mut BoxSlot<KeptCard>
        ensures* lends { sem 𝓛 (LendsCardSlot self.entry result) }
        ensures slot { result.now ≡ record { at = self.old.at; held = self.old.card } }
    {
        // Each of the two is one pointer, and owns the same.
        unsafe { &mut *(self as *mut CardSlot as *mut BoxSlot<KeptCard>) }
    }
}

/// The place of a clock in C, or that there is none. It owns the clock.
#[repr(C)]
pub struct ClockSlot {
    at: *mut u8,
    ghost clock: { HeldClock } by { coded_option clock_row.coded },
}

impl Model for ClockSlot {
    ghost also_owns = { λ slot. slot_owns clock_row slot.at slot.clock };
}

impl ClockSlot {
    ghost use Rattle.lapd_c.specs.SlotLends.{LendsClockSlot};

    /// The same place, as a slot of any value.
    pub(crate) fn as_slot(&mut self) -> &mut BoxSlot<Clock>
        ensures* lends { sem 𝓛 (LendsClockSlot self.entry result) }
        ensures slot { result.now ≡ record { at = self.old.at; held = self.old.clock } }
    {
        // Each of the two is one pointer, and owns the same.
        unsafe { &mut *(self as *mut ClockSlot as *mut BoxSlot<Clock>) }
    }
}

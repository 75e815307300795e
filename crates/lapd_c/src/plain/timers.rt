//! Timers, and what is to be done with them.

ghost use Rattle.std.specs.Prelude.{◌≡◌, ◌<◌, None, Err, IfSome, IfErr, IsOkAnd};
ghost use Rattle.lapd_clock.specs.Given.{lengths_of};
ghost use Rattle.lapd_clock.specs.Timer.{first_out_of_range};
ghost use Rattle.lapd_c.specs.Reserved.{is_unused};
ghost use Rattle.lapd_c.specs.Timers.{lengths_fault, lengths_given, lengths_in, no_timer, plain_timer, plain_order, timer_in, order_in, link_in};

use crate::plain::statuses::{
    BAD_RESERVED, WRONG_ORDER, WRONG_TEI, WRONG_TIME, WRONG_TIMER, service_in,
};
use lapd_clock::Lengths;
use lapd_frame::{LAST_TEI, Order, Service, Timer};

/// A timer of a line, or none. That of a link names its service by its SAPI, and its TEI; T201 and T202 have 0 in both.
#[repr(C)]
#[derive(Clone, Copy)]
pub struct PlainTimer {
    /// 1 is T200, 2 is T203, 3 is T201, 4 is T202, and 0 is none.
    pub timer: u8,
    /// 0 or 16.
    pub service: u8,
    /// 0 to 126.
    pub tei: u8,
}

/// What is to be done with a timer: 1 to start it, 2 to stop it.
#[repr(C)]
#[derive(Clone, Copy)]
pub struct PlainOrder {
    /// 1 or 2.
    pub order: u8,
    /// Which timer.
    pub timer: PlainTimer,
}

/// How long timers run, in milliseconds.
#[repr(C)]
#[derive(Clone, Copy)]
pub struct PlainLengths {
    /// Of each link: 1 to 3,600,000.
    pub t200: u32,
    /// Of each link: 1 to 3,600,000.
    pub t203: u32,
    /// Of each line: 1 to 3,600,000.
    pub t201: u32,
    /// Of each line of a terminal: 1 to 3,600,000, at the other sides, too.
    pub t202: u32,
    /// For a later version: 0.
    pub reserved: [u32; 4],
}

impl PlainLengths {
    /// The same for the card's timers.
    ///
    /// # Errors
    ///
    /// `WRONG_TIME` where one is out of range; otherwise `BAD_RESERVED` where what is for a later version is not 0.
    pub fn read(&self) -> Result<Lengths, u32>
        ensures fault { IfSome (lengths_fault self.now) (λ wrong. result ≡ Err wrong) }
        ensures read { lengths_fault self.now ≡ None → IsOkAnd result (λ lengths. lengths_of lengths ≡ lengths_in self.now) }
        ensures wrong { IfErr result (λ wrong. 10 < wrong) }
    {
        let lengths = lengths_of(self.t200, self.t203, self.t201, self.t202)?;
        if is_unused(&self.reserved) {
            Ok(lengths)
        } else {
            Err(BAD_RESERVED)
        }
    }
}

/// Whether what is for a later version is 0 in each place.
fn is_unused(reserved: &[u32]) -> bool
    ensures { result ≡ is_unused reserved.now }
{
    reserved.iter().all(|place| *place == 0)
}

/// Lengths of timers, in milliseconds.
///
/// # Errors
///
/// `WRONG_TIME` where one is out of range.
pub fn lengths_of(t200: u32, t203: u32, t201: u32, t202: u32) -> Result<Lengths, u32>
    ensures out_of_range { IfSome (first_out_of_range (lengths_given t200 t203 t201 t202)) (λ _. result ≡ Err 21) }
    ensures read { first_out_of_range (lengths_given t200 t203 t201 t202) ≡ None → IsOkAnd result (λ lengths. lengths_of lengths ≡ lengths_given t200 t203 t201 t202) }
    ensures wrong { IfErr result (λ wrong. wrong ≡ 21) }
{
    Lengths::new(t200, t203, t201)
        .and_then(|lengths| lengths.with_t202(t202))
        .map_err(|_| WRONG_TIME)
}

/// A timer that fell due, with its line.
#[repr(C)]
#[derive(Clone, Copy)]
pub struct PlainDue {
    /// Counted from 0.
    pub line: u32,
    /// Which timer of it.
    pub timer: PlainTimer,
    /// For a later version: 0.
    pub reserved: [u8; 9],
}

impl PlainTimer {
    /// No timer.
    #[inline(always)]
    pub fn none() -> PlainTimer
        ensures { result ≡ no_timer }
    {
        PlainTimer {
            timer: 0,
            service: 0,
            tei: 0,
        }
    }

    /// Shows a timer.
    #[inline(always)]
    pub fn show(&mut self, timer: Timer)
        ensures { self.new ≡ plain_timer timer }
    {
        let (service, tei) = match timer {
            Timer::T200(service, tei) => (service.usual_sapi(), tei),
            Timer::T203(service, tei) => (service.usual_sapi(), tei),
            Timer::T201 | Timer::T202 => (0, 0),
        };
        self.timer = match timer {
            Timer::T200(..) => 1,
            Timer::T203(..) => 2,
            Timer::T201 => 3,
            Timer::T202 => 4,
        };
        self.service = service;
        self.tei = tei;
    }

    /// The timer that this is.
    ///
    /// # Errors
    ///
    /// `WRONG_TIMER` if the number is that of no timer; of a link's timer `WRONG_SERVICE`, then `WRONG_TEI`.
    #[inline(always)]
    pub fn timer(&self) -> Result<Timer, u32>
        ensures { result ≡ timer_in self.now }
    {
        match self.timer {
            1 => {
                let (service, tei) = link_in(self.service, self.tei)?;
                Ok(Timer::T200(service, tei))
            }
            2 => {
                let (service, tei) = link_in(self.service, self.tei)?;
                Ok(Timer::T203(service, tei))
            }
            3 => Ok(Timer::T201),
            4 => Ok(Timer::T202),
            _ => Err(WRONG_TIMER),
        }
    }
}

impl PlainOrder {
    /// Shows an order.
    #[inline(always)]
    pub fn show(&mut self, order: Order)
        ensures { self.new ≡ plain_order order }
    {
        let (number, timer) = match order {
            Order::Start(timer) => (1, timer),
            Order::Stop(timer) => (2, timer),
        };
        self.order = number;
        self.timer.show(timer);
    }

    /// The order that this is.
    ///
    /// # Errors
    ///
    /// `WRONG_ORDER` if the number is that of no order; otherwise as of its timer.
    #[inline(always)]
    pub fn order(&self) -> Result<Order, u32>
        ensures { result ≡ order_in self.now }
    {
        match self.order {
            1 => Ok(Order::Start(self.timer.timer()?)),
            2 => Ok(Order::Stop(self.timer.timer()?)),
            _ => Err(WRONG_ORDER),
        }
    }
}

/// The link of a service, by its SAPI, with a TEI.
///
/// # Errors
///
/// `WRONG_SERVICE` if the number is that of no service; otherwise `WRONG_TEI` if the TEI is over 126.
#[inline(always)]
pub fn link_in(service: u8, tei: u8) -> Result<(Service, u8), u32>
    ensures { result ≡ link_in service tei }
{
    let service = service_in(service)?;
    if tei > LAST_TEI {
        return Err(WRONG_TEI);
    }
    Ok((service, tei))
}

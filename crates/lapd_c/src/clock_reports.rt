//! The orders of a report, carried out on a clock.

ghost use Rattle.std.specs.Prelude.{◌≡◌, ◌≤◌, ◌<◌, ◌^◌, IfNone};
ghost use Rattle.lapd_c.specs.Timers.{order_in};
ghost use Rattle.lapd_c.specs.Clocks.{IsClockCall, IsHandle};
ghost use Rattle.lapd_c.specs.Orders.{is_placed, after_order, all_placed, after_orders, wrong_among, orders_status, after_all, report_status, after_report};

use crate::clock::{ClockHandle, LATEST, carry_out_one};
use crate::lend::{or_answer, within};
use crate::plain::{NO_CLOCK, NO_PLACE, OK, PlainOrder, PlainReport, WRONG_ORDER, WRONG_TIME};
use lapd_clock::Clock;

/// Carries out all orders of a report, in order, at a moment.
#[unsafe(no_mangle)]
pub extern "C" fn lapd_clock_apply_report(
    handle: &mut ClockHandle,
    line: u32,
    report: &PlainReport,
    now: u64,
) -> u32
    requires { IsHandle handle.old }
    ensures { IsClockCall (λ c. report_status c line report.now now) (λ c. after_report c line report.now now) handle.old handle.new result }
{
    let clock = or_answer!(handle.clock(), NO_CLOCK);
    within!(line, clock);
    if report.order_count > 4 {
        return WRONG_ORDER;
    }
    carry_out(clock, line, report.orders_told(), now)
}

// Carries out orders, of which there is mostly one or none: then it is read once.
#[inline(always)]
fn carry_out(clock: &mut Clock, line: usize, orders: &[PlainOrder], now: u64) -> u32
    requires line { line < clock.old.lines }
    ensures status { result ≡ orders_status clock.old line orders.now now }
    ensures after { clock.new ≡ after_all clock.old line orders.now now }
    ensures lines { clock.new.lines ≡ clock.old.lines }
{
    match orders {
        [] => wrong_among(orders, now).unwrap_or(OK),
        [order] => carry_out_one(clock, line, order, now),
        _ => carry_out_several(clock, line, orders, now),
    }
}

// The same where there are more: all are tested before the first is carried out.
#[inline(never)]
fn carry_out_several(clock: &mut Clock, line: usize, orders: &[PlainOrder], now: u64) -> u32
    requires line { line < clock.old.lines }
    ensures status { result ≡ orders_status clock.old line orders.now now }
    ensures after { clock.new ≡ after_all clock.old line orders.now now }
    ensures lines { clock.new.lines ≡ clock.old.lines }
{
    if let Some(wrong) = wrong_among(orders, now) {
        return wrong;
    }
    if carry_out_all(clock, line, orders, now) {
        OK
    } else {
        NO_PLACE
    }
}

// What is wrong with orders at a moment, if anything is.
fn wrong_among(orders: &[PlainOrder], now: u64) -> Option<u32>
    ensures wrong { result ≡ wrong_among orders.now now }
    ensures now { IfNone result (now ≤ 2 ^ 63) }
{
    for i in 0..orders.len() {
        if let Err(wrong) = orders[i].order() {
            return Some(wrong);
        }
    }
    (now > LATEST).then_some(WRONG_TIME)
}

fn carry_out_all(clock: &mut Clock, line: usize, orders: &[PlainOrder], now: u64) -> bool
    requires line { line < clock.old.lines }
    requires now { now ≤ 2 ^ 63 }
    ensures placed { result ≡ all_placed clock.old line orders.now now }
    ensures after { clock.new ≡ after_orders clock.old line orders.now now }
    ensures lines { clock.new.lines ≡ clock.old.lines }
{
    let mut all = true;
    for i in 0..orders.len() {
        let placed = is_placed(clock, line, &orders[i], now);
        all = all && placed;
    }
    all
}

// Carries out an order, and answers whether it found its place.
fn is_placed(clock: &mut Clock, line: usize, order: &PlainOrder, now: u64) -> bool
    requires line { line < clock.old.lines }
    requires now { now ≤ 2 ^ 63 }
    ensures placed { result ≡ is_placed clock.old line (order_in order.now) }
    ensures after { clock.new ≡ after_order clock.old line (order_in order.now) now }
    ensures lines { clock.new.lines ≡ clock.old.lines }
{
    match order.order() {
        Ok(order) => clock.apply(line, order, now),
        Err(_) => true,
    }
}

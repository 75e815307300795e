//! A clock on which a timer of each line runs.

ghost use Rattle.std.specs.Prelude.{◌<◌, ◌≤◌, ◌^◌};

use crate::done::Done;
use crate::fault::Fault;
use crate::lines::TEI;
use lapd_clock::Clock;
use lapd_frame::{Order, Service, Timer};
use std::alloc::Global;

/// How many turns a round has.
const TURNS: u64 = 128;

/// The timers of the terminal's link on each line.
const T200: Timer = Timer::T200(Service::Call, TEI);

const T203: Timer = Timer::T203(Service::Call, TEI);

/// What happens to the clock.
#[derive(Clone, Copy)]
pub enum Timed {
    /// It is asked what is due, which is none, and when the next is.
    Idle,
    /// An I-frame goes and is acknowledged, and a poll comes: five orders of each line in turn.
    Orders,
}

/// Does so many rounds of 128 turns on a clock of so many lines, 1 to 64, and counts its calls.
pub fn tick(alloc: Global, timed: Timed, lines: u16, rounds: u32) -> Result<Done, Fault> {
    let lines = usize::from(lines).clamp(1, 64);
    let mut clock = Clock::start(alloc, lines, 8)?;
    let mut done = Done::new();
    for line in 0..clock.lines() {
        if line < clock.lines() {
            clock.apply(line, Order::Start(T203), 0);
        }
    }
    for round in 0..rounds {
        for turn in 0..TURNS {
            let calls = match timed {
                Timed::Idle => ask(&mut clock, turn),
                Timed::Orders => order(&mut clock, u64::from(round) * TURNS + turn),
            };
            done.count(0, calls, 0);
        }
        done.add(clock.next().unwrap_or(0));
    }
    Ok(done)
}

/// Carries out orders for timers of a line.
pub fn carry_out(clock: &mut Clock, line: usize, orders: &[Order], now: u64)
    requires { now ≤ 2 ^ 63 }
{
    for order in orders {
        if line < clock.lines() {
            clock.apply(line, *order, now);
        }
    }
}

/// Asks what is due, and when the next is; two calls.
fn ask(clock: &mut Clock, now: u64) -> u64 {
    let mut calls = 0u64;
    if clock.due(now).is_none() {
        calls = calls.wrapping_add(1);
    }
    if clock.next().is_some() {
        calls = calls.wrapping_add(1);
    }
    calls
}

/// Gives the orders of a turn on each line.
fn order(clock: &mut Clock, now: u64) -> u64
    requires { now ≤ 2 ^ 63 }
{
    let mut calls = 0u64;
    for line in 0..clock.lines() {
        for order in [
            Order::Stop(T203),
            Order::Start(T200),
            Order::Stop(T200),
            Order::Start(T203),
            Order::Start(T203),
        ] {
            if line < clock.lines() && clock.apply(line, order, now) {
                calls = calls.wrapping_add(1);
            }
        }
    }
    calls
}

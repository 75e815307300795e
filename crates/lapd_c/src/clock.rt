//! A clock in C.

ghost use Rattle.std.specs.Borrow.{sem};
ghost use Rattle.std.specs.Option.{option_copied_mut};
ghost use Rattle.std.specs.Prelude.{◌≡◌, ◌≢◌, ◌≤◌, ◌<◌, Some, None, IfSome, IfNone, option_map};
ghost use Rattle.lapd_c.specs.{first_fault, due_at, after_due, next_moment, idle, order_in, IsFreed};
ghost use Rattle.lapd_c.specs.Statuses as status;
ghost use Rattle.lapd_c.specs.Clocks.{clock_of, IsClockCall, IsClockStart, IsHandle, plain_due, order_status, after_order, apply_status, after_apply, lengths_given, lengths_status, after_lengths, timer_status};

use crate::lend::{or_answer, within};
use crate::plain::{
    NO_CLOCK, NO_MEMORY, NO_PLACE, NO_TIMER, OK, PlainConfig, PlainDue, PlainOrder, SECOND_START,
    WRONG_TIME, lengths_of,
};
use crate::slot::ClockSlot;
use lapd_clock::Clock;
use model_line::Config;
use std::alloc::Global;

/// The latest moment that a timer may be ordered at, in milliseconds.
pub(crate) const LATEST: u64 = 1 << 63;

/// A clock, or none, as C holds it.
#[repr(C)]
pub struct ClockHandle {
    started: bool,
    slot: ClockSlot,
}

impl ClockHandle {
    ghost use Rattle.lapd_c.specs.SlotLends.{LendsClockIf};

    /// Whether a clock is there.
    pub(crate) fn is_started(&self) -> bool
        ensures { result ≡ self.now.started }
    {
        self.started
    }

    /// Takes the clock out.
    pub(crate) fn take(&mut self, alloc: Global) -> Option<Box<Clock>>
        requires { IsHandle self.old }
        ensures clock { clock_of self.old ≡ option_map (λ clock. clock.value) result }
        ensures none { IfNone result (self.new ≡ self.old) }
        ensures lines { IfSome result (λ clock. clock.value.lines ≤ 64) }
        ensures empty { clock_of self.new ≡ None }
        ensures handle { IsHandle self.new }
    {
        if !self.started {
            return None;
        }
        self.started = false;
        Some(self.slot.as_slot().take(alloc))
    }

    /// The clock, where it lies.
    pub(crate) fn clock(&mut self) -> Option<&mut Clock>
        requires { IsHandle self.old }
        ensures* lends { sem 𝓛 (LendsClockIf self.entry result) }
        ensures clock { clock_of self.old ≡ option_copied_mut result }
    {
        if self.started {
            Some(self.slot.as_slot().get_mut())
        } else {
            None
        }
    }

    /// Puts a clock in, if none is.
    pub(crate) fn put(&mut self, clock: Box<Clock>)
        requires empty { clock_of self.old ≡ None }
        requires lines { clock.value.lines ≤ 64 }
        ensures clock { clock_of self.new ≡ Some clock.value }
        ensures handle { IsHandle self.new }
    {
        self.started = true;
        self.slot.as_slot().put(clock);
    }
}

/// Starts a clock on which no timer runs, for a card of this configuration.
#[unsafe(no_mangle)]
pub extern "C" fn lapd_clock_start(
    alloc: Global,
    handle: &mut ClockHandle,
    config: &PlainConfig,
) -> u32
    requires { IsHandle handle.old }
    ensures { IsClockStart config.now handle.old handle.new result }
{
    if handle.started {
        return SECOND_START;
    }
    let config = or_answer!(config.read());
    let clock = or_answer!(started(alloc, config), NO_MEMORY);
    handle.put(clock);
    OK
}

// A clock for a card of a configuration that is in range, if there is memory for it.
fn started(alloc: Global, config: Config) -> Option<Box<Clock>>
    requires { first_fault config ≡ None }
    ensures idle { IfSome result (λ clock. clock.value ≡ idle config.lines config.terminals) }
    ensures lines { IfSome result (λ clock. clock.value.lines ≤ 64) }
{
    let clock = Clock::start(
        alloc,
        usize::from(config.lines),
        usize::from(config.terminals),
    )
    .ok()?;
    Box::new(alloc, clock).ok()
}

/// Has timers that are started from now on run so many milliseconds: T200, T203, T201 and T202, each 1 to 3,600,000.
#[unsafe(no_mangle)]
pub extern "C" fn lapd_clock_set_lengths(
    handle: &mut ClockHandle,
    t200: u32,
    t203: u32,
    t201: u32,
    t202: u32,
) -> u32
    requires { IsHandle handle.old }
    ensures { IsClockCall (lengths_status (lengths_given t200 t203 t201 t202)) (after_lengths (lengths_given t200 t203 t201 t202)) handle.old handle.new result }
{
    let clock = or_answer!(handle.clock(), NO_CLOCK);
    let lengths = or_answer!(lengths_of(t200, t203, t201, t202));
    clock.set_lengths(lengths);
    OK
}

/// Ends a clock, and gives back its memory.
#[unsafe(no_mangle)]
pub extern "C" fn lapd_clock_free(alloc: Global, handle: &mut ClockHandle) -> u32
    requires { IsHandle handle.old }
    ensures { IsFreed IsHandle clock_of status.no_clock handle.old handle.new result }
{
    drop(or_answer!(handle.take(alloc), NO_CLOCK));
    OK
}

/// Carries out one order for a timer of a line, at a moment.
#[unsafe(no_mangle)]
pub extern "C" fn lapd_clock_apply(
    handle: &mut ClockHandle,
    line: u32,
    order: &PlainOrder,
    now: u64,
) -> u32
    requires { IsHandle handle.old }
    ensures { IsClockCall (λ c. apply_status c line (order_in order.now) now) (λ c. after_apply c line (order_in order.now) now) handle.old handle.new result }
{
    let clock = or_answer!(handle.clock(), NO_CLOCK);
    within!(line, clock);
    carry_out_one(clock, line, order, now)
}

/// Carries out one order for a timer of a line that the clock has, at a moment.
#[inline(always)]
pub(crate) fn carry_out_one(clock: &mut Clock, line: usize, order: &PlainOrder, now: u64) -> u32
    requires line { line < clock.old.lines }
    ensures status { result ≡ order_status clock.old line (order_in order.now) now }
    ensures after { clock.new ≡ after_order clock.old line (order_in order.now) now }
    ensures lines { clock.new.lines ≡ clock.old.lines }
{
    let order = or_answer!(order.order());
    if now > LATEST {
        return WRONG_TIME;
    }
    if clock.apply(line, order, now) {
        OK
    } else {
        NO_PLACE
    }
}

/// Takes out the timer that falls due first, where its moment is not after `now`.
#[unsafe(no_mangle)]
pub extern "C" fn lapd_clock_due(handle: &mut ClockHandle, now: u64, due: &mut PlainDue) -> u32
    requires { IsHandle handle.old }
    ensures call { IsClockCall (λ c. timer_status (due_at c now)) (λ c. after_due c now) handle.old handle.new result }
    ensures unwritten { result ≢ status.ok → due.new ≡ due.old }
    ensures due { IfSome (clock_of handle.old) (λ c. IfSome (due_at c now) (λ first. due.new ≡ plain_due first)) }
{
    let clock = or_answer!(handle.clock(), NO_CLOCK);
    let (line, timer) = or_answer!(clock.due(now), NO_TIMER);
    due.line = line as u32;
    due.timer.show(timer);
    due.reserved = [0; 9];
    OK
}

/// The moment of the timer that falls due first, due or not.
#[unsafe(no_mangle)]
pub extern "C" fn lapd_clock_next(handle: &mut ClockHandle, moment: &mut u64) -> u32
    requires { IsHandle handle.old }
    ensures call { IsClockCall (λ c. timer_status (next_moment c)) (λ c. c) handle.old handle.new result }
    ensures unwritten { result ≢ status.ok → moment.new ≡ moment.old }
    ensures next { IfSome (clock_of handle.old) (λ c. IfSome (next_moment c) (λ first. moment.new ≡ first)) }
{
    let clock = or_answer!(handle.clock(), NO_CLOCK);
    *moment = or_answer!(clock.next(), NO_TIMER);
    OK
}

//! The clock: which timers of which lines run, and until when.

ghost use Rattle.std.specs.Prelude.{◌≡◌, false, ◌^◌, ◌<◌, ◌≤◌, All, IfOk, IfSome, IfNone};
ghost use Rattle.lapd_clock.specs.Timers.{idle, idle_with, with_lengths, finds_place, with_order, due_at, after_due, next_moment};
ghost use Rattle.lapd_clock.specs.Sound.{IsSound, IsLeastDue};

mod restored;
mod saved;

use crate::fault::StartFault;
use crate::lengths::Lengths;
use crate::moments::Moments;
use crate::timers::NEVER;
use lapd_frame::{Order, Timer};
use std::alloc::Global;
use std::marker::Model;

/// The running timers of all lines, each with the moment at which it falls due.
///
/// How long they run is given at the start, and can be changed: [`Lengths`]. No call but `start` and `start_with` takes
/// memory.
#[derive(Debug, Drop)]
pub struct Clock {
    lines: usize,
    /// How many timers may run on a line.
    places: usize,
    lengths: Lengths,
    moments: Moments,
}

impl Model for Clock {
    ghost use Rattle.lapd_clock.specs.Timers.{Timers};

    ghost Value = { Timers };

    ghost use Rattle.lapd_clock.specs.Kept.{clock_of, IsKept};
    ghost use Rattle.lapd_clock.specs.Given.{lengths_of};

    ghost view = { λ a. clock_of (lengths_of a.lengths) a.lines a.places a.moments };

    ghost invariant = { λ a. IsKept (lengths_of a.lengths) a.lines a.places a.moments };
}

impl Clock {
    ghost use Rattle.lapd_clock.specs.Given.{lengths_of};

    /// A clock on which no timer runs, for 1 to 64 lines of 1 to 8 terminals, with the lengths of the standard.
    ///
    /// # Errors
    ///
    /// `OutOfMemory` if there is no memory for the places.
    pub fn start(alloc: Global, lines: usize, terminals: usize) -> Result<Clock, StartFault>
        requires lines { 1 ≤ lines × lines ≤ 64 }
        requires terminals { 1 ≤ terminals × terminals ≤ 8 }
        ensures idle { IfOk result (λ clock. clock ≡ idle lines terminals) }
        ensures sound { IfOk result IsSound }
    {
        Clock::start_with(alloc, lines, terminals, Lengths::standard())
    }

    /// A clock on which no timer runs, for 1 to 64 lines of 1 to 8 terminals, with these lengths.
    ///
    /// Each line has `4 * terminals + 1` places for running timers: T200 and T203 of two links for
    /// each terminal, and T201 or T202.
    ///
    /// # Errors
    ///
    /// `OutOfMemory` if there is no memory for the places.
    pub fn start_with(
        alloc: Global,
        lines: usize,
        terminals: usize,
        lengths: Lengths,
    ) -> Result<Clock, StartFault>
        requires lines { 1 ≤ lines × lines ≤ 64 }
        requires terminals { 1 ≤ terminals × terminals ≤ 8 }
        ensures idle { IfOk result (λ clock. clock ≡ idle_with (lengths_of lengths) lines terminals) }
        ensures sound { IfOk result IsSound }
    {
        let places = 4 * terminals + 1;
        let Ok(moments) = Moments::of_places(alloc, lines, places) else {
            return Err(StartFault::OutOfMemory);
        };
        Ok(Clock {
            lines,
            places,
            lengths,
            moments,
        })
    }

    /// Has timers that are started from now on run so long. Those that run keep their moments.
    pub fn set_lengths(&mut self, lengths: Lengths)
        ensures after { self.new ≡ with_lengths (lengths_of lengths) self.old }
        ensures sound { IsSound self.new }
    {
        self.lengths = lengths;
    }

    /// The number of lines.
    pub fn lines(&self) -> usize
        ensures { result ≡ self.now.lines }
    {
        self.lines
    }

    /// Carries out an order for a timer of a line at the moment `now`, at most `2^63` ms.
    ///
    /// A timer that is started falls due at `now` plus the time that it runs; where it runs
    /// already, only the new moment counts. To stop a timer that does not run changes nothing.
    ///
    /// The answer is false exactly where a timer is to be started that does not run, and all
    /// places of its line are taken. Then nothing changes.
    pub fn apply(&mut self, line: usize, order: Order, now: u64) -> bool
        requires line { line < self.old.lines }
        requires now { now ≤ 2 ^ 63 }

        ensures placed { result ≡ finds_place self.old line order }
        ensures after { self.new ≡ with_order self.old line order now }
        ensures refused { result ≡ false → self.new ≡ self.old }

        ensures lines { self.new.lines ≡ self.old.lines }
        ensures lengths { self.new.lengths ≡ self.old.lengths }
        ensures sound { IsSound self.new }
    {
        match order {
            Order::Start(timer) => {
                let Some(place) = self.moments.place_for(line, timer) else {
                    return false;
                };
                let moment = now + self.lengths.of(timer);
                self.moments.start(place, timer, moment);
            }
            Order::Stop(timer) => {
                if let Some(place) = self.moments.find(line, timer) {
                    self.moments.stop(place);
                }
            }
        }
        true
    }

    /// Takes out the timer that falls due first, and answers it with its line, if its moment is not
    /// later than `now`, in milliseconds. Otherwise the answer is `None`, and nothing changes.
    ///
    /// The first is the one with the least moment. At one moment it is that of the lowest line, and
    /// there T200 goes before T203, and T203 before T201 and T202; T200 and T203 go by TEI, and at one TEI
    /// that of the call link goes first (profile).
    pub fn due(&mut self, now: u64) -> Option<(usize, Timer)>
        ensures due { result ≡ due_at self.old now }
        ensures after { self.new ≡ after_due self.old now }

        // It is the least of the set, and where there is none, all are later.
        ensures least { IfSome result (λ due. IsLeastDue self.old now due.0 due.1) }
        ensures none { IfNone result (All (λ held. now < held.moment) self.old.running) }

        ensures line { IfSome result (λ due. due.0 < self.old.lines) }
        ensures lines { self.new.lines ≡ self.old.lines }
        ensures lengths { self.new.lengths ≡ self.old.lengths }
        ensures sound { IsSound self.new }
    {
        // Each falls due before `NEVER`.
        self.moments.due(now.min(NEVER - 1))
    }

    /// The moment, in milliseconds, of the timer that falls due first, due or not, and `None` if no
    /// timer runs.
    pub fn next(&self) -> Option<u64>
        ensures next { result ≡ next_moment self.now }
        ensures least { IfSome result (λ moment. All (λ held. moment ≤ held.moment) self.now.running) }
        ensures sound { IsSound self.now }
    {
        self.moments.soonest()
    }
}

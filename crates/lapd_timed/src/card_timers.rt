//! The timers of a card.

ghost use Rattle.std.specs.Prelude.{All, ◌≡◌, ◌↔◌, ◌+◌, ◌*◌, ◌^◌, ◌<◌, ◌≤◌, None, true, false, length, IfOk, IfSome, IfNone, option_map};
ghost use Rattle.lapd_clock.specs.Given.{lengths_of};
ghost use Rattle.model_card.specs.Card as machine;
ghost use Rattle.model_card.specs.Card.{Card};
ghost use Rattle.model_card.specs.Event.{at};
ghost use Rattle.model_line.specs.Event.{expiry};
ghost use Rattle.model_line.specs.Sound.{IsInRange};
ghost use Rattle.model_line.specs.declared.config.Config.{Config};
ghost use Rattle.model_timed.specs.Changes.{unmarked};
ghost use Rattle.model_timed.specs.Clock.{Clock, stopped, due, without_first, next_moment, at_moment, with_lengths};
ghost use Rattle.lapd_timed.specs.Places.{named_by, AreOnLines};

use crate::changes::Changes;
use lapd_clock::{Lengths, Moments};
use lapd_frame::Timer;
use std::alloc::{AllocError, Global};

/// The last moment, in milliseconds.
pub(crate) const LAST_MOMENT: u64 = (1 << 63) - 1;

/// The timers of a card: which run, each in a place of its own, and until when; how long those run that are started; and the
/// moment. Moments and lengths are in milliseconds.
///
/// Each timer that the card may run at a time has a place, which its line, and the place of its TEI on the line, tell. So no
/// place is ever missing.
#[derive(Debug, Drop)]
pub struct CardTimers {
    pub(crate) lines: usize,
    pub(crate) terminals: usize,
    pub(crate) lengths: Lengths,
    pub(crate) moment: u64,
    pub(crate) moments: Moments,
    pub(crate) changes: Changes,
    ghost few_lines: { lines ≤ 64 },
    ghost few_terminals: { terminals ≤ 8 },
    ghost in_time: { moment < 2 ^ 63 },
    ghost size: { length moments ≡ lines * (4 * terminals + 2) },
    ghost of_lines: { AreOnLines lines moments },
    ghost links: { changes.links ≡ 2 * terminals },
    ghost marks: { length changes.states ≡ lines * (2 * terminals) },
    ghost past: { All (λ changed. changed ≤ moment) changes.moments },
}

impl CardTimers {
    ghost use Rattle.lapd_timed.specs.Stands.{ChangesStand, TimersStand, AreLeft};

    /// The timers of a card as it begins, of 1 to 64 lines of 1 to 8 terminals: none runs, and the moment is 0. It takes the
    /// memory for all places; no other call takes any.
    ///
    /// # Errors
    ///
    /// `AllocError` if there is no memory for them.
    pub fn start(
        alloc: Global,
        lines: usize,
        terminals: usize,
        lengths: Lengths,
    ) -> Result<CardTimers, AllocError>
        requires lines { 1 ≤ lines × lines ≤ 64 }
        requires terminals { 1 ≤ terminals × terminals ≤ 8 }
        ensures lines { IfOk result (λ timers. timers.lines ≡ lines) }
        ensures terminals { IfOk result (λ timers. timers.terminals ≡ terminals) }
        ensures stopped { IfOk result (λ timers. (c : Config) → c.lines ≡ lines → c.terminals ≡ terminals → IsInRange c
            → TimersStand timers (machine.fresh c) (stopped (lengths_of lengths))) }
        ensures unmarked { IfOk result (λ timers. (c : Config) → c.lines ≡ lines → c.terminals ≡ terminals
            → ChangesStand timers (machine.fresh c) unmarked) }
    {
        let moments = Moments::idle(alloc, lines, terminals)?;
        let changes = Changes::start(alloc, lines, 2 * terminals)?;
        Ok(CardTimers {
            lines,
            terminals,
            lengths,
            moment: 0,
            moments,
            changes,
        })
    }

    /// Has timers that are started from now on run so long. Those that run keep their moments.
    pub fn set_lengths(&mut self, lengths: Lengths)
        ensures lines { self.new.lines ≡ self.old.lines }
        ensures terminals { self.new.terminals ≡ self.old.terminals }
        ensures changes { self.new.changes ≡ self.old.changes }
        ensures after { (m : Card) (c : Clock) → TimersStand self.old m c → TimersStand self.new m (with_lengths (lengths_of lengths) c) }
    {
        self.lengths = lengths;
    }

    /// The moment, in milliseconds.
    pub fn now(&self) -> u64
        ensures { result ≡ self.now.moment }
    {
        self.moment
    }

    /// The time is now this moment, in milliseconds. Whether it is: one before the last moment, or from `2^63` on, is refused,
    /// and nothing changes.
    pub fn go_to(&mut self, moment: u64) -> bool
        ensures gone { result ≡ true → (m : Card) (c : Clock) → TimersStand self.old m c → (c.now ≤ moment) × TimersStand self.new m (at_moment moment c) }
        ensures refused { result ≡ false → self.new ≡ self.old }
        ensures later { result ≡ true ↔ ((self.old.moment ≤ moment) × (moment < 2 ^ 63)) }
        ensures now { result ≡ true → self.new.moment ≡ moment }
        ensures lines { self.new.lines ≡ self.old.lines }
        ensures terminals { self.new.terminals ≡ self.old.terminals }
        ensures changes { self.new.changes ≡ self.old.changes }
    {
        if moment < self.moment || moment > LAST_MOMENT {
            return false;
        }
        self.moment = moment;
        true
    }

    /// The time is now this moment, if it may be, and none is due then, as is known without a look. Whether it is so; if not,
    /// nothing changes.
    #[inline(always)]
    pub fn pass(&mut self, moment: u64) -> bool
        ensures passed { result ≡ true → (m : Card) (c : Clock) → TimersStand self.old m c
            → (c.now ≤ moment) × (moment < 2 ^ 63) × (due (at_moment moment c) ≡ None) × TimersStand self.new m (at_moment moment c) }
        ensures later { result ≡ true → (self.old.moment ≤ moment) × (moment < 2 ^ 63) }
        ensures now { result ≡ true → self.new.moment ≡ moment }
        ensures stays { result ≡ false → self.new ≡ self.old }
        ensures lines { self.new.lines ≡ self.old.lines }
        ensures terminals { self.new.terminals ≡ self.old.terminals }
        ensures changes { self.new.changes ≡ self.old.changes }
    {
        if !self.moments.is_early(moment) {
            return false;
        }
        self.go_to(moment)
    }

    /// Takes out the timer that is due first, and answers it with its line; none if none is due, and then nothing changes.
    /// Its expiry is then to be handed to the card, and the orders of the answer to be carried out.
    ///
    /// The first is the one with the least moment. At one moment it is that of the lowest line, and there T200 goes before T203,
    /// and T203 before T201 and T202; T200 and T203 go by TEI, and at one TEI that of the call link goes first (profile).
    #[inline(always)]
    pub fn due(&mut self) -> Option<(usize, Timer)>
        ensures due { (m : Card) (c : Clock) → TimersStand self.old m c → result ≡ option_map named_by (due c) }
        ensures line { IfSome result (λ due. due.0 < self.old.lines) }
        ensures lines { self.new.lines ≡ self.old.lines }
        ensures terminals { self.new.terminals ≡ self.old.terminals }
        ensures changes { self.new.changes ≡ self.old.changes }
        ensures left { IfSome result (λ due. (m : Card) (c : Clock) → TimersStand self.old m c
            → AreLeft (at due.0 (expiry due.1)) self.new m (without_first c)) }
        ensures none { IfNone result (self.new ≡ self.old) }
    {
        self.moments.due(self.moment)
    }

    /// The moment, in milliseconds, of the timer that falls due first, due or not, and `None` if no timer runs.
    pub fn next_moment(&mut self) -> Option<u64>
        ensures next { (m : Card) (c : Clock) → TimersStand self.old m c → result ≡ next_moment c }
        ensures unchanged { self.new ≡ self.old }
    {
        self.moments.next()
    }
}

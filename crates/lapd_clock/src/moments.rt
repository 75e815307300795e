//! The moments of all timers of a card.

ghost use Rattle.std.specs.Prelude.{◌≡◌, ◌+◌, ◌*◌, ◌<◌, ◌≤◌, true, false, None, length, IfSome, IfNone, IfOk};
ghost use Rattle.lapd_clock.specs.Timers.{first_due, first_moment};
ghost use Rattle.lapd_clock.specs.Firsts.{never};
ghost use Rattle.lapd_clock.specs.OwnPlaces.{timers_in, with_timer, without_timer, AreNotBefore, IsExchanged, IsFirstUntil, IsRestarted, IsTaken};

mod any_place;
mod lead;
mod look;
mod place;
mod saved;

use crate::timers::NEVER;
use lapd_frame::Timer;
use lead::{Lead, first_places, lead_after, put_sooner};
use look::{first_line, look};
use place::{Place, beside};
use std::alloc::{AllocError, Global};
use std::marker::Model;

/// A place for each timer that a card may run at a time, with the moment at which it falls due.
///
/// A timer is started and stopped in its place. No timer falls due before a moment that is kept beside them, so that mostly
/// nothing has to be looked for. The least moment of each line is kept, too, so that a look goes through the places of one line
/// alone. To keep it, the places of a line are looked through if the timer that was first is started anew or stopped.
#[derive(Debug, Drop)]
pub struct Moments {
    /// No timer falls due before it.
    not_before: u64,
    /// The line that a look has found last. All lines before it have a later least moment than that.
    found: usize,
    /// The least moment of each line.
    bounds: Vec<u64>,
    /// Which place of each line has it.
    leads: Vec<Lead>,
    /// How many places a line has.
    each: usize,
    pub(crate) places: Vec<Place>,
}

impl Model for Moments {
    ghost use Rattle.std.specs.Prelude.{List};
    ghost use Rattle.lapd_clock.specs.Timers.{Expiry};
    ghost use Rattle.lapd_clock.specs.OwnPlaces.{expiries_of};
    ghost use Rattle.lapd_clock.specs.Bounds.{AreKept};

    ghost Value = { List Expiry };

    ghost view = { λ m. expiries_of m.places.items };

    ghost invariant = { λ m. AreKept m.not_before m.found m.each m.bounds.items m.leads.items m.places.items };
}

impl Moments {
    ghost use Rattle.lapd_clock.specs.OwnPlaces.{AreIdle};

    /// The places of so many lines of so many terminals, at which no timer runs: of each line one for T201 and one for T202,
    /// and after these one for T200 and one for T203 of each link.
    ///
    /// # Errors
    ///
    /// `AllocError` if there is no memory for them.
    pub fn idle(alloc: Global, lines: usize, terminals: usize) -> Result<Moments, AllocError>
        requires lines { lines ≤ 64 }
        requires terminals { terminals ≤ 8 }
        ensures { IfOk result (λ moments. AreIdle lines (4 * terminals + 2) moments) }
    {
        Moments::of_places(alloc, lines, 4 * terminals + 2)
    }

    /// So many places of each line, at which no timer runs.
    pub(crate) fn of_places(alloc: Global, lines: usize, each: usize) -> Result<Moments, AllocError>
        requires lines { lines ≤ 64 }
        requires some { 1 ≤ each }
        requires few { each ≤ 34 }
        ensures { IfOk result (AreIdle lines each) }
    {
        let bounds = vec![in alloc; NEVER; lines]?;
        let leads = first_places(alloc, lines, each)?;
        let mut places = Vec::with_capacity(alloc, lines * each)?;
        for line in 0..lines {
            for _ in 0..each {
                places.push(Place {
                    moment: NEVER,
                    line,
                    timer: Timer::T201,
                })?;
            }
        }
        Ok(Moments {
            not_before: NEVER,
            found: 0,
            bounds,
            leads,
            each,
            places,
        })
    }

    /// Starts the timer of a place, anew where one runs there.
    #[inline(always)]
    pub fn start(&mut self, place: usize, timer: Timer, moment: u64)
        requires place { place < length self.old }
        ensures after { self.new ≡ with_timer place timer moment self.old }
    {
        let its = &mut self.places[place];
        its.moment = moment;
        its.timer = timer;
        let line = its.line;
        let begin = line * self.each;
        let (least, lead) = lead_after(
            &self.places,
            begin,
            self.leads[line],
            self.bounds[line],
            place,
            moment,
        );
        self.bounds[line] = least;
        self.leads[line] = lead;
        put_sooner(&mut self.not_before, &mut self.found, line, moment);
    }

    /// Starts a timer of a line anew, and answers whether it did. It does so only if the timer runs, falls due first of its
    /// line, and still does so then, and no earlier. Otherwise nothing changes.
    #[inline(always)]
    pub fn restart(&mut self, line: usize, timer: Timer, moment: u64) -> bool
        ensures done { result ≡ true → IsRestarted line timer moment self.old self.new }
        ensures unchanged { result ≡ false → self.new ≡ self.old }
    {
        if line >= self.leads.len() {
            return false;
        }
        let lead = self.leads[line];
        let leading = &mut self.places[lead.place];
        if leading.moment == NEVER || moment < leading.moment {
            return false;
        }
        if moment > lead.others || !leading.is(timer) {
            return false;
        }
        leading.moment = moment;
        self.bounds[line] = moment;
        true
    }

    /// Stops a timer of a line, and starts another in the place beside its own: the next place, or the one before. It does so
    /// only if the first timer runs and falls due first of its line, and no third timer of the line falls due before the second
    /// then. Otherwise nothing changes.
    #[inline(always)]
    pub fn exchange(
        &mut self,
        line: usize,
        stopped: Timer,
        started: Timer,
        is_next: bool,
        due_at: u64,
    ) -> bool
        ensures done { result ≡ true → IsExchanged line stopped started is_next due_at self.old self.new }
        ensures unchanged { result ≡ false → self.new ≡ self.old }
    {
        if line >= self.leads.len() {
            return false;
        }
        let before = self.leads[line];
        if due_at > before.others {
            return false;
        }
        let leading = &self.places[before.place];
        if leading.moment == NEVER || !leading.is(stopped) {
            return false;
        }
        let Some(beside) = beside(&self.places, before.place, is_next) else {
            return false;
        };
        if self.places[beside].line != line {
            return false;
        }
        let starting = &mut self.places[beside];
        starting.moment = due_at;
        starting.timer = started;
        self.places[before.place].moment = NEVER;
        self.bounds[line] = due_at;
        self.leads[line].pass_to(beside, line * self.each, is_next);
        put_sooner(&mut self.not_before, &mut self.found, line, due_at);
        true
    }

    /// Stops the timer of a place, where one runs there.
    #[inline(always)]
    pub fn stop(&mut self, place: usize)
        requires place { place < length self.old }
        ensures after { self.new ≡ without_timer place self.old }
    {
        let its = self.places[place];
        if its.moment != NEVER {
            self.start(place, its.timer, NEVER);
        }
    }

    /// Whether no timer has fallen due until now, as is known without a look. Otherwise [`Moments::due`] tells.
    #[inline(always)]
    pub fn is_early(&self, now: u64) -> bool
        ensures { result ≡ true → first_due (timers_in self.now) now ≡ None }
    {
        now < self.not_before
    }

    /// Takes out the timer that falls due first, and answers it with its line, if its moment is not later than `now`.
    #[inline(always)]
    pub fn due(&mut self, now: u64) -> Option<(usize, Timer)>
        requires now { now < never }
        ensures due { result ≡ first_due (timers_in self.old) now }
        ensures taken { IfSome result (λ _. IsTaken now self.old self.new) }
        ensures unchanged { IfNone result (self.new ≡ self.old) }
    {
        if now < self.not_before {
            return None;
        }
        self.look(now)
    }

    /// The same where one may be due.
    #[cold]
    fn look(&mut self, now: u64) -> Option<(usize, Timer)>
        requires now { now < never }
        ensures due { result ≡ first_due (timers_in self.old) now }
        ensures taken { IfSome result (λ _. IsTaken now self.old self.new) }
        ensures unchanged { IfNone result (self.new ≡ self.old) }
    {
        let place = self.first(now)?;
        let first = self.places[place];
        self.start(place, first.timer, NEVER);
        Some((first.line, first.timer))
    }

    /// The moment of the timer that falls due first, due or not, and `None` if no timer runs.
    pub fn next(&mut self) -> Option<u64>
        ensures next { result ≡ first_moment (timers_in self.old) }
        ensures unchanged { self.new ≡ self.old }
    {
        let place = self.first(NEVER - 1)?;
        Some(self.places[place].moment)
    }

    /// The same, of which nothing is kept: unless the line that was found last is still the first, the least moments of all lines
    /// are looked through.
    pub(crate) fn soonest(&self) -> Option<u64>
        ensures { result ≡ first_moment (timers_in self.now) }
    {
        if self.bounds.len() == 0 {
            return None;
        }
        let line = first_line(&self.bounds, self.not_before, self.found);
        let moment = self.bounds[line];
        if moment == NEVER {
            return None;
        }
        Some(moment)
    }

    /// Which place falls due first, if one does so until `end`. No timer falls due before what is kept then.
    fn first(&mut self, end: u64) -> Option<usize>
        requires end { end < never }
        ensures unchanged { self.new ≡ self.old }
        ensures none { IfNone result (AreNotBefore (end + 1) self.old) }
        ensures first { IfSome result (λ place. IsFirstUntil end place self.old) }
    {
        if self.bounds.is_empty() {
            return None;
        }
        let line = first_line(&self.bounds, self.not_before, self.found);
        let (moment, place) = look(
            &self.bounds,
            &self.leads,
            &self.places,
            self.each,
            line,
            end,
        );
        self.not_before = moment;
        self.found = line;
        place
    }
}

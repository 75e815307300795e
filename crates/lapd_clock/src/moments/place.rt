//! The place of a timer.

ghost use Rattle.std.specs.Prelude.{◌≡◌, ◌≤◌, ◌<◌, true, false, length, All, HoldsAt, IfSome, IfNone};
ghost use Rattle.std.specs.List.{IsFirstBest};
ghost use Rattle.lapd_clock.specs.Timer.{is_same};
ghost use Rattle.lapd_clock.specs.OwnPlaces.{place_before, place_runs, IsBeside};

use crate::timers::{NEVER, goes_before};
use lapd_frame::Timer;

/// A place of a timer of a line, and the moment at which it falls due, if it runs.
#[derive(Clone, Copy, Debug)]
pub(crate) struct Place {
    /// In milliseconds; [`NEVER`] if it does not run.
    pub moment: u64,
    /// Of which line it is.
    pub line: usize,
    /// Which timer it is.
    pub timer: Timer,
}

impl Place {
    /// Whether this timer falls due before another.
    fn is_before(&self, other: &Place) -> bool
        ensures { result ≡ place_before self.now other.now }
    {
        if self.moment != other.moment {
            return self.moment < other.moment;
        }
        if self.line != other.line {
            return self.line < other.line;
        }
        goes_before(self.timer, other.timer)
    }

    /// Whether this timer of this line runs here.
    fn runs(&self, line: usize, timer: Timer) -> bool
        ensures { result ≡ place_runs line timer self.now }
    {
        self.moment < NEVER && self.line == line && self.is(timer)
    }

    /// Whether it is the place of this timer.
    #[inline(always)]
    pub fn is(&self, timer: Timer) -> bool
        ensures { result ≡ is_same self.now.timer timer }
    {
        match timer {
            Timer::T200(service, tei) => {
                matches!(self.timer, Timer::T200(its, at) if at == tei && its == service)
            }
            Timer::T203(service, tei) => {
                matches!(self.timer, Timer::T203(its, at) if at == tei && its == service)
            }
            Timer::T201 => matches!(self.timer, Timer::T201),
            Timer::T202 => matches!(self.timer, Timer::T202),
        }
    }
}

/// The place after one, or before it, if there is such a place.
#[inline(always)]
pub(crate) fn beside(places: &[Place], place: usize, is_next: bool) -> Option<usize>
    requires { place < length places.now }
    ensures beside { IfSome result (IsBeside is_next place) }
    ensures there { IfSome result (λ other. other < length places.now) }
{
    if is_next {
        return if place + 1 < places.len() {
            Some(place + 1)
        } else {
            None
        };
    }
    if place == 0 {
        return None;
    }
    Some(place - 1)
}

/// Which of the places falls due first.
pub(crate) fn first_place(places: &[Place]) -> usize
    requires { 1 ≤ length places.now }
    ensures { IsFirstBest place_before places.now (length places.now) result }
{
    let mut first = 0;
    for place in 1..places.len() {
        if places[place].is_before(&places[first]) {
            first = place;
        }
    }
    first
}

/// The place in which a timer of a line runs.
pub(crate) fn running_place(places: &[Place], line: usize, timer: Timer) -> Option<usize>
    ensures within { IfSome result (λ place. place < length places.now) }
    ensures there { IfSome result (λ place. HoldsAt (λ p. place_runs line timer p ≡ true) places.now place) }
    ensures none { IfNone result (All (λ p. place_runs line timer p ≡ false) places.now) }
{
    for (place, its) in places.iter().enumerate() {
        if its.runs(line, timer) {
            return Some(place);
        }
    }
    None
}

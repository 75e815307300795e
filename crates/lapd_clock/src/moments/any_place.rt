//! The places of a line, for a caller who does not know at which of them a timer runs.

ghost use Rattle.std.specs.Prelude.{◌≡◌, ◌<◌, length, All, HoldsAt, IfSome, IfNone};
ghost use Rattle.lapd_clock.specs.Firsts.{never};
ghost use Rattle.lapd_clock.specs.OwnPlaces.{at, is_nowhere, is_full, IsHeldAt, IsPlaceFor, RestsAt, RunsAt};

use super::Moments;
use super::place::{Place, running_place};
use crate::held::Held;
use crate::timers::NEVER;
use lapd_frame::Timer;

impl Moments {
    /// The place at which a timer of a line runs, if it runs at any: it looks through the places of the line that have been used.
    pub fn find(&self, line: usize, timer: Timer) -> Option<usize>
        ensures found { IfSome result (λ place. RunsAt place line timer self.now) }
        ensures none { IfNone result (is_nowhere line timer self.now) }
    {
        if line >= self.leads.len() {
            return None;
        }
        let begin = line * self.each;
        let end = begin + self.leads[line].used;
        let place = running_place(&self.places[begin..end], line, timer)?;
        Some(begin + place)
    }

    /// The first place of a line at which no timer runs, if there is one.
    pub(crate) fn free(&self, line: usize) -> Option<usize>
        ensures rests { IfSome result (λ place. RestsAt place line self.now) }
        ensures none { IfNone result (is_full line self.now) }
    {
        if line >= self.leads.len() {
            return None;
        }
        let begin = line * self.each;
        let place = resting_place(&self.places[begin..begin + self.each])?;
        Some(begin + place)
    }

    /// The place for a timer of a line: where it runs, or a free one if it runs nowhere.
    pub(crate) fn place_for(&self, line: usize, timer: Timer) -> Option<usize>
        ensures place { IfSome result (λ place. IsPlaceFor place line timer self.now) }
        ensures nowhere { IfNone result (is_nowhere line timer self.now) }
        ensures full { IfNone result (is_full line self.now) }
    {
        match self.find(line, timer) {
            Some(place) => Some(place),
            None => self.free(line),
        }
    }

    /// What runs at a place.
    pub(crate) fn held(&self, place: usize) -> Option<Held>
        requires place { place < length self.now }
        ensures held { IfSome result (IsHeldAt place self.now) }
        ensures none { IfNone result ((at place self.now).moment ≡ never) }
    {
        let its = self.places[place];
        if its.moment == NEVER {
            return None;
        }
        Some(Held {
            moment: its.moment,
            timer: its.timer,
        })
    }
}

/// The first place at which no timer runs.
fn resting_place(places: &[Place]) -> Option<usize>
    ensures within { IfSome result (λ place. place < length places.now) }
    ensures rests { IfSome result (HoldsAt (λ p. p.moment ≡ never) places.now) }
    ensures none { IfNone result (All (λ p. p.moment < never) places.now) }
{
    for (place, its) in places.iter().enumerate() {
        if its.moment == NEVER {
            return Some(place);
        }
    }
    None
}

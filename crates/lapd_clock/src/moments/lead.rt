//! Which place of a line falls due first, when one of them changes.

ghost use Rattle.std.specs.Prelude.{◌≡◌, ◌+◌, ◌*◌, ◌^◌, ◌<◌, ◌≤◌, false, ℕ, List, length, set, IfOk};
ghost use Rattle.lapd_clock.specs.Bounds.{IsEarliest, IsLead, IsSooner};
ghost use Rattle.lapd_clock.specs.OwnPlaces.{AreFirstPlaces};

use super::place::Place;
use crate::timers::NEVER;
use std::alloc::{AllocError, Global};

/// The place of a line that falls due first, and what is known of the others.
#[derive(Clone, Copy, Debug)]
pub(crate) struct Lead {
    /// No place of the line has a lesser moment than this one.
    pub place: usize,
    /// No other place has a lesser moment than this.
    pub others: u64,
    /// How many places of the line have been used, from its first one on: no timer has run at those after them.
    pub used: usize,
}

impl Lead {
    /// Another place leads, of a line whose places begin here: one that counts as used from now on (`is_new`), or one that has
    /// been used.
    #[inline(always)]
    pub fn pass_to(&mut self, place: usize, begin: usize, is_new: bool)
        requires within { begin ≤ place }
        requires few { place < 2 ^ 32 }
        requires used { is_new ≡ false → place + 1 ≤ begin + self.old.used }
        ensures place { self.new.place ≡ place }
        ensures others { self.new.others ≡ self.old.others }
        ensures used { self.old.used ≤ self.new.used }
        ensures counts { place + 1 ≤ begin + self.new.used }
        ensures few { (count : ℕ) → self.old.used ≤ count → place < begin + count → self.new.used ≤ count }
    {
        self.place = place;
        if is_new {
            self.used = self.used.max(place + 1 - begin);
        }
    }
}

/// A timer of a line falls due at a moment now. If that is not later than the moment before which none fell due, it is that
/// moment from now on, and the line is the one that a look found last.
#[inline(always)]
pub(crate) fn put_sooner(not_before: &mut u64, found: &mut usize, line: usize, moment: u64)
    ensures { IsSooner not_before.old found.old line moment not_before.new found.new }
{
    if moment <= *not_before {
        // If others may fall due then, it is as if the first line had been found.
        *found = if moment < *not_before { line } else { 0 };
        *not_before = moment;
    }
}

/// Of each line its first place leads, since none has been used.
pub(crate) fn first_places(
    alloc: Global,
    lines: usize,
    each: usize,
) -> Result<Vec<Lead>, AllocError>
    requires lines { lines ≤ 64 }
    requires each { each ≤ 34 }
    ensures count { IfOk result (λ leads. length leads.items ≡ lines) }
    ensures first { IfOk result (λ leads. AreFirstPlaces each leads.items) }
{
    let mut leads = Vec::with_capacity(alloc, lines)?;
    for line in 0..lines {
        leads.push(Lead {
            place: line * each,
            others: NEVER,
            used: 0,
        })?;
    }
    Ok(leads)
}

/// Which place leads, of a line whose places begin here, and its moment, now that a place of the line has this moment. `lead` led
/// before, and its moment was `bound`.
///
/// The places are looked through only if the place that led has a moment after what is known of the others.
#[inline(always)]
pub(crate) fn lead_after(
    places: &[Place],
    begin: usize,
    lead: Lead,
    bound: u64,
    place: usize,
    moment: u64,
) -> (u64, Lead)
    requires within { begin ≤ place × place < length places.now }
    requires used { begin + lead.used ≤ length places.now }
    requires there { lead.place < length places.now }
    ensures { (count : ℕ) (before : List Place) (p : Place) → IsLead begin count bound lead before → place < begin + count → begin + count ≤ length before
        → p.moment ≡ moment → places.now ≡ set before place p → IsLead begin count result.0 result.1 places.now }
{
    let used = lead.used.max(place + 1 - begin);
    if place != lead.place {
        if moment < bound {
            return (
                moment,
                Lead {
                    place,
                    others: bound,
                    used,
                },
            );
        }
        return (
            bound,
            Lead {
                place: lead.place,
                others: lead.others.min(moment),
                used,
            },
        );
    }
    if moment <= lead.others {
        return (
            moment,
            Lead {
                place,
                others: lead.others,
                used,
            },
        );
    }
    let (first, others) = earliest(&places[begin..begin + used]);
    (
        places[begin + first].moment,
        Lead {
            place: begin + first,
            others,
            used,
        },
    )
}

/// Which of the places has the least moment, and a moment before which no other falls due.
fn earliest(places: &[Place]) -> (usize, u64)
    requires { 1 ≤ length places.now }
    ensures { IsEarliest (length places.now) result.0 result.1 places.now }
{
    let mut first = 0;
    let mut least = places[0].moment;
    let mut others = NEVER;
    for place in 1..places.len() {
        let moment = places[place].moment;
        if moment < others {
            take(place, moment, &mut first, &mut least, &mut others);
        }
    }
    (first, others)
}

/// One more place has an earlier moment than the others: it is the earliest, or the earliest of the others.
// It stands apart, since mostly none has: so that to go on to the next is a jump, and no moves.
#[cold]
#[inline(never)]
fn take(place: usize, moment: u64, first: &mut usize, least: &mut u64, others: &mut u64)
    ensures earliest { moment < least.old → (first.new ≡ place) × (least.new ≡ moment) × (others.new ≡ least.old) }
    ensures other { least.old ≤ moment → (first.new ≡ first.old) × (least.new ≡ least.old) × (others.new ≡ moment) }
{
    if moment < *least {
        *others = *least;
        *least = moment;
        *first = place;
    } else {
        *others = moment;
    }
}

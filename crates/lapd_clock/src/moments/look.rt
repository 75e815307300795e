//! A look for the timer that falls due first.

ghost use Rattle.std.specs.Prelude.{◌≡◌, ◌+◌, ◌*◌, ◌<◌, ◌≤◌, nat_lt, length, slice_index, IfSome, IfNone};
ghost use Rattle.std.specs.List.{IsFirstBest};
ghost use Rattle.lapd_clock.specs.Firsts.{never};
ghost use Rattle.lapd_clock.specs.Bounds.{AreBounded, AreNoEarlier, IsFoundAt, IsFirstOfLine};
ghost use Rattle.lapd_clock.specs.OwnPlaces.{expiries_of, AreNotBefore};

use super::lead::Lead;
use super::place::{Place, first_place};

/// Looks for the place that falls due first, if it does so until `end`: it is one of the line with the least bound. It answers
/// that bound, before which no timer falls due, and the place that falls due then. It is the place that leads there, unless
/// another may fall due at the same moment: then all places of the line are looked through.
pub(crate) fn look(
    bounds: &[u64],
    leads: &[Lead],
    places: &[Place],
    each: usize,
    line: usize,
    end: u64,
) -> (u64, Option<usize>)
    requires end { end < never }
    requires least { IsFirstBest nat_lt bounds.now (length bounds.now) line }
    requires bounded { AreBounded each bounds.now leads.now places.now }
    ensures bound { result.0 ≡ slice_index bounds.now line }
    ensures moment { AreNotBefore result.0 (expiries_of places.now) }
    ensures none { IfNone result.1 (end < result.0) }
    ensures first { IfSome result.1 (λ place. IsFoundAt place result.0 end places.now) }
{
    let bound = bounds[line];
    if end < bound {
        return (bound, None);
    }
    let lead = leads[line];
    if bound < lead.others {
        return (bound, Some(lead.place));
    }
    (bound, Some(first_of_line(places, each, line)))
}

/// The line with the least bound, the lowest of these. It is the one that was found last, if its bound is still the moment
/// before which no timer falls due.
#[inline(always)]
pub(crate) fn first_line(bounds: &[u64], not_before: u64, found: usize) -> usize
    requires some { 1 ≤ length bounds.now }
    requires kept { AreNoEarlier not_before found bounds.now }
    ensures { IsFirstBest nat_lt bounds.now (length bounds.now) result }
{
    if found < bounds.len() && bounds[found] == not_before {
        return found;
    }
    least(bounds)
}

/// The same by a look at all lines.
fn least(bounds: &[u64]) -> usize
    requires { 1 ≤ length bounds.now }
    ensures { IsFirstBest nat_lt bounds.now (length bounds.now) result }
{
    let mut least = 0;
    let mut least_bound = bounds[0];
    for line in 1..bounds.len() {
        let bound = bounds[line];
        if bound < least_bound {
            least_bound = bound;
            least = line;
        }
    }
    least
}

/// Which of the places of a line falls due first.
fn first_of_line(places: &[Place], each: usize, line: usize) -> usize
    requires each { 1 ≤ each × each ≤ 34 }
    requires line { line < 64 }
    requires within { line * each + each ≤ length places.now }
    ensures { IsFirstOfLine result each line places.now }
{
    let begin = line * each;
    begin + first_place(&places[begin..begin + each])
}

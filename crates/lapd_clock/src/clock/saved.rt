//! A clock in an image.

ghost use Rattle.std.specs.Prelude.{◌≡◌, ◌+◌, ◌*◌, ◌<◌, ◌≤◌, List, filter, flat_map, length};
ghost use Rattle.lapd_clock.specs.Given.{lengths_of};
ghost use Rattle.lapd_clock.specs.Image.{image, lengths, most_octets, timer, AreItsTimers};
ghost use Rattle.lapd_clock.specs.Kept.{held_by_lines, held_on, places_from, timer_at};
ghost use Rattle.lapd_clock.specs.OwnPlaces.{at as place_at, is_running};
ghost use Rattle.lapd_clock.specs.Timer.{kind_rank, rank_of_service, service_rank, tei_rank};
ghost use Rattle.lapd_clock.specs.declared.held.Held.{Held as Running};
ghost use Rattle.lapd_image.specs.Numbers.{list_of};
ghost use Rattle.lapd_image.specs.Puts.{Puts};

use super::Clock;
use crate::held::Held;
use crate::lengths::Lengths;
use crate::moments::Moments;
use lapd_frame::{Service, Timer};
use lapd_image::{put_number, put_octet, put_octets};

/// "LAPD", the version, and the kind: a clock.
pub(super) const HEAD: [u8; 6] = [0x4C, 0x41, 0x50, 0x44, 1, 4];

impl Clock {
    /// How many octets its image takes at most.
    pub fn image_octets(&self) -> usize
        ensures { result ≡ most_octets self.now }
    {
        24 + self.lines * (1 + 11 * self.places)
    }

    /// Writes its image in front of a room, and answers how many octets it has. What does not fit is left out.
    pub fn save(&self, out: &mut [u8]) -> usize
        ensures { (lines : List (List Running)) × AreItsTimers self.now lines × Puts (image self.now lines) 0 out.old result out.new }
    {
        let mut end = put_octets(out, 0, &HEAD);
        end = put_octet(out, end, self.lines as u8);
        end = put_octet(out, end, (self.places / 4) as u8);
        end = put_lengths(self.lengths, out, end);
        put_lines(&self.moments, self.places, self.lines, out, end)
    }
}

// How long timers run.
fn put_lengths(of: Lengths, out: &mut [u8], at: usize) -> usize
    requires { at ≤ length out.old }
    ensures { Puts (lengths (lengths_of of)) at out.old result out.new }
{
    let mut end = at;
    end = put_number(out, end, 4, of.of(Timer::T200(Service::Call, 0)));
    end = put_number(out, end, 4, of.of(Timer::T203(Service::Call, 0)));
    end = put_number(out, end, 4, of.of(Timer::T201));
    put_number(out, end, 4, of.of(Timer::T202))
}

// The timers of so many lines, each of so many places.
fn put_lines(moments: &Moments, places: usize, lines: usize, out: &mut [u8], at: usize) -> usize
    requires few { places ≤ 33 }
    requires lines { lines ≤ 64 }
    requires there { lines * places ≤ length moments.now }
    requires within { at ≤ length out.old }
    ensures { Puts (flat_map (list_of timer) (held_by_lines places lines moments.now)) at out.old result out.new }
{
    let mut end = at;
    for line in 0..lines {
        end = put_line(moments, places, line, out, end);
    }
    end
}

// The list of the timers of a line that run.
fn put_line(moments: &Moments, places: usize, line: usize, out: &mut [u8], at: usize) -> usize
    requires few { places ≤ 33 }
    requires line { line < 64 }
    requires there { line * places + places ≤ length moments.now }
    requires within { at ≤ length out.old }
    ensures { Puts (list_of timer (held_on places line moments.now)) at out.old result out.new }
{
    let begin = line * places;
    let mut end = put_octet(out, at, count(moments, places, line));
    for offset in 0..places {
        end = put_place(moments, begin + offset, out, end);
    }
    end
}

// At how many places of a line timers run.
fn count(moments: &Moments, places: usize, line: usize) -> u8
    requires few { places ≤ 33 }
    requires line { line < 64 }
    requires there { line * places + places ≤ length moments.now }
    ensures { result ≡ length (filter is_running (places_from (line * places) places moments.now)) }
{
    let begin = line * places;
    let mut running = 0;
    for offset in 0..places {
        if let Some(_held) = moments.held(begin + offset) {
            running += 1;
        }
    }
    running
}

// What runs at a place, if a timer does.
fn put_place(moments: &Moments, place: usize, out: &mut [u8], at: usize) -> usize
    requires place { place < length moments.now }
    requires within { at ≤ length out.old }
    ensures { Puts (timer_at (place_at place moments.now)) at out.old result out.new }
{
    match moments.held(place) {
        Some(held) => put_timer(&held, out, at),
        None => at,
    }
}

// A timer that runs.
fn put_timer(held: &Held, out: &mut [u8], at: usize) -> usize
    requires { at ≤ length out.old }
    ensures { Puts (timer held.now) at out.old result out.new }
{
    let (which, tei, service) = ranks(held.timer);
    let end = put_octet(out, at, which);
    let end = put_octet(out, end, tei);
    let end = put_octet(out, end, service);
    put_number(out, end, 8, held.moment)
}

// Which timer it is, the TEI of its link, and the service.
fn ranks(timer: Timer) -> (u8, u8, u8)
    ensures { result ≡ (kind_rank timer, tei_rank timer, service_rank timer) }
{
    match timer {
        Timer::T200(service, tei) => (0, tei, rank_of(service)),
        Timer::T203(service, tei) => (1, tei, rank_of(service)),
        Timer::T201 => (2, 0, 0),
        Timer::T202 => (3, 0, 0),
    }
}

fn rank_of(service: Service) -> u8
    ensures { result ≡ rank_of_service service }
{
    match service {
        Service::Call => 0,
        Service::Packet => 1,
    }
}

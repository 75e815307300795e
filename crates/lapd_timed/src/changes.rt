//! When the state of each link of a card changed last.

ghost use Rattle.std.specs.Prelude.{◌≡◌, ℕ, ◌+◌, ◌*◌, ◌<◌, ◌≤◌, ◌++◌, All, length, get_or, IfOk, OnOk, OnErr};
ghost use Rattle.lapd_image.specs.Puts.{Puts};
ghost use Rattle.lapd_image.specs.Reads.{HasNone};
ghost use Rattle.lapd_timed.specs.Marked.{has_state, marked_at, slot_in, unchanged, with_moment, AreAllNoted, ArePast};
ghost use Rattle.model_image.specs.Images.{changes};

use lapd_image::{BadImage, Reader, put_number};
use std::alloc::{AllocError, Global};
use std::marker::Model;

/// As many links as a line can have.
pub(crate) const MOST_LINKS: usize = 16;

/// The state of each link of a card as it was noted last, line by line; 0 where the TEI of its place was not on the line. And the
/// moment, in milliseconds, since which it is so; 0 if it has been so since the start.
#[derive(Debug, Drop)]
pub(crate) struct Changes {
    /// How many links a line has.
    links: usize,
    states: Vec<u8>,
    moments: Vec<u64>,
}

impl Model for Changes {
    ghost use Rattle.std.specs.Prelude.{◌≡◌, length};
    ghost use Rattle.lapd_timed.specs.Marked.{HeldMarks};

    ghost Value = { HeldMarks };

    ghost view = { λ c. record { links = c.links; states = c.states.items; moments = c.moments.items } };

    ghost invariant = { λ c. length c.moments.items ≡ length c.states.items };
}

impl Changes {
    /// No TEI is on a line. It takes the memory for all links; no other call takes any.
    ///
    /// # Errors
    ///
    /// `AllocError` if there is no memory for them.
    pub(crate) fn start(alloc: Global, lines: usize, links: usize) -> Result<Changes, AllocError>
        requires lines { lines ≤ 64 }
        requires links { links ≤ 16 }
        ensures { IfOk result (λ changes. changes ≡ unchanged lines links) }
    {
        let count = lines * links;
        Ok(Changes {
            links,
            states: vec![in alloc; 0; count]?,
            moments: vec![in alloc; 0; count]?,
        })
    }

    /// A link is in this state now.
    #[inline(always)]
    pub(crate) fn note(&mut self, line: usize, number: usize, state: u8, now: u64)
        requires { slot_in self.old line number < length self.old.states }
        ensures { self.new ≡ marked_at (slot_in self.old line number) state now self.old }
    {
        let slot = line * self.links + number;
        if self.states[slot] != state {
            self.states[slot] = state;
            self.moments[slot] = now;
        }
    }

    /// Each link of a line is in its one of these states now.
    pub(crate) fn note_all(&mut self, line: usize, states: &[u8; MOST_LINKS], now: u64)
        requires few { self.old.links ≤ 16 }
        requires there { (number : ℕ) → number < self.old.links → slot_in self.old line number < length self.old.states }
        ensures noted { AreAllNoted line now states.now self.old self.new }
        ensures past { All (λ moment. moment ≤ now) self.old.moments → All (λ moment. moment ≤ now) self.new.moments }
    {
        for number in 0..self.links {
            self.note(line, number, states[number], now);
        }
    }

    /// Whether a state was noted of a link: a TEI was at its place.
    #[inline(always)]
    pub(crate) fn has_state(&self, line: usize, number: usize) -> bool
        requires { slot_in self.now line number < length self.now.states }
        ensures { result ≡ has_state self.now line number }
    {
        self.states[line * self.links + number] != 0
    }

    /// Writes the moments at which states changed last into a room, in eight octets each, from a place on. It answers the place
    /// after.
    pub(crate) fn save(&self, out: &mut [u8], at: usize) -> usize
        requires { at ≤ length out.old }
        ensures { Puts (changes self.now.moments) at out.old result out.new }
    {
        let mut end = at;
        for moment in &self.moments {
            end = put_number(out, end, 8, *moment);
        }
        end
    }

    /// Reads as many moments, and puts them in place of these. None is after now.
    ///
    /// # Errors
    ///
    /// [`BadImage`] if no such moments are at the front.
    pub(crate) fn restore(&mut self, now: u64, reader: &mut Reader<'_>) -> Result<(), BadImage>
        ensures read { OnOk result (reader.old ≡ changes self.new.moments ++ reader.new) }
        ensures past { OnOk result (All (λ moment. moment ≤ now) self.new.moments) }
        ensures count { OnOk result (length self.new.moments ≡ length self.old.moments) }
        ensures links { OnOk result (self.new.links ≡ self.old.links) }
        ensures states { OnOk result (self.new.states ≡ self.old.states) }
        ensures none { OnErr result (HasNone changes (λ moments. ArePast (length self.old.moments) now moments) reader.old) }
    {
        for slot in 0..self.count() {
            let moment = reader.number(8)?;
            if moment > now {
                return Err(BadImage);
            }
            self.put(slot, moment);
        }
        Ok(())
    }

    /// How many links there are.
    fn count(&self) -> usize
        ensures { result ≡ length self.now.moments }
    {
        self.moments.len()
    }

    /// The state of a link changed last at this moment.
    fn put(&mut self, slot: usize, moment: u64)
        requires { slot < length self.old.moments }
        ensures { self.new ≡ with_moment slot moment self.old }
    {
        self.moments[slot] = moment;
    }

    /// The moment at which the state of a link changed last.
    pub(crate) fn at(&self, line: usize, number: usize) -> u64
        requires { slot_in self.now line number < length self.now.states }
        ensures { result ≡ get_or self.now.moments (slot_in self.now line number) 0 }
    {
        self.moments[line * self.links + number]
    }
}

//! The stuffed text of octets (clause 2.6), as it is made.
ghost use Rattle.std.specs.Prelude.{◌≡◌, ◌+◌, ◌*◌, ◌/◌, ◌%◌, ◌<◌, ◌≤◌, ◌^◌, ◌++◌, length, take, drop};
ghost use Rattle.model_bits.specs.Bits.{flag, bits, low_bits};
ghost use Rattle.lapd_bits.specs.Stuffer.{Goes, last_ones, text_after};

use crate::stuffer::{Stuffed, go_as_they_are};
use crate::waiting::Waiting;

/// How many octets are stuffed at once.
const AT_ONCE: usize = 4;

/// Their bits.
const FOUR_OCTETS: u64 = 32;

/// How many of them go before the latest four.
const FOUR_BUT_LATEST: u32 = 28;

/// The bits of an octet.
const OCTET_BITS: u64 = 8;

/// The bits of a frame check.
const CHECK_BITS: u64 = 16;

/// A stuffed text, up to now: its whole octets lie in a buffer, the first in its first place, and the bits after them wait.
#[derive(Clone, Copy)]
pub(crate) struct StuffedText {
    /// How many octets lie in the buffer.
    pub(crate) end: usize,
    pub(crate) waiting: Waiting,
    /// The latest four bits of the text, the last of them highest. 0s stand for bits that do not count.
    pub(crate) latest: u64,
    ghost four: { latest < 16 },
}

impl StuffedText {
    ghost use Rattle.lapd_bits.specs.FramerText.{waits, made, fifths};

    /// Goes on with octets.
    // Into the one function that makes a text, where its fields then stay in registers.
    #[inline(always)]
    pub(crate) fn stuff(&mut self, buffer: &mut [u8], octets: &[u8])
        requires low { self.old.waiting.count < 8 }
        requires room { fifths self.old + 48 * length octets.now ≤ 40 * length buffer.old }
        ensures goes { Goes (made self.old buffer.old) (last_ones self.old.latest) (bits octets.now) (made self.new buffer.new) (last_ones self.new.latest) }
        ensures low { self.new.waiting.count < 8 }
        ensures pays { fifths self.new ≤ fifths self.old + 48 * length octets.now }
        ensures room { length buffer.new ≡ length buffer.old }
    {
        self.stuff_fours(buffer, octets);
        let rest = rest_of(octets);
        if !rest.is_empty() {
            self.push(number_of(rest), OCTET_BITS * rest.len() as u64);
            self.give_all(buffer);
        }
    }

    /// Ends the text with octets, a check and a flag.
    #[inline(always)]
    pub(crate) fn end_with(&mut self, buffer: &mut [u8], octets: &[u8], check: u16)
        requires low { self.old.waiting.count < 8 }
        requires room { fifths self.old + 48 * length octets.now + 97 ≤ 40 * length buffer.old }
        ensures made { made self.new buffer.new ≡ made self.old buffer.old ++ (text_after (last_ones self.old.latest) (bits octets.now ++ low_bits 16 check) ++ flag) }
        ensures low { self.new.waiting.count < 8 }
        ensures end { self.new.end ≤ length buffer.old }
        ensures room { length buffer.new ≡ length buffer.old }
    {
        self.stuff_fours(buffer, octets);
        // What is left, the check and the flag wait together: 63 bits at most.
        let rest = rest_of(octets);
        let count = OCTET_BITS * rest.len() as u64;
        self.push(
            number_of(rest) + (u64::from(check) << count),
            count + CHECK_BITS,
        );
        self.waiting.push_flag();
        self.give_all(buffer);
    }

    // Goes on with octets, except for those at the end that are fewer than four.
    #[inline(always)]
    fn stuff_fours(&mut self, buffer: &mut [u8], octets: &[u8])
        requires low { self.old.waiting.count < 8 }
        requires room { fifths self.old + 48 * length octets.now ≤ 40 * length buffer.old }
        ensures goes { Goes (made self.old buffer.old) (last_ones self.old.latest) (bits (take (length octets.now / 4 * 4) octets.now)) (made self.new buffer.new) (last_ones self.new.latest) }
        ensures low { self.new.waiting.count < 8 }
        ensures pays { fifths self.new ≤ fifths self.old + 48 * (length octets.now / 4 * 4) }
        ensures room { length buffer.new ≡ length buffer.old }
    {
        let (fours, _) = octets.as_chunks::<AT_ONCE>();
        // in a local, so that it stays in registers
        let mut text = *self;
        for four in fours {
            text.stuff_four(buffer, u32::from_le_bytes(*four));
        }
        *self = text;
    }

    // Goes on with four octets, the first lowest.
    #[inline(always)]
    #[tactic(auto, using(crate::proofs::StuffingAtOnce::last_ones_few))]
    fn stuff_four(&mut self, buffer: &mut [u8], four: u32)
        requires low { self.old.waiting.count < 8 }
        requires room { fifths self.old + 48 * 4 ≤ 40 * length buffer.old }
        ensures goes { Goes (made self.old buffer.old) (last_ones self.old.latest) (low_bits 32 four) (made self.new buffer.new) (last_ones self.new.latest) }
        ensures low { self.new.waiting.count < 8 }
        ensures pays { fifths self.new ≤ fifths self.old + 48 * 4 }
        ensures room { length buffer.new ≡ length buffer.old }
    {
        if go_as_they_are(self.latest, four) {
            self.waiting.push(u64::from(four), FOUR_OCTETS);
            self.latest = u64::from(four >> FOUR_BUT_LATEST);
            self.give_four(buffer);
        } else {
            self.push(u64::from(four), FOUR_OCTETS);
            self.give_four(buffer);
            if OCTET_BITS <= self.waiting.count {
                self.give(buffer);
            }
        }
    }

    // Has what so many bits make of themselves wait.
    #[inline(always)]
    #[tactic(auto, using(crate::proofs::StuffingAtOnce::last_ones_few))]
    fn push(&mut self, bits: u64, count: u64)
        requires few { count ≤ 40 }
        requires below { bits < 2 ^ count }
        requires low { self.old.waiting.count < 8 }
        ensures goes { Goes (waits self.old.waiting) (last_ones self.old.latest) (low_bits count bits) (waits self.new.waiting) (last_ones self.new.latest) }
        ensures end { self.new.end ≡ self.old.end }
        ensures at_least { self.old.waiting.count + count ≤ self.new.waiting.count }
        ensures pays { fifths self.new ≤ fifths self.old + 6 * count }
        ensures room { self.new.waiting.count < 56 }
    {
        let stuffed = Stuffed::after(self.latest, bits, count);
        self.waiting.push(stuffed.bits, stuffed.count);
        self.latest = stuffed.latest;
    }

    // Puts four octets of the bits that wait into the buffer.
    #[inline(always)]
    fn give_four(&mut self, buffer: &mut [u8])
        requires many { 32 ≤ self.old.waiting.count }
        requires room { self.old.end + 4 ≤ length buffer.old }
        ensures made { made self.new buffer.new ≡ made self.old buffer.old }
        ensures latest { self.new.latest ≡ self.old.latest }
        ensures end { self.new.end ≡ self.old.end + 4 }
        ensures count { self.new.waiting.count + 32 ≡ self.old.waiting.count }
        ensures room { length buffer.new ≡ length buffer.old }
    {
        self.give(buffer);
        self.give(buffer);
        self.give(buffer);
        self.give(buffer);
    }

    // Puts all whole octets of the bits that wait into the buffer.
    #[inline(always)]
    fn give_all(&mut self, buffer: &mut [u8])
        requires room { 8 * self.old.end + self.old.waiting.count < 8 * length buffer.old + 8 }
        ensures made { made self.new buffer.new ≡ made self.old buffer.old }
        ensures latest { self.new.latest ≡ self.old.latest }
        ensures low { self.new.waiting.count < 8 }
        ensures bits { 8 * self.new.end + self.new.waiting.count ≡ 8 * self.old.end + self.old.waiting.count }
        ensures room { length buffer.new ≡ length buffer.old }
    {
        // four at once, which one store writes
        if FOUR_OCTETS <= self.waiting.count {
            self.give_four(buffer);
        }
        while OCTET_BITS <= self.waiting.count {
            self.give(buffer);
        }
    }

    // Puts the first octet of the bits that wait into the buffer.
    #[inline(always)]
    #[tactic(auto, using(crate::proofs::StuffedText::made_given))]
    fn give(&mut self, buffer: &mut [u8])
        requires eight { 8 ≤ self.old.waiting.count }
        requires room { self.old.end < length buffer.old }
        ensures made { made self.new buffer.new ≡ made self.old buffer.old }
        ensures latest { self.new.latest ≡ self.old.latest }
        ensures end { self.new.end ≡ self.old.end + 1 }
        ensures count { self.new.waiting.count + 8 ≡ self.old.waiting.count }
        ensures room { length buffer.new ≡ length buffer.old }
    {
        buffer[self.end] = self.waiting.octet();
        self.end += 1;
    }
}

// The octets after all fours: fewer than four.
#[inline(always)]
fn rest_of(octets: &[u8]) -> &[u8]
    ensures rest { result.now ≡ drop (length octets.now / 4 * 4) octets.now }
    ensures few { length result.now ≡ length octets.now % 4 }
{
    &octets[octets.len() / AT_ONCE * AT_ONCE..]
}

// A few octets as one number, the first lowest.
#[inline(always)]
fn number_of(octets: &[u8]) -> u64
    requires few { length octets.now < 4 }
    ensures bits { low_bits (8 * length octets.now) result ≡ bits octets.now }
    ensures below { result < 2 ^ (8 * length octets.now) }
{
    let mut number = 0u64;
    let mut count = 0u64;
    for octet in octets {
        number += u64::from(*octet) << count;
        count += OCTET_BITS;
    }
    number
}

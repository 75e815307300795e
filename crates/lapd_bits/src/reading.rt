//! Octets that are read back out of a stuffed text (clause 2.6).
ghost use Rattle.std.specs.Prelude.{◌≡◌, ℕ, ◌≤◌, ◌<◌, List, ◌∷◌, ◌++◌, length, take, drop};
ghost use Rattle.model_bits.specs.Bits.{bits, low_bits, octets_of};
ghost use Rattle.model_bits.specs.Stuffing.{unstuffed};

use crate::gap::above;

/// The bits of an octet.
const OCTET_BITS: u8 = 8;

/// After so many contiguous 1s a 0 is a stuffed one.
const FIVE: u8 = 5;

/// A place in a text: which bit of which octet is read next, and the contiguous 1s before it, 5 for five and more.
#[derive(Clone, Copy)]
pub(crate) struct Reading {
    at: usize,
    bit: u8,
    ones: u8,
    ghost in_octet: { bit < 8 },
    ghost few: { ones ≤ 5 },
}

impl Reading {
    ghost use Rattle.lapd_bits.specs.Reading.{bits_from, left_to_read};

    /// At a bit of the first octet, with no 1 before it that counts.
    pub(crate) fn at_bit(bit: u8) -> Reading
        requires { bit < 8 }
        ensures { (text : List ℕ) → left_to_read result text ≡ unstuffed (drop bit (bits text)) }
    {
        Reading {
            at: 0,
            bit,
            ones: 0,
        }
    }

    /// Writes the octets that come next of the text without its stuffed 0s in place of others, which are as many.
    pub(crate) fn octets(&mut self, text: &[u8], octets: &mut [u8])
        requires { length octets.old ≤ length (octets_of (left_to_read self.old text.now)) }
        ensures { octets.new ≡ take (length octets.old) (octets_of (left_to_read self.old text.now)) }
    {
        for place in 0..octets.len() {
            octets[place] = self.octet(text);
        }
    }

    // The next octet of the text without its stuffed 0s.
    fn octet(&mut self, text: &[u8]) -> u8
        requires some { 8 ≤ length (left_to_read self.old text.now) }
        ensures read { left_to_read self.old text.now ≡ low_bits 8 result ++ left_to_read self.new text.now }
    {
        let mut octet = 0u8;
        for place in 0..OCTET_BITS {
            octet = above(octet, place, u8::from(self.bit(text)), 1) as u8;
        }
        octet
    }

    // The next bit of the text without its stuffed 0s.
    fn bit(&mut self, text: &[u8]) -> bool
        requires some { 1 ≤ length (left_to_read self.old text.now) }
        ensures read { left_to_read self.old text.now ≡ result ∷ left_to_read self.new text.now }
    {
        let bit = self.next(text);
        if bit {
            self.ones = (self.ones + 1).min(FIVE);
            return true;
        }
        if self.ones < FIVE {
            self.ones = 0;
            return false;
        }
        self.ones = 0;
        self.after_zero(text)
    }

    // The next bit, after a stuffed 0.
    fn after_zero(&mut self, text: &[u8]) -> bool
        requires none { self.old.ones ≡ 0 }
        requires some { 1 ≤ length (left_to_read self.old text.now) }
        ensures read { left_to_read self.old text.now ≡ result ∷ left_to_read self.new text.now }
    {
        let bit = self.next(text);
        self.ones = u8::from(bit);
        bit
    }

    // The next bit of the text, stuffed 0s among them.
    fn next(&mut self, text: &[u8]) -> bool
        requires some { 1 ≤ length (bits_from self.old text.now) }
        ensures read { bits_from self.old text.now ≡ result ∷ bits_from self.new text.now }
        ensures ones { self.new.ones ≡ self.old.ones }
    {
        let bit = (text[self.at] >> self.bit) & 1 == 1;
        self.bit += 1;
        if self.bit == OCTET_BITS {
            self.bit = 0;
            self.at += 1;
        }
        bit
    }
}

//! What takes octets from the front of an image.

ghost use Rattle.std.specs.Prelude.{◌≡◌, ◌+◌, ◌<◌, ◌≤◌, ◌^◌, [], ◌∷◌, ◌++◌, length, true, ◌↔◌, All, IfOk, OnErr};
ghost use Rattle.lapd_image.specs.Numbers.{number, contents};
ghost use Rattle.lapd_image.specs.Reads.{HasNoContents};

use crate::fault::BadImage;
use std::marker::Model;

/// What is left of an image. Each call takes octets from its front, and looks at each before it believes it.
#[derive(Drop, Debug)]
pub struct Reader<'a> {
    rest: &'a [u8],
}

impl<'a> Model for Reader<'a> {
    ghost use Rattle.std.specs.Prelude.{ℕ, ◌<◌, List, All};

    ghost Value = { List ℕ };

    ghost view = { λ r. r.rest.now };

    ghost invariant = { λ r. All (λ octet. octet < 256) r.rest.now };
}

impl<'a> Reader<'a> {
    /// A reader of these octets.
    pub fn new(octets: &'a [u8]) -> Reader<'a>
        ensures { result ≡ octets.now }
    {
        Reader { rest: octets }
    }

    /// Whether no octet is left.
    pub fn is_done(&self) -> bool
        ensures { result ≡ true ↔ self.now ≡ [] }
    {
        self.rest.is_empty()
    }

    /// One octet.
    ///
    /// # Errors
    ///
    /// [`BadImage`] if none is left.
    pub fn octet(&mut self) -> Result<u8, BadImage>
        ensures read { IfOk result (λ octet. self.old ≡ octet ∷ self.new) }
        ensures none { OnErr result (self.old ≡ []) }
        ensures kept { OnErr result (self.new ≡ self.old) }
    {
        let Some((first, rest)) = self.rest.split_first() else {
            return Err(BadImage);
        };
        self.rest = rest;
        Ok(*first)
    }

    /// A number in so many octets, the low one first. There are at most eight.
    ///
    /// # Errors
    ///
    /// [`BadImage`] if fewer are left.
    pub fn number(&mut self, octets: usize) -> Result<u64, BadImage>
        requires { octets ≤ 8 }
        ensures read { IfOk result (λ n. self.old ≡ number octets n ++ self.new) }
        ensures small { IfOk result (λ n. n < 256 ^ octets) }
        ensures short { OnErr result (length self.old < octets) }
        ensures kept { OnErr result (self.new ≡ self.old) }
    {
        Ok(number_of(self.octets(octets)?))
    }

    /// So many octets.
    ///
    /// # Errors
    ///
    /// [`BadImage`] if fewer are left.
    pub fn octets(&mut self, count: usize) -> Result<&'a [u8], BadImage>
        ensures read { IfOk result (λ octets. self.old ≡ octets.now ++ self.new) }
        ensures count { IfOk result (λ octets. length octets.now ≡ count) }
        ensures range { IfOk result (λ octets. All (λ octet. octet < 256) octets.now) }
        ensures short { OnErr result (length self.old < count) }
        ensures kept { OnErr result (self.new ≡ self.old) }
    {
        if self.rest.len() < count {
            return Err(BadImage);
        }
        let (octets, rest) = self.rest.split_at(count);
        self.rest = rest;
        Ok(octets)
    }

    /// Contents: in two octets how many octets they have, and then these.
    ///
    /// # Errors
    ///
    /// [`BadImage`] if no contents are at the front.
    pub fn contents(&mut self) -> Result<&'a [u8], BadImage>
        ensures read { IfOk result (λ octets. self.old ≡ contents octets.now ++ self.new) }
        ensures range { IfOk result (λ octets. All (λ octet. octet < 256) octets.now) }
        ensures small { IfOk result (λ octets. length octets.now < 65536) }
        ensures none { OnErr result (HasNoContents self.old) }
    {
        let count = self.number(2)?;
        self.octets(count as usize)
    }
}

/// The number that these octets spell, the low one first.
fn number_of(octets: &[u8]) -> u64
    requires { length octets.now ≤ 8 }
    ensures spelled { octets.now ≡ number (length octets.now) result }
    ensures small { result < 256 ^ length octets.now }
{
    let mut n = 0;
    for place in (0..octets.len()).rev() {
        n = 256 * n + u64::from(octets[place]);
    }
    n
}

//! Puts pieces of text onto a page, which goes to a target once it is full.

ghost use Rattle.std.specs.Prelude.{◌≡◌, [], ◌++◌, List, ℕ, codes};
ghost use Rattle.lapd_transcript.specs.{encode_upper, on, IsSent, Output, Puts, Writes, joined, line_text, octets_text};

use crate::streams::{Put, Target, WriteFailed};
use arrayvec::ArrayVec;
use lapd_text::{decimal, octet_digits};

/// As many octets as go to a target at once.
const ROOM: usize = 4096;

/// Text on its way to a target: it goes there once the page is full, and by [`Page::send`].
#[derive(Drop)]
pub struct Page<'a, T> {
    target: &'a mut T,
    text: ArrayVec<u8, ROOM>,
}

impl<'a, T: Target> Page<'a, T> {
    /// An empty page.
    pub fn new(target: &'a mut T) -> Page<'a, T>
        ensures same { result.target.ghost_name ≡ target.entry.ghost_name }
        ensures empty { on T.taken result ≡ record { taken = T.taken target.old; page = []; name = target.entry.ghost_name } }
    {
        Page {
            target,
            text: ArrayVec::new(),
        }
    }

    /// Puts one piece: behind what stands on the page, or on the page that is empty once that has gone out, so that no
    /// piece goes to the target alone that a page has room for.
    pub(crate) fn put(&mut self, piece: &[u8]) -> Put
        ensures { Puts result (on T.taken self.old) (on T.taken self.new) piece.now }
    {
        if self.text.try_extend_from_slice(piece).is_ok() {
            return Ok(());
        }
        self.target.write(self.text.as_slice())?;
        self.text.clear();
        if self.text.try_extend_from_slice(piece).is_ok() {
            return Ok(());
        }
        self.target.write(piece)
    }

    /// Puts the pieces, one after the other.
    pub(crate) fn put_all(&mut self, pieces: &[&[u8]]) -> Put
        ensures { Puts result (on T.taken self.old) (on T.taken self.new) (joined pieces.now) }
    {
        for piece in pieces {
            self.put(piece)?;
        }
        Ok(())
    }

    /// Puts a line: the number of the card's line that it is about, and the words after it.
    pub(crate) fn put_line(&mut self, line: u16, words: &[&[u8]]) -> Put
        ensures { Puts result (on T.taken self.old) (on T.taken self.new) (line_text line (joined words.now)) }
    {
        let line = decimal(u64::from(line));
        self.put_all(&[line.as_slice(), b" "])?;
        self.put_all(words)?;
        self.put(b"\n")
    }

    /// Puts octets as upper-case digits, and no octets as `-`.
    fn put_octets(&mut self, octets: &[u8]) -> Put
        ensures { Puts result (on T.taken self.old) (on T.taken self.new) (octets_text octets.now) }
    {
        if octets.is_empty() {
            return self.put(b"-");
        }
        self.put_digits(octets)
    }

    /// Puts the pieces, then octets, and ends the line.
    pub(crate) fn put_octets_line(&mut self, head: &[&[u8]], octets: &[u8]) -> Put
        ensures { Puts result (on T.taken self.old) (on T.taken self.new) (joined head.now ++ octets_text octets.now ++ codes "\n") }
    {
        self.put_all(head)?;
        self.put_octets(octets)?;
        self.put(b"\n")
    }

    fn put_digits(&mut self, octets: &[u8]) -> Put
        ensures { Puts result (on T.taken self.old) (on T.taken self.new) (encode_upper octets.now) }
    {
        for octet in octets {
            self.put(&octet_digits(*octet))?;
        }
        Ok(())
    }

    /// Sends what stands on the page to the target. An empty page asks nothing of it.
    pub fn send(&mut self) -> Put
        ensures { IsSent result (on T.taken self.old) (on T.taken self.new) }
    {
        if self.text.is_empty() {
            return Ok(());
        }
        self.target.write(self.text.as_slice())?;
        self.text.clear();
        Ok(())
    }

    /// Sends the page to the target, if all was put.
    pub(crate) fn finish(self, put: Put) -> Put
        ensures { (before : Output) (text : List ℕ) → Puts put before (on T.taken self.entry) text → Writes result before.taken (T.taken self.exit.0.now) (before.page ++ text) }
    {
        let Page { target, text } = self;
        if let Err(WriteFailed) = put {
            return Err(WriteFailed);
        }
        target.write(text.as_slice())
    }
}

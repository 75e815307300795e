//! How the lines of a script are read: in pieces, into a buffer of fixed size.

ghost use Rattle.std.specs.Prelude.{◌≡◌, ℕ, ◌+◌, ◌^◌, ◌<◌, ◌≤◌, false, List, Option, Some, length, take, vec_len, IfOk, IfErr, IfSome, IfNone, OnOk, OnErr, IsTrue, ◌≢◌};
ghost use Rattle.std.specs.List.{AllWithin, HoldsAt};
ghost use Rattle.lapd_script.specs.Faults.{reads_failed, reads_failed_by, writes_failed};
ghost use Rattle.lapd_script.specs.declared.faults.PlayFault.TheVariants as play;

use crate::faults::PlayFault;
use crate::kind::FaultKind;
use crate::words::place_of;
use lapd_transcript::Source;
use std::alloc::{AllocError, Global};

/// The most octets that a line of a script can have, without its line feed.
const LONGEST_LINE: usize = 4096;

/// The longest line with its line feed.
const ROOM: usize = LONGEST_LINE + 1;

/// The most octets that a script can have, line feeds included.
const LONGEST_SCRIPT: u64 = 1 << 63;

/// The lines of a script, one after the other. A line ends with a line feed, which isn't part of it; the last line
/// may lack it.
#[derive(Drop)]
pub struct ScriptLines {
    /// The current line with its line feed, and what has been read of the lines after it.
    buffer: Vec<u8>,
    /// The beginning and the end of the current line, and the beginning of the next one.
    start: usize,
    end: usize,
    next: usize,
    /// How much of the buffer has been read.
    filled: usize,
    /// The source had no more octets.
    is_at_end: bool,
    /// How many lines have been read, and how many octets, with their line feeds.
    number: u64,
    octets: u64,
    ghost room: { vec_len buffer ≡ 4097 },
    ghost end_after_start: { start ≤ end },
    ghost next_after_end: { end ≤ next },
    ghost next_within: { next ≤ filled },
    ghost filled_within: { filled ≤ 4097 },
    ghost short: { end ≤ start + 4096 },
    ghost counted: { number ≤ octets },
    pub ghost bounded: { octets ≤ 2 ^ 63 },
}

impl ScriptLines {
    ghost use Rattle.lapd_script.specs.ScriptLines.{left_to_read, current, held, too_long_after, AreLeft, Advances, IsReady, Takes};

    /// No line yet.
    ///
    /// # Errors
    ///
    /// `AllocError` if there is no memory for the longest line.
    pub fn start(alloc: Global) -> Result<ScriptLines, AllocError>
        ensures left { IfOk result (λ lines. (text : List ℕ) → AreLeft lines (Some text) text) }
        ensures number { IfOk result (λ lines. lines.number ≡ 0) }
        ensures octets { IfOk result (λ lines. lines.octets ≡ 0) }
    {
        Ok(ScriptLines {
            buffer: vec![in alloc; 0; ROOM]?,
            start: 0,
            end: 0,
            next: 0,
            filled: 0,
            is_at_end: false,
            number: 0,
            octets: 0,
        })
    }

    /// Goes on to the next line where its line feed has come already, and tells whether it has. It reads nothing.
    ///
    /// # Errors
    ///
    /// `Script` if the script is too long with that line.
    pub fn ready(&mut self) -> Result<bool, PlayFault>
        ensures steady { IfErr result (λ fault. (count : ℕ) → (reads_failed fault count ≡ count) × (writes_failed fault count ≡ count)) }
        ensures goes_on { IfOk result (λ more. IsTrue more → self.old.octets < self.new.octets) }
        ensures stays { IfOk result (λ more. more ≡ false → self.new ≡ self.old) }
        ensures ready { (remaining : Option (List ℕ)) (text : List ℕ) → AreLeft self.old remaining text
            → IsReady result self.old self.new remaining text }
    {
        let Some(end) = self.line_feed(self.next) else {
            return Ok(false);
        };
        self.start = self.next;
        self.end = self.next;
        self.take(end, end + 1)
    }

    /// Goes on to the next line, and tells whether there is one. It reads only if no line feed has come yet.
    ///
    /// # Errors
    ///
    /// `Read` if a read failed; `Script` if the line is too long, or the script with it.
    pub fn advance<S: Source>(&mut self, source: &mut S) -> Result<bool, PlayFault>
        ensures reads { S.failures source.new ≡ reads_failed_by result (S.failures source.old) }
        ensures no_write { IfErr result (λ fault. (count : ℕ) → writes_failed fault count ≡ count) }
        ensures goes_on { IfOk result (λ more. IsTrue more → self.old.octets < self.new.octets) }
        ensures read { (text : List ℕ) → AreLeft self.old (S.remaining source.old) text
            → Advances result self.old self.new (S.remaining source.new) text }
    {
        self.start = self.next;
        self.end = self.next;
        let mut unsought = self.start;
        loop {
            if let Some(end) = self.line_feed(unsought) {
                return self.take(end, end + 1);
            }
            if self.filled - self.start == ROOM {
                return Err(self.too_long());
            }
            if self.is_at_end {
                return self.take(self.filled, self.filled);
            }
            unsought = match self.fill(source) {
                Ok(begun) => begun,
                Err(fault) => return Err(fault),
            };
        }
    }

    /// The current line.
    pub fn line(&self) -> &[u8]
        ensures short { length result.now ≤ 4096 }
        ensures current { result.now ≡ current self.now }
    {
        &self.buffer[self.start..self.end]
    }

    /// The number of the current line, from 1.
    pub fn number(&self) -> u64
        ensures { result ≡ self.now.number }
    {
        self.number
    }

    /// Where the first line feed stands in what has been read from `unsought` on.
    fn line_feed(&self, unsought: usize) -> Option<usize>
        requires { unsought ≤ self.now.filled }
        ensures from { IfSome result (λ place. unsought ≤ place) }
        ensures within { IfSome result (λ place. place < self.now.filled) }
        ensures found { IfSome result (λ place. HoldsAt (λ octet. octet ≡ 10) self.now.buffer.items place) }
        ensures first { IfSome result (λ place. AllWithin (λ octet. octet ≢ 10) self.now.buffer.items unsought place) }
        ensures none { IfNone result (AllWithin (λ octet. octet ≢ 10) self.now.buffer.items unsought self.now.filled) }
    {
        match place_of(&self.buffer[unsought..self.filled], b'\n') {
            None => None,
            Some(place) => Some(unsought + place),
        }
    }

    /// Reads more behind the line that has begun, which moves to the front, and tells where it put it.
    fn fill<S: Source>(&mut self, source: &mut S) -> Result<usize, PlayFault>
        requires room { self.old.filled < self.old.start + 4097 }
        requires open { self.old.is_at_end ≡ false }
        requires begins { self.old.next ≡ self.old.start }
        ensures reads { S.failures source.new ≡ reads_failed_by result (S.failures source.old) }
        ensures no_write { IfErr result (λ fault. (count : ℕ) → writes_failed fault count ≡ count) }
        ensures front { (self.new.start ≡ 0) × (self.new.next ≡ 0) }
        ensures begun { IfOk result (λ begun. begun ≤ self.new.filled) }
        ensures nearer { OnOk result (left_to_read self.new < left_to_read self.old) }
        ensures octets { self.new.octets ≡ self.old.octets }
        ensures number { self.new.number ≡ self.old.number }
        ensures left { (text : List ℕ) → AreLeft self.old (S.remaining source.old) text
            → AreLeft self.new (S.remaining source.new) text }
        ensures kept { IfOk result (λ begun. take begun (held self.new) ≡ held self.old) }
        ensures cut { OnErr result (held self.new ≡ held self.old) }
        ensures fault { IfErr result (λ fault. fault ≡ play.Read) }
    {
        self.buffer.copy_within(self.start..self.filled, 0);
        let begun = self.filled - self.start;
        self.start = 0;
        self.end = 0;
        self.next = 0;
        self.filled = begun;
        let count = match source.read(&mut self.buffer[begun..]) {
            Ok(count) => count,
            Err(_) => return Err(PlayFault::Read),
        };
        self.is_at_end = count == 0;
        self.filled = begun + count;
        Ok(begun)
    }

    /// Makes the octets up to `end` the current line, and those from `next` on the lines after it. There is no line
    /// if no octet is left.
    fn take(&mut self, end: usize, next: usize) -> Result<bool, PlayFault>
        requires after_start { self.old.start ≤ end }
        requires before_next { end ≤ next }
        requires within { next ≤ self.old.filled }
        requires short { end ≤ self.old.start + 4096 }
        ensures too_long { IfErr result (λ fault. (count : ℕ) → (reads_failed fault count ≡ count) × (writes_failed fault count ≡ count)) }
        ensures goes_on { IfOk result (λ more. IsTrue more → self.old.octets < self.new.octets) }
        ensures taken { Takes result self.old self.new end next }
    {
        let octets = (next - self.start) as u64;
        if octets == 0 {
            return Ok(false);
        }
        if octets > LONGEST_SCRIPT - self.octets {
            return Err(self.too_long());
        }
        self.end = end;
        self.next = next;
        self.number += 1;
        self.octets += octets;
        Ok(true)
    }

    /// The fault of a line after the current one, or of a script, that is too long.
    fn too_long(&self) -> PlayFault
        ensures reads { (count : ℕ) → reads_failed result count ≡ count }
        ensures writes { (count : ℕ) → writes_failed result count ≡ count }
        ensures fault { result ≡ too_long_after self.now }
    {
        PlayFault::Script {
            line: self.number + 1,
            kind: FaultKind::TooLong,
        }
    }
}

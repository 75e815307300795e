//! A clock that is restored from its image.

ghost use Rattle.std.specs.Prelude.{◌≡◌, ◌∷◌, ◌++◌, ℕ, List, ◌<◌, true, false, IfOk, IfErr, IfSome, IfNone, IsSome, OnOk, OnErr};
ghost use Rattle.lapd_clock.specs.Given.{lengths_of};
ghost use Rattle.lapd_clock.specs.Image.{lengths, timer, IsNoImage, IsRead};
ghost use Rattle.lapd_clock.specs.Restoring.{with_held, AreFree, HasNoHead, HasNoLines, HasRanks, IsFree, IsHead, IsTimer, word, ReadsLine, ReadsLines, ReadsTimer};
ghost use Rattle.lapd_clock.specs.Timer.{first_out_of_range, AreInRange, Timer as Which};
ghost use Rattle.lapd_clock.specs.declared.fault.ImageFault.TheVariants as faults;
ghost use Rattle.lapd_image.specs.Numbers.{list_of};
ghost use Rattle.lapd_image.specs.Reads.{HasNone, IsReadAs};

use super::Clock;
use super::saved::HEAD;
use crate::fault::ImageFault;
use crate::held::Held;
use crate::lengths::Lengths;
use crate::timers::NEVER;
use lapd_frame::{LAST_TEI, Service, Timer};
use lapd_image::{BadImage, Reader};
use std::alloc::Global;

/// What stands at the front of an image.
#[derive(Drop)]
struct Head {
    lines: usize,
    terminals: usize,
    lengths: Lengths,
}

impl Clock {
    /// Starts the clock of an image. It takes memory as a start.
    ///
    /// # Errors
    ///
    /// [`ImageFault::BadImage`] if these octets are the image of no clock that may be saved; and
    /// [`ImageFault::OutOfMemory`] if there is no memory for its places.
    pub fn restore(alloc: Global, octets: &[u8]) -> Result<Clock, ImageFault>
        ensures read { IfOk result (IsRead octets.now) }
        ensures none { IfErr result (λ fault. fault ≡ faults.BadImage → IsNoImage octets.now) }
    {
        let mut reader = Reader::new(octets);
        let Ok(head) = read_head(&mut reader) else {
            return Err(ImageFault::BadImage);
        };
        let Ok(mut clock) = Clock::start_with(alloc, head.lines, head.terminals, head.lengths)
        else {
            return Err(ImageFault::OutOfMemory);
        };
        if clock.read_lines(&mut reader).is_err() || !reader.is_done() {
            return Err(ImageFault::BadImage);
        }
        Ok(clock)
    }

    // The timers of all lines, of a clock on which none runs.
    fn read_lines(&mut self, reader: &mut Reader<'_>) -> Result<(), BadImage>
        ensures read { OnOk result (ReadsLines reader.old reader.new self.old self.new) }
        ensures none { OnErr result (HasNoLines reader.old self.old) }
    {
        for line in 0..self.lines {
            self.read_line(line, reader)?;
        }
        Ok(())
    }

    // The list of the timers of a line.
    fn read_line(&mut self, line: usize, reader: &mut Reader<'_>) -> Result<(), BadImage>
        requires { line < self.old.lines }
        ensures read { OnOk result (ReadsLine line reader.old reader.new self.old self.new) }
        ensures none { OnErr result (HasNone (list_of timer) (AreFree self.old line) reader.old) }
        ensures lines { self.new.lines ≡ self.old.lines }
    {
        let count = reader.octet()?;
        for _ in 0..count {
            self.read_timer(line, reader)?;
        }
        Ok(())
    }

    // A timer of a line, which does not run yet and has a place there.
    fn read_timer(&mut self, line: usize, reader: &mut Reader<'_>) -> Result<(), BadImage>
        requires { line < self.old.lines }
        ensures read { OnOk result (ReadsTimer line reader.old reader.new self.old self.new) }
        ensures none { OnErr result (HasNone timer (IsFree self.old line) reader.old) }
        ensures lines { self.new.lines ≡ self.old.lines }
    {
        let held = read_held(reader)?;
        if self.hold(line, held) {
            Ok(())
        } else {
            Err(BadImage)
        }
    }

    // Starts a timer of a line, if it does not run and has a place there.
    fn hold(&mut self, line: usize, held: Held) -> bool
        requires line { line < self.old.lines }
        requires timer { IsTimer held }
        ensures free { result ≡ true → IsFree self.old line held }
        ensures after { result ≡ true → self.new ≡ with_held self.old line held }
        ensures refused { result ≡ false → IsFree self.old line held → ⊥ }
        ensures lines { self.new.lines ≡ self.old.lines }
    {
        if let Some(_place) = self.moments.find(line, held.timer) {
            return false;
        }
        let Some(place) = self.moments.free(line) else {
            return false;
        };
        self.moments.start(place, held.timer, held.moment);
        true
    }
}

// All that stands before the lines.
fn read_head(reader: &mut Reader<'_>) -> Result<Head, BadImage>
    ensures read { IfOk result (λ head. IsHead head.lines head.terminals (lengths_of head.lengths) reader.old reader.new) }
    ensures none { OnErr result (HasNoHead reader.old) }
{
    read_word(reader)?;
    let lines = reader.octet()?;
    let terminals = reader.octet()?;
    if lines < 1 || lines > 64 || terminals < 1 || terminals > 8 {
        return Err(BadImage);
    }
    let lengths = read_lengths(reader)?;
    Ok(Head {
        lines: usize::from(lines),
        terminals: usize::from(terminals),
        lengths,
    })
}

// The word at the front, the version, and the kind.
fn read_word(reader: &mut Reader<'_>) -> Result<(), BadImage>
    ensures read { OnOk result (reader.old ≡ word ++ reader.new) }
    ensures none { OnErr result ((rest : List ℕ) → reader.old ≡ word ++ rest → ⊥) }
{
    read_that(reader, HEAD[0])?;
    read_that(reader, HEAD[1])?;
    read_that(reader, HEAD[2])?;
    read_that(reader, HEAD[3])?;
    read_that(reader, HEAD[4])?;
    read_that(reader, HEAD[5])
}

// This octet.
fn read_that(reader: &mut Reader<'_>, wanted: u8) -> Result<(), BadImage>
    ensures read { OnOk result (reader.old ≡ wanted ∷ reader.new) }
    ensures none { OnErr result ((rest : List ℕ) → reader.old ≡ wanted ∷ rest → ⊥) }
{
    let octet = reader.octet()?;
    if octet == wanted {
        Ok(())
    } else {
        Err(BadImage)
    }
}

// How long timers run.
fn read_lengths(reader: &mut Reader<'_>) -> Result<Lengths, BadImage>
    ensures read { IfOk result (λ given. IsReadAs lengths AreInRange (lengths_of given) reader.old reader.new) }
    ensures none { OnErr result (HasNone lengths AreInRange reader.old) }
{
    let t200 = reader.number(4)? as u32;
    let t203 = reader.number(4)? as u32;
    let t201 = reader.number(4)? as u32;
    let t202 = reader.number(4)? as u32;
    match lengths_in(t200, t203, t201, t202) {
        Some(lengths) => Ok(lengths),
        None => Err(BadImage),
    }
}

// These lengths, if they are in range.
fn lengths_in(t200: u32, t203: u32, t201: u32, t202: u32) -> Option<Lengths>
    ensures given { IfSome result (λ given. lengths_of given ≡ record { t200 = t200; t203 = t203; t201 = t201; t202 = t202 }) }
    ensures none { IfNone result (IsSome (first_out_of_range (record { t200 = t200; t203 = t203; t201 = t201; t202 = t202 }))) }
{
    let lengths = Lengths::new(t200, t203, t201).ok()?;
    lengths.with_t202(t202).ok()
}

// A timer, and when it falls due.
fn read_held(reader: &mut Reader<'_>) -> Result<Held, BadImage>
    ensures read { IfOk result (λ held. IsReadAs timer IsTimer held reader.old reader.new) }
    ensures none { OnErr result (HasNone timer IsTimer reader.old) }
{
    let which = reader.octet()?;
    let tei = reader.octet()?;
    let service = reader.octet()?;
    let moment = reader.number(8)?;
    let timer = timer_of(which, tei, service).ok_or(BadImage)?;
    if moment == NEVER {
        return Err(BadImage);
    }
    Ok(Held { moment, timer })
}

// The timer of these ranks.
fn timer_of(which: u8, tei: u8, service: u8) -> Option<Timer>
    ensures some { IfSome result (HasRanks which tei service) }
    ensures none { IfNone result ((t : Which) → HasRanks which tei service t → ⊥) }
{
    let of = match service {
        0 => Service::Call,
        1 => Service::Packet,
        _ => return None,
    };
    match which {
        0 if tei <= LAST_TEI => Some(Timer::T200(of, tei)),
        1 if tei <= LAST_TEI => Some(Timer::T203(of, tei)),
        2 if tei == 0 && service == 0 => Some(Timer::T201),
        3 if tei == 0 && service == 0 => Some(Timer::T202),
        _ => None,
    }
}

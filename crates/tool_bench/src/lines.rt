//! A card whose lines all bring the same octets.

ghost use Rattle.std.specs.Prelude.{◌<◌};
ghost use Rattle.lapd_card.specs.Card.{line_count};

use crate::done::Done;
use crate::fault::Fault;
use crate::sender::N201;
use crate::terminal::Terminal;
use lapd_card::{Card, Config, Request};
use lapd_frame::Service;
use lapd_store::SlabShelf;
use std::alloc::{AllocError, Global};

/// The TEI of the terminal on each line.
pub const TEI: u8 = 64;

/// A SABME command of it: it establishes the link, or does so again.
pub const SABME: [u8; 3] = [0x00, 0x81, 0x7F];

/// How many slots a card has for each of its lines.
const SLOTS: u16 = 8;

/// How many octets are pulled for a frame of 64 octets of information.
const PULLED: usize = 80;

/// What an I-frame carries.
pub const INFORMATION: [u8; 64] = [0x5A; 64];

/// What the terminals do.
#[derive(Clone, Copy)]
pub enum Traffic {
    /// Flags alone.
    Idle,
    /// Flags alone, of which each is followed by one that is pulled.
    Turns,
    /// I-frames with 64 octets of information, of which each octet is followed by one that is pulled.
    Inward,
    /// They acknowledge the I-frames with 64 octets that layer 3 asks for, all of them pulled.
    Outward,
    /// An RR command with P 1 over and over, answered by pulls.
    Polls,
    /// A SABME over and over, answered by no pull.
    Sabme,
    /// Frames with a wrong check.
    Faulty,
}

/// The configuration of a card with so many lines.
pub fn config(lines: u16) -> Config {
    Config {
        lines,
        slots: lines.saturating_mul(SLOTS),
        n201: N201,
        ..Config::USUAL
    }
}

/// Does so many rounds of traffic on so many lines: 128 frames on each of them, or 1,024 flags.
pub fn exchange(alloc: Global, traffic: Traffic, lines: u16, rounds: u32) -> Result<Done, Fault> {
    let mut card = started(alloc, lines)?;
    let texts = texts_of(alloc, traffic)?;
    let mut done = Done::new();
    for _ in 0..rounds {
        for text in &texts {
            if let Traffic::Outward = traffic {
                ask(&mut card, &INFORMATION);
                pull_all(&mut card, &mut done);
            }
            bring(&mut card, text, traffic.is_answered(), &mut done);
        }
        done.count(0, 0, card.stored());
    }
    Ok(done)
}

impl Traffic {
    // Whether each octet that comes is followed by one that is pulled.
    fn is_answered(self) -> bool {
        matches!(self, Traffic::Turns | Traffic::Inward | Traffic::Polls)
    }
}

/// A card with so many lines, with a terminal on each and its link established.
pub fn started(alloc: Global, lines: u16) -> Result<Card<SlabShelf>, Fault> {
    let config = config(lines);
    let shelf = SlabShelf::start(alloc, u32::from(config.slots), N201)?;
    let mut card = Card::start(alloc, config, shelf)?;
    establish(alloc, &mut card)?;
    Ok(card)
}

/// Puts the terminal on each line, and has it establish its link.
fn establish(alloc: Global, card: &mut Card<SlabShelf>) -> Result<(), Fault> {
    for line in 0..card.lines() {
        if line < card.lines() {
            let _ = card.request(line, Request::Assign(TEI));
        }
    }
    let mut terminal = Terminal::start(alloc)?;
    terminal.send(&SABME, &[])?;
    let mut done = Done::new();
    bring(card, &terminal.line()?, true, &mut done);
    Ok(())
}

/// What a terminal sends in a round, in pieces.
fn texts_of(alloc: Global, traffic: Traffic) -> Result<Vec<Vec<u8>>, Fault> {
    let mut texts = Vec::new(alloc);
    match traffic {
        Traffic::Idle | Traffic::Turns => texts.push(vec![in alloc; 0x7E; 1024]?)?,
        Traffic::Inward => texts.push(numbered(alloc)?)?,
        Traffic::Outward => {
            for number in 0..128u8 {
                let next = (number + 1) % 128;
                texts.push(repeated(alloc, [0x02, 0x81, 0x01, 2 * next], 1)?)?;
            }
        }
        Traffic::Polls => texts.push(repeated(alloc, [0x00, 0x81, 0x01, 0x01], 128)?)?,
        Traffic::Sabme => texts.push(repeated_sabme(alloc)?)?,
        Traffic::Faulty => texts.push(faulty(alloc)?)?,
    }
    Ok(texts)
}

/// I-frames with each of the 128 numbers.
fn numbered(alloc: Global) -> Result<Vec<u8>, Fault> {
    let mut terminal = Terminal::start(alloc)?;
    for number in 0..128u8 {
        terminal.send(&[0x00, 0x81, 2 * number, 0x00], &INFORMATION)?;
    }
    Ok(terminal.line()?)
}

/// The same frame so many times.
fn repeated(alloc: Global, head: [u8; 4], times: u8) -> Result<Vec<u8>, Fault> {
    let mut terminal = Terminal::start(alloc)?;
    for _ in 0..times {
        terminal.send(&head, &[])?;
    }
    Ok(terminal.line()?)
}

fn repeated_sabme(alloc: Global) -> Result<Vec<u8>, Fault> {
    let mut terminal = Terminal::start(alloc)?;
    for _ in 0..128 {
        terminal.send(&SABME, &[])?;
    }
    Ok(terminal.line()?)
}

/// An RR frame whose check is not 5555, with that check.
fn faulty(alloc: Global) -> Result<Vec<u8>, AllocError> {
    let mut text = Vec::new(alloc);
    for _ in 0..128 {
        text.extend_from_slice(&[0x7E, 0x00, 0x81, 0x01, 0x01, 0x55, 0x55])?;
    }
    Ok(text)
}

/// Hands these octets to each line, octet by octet, and pulls one of each line after each of them where that is asked.
pub fn bring(card: &mut Card<SlabShelf>, text: &[u8], is_answered: bool, done: &mut Done) {
    for octet in text {
        for line in 0..card.lines() {
            if line < card.lines() {
                let report = card.octet(line, *octet);
                let frames = u64::from(report.delivered.is_some() || report.cause.is_some());
                done.count(1, frames, 0);
            }
            if is_answered && line < card.lines() {
                pull(card, line, done);
            }
        }
    }
}

/// Asks each line to send contents.
pub fn ask(card: &mut Card<SlabShelf>, contents: &[u8]) {
    for line in 0..card.lines() {
        if line < card.lines() {
            let _ = card.request(line, Request::Data(Service::Call, TEI, contents));
        }
    }
}

/// Pulls as many octets of each line as a frame takes at most.
fn pull_all(card: &mut Card<SlabShelf>, done: &mut Done) {
    for line in 0..card.lines() {
        for _ in 0..PULLED {
            if line < card.lines() {
                pull(card, line, done);
            }
        }
    }
}

fn pull(card: &mut Card<SlabShelf>, line: usize, done: &mut Done)
    requires { line < line_count card.old }
{
    let pulled = card.pull(line);
    done.count(1, u64::from(pulled.begun), 0);
    done.add(u64::from(pulled.octet));
}

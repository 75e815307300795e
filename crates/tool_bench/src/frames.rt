//! A card of frames, on whose lines the same frames come and go.

ghost use Rattle.std.specs.Prelude.{◌≤◌, ◌^◌};

use crate::clocks::carry_out;
use crate::done::Done;
use crate::fault::Fault;
use crate::lines::{INFORMATION, SABME, TEI, config};
use crate::sender::N201;
use lapd_card::{BareReport, FrameCard, NextFrame, Request};
use lapd_clock::Clock;
use lapd_frame::Service;
use lapd_store::SlabShelf;
use std::alloc::Global;

/// An RR command of the terminal with P 1.
const POLL: [u8; 4] = [0x00, 0x81, 0x01, 0x01];

/// What comes and goes.
#[derive(Clone, Copy)]
pub enum Whole {
    /// A poll comes, and its answer is taken.
    Polls,
    /// The same, with a clock: all orders for timers are carried out on it, and it is asked what is due.
    Timed,
    /// An I-frame with 64 octets of information comes and is handed on, and its acknowledgement is taken.
    Came,
    /// Layer 3 asks for an I-frame with 64 octets of information, it is taken, and its acknowledgement comes.
    Gone,
}

/// A card of frames, and the octets of the frames that come and go.
#[derive(Drop)]
struct Frames {
    card: FrameCard<SlabShelf>,
    clock: Clock,
    /// An I-frame of the terminal.
    comes: [u8; 68],
    /// The frame that was taken last.
    taken: [u8; 264],
    done: Done,
}

/// Does so many rounds of 128 frames on each of so many lines.
pub fn serve(alloc: Global, whole: Whole, lines: u16, rounds: u32) -> Result<Done, Fault> {
    let mut frames = started(alloc, lines)?;
    for round in 0..rounds {
        for number in 0..128u8 {
            frames.turn(whole, number, u64::from(round));
        }
        frames.done.count(0, 0, frames.card.stored());
    }
    Ok(frames.done)
}

/// Asks in so many rounds, 128 times in each, on which of so many lines a frame waits, while none does.
pub fn ask(alloc: Global, lines: u16, rounds: u32) -> Result<Done, Fault> {
    let mut frames = started(alloc, lines)?;
    for _ in 0..rounds {
        for from in 0..128 {
            let is_quiet = frames.card.next_waiting(from).is_none();
            frames.done.count(0, u64::from(is_quiet), 0);
        }
    }
    Ok(frames.done)
}

/// A card with so many lines, with a terminal on each and its link established.
fn started(alloc: Global, lines: u16) -> Result<Frames, Fault> {
    let config = config(lines);
    let shelf = SlabShelf::start(alloc, u32::from(config.slots), N201)?;
    let card = FrameCard::start(alloc, config, shelf)?;
    let clock = Clock::start(alloc, card.lines().clamp(1, 64), 8)?;
    let mut frames = Frames {
        card,
        clock,
        comes: [0x5A; 68],
        taken: [0; 264],
        done: Done::new(),
    };
    frames.comes[0] = 0x00;
    frames.comes[1] = 0x81;
    frames.comes[3] = 0x00;
    frames.establish();
    Ok(frames)
}

impl Frames {
    /// Puts the terminal on each line, and has it establish its link.
    fn establish(&mut self) {
        for line in 0..self.card.lines() {
            self.request(line, Request::Assign(TEI));
            self.hear(line, &SABME);
            self.take(line);
        }
        self.done = Done::new();
    }

    /// A frame comes or goes on each line, and its answer.
    fn turn(&mut self, whole: Whole, number: u8, now: u64)
        requires { now ≤ 2 ^ 63 }
    {
        for line in 0..self.card.lines() {
            let is_one = match whole {
                Whole::Polls => self.poll(line),
                Whole::Timed => self.timed_poll(line, now),
                Whole::Came => self.come(line, number),
                Whole::Gone => self.go(line, number),
            };
            self.done.count(0, u64::from(is_one), 0);
        }
    }

    fn poll(&mut self, line: usize) -> bool {
        self.hear(line, &POLL);
        self.take(line)
    }

    fn timed_poll(&mut self, line: usize, now: u64) -> bool
        requires { now ≤ 2 ^ 63 }
    {
        if line < self.card.lines() {
            let mut report = BareReport::nothing();
            self.card.frame(line, &POLL, &mut report);
            carry_out(&mut self.clock, line, report.orders(), now);
            self.done.count(POLL.len(), 0, 0);
        }
        let is_none = self.clock.due(now).is_none();
        self.take_timed(line, now) && is_none
    }

    fn come(&mut self, line: usize, number: u8) -> bool {
        self.comes[2] = number.wrapping_mul(2);
        let is_handed_on = self.bring(line);
        self.take(line);
        is_handed_on
    }

    fn go(&mut self, line: usize, number: u8) -> bool {
        self.request(line, Request::Data(Service::Call, TEI, &INFORMATION));
        let is_taken = self.take(line);
        let next = number.wrapping_add(1).wrapping_mul(2);
        self.hear(line, &[0x02, 0x81, 0x01, next]);
        is_taken
    }

    /// Asks for something at a line.
    fn request(&mut self, line: usize, request: Request<'_>) {
        if line < self.card.lines() {
            let mut report = BareReport::nothing();
            let _ = self.card.request(line, request, &mut report);
        }
    }

    /// Hands a frame to a line.
    fn hear(&mut self, line: usize, octets: &[u8]) {
        if line < self.card.lines() {
            let mut report = BareReport::nothing();
            self.card.frame(line, octets, &mut report);
            self.done.count(octets.len(), 0, 0);
        }
    }

    /// Hands the I-frame to a line, and answers whether it handed its information on.
    fn bring(&mut self, line: usize) -> bool {
        if line >= self.card.lines() {
            return false;
        }
        let mut report = BareReport::nothing();
        self.card.frame(line, &self.comes, &mut report);
        self.done.count(self.comes.len(), 0, 0);
        report.has_contents()
    }

    /// Takes the next frame of a line, and answers whether there was one.
    fn take(&mut self, line: usize) -> bool {
        self.take_with(line).is_some()
    }

    /// The same, and carries out its orders.
    fn take_timed(&mut self, line: usize, now: u64) -> bool
        requires { now ≤ 2 ^ 63 }
    {
        let Some(next) = self.take_with(line) else {
            return false;
        };
        carry_out(&mut self.clock, line, next.orders(), now);
        true
    }

    fn take_with(&mut self, line: usize) -> Option<NextFrame> {
        if line >= self.card.lines() {
            return None;
        }
        let Ok(Some(next)) = self.card.next_frame(line, &mut self.taken) else {
            return None;
        };
        self.done.count(next.length, 0, 0);
        self.done
            .add(u64::from(self.taken[2]) + u64::from(self.taken[3]));
        Some(next)
    }
}

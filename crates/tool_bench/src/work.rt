//! The kinds of work.

ghost use Rattle.std.specs.Prelude.{◌≤◌};

use crate::busy::busy;
use crate::clocks::{Timed, tick};
use crate::done::Done;
use crate::fault::Fault;
use crate::frames::{Whole, ask, serve};
use crate::line::{ROUND, framed, in_no_order, information, repeated};
use crate::lines::{Traffic, exchange};
use crate::sender::{N201, Sender};
use crate::shelves::{Shelves, keep};
use crate::size::Size;
use lapd_bits::{Deframer, Heard, fcs};
use std::alloc::Global;

/// The octets of information of a short frame, which has 20 octets with its check.
const SHORT: usize = 14;

/// The same of a long frame of 260 octets.
const LONG: usize = 254;

/// The octets over which a frame check is made.
const CHECKED: usize = 260;

/// One kind of work.
#[derive(Clone, Copy)]
pub enum Work {
    /// The frame check over 260 octets.
    Check,
    /// A deframer on frames of 20 octets, one flag between them.
    HearShort,
    /// The same on frames of 260 octets.
    HearLong,
    /// On octets in no order.
    HearShuffled,
    /// On flags alone.
    HearFlags,
    /// On 1s alone.
    HearOnes,
    /// A framer of frames of 20 octets, one flag between them.
    SendShort,
    /// The same of frames of 260 octets.
    SendLong,
    /// A card with so many lines.
    Card(Traffic, u16),
    /// A card of frames, with so many lines.
    Frames(Whole, u16),
    /// A card of frames, on which no frame waits on any of so many lines.
    Waiting(u16),
    /// A card with 64 busy lines.
    Busy,
    /// A clock of so many lines.
    Clock(Timed, u16),
    /// Contents that are put on a shelf, lent and released.
    Keep(Shelves, Size),
}

/// All of them, each with its word on the command line.
pub fn works() -> &'static [(&'static str, Work)] {
    &WORKS
}

const WORKS: [(&str, Work); 43] = [
    ("check", Work::Check),
    ("hear-short", Work::HearShort),
    ("hear-long", Work::HearLong),
    ("hear-shuffled", Work::HearShuffled),
    ("hear-flags", Work::HearFlags),
    ("hear-ones", Work::HearOnes),
    ("send-short", Work::SendShort),
    ("send-long", Work::SendLong),
    ("idle-1", Work::Card(Traffic::Idle, 1)),
    ("idle-64", Work::Card(Traffic::Idle, 64)),
    ("turns-1", Work::Card(Traffic::Turns, 1)),
    ("turns-64", Work::Card(Traffic::Turns, 64)),
    ("frames-in-1", Work::Card(Traffic::Inward, 1)),
    ("frames-in-64", Work::Card(Traffic::Inward, 64)),
    ("frames-out-1", Work::Card(Traffic::Outward, 1)),
    ("frames-out-64", Work::Card(Traffic::Outward, 64)),
    ("polls-1", Work::Card(Traffic::Polls, 1)),
    ("polls-64", Work::Card(Traffic::Polls, 64)),
    ("sabme-1", Work::Card(Traffic::Sabme, 1)),
    ("sabme-64", Work::Card(Traffic::Sabme, 64)),
    ("faulty-1", Work::Card(Traffic::Faulty, 1)),
    ("faulty-64", Work::Card(Traffic::Faulty, 64)),
    ("frame-polls-1", Work::Frames(Whole::Polls, 1)),
    ("frame-polls-64", Work::Frames(Whole::Polls, 64)),
    ("clock-polls-1", Work::Frames(Whole::Timed, 1)),
    ("clock-polls-64", Work::Frames(Whole::Timed, 64)),
    ("frames-came-1", Work::Frames(Whole::Came, 1)),
    ("frames-came-64", Work::Frames(Whole::Came, 64)),
    ("frames-gone-1", Work::Frames(Whole::Gone, 1)),
    ("frames-gone-64", Work::Frames(Whole::Gone, 64)),
    ("waiting-1", Work::Waiting(1)),
    ("waiting-64", Work::Waiting(64)),
    ("busy-64", Work::Busy),
    ("clock-idle-1", Work::Clock(Timed::Idle, 1)),
    ("clock-idle-64", Work::Clock(Timed::Idle, 64)),
    ("clock-orders-1", Work::Clock(Timed::Orders, 1)),
    ("clock-orders-64", Work::Clock(Timed::Orders, 64)),
    ("raw-keep-8", Work::Keep(Shelves::Raw, Size::Narrow)),
    ("raw-keep-64", Work::Keep(Shelves::Raw, Size::Middle)),
    ("raw-keep-260", Work::Keep(Shelves::Raw, Size::Wide)),
    ("slab-keep-8", Work::Keep(Shelves::Slab, Size::Narrow)),
    ("slab-keep-64", Work::Keep(Shelves::Slab, Size::Middle)),
    ("slab-keep-260", Work::Keep(Shelves::Slab, Size::Wide)),
];

impl Work {
    /// Does so many rounds of it.
    pub fn run(self, alloc: Global, rounds: u32) -> Result<Done, Fault> {
        match self {
            Work::Check => check(alloc, rounds),
            Work::HearShort => hear(alloc, framed(alloc, SHORT), rounds),
            Work::HearLong => hear(alloc, framed(alloc, LONG), rounds),
            Work::HearShuffled => hear(alloc, in_no_order(alloc), rounds),
            Work::HearFlags => hear(alloc, repeated(alloc, 0x7E), rounds),
            Work::HearOnes => hear(alloc, repeated(alloc, 0xFF), rounds),
            Work::SendShort => send(alloc, SHORT, rounds),
            Work::SendLong => send(alloc, LONG, rounds),
            Work::Card(traffic, lines) => exchange(alloc, traffic, lines, rounds),
            Work::Frames(kind, lines) => serve(alloc, kind, lines, rounds),
            Work::Waiting(lines) => ask(alloc, lines, rounds),
            Work::Busy => busy(alloc, rounds),
            Work::Clock(timed, lines) => tick(alloc, timed, lines, rounds),
            Work::Keep(shelves, size) => keep(alloc, shelves, size, rounds),
        }
    }
}

/// Makes the frame checks of frames of 260 octets.
fn check(alloc: Global, rounds: u32) -> Result<Done, Fault> {
    let line = in_no_order(alloc)?;
    let mut done = Done::new();
    for _ in 0..rounds {
        done.count(line.len(), frames_checked(&line), 0);
    }
    Ok(done)
}

/// Counts the frames of 260 octets whose check is not 0.
fn frames_checked(line: &[u8]) -> u64 {
    let mut frames = 0u64;
    for frame in line.chunks(CHECKED) {
        if fcs(frame) != 0 {
            frames = frames.wrapping_add(1);
        }
    }
    frames
}

/// Hears a line over and over.
fn hear(alloc: Global, line: Result<Vec<u8>, Fault>, rounds: u32) -> Result<Done, Fault> {
    let line = line?;
    let mut deframer = Deframer::start(alloc, N201)?;
    let mut done = Done::new();
    for _ in 0..rounds {
        let frames = frames_heard(&mut deframer, &line);
        done.count(line.len(), frames, deframer.held());
    }
    Ok(done)
}

fn frames_heard(deframer: &mut Deframer, line: &[u8]) -> u64 {
    let mut frames = 0u64;
    for octet in line {
        if let Heard::Frame(_) = deframer.octet(*octet) {
            frames = frames.wrapping_add(1);
        }
    }
    frames
}

/// Sends frames with so many octets of information.
fn send(alloc: Global, len: usize, rounds: u32) -> Result<Done, Fault>
    requires { len ≤ 260 }
{
    let mut sender = Sender::start(alloc, information(), len)?;
    let mut done = Done::new();
    for _ in 0..rounds {
        let before = sender.frames();
        done.add(octets_sent(&mut sender));
        done.count(ROUND, sender.frames().wrapping_sub(before), sender.held());
    }
    Ok(done)
}

/// Gives a round of octets, and their sum.
fn octets_sent(sender: &mut Sender) -> u64 {
    let mut sum = 0u64;
    for _ in 0..ROUND {
        sum = sum.wrapping_add(u64::from(sender.octet()));
    }
    sum
}

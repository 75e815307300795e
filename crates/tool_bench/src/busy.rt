//! A card of 64 basic access lines that are all busy, both ways.

ghost use Rattle.std.specs.Prelude.{◌≤◌};

use crate::done::Done;
use crate::fault::Fault;
use crate::lines::{ask, bring, started};
use crate::size::Size;
use crate::terminal::Terminal;
use lapd_card::Card;
use lapd_store::SlabShelf;
use std::alloc::Global;

/// How many lines there are.
const LINES: u16 = 64;

/// How many turns a round has, a multiple of 128 numbers and of five lengths. In each the terminal of a line sends an
/// I-frame and is sent one.
const TURNS: usize = 640;

/// What an I-frame carries, and a longer one: no octets that want stuffing, so that a bit can be turned round and no flag
/// comes of it.
const CONTENTS: [u8; 260] = [0x5A; 260];

/// How long the contents are, turn by turn.
const SIZES: [Size; 5] = [
    Size::Narrow,
    Size::Short,
    Size::Middle,
    Size::Long,
    Size::Wide,
];

/// In one of so many turns the I-frame comes with a wrong check first,
const WRONG_IN: usize = 50;

/// and in one of so many an REJ before it, for which the last one that was sent is sent again.
const REJ_IN: usize = 100;

/// Which octet of a frame is turned wrong: one of its contents.
const WRONG_AT: usize = 8;

/// What a terminal sends in a round.
#[derive(Drop)]
struct Text {
    octets: Vec<u8>,
    /// Where each turn ends.
    ends: Vec<usize>,
}

/// Does so many rounds on 64 lines in turn, each octet that comes on a line followed by one that is pulled there. If a
/// round ends, the flags do not go on whole, so one thing more is dropped.
pub fn busy(alloc: Global, rounds: u32) -> Result<Done, Fault> {
    let mut card = started(alloc, LINES)?;
    let text = text_of(alloc)?;
    let mut done = Done::new();
    for _ in 0..rounds {
        send_round(&mut card, &text, &mut done);
        done.count(0, 0, card.stored());
    }
    Ok(done)
}

/// Has each line sent an I-frame and send one, turn by turn.
fn send_round(card: &mut Card<SlabShelf>, text: &Text, done: &mut Done) {
    let mut from = 0usize;
    for (turn, end) in text.ends.iter().enumerate() {
        ask(card, &CONTENTS[..size_of(turn)]);
        if let Some(octets) = text.octets.get(from..*end) {
            bring(card, octets, true, done);
        }
        from = *end;
    }
}

fn size_of(turn: usize) -> usize
    ensures { result ≤ 260 }
{
    SIZES[turn % 5].octets()
}

/// What a terminal sends in each turn. It acknowledges what it was sent in the turns before.
fn text_of(alloc: Global) -> Result<Text, Fault> {
    let mut terminal = Terminal::start(alloc)?;
    let mut ends = Vec::with_capacity(alloc, TURNS)?;
    let mut wrong = Vec::new(alloc);
    for turn in 0..TURNS {
        let number = 2 * (turn % 128) as u8;
        if turn % REJ_IN == 0 {
            terminal.send(&[0x00, 0x81, 0x09, number], &[])?;
        }
        let head = [0x00, 0x81, number, number];
        if turn % WRONG_IN == WRONG_IN / 2 {
            wrong.push(terminal.sent())?;
            terminal.send(&head, &CONTENTS[..size_of(turn)])?;
        }
        terminal.send(&head, &CONTENTS[..size_of(turn)])?;
        ends.push(terminal.sent())?;
    }
    let mut octets = terminal.line()?;
    for begun in &wrong {
        turn_round(&mut octets, *begun);
    }
    // The rest of the last flag is in the last turn.
    if let Some(end) = ends.last_mut() {
        *end = octets.len();
    }
    Ok(Text { octets, ends })
}

/// Turns a bit of a frame's contents round.
fn turn_round(octets: &mut [u8], begun: usize) {
    if let Some(octet) = octets.get_mut(begun.saturating_add(WRONG_AT)) {
        *octet ^= 0x04;
    }
}

//! Which links wait for room, as an image has them: by the numbers of links, where a card here has them by their TEIs.

ghost use Rattle.std.specs.Prelude.{◌≡◌, ◌<◌, length, map, take};
ghost use Rattle.lapd_card.specs.FrameCard.{line_count};
ghost use Rattle.lapd_card.specs.Kinds.{FrameCardStands};
ghost use Rattle.model_bits.specs.Bits.{number_of};
ghost use Rattle.model_card.specs.Card as machine;
ghost use Rattle.model_card.specs.Card.{line_at};
ghost use Rattle.lapd_c.specs.{AreMarked};
ghost use Rattle.lapd_c.specs.Waiting.{card_waits, is_waiting, line_waits, waits_by, AreAllMarked};

use crate::link_marks::LinkMarks;
use crate::plain::LINK_PLACES;
use crate::refused::Refused;
use lapd_card::FrameCard;
use lapd_store::RawShelf;
use lapd_timed::MOST_LINES;

/// As many links as a line can have.
const MOST_LINKS: usize = 16;

/// Of each line, bit 1 is 1 if the link of number 0 waits, and so on.
pub(crate) fn waits_of(card: &FrameCard<RawShelf>, refused: &Refused) -> [u16; MOST_LINES]
    ensures { (m : machine.Card) → FrameCardStands card.now m → map number_of (card_waits m refused.now) ≡ take m.config.lines result }
{
    let mut waits = [0; MOST_LINES];
    for line in 0..card.lines().min(MOST_LINES) {
        if let Some(links) = refused.of(line) {
            waits[line] = of_line(card, line, &links);
        }
    }
    waits
}

// The same of a line.
fn of_line(card: &FrameCard<RawShelf>, line: usize, links: &LinkMarks) -> u16
    requires { line < line_count card.now }
    ensures { (m : machine.Card) → FrameCardStands card.now m → result ≡ number_of (line_waits m.config (line_at line m) links.now) }
{
    let mut waits = 0;
    for behind in 0..MOST_LINKS {
        let waits_too = is_waiting(card, line, MOST_LINKS - 1 - behind, links);
        waits = 2 * waits + u16::from(waits_too);
    }
    waits
}

// Whether the link of a number waits.
fn is_waiting(card: &FrameCard<RawShelf>, line: usize, number: usize, links: &LinkMarks) -> bool
    requires { line < line_count card.now }
    ensures { (m : machine.Card) → FrameCardStands card.now m → result ≡ is_waiting (line_at line m) links.now number }
{
    match card.tei_at(line, number / 2) {
        Some(tei) => links.has(2 * tei + (number % 2) as u8),
        None => false,
    }
}

/// Marks the links that wait by their numbers, as [`waits_of`] tells them, of a card of which none is marked.
pub(crate) fn mark(refused: &mut Refused, card: &FrameCard<RawShelf>, waits: &[u16; MOST_LINES])
    requires { length refused.old ≡ line_count card.now }
    ensures { (m : machine.Card) → FrameCardStands card.now m → AreAllMarked m waits.now refused.new }
{
    for line in 0..card.lines().min(MOST_LINES) {
        refused.put(line, links_by(card, line, waits[line]));
    }
}

// The links of a line that wait by their numbers.
fn links_by(card: &FrameCard<RawShelf>, line: usize, waits: u16) -> LinkMarks
    requires { line < line_count card.now }
    ensures { (m : machine.Card) → FrameCardStands card.now m → AreMarked result (waits_by (line_at line m) waits) }
{
    let mut links = LinkMarks::none();
    for place in 0..LINK_PLACES {
        links.set(place, is_among(card, line, place, waits));
    }
    links
}

// Whether the link of a TEI is among those that wait by their numbers.
fn is_among(card: &FrameCard<RawShelf>, line: usize, place: u8, waits: u16) -> bool
    requires { line < line_count card.now }
    ensures { (m : machine.Card) → FrameCardStands card.now m → result ≡ waits_by (line_at line m) waits place }
{
    let Some(at) = card.place(line, place / 2) else {
        return false;
    };
    // A line has no more TEIs.
    if at >= MOST_LINKS / 2 {
        return false;
    }
    (waits >> (2 * at + usize::from(place % 2))) % 2 == 1
}

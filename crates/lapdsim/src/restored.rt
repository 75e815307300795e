//! What a card tells that is restored from its image, a line a fact, in the words of `tools/image`.

ghost use Rattle.std.specs.Prelude.{◌<◌};
ghost use Rattle.lapd_card.specs.FrameCard.{line_count};

use crate::words::{Link, Text};
use lapd_card::{AnyCard, Config, Counters, FrameCard, LinkCounts, Side};
use lapd_frame::{Reading, Service, Timer};
use lapd_store::RawShelf;
use lapd_timed::{CardTimers, ImageFault, Restored, restore};
use lapd_transcript::{CounterGroup, Page, Put, WriteTo};
use std::alloc::Global;

/// As many timers as a card may run: one for each link, and one of each line's own.
const MOST_TIMERS: usize = 64 * (16 + 1);

/// What the card of an image tells of itself.
///
/// # Errors
///
/// Those of [`restore`].
pub(crate) fn in_words(alloc: Global, image: &[u8]) -> Result<Vec<u8>, ImageFault> {
    let restored = restore(alloc, image)?;
    let mut text = Text::new(alloc);
    put_restored(&mut text, restored);
    Ok(text.whole()?)
}

fn put_restored(text: &mut Text, restored: Restored) {
    let Restored {
        card,
        waits,
        timers,
    } = restored;
    put_head(text, &card, timers.is_some());
    let frames = card.frames();
    for number in 0..frames.config().lines {
        let line = usize::from(number);
        put_places(text, frames, line);
        put_links(text, frames, line);
        put_waits(text, frames, line, waits.get(line).copied().unwrap_or(0));
        if put_counters(text.lines(), number, frames.counters(line)).is_err() {
            text.cut();
        }
    }
    if let Some(timers) = timers {
        put_clock(text, frames, timers);
    }
}

/// The version and the kind, and the card line of a script that starts such a card.
fn put_head(text: &mut Text, card: &AnyCard, timed: bool) {
    let (kind, word) = match card {
        AnyCard::Octets(_) => ("octets", "card"),
        AnyCard::Frames(_) => ("frames", "frames"),
    };
    text.word("image version 1 of");
    text.word(kind);
    if timed {
        text.word("with timers");
    }
    text.end();
    text.word(word);
    put_config(text, card.frames().config());
}

/// The words of a card line after the first.
fn put_config(text: &mut Text, config: &Config) {
    let numbers = [
        config.lines,
        config.terminals,
        config.k,
        config.queue,
        config.unit_queue,
        config.control,
        config.slots,
        config.n201,
        config.n200,
        config.k16,
    ];
    for number in numbers {
        text.number(u64::from(number));
    }
    if config.side == Side::User {
        text.word("user");
        if let Some(seed) = config.seed {
            text.number(u64::from(seed));
        }
    }
    text.pair("sapi", u64::from(config.sapi));
    if config.reading == Reading::AnnexB {
        text.word("annex-b");
    }
    text.end();
}

/// What is at each place of a line's TEIs.
fn put_places(text: &mut Text, card: &FrameCard<RawShelf>, line: usize)
    requires { line < line_count card.now }
{
    for place in 0..usize::from(card.config().terminals) {
        text.begin(line, "place");
        text.number(place as u64);
        match card.tei_at(line, place) {
            Some(tei) => text.pair("tei", u64::from(tei)),
            None => text.word("free"),
        }
        text.end();
    }
}

/// How many links a line may have.
fn link_count(card: &FrameCard<RawShelf>) -> usize {
    2 * usize::from(card.config().terminals)
}

/// The link of a number: twice the place of its TEI, and 1 more if it is one of the second service. None if the place is free.
fn link_at(card: &FrameCard<RawShelf>, line: usize, number: usize) -> Option<Link>
    requires { line < line_count card.now }
{
    let tei = card.tei_at(line, number / 2)?;
    let service = if number % 2 == 0 {
        Service::Call
    } else {
        Service::Packet
    };
    Some(Link { service, tei })
}

/// Of each link its state and V(A), how many contents wait, and what was counted of it.
fn put_links(text: &mut Text, card: &FrameCard<RawShelf>, line: usize)
    requires { line < line_count card.now }
{
    for number in 0..link_count(card) {
        let Some(link) = link_at(card, line, number) else {
            continue;
        };
        let Link { service, tei } = link;
        if let Some(state) = card.state(line, service, tei) {
            put_state(text, card, line, link, state);
        }
        if let Some(counts) = card.link_counts(line, service, tei) {
            put_counts(text, line, link, counts);
        }
    }
}

fn put_state(text: &mut Text, card: &FrameCard<RawShelf>, line: usize, link: Link, state: u8)
    requires { line < line_count card.now }
{
    let name = match state {
        4 => "tei-assigned",
        5 => "awaiting-establishment",
        6 => "awaiting-release",
        7 => "established",
        _ => "timer-recovery",
    };
    let Ok(room) = card.room(line, link.service, link.tei) else {
        return;
    };
    let contents = card.config().queue.saturating_sub(u16::from(room.queue));
    text.begin_of(line, "link", link);
    text.pair("state", u64::from(state));
    text.word(name);
    text.pair("va", u64::from(room.va));
    text.end();
    text.begin_of(line, "waiting", link);
    text.pair("contents", u64::from(contents));
    text.end();
}

/// What was counted of a link, where that is not 0.
fn put_counts(text: &mut Text, line: usize, link: Link, counts: LinkCounts) {
    if counts == LinkCounts::none() {
        return;
    }
    text.begin_of(line, "counted", link);
    let names = [
        ("sent-again", counts.sent_again),
        ("t200-expired", counts.t200_expired),
        ("rejects-sent", counts.rejects_sent),
        ("rejects-received", counts.rejects_received),
        ("established", counts.established),
    ];
    for (name, count) in names {
        if count > 0 {
            text.pair(name, u64::from(count));
        }
    }
    text.end();
}

/// The links of a line that wait for room.
fn put_waits(text: &mut Text, card: &FrameCard<RawShelf>, line: usize, waits: u16)
    requires { line < line_count card.now }
{
    let mut rest = waits;
    for number in 0..link_count(card) {
        if rest % 2 == 1 {
            if let Some(link) = link_at(card, line, number) {
                text.begin_of(line, "waits-for-room", link);
                text.end();
            }
        }
        rest /= 2;
    }
}

/// What was counted of a line, as a script shows it.
fn put_counters(text: &mut Vec<u8>, line: u16, counters: &Counters) -> Put {
    let mut target = WriteTo::new(text);
    let mut page = Page::new(&mut target);
    page.put_counters(line, CounterGroup::Line, counters)?;
    page.put_counters(line, CounterGroup::Messages, counters)?;
    page.send()
}

/// The moment, when the state of each link changed, and the timers that run.
fn put_clock(text: &mut Text, card: &FrameCard<RawShelf>, timers: CardTimers) {
    text.pair("now", timers.now());
    text.end();
    for line in 0..card.lines() {
        put_changes(text, card, &timers, line);
    }
    put_timers(text, timers);
}

fn put_changes(text: &mut Text, card: &FrameCard<RawShelf>, timers: &CardTimers, line: usize)
    requires { line < line_count card.now }
{
    for number in 0..link_count(card) {
        if let Some(link) = link_at(card, line, number) {
            let changed = timers.changed_within(card, line, link.service, link.tei);
            text.begin_of(line, "changed", link);
            text.pair("at", changed.unwrap_or(0));
            text.end();
        }
    }
}

/// The timers that run, in the order in which they fall due: one after the other does so here. Those of moments after the last
/// one never do, and `never` has the first of these moments.
fn put_timers(text: &mut Text, mut timers: CardTimers) {
    for _ in 0..MOST_TIMERS {
        let Some(moment) = timers.next_moment() else {
            break;
        };
        if moment > timers.now() && !timers.go_to(moment) {
            text.pair("never", moment);
            text.end();
            break;
        }
        if let Some((line, timer)) = timers.due() {
            put_timer(text, line, timer, moment);
        }
    }
}

fn put_timer(text: &mut Text, line: usize, timer: Timer, moment: u64) {
    match timer {
        Timer::T200(service, tei) => text.begin_of(line, "t200", Link { service, tei }),
        Timer::T203(service, tei) => text.begin_of(line, "t203", Link { service, tei }),
        Timer::T201 => text.begin(line, "t201"),
        Timer::T202 => text.begin(line, "t202"),
    }
    text.pair("due", moment);
    text.end();
}

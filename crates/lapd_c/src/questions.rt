//! What a card answers about itself.

ghost use Rattle.std.specs.Prelude.{◌≡◌, ◌≤◌, ◌<◌, Some, None, IfSome, get_or};
ghost use Rattle.lapd_c.specs.{IsHandle, IsQuestion, limit_of, lines_of, link_counters_of, none_counted, of_any, plain_counters, Questioned, room_of, served_card, state_of, stored_of};
ghost use Rattle.lapd_c.specs.Statuses as status;
ghost use Rattle.lapd_card.specs.Kinds.{counters_of, line_count};

use crate::card::CardHandle;
use crate::lend::{lend, or_answer};
use crate::plain::{
    OK, PlainCounters, PlainLinkCounters, PlainRoom, REFUSED_NO_LINK, link_in, refusal_status,
};

/// The most lines of a card.
const MOST_LINES: usize = 64;

/// The state of the link of a service with a TEI, by its number in Q.921; 0 where the TEI is not on the line.
#[unsafe(no_mangle)]
pub extern "C" fn lapd_state(
    handle: &mut CardHandle,
    line: u32,
    service: u8,
    tei: u8,
    state: &mut u8,
) -> u32
    requires { IsHandle handle.old }
    ensures { Questioned of_any (Some line) (state_of line service tei) handle.old handle.new result state.old state.new }
{
    lend!(kept of handle, line);
    let (service, tei) = or_answer!(link_in(service, tei));
    *state = kept
        .timed
        .card()
        .frames()
        .state(line, service, tei)
        .unwrap_or(0);
    OK
}

/// How many octets the card stores now. A card of frames has none of frames on their way.
#[unsafe(no_mangle)]
pub extern "C" fn lapd_stored(handle: &mut CardHandle, octets: &mut u32) -> u32
    requires { IsHandle handle.old }
    ensures { Questioned of_any None stored_of handle.old handle.new result octets.old octets.new }
{
    lend!(kept of handle);
    *octets = kept.timed.card().stored();
    OK
}

/// How many octets the card stores at most.
#[unsafe(no_mangle)]
pub extern "C" fn lapd_limit(handle: &mut CardHandle, octets: &mut u32) -> u32
    requires { IsHandle handle.old }
    ensures { Questioned of_any None limit_of handle.old handle.new result octets.old octets.new }
{
    lend!(kept of handle);
    *octets = kept.timed.card().frames().limit();
    OK
}

/// How many lines the card has.
#[unsafe(no_mangle)]
pub extern "C" fn lapd_lines(handle: &mut CardHandle, lines: &mut u32) -> u32
    requires { IsHandle handle.old }
    ensures { Questioned of_any None lines_of handle.old handle.new result lines.old lines.new }
{
    lend!(kept of handle);
    *lines = kept.timed.card().lines().min(MOST_LINES) as u32;
    OK
}

/// The room of the link of a service with a TEI, and its V(A).
#[unsafe(no_mangle)]
pub extern "C" fn lapd_room(
    handle: &mut CardHandle,
    line: u32,
    service: u8,
    tei: u8,
    room: &mut PlainRoom,
) -> u32
    requires { IsHandle handle.old }
    ensures { Questioned of_any (Some line) (room_of line service tei) handle.old handle.new result room.old room.new }
{
    lend!(kept of handle, line);
    let (service, tei) = or_answer!(link_in(service, tei));
    match kept.timed.card().frames().room(line, service, tei) {
        Ok(is) => {
            *room = PlainRoom::of(is);
            OK
        }
        Err(why) => refusal_status(why),
    }
}

/// What was counted of a line since the card began.
#[unsafe(no_mangle)]
pub extern "C" fn lapd_counters(
    handle: &mut CardHandle,
    line: u32,
    counters: &mut PlainCounters,
) -> u32
    requires { IsHandle handle.old }
    ensures question { IsQuestion of_any handle.old handle.new result counters.old counters.new }
    ensures wrong_line { IfSome (served_card handle.old) (λ card. line_count card ≤ line → result ≡ status.wrong_line) }
    ensures told { IfSome (served_card handle.old) (λ card. line < line_count card
        → (result ≡ status.ok) × (counters.new ≡ plain_counters (get_or (counters_of card) line none_counted))) }
{
    lend!(kept of handle, line);
    *counters = PlainCounters::of(kept.timed.card().frames().counters(line));
    OK
}

/// What was counted of the link of a service with a TEI.
#[unsafe(no_mangle)]
pub extern "C" fn lapd_link_counters(
    handle: &mut CardHandle,
    line: u32,
    service: u8,
    tei: u8,
    counters: &mut PlainLinkCounters,
) -> u32
    requires { IsHandle handle.old }
    ensures { Questioned of_any (Some line) (link_counters_of line service tei) handle.old handle.new result counters.old counters.new }
{
    lend!(kept of handle, line);
    let (service, tei) = or_answer!(link_in(service, tei));
    let counts = or_answer!(
        kept.timed.card().frames().link_counts(line, service, tei),
        REFUSED_NO_LINK
    );
    *counters = PlainLinkCounters::of(counts);
    OK
}

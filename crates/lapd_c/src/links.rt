//! Which links a card has.

ghost use Rattle.std.specs.Prelude.{◌≡◌, ◌≢◌, ◌≤◌, ◌<◌, ◌⊎◌, IfSome};
ghost use Rattle.lapd_c.specs.{card_in, FirstFrom, FrameCardStands, IsHandle, IsNext, IsQuestion, NoneFrom, of_any, OfEach, WithLine};
ghost use Rattle.model_card.specs.Card as machine;
ghost use Rattle.lapd_c.specs.Statuses as status;

use crate::card::CardHandle;
use crate::lend::{lend, or_answer};
use crate::plain::{LINK_PLACES, NO_MORE_LINKS, OK, PlainLink, service_at};
use lapd_card::FrameCard;
use lapd_store::RawShelf;

/// Finds the first link of a line at or after `place`, and sets `place` to the one after it.
#[unsafe(no_mangle)]
pub extern "C" fn lapd_next_link(
    handle: &mut CardHandle,
    line: u32,
    place: &mut u8,
    link: &mut PlainLink,
) -> u32
    requires { IsHandle handle.old }
    ensures question { IsQuestion of_any handle.old handle.new result place.old place.new }
    ensures unwritten { result ≢ status.ok → link.new ≡ link.old }
    ensures wrong_line { OfEach of_any handle.old (λ m. (card_in m).config.lines ≤ line → result ≡ status.wrong_line) }
    ensures told { WithLine of_any line handle.old (λ m. ((result ≡ status.ok) × IsNext line (card_in m) place.old place.new link.new)
        ⊎ ((result ≡ status.no_more_links) × NoneFrom line (card_in m) place.old)) }
{
    lend!(kept of handle, line);
    let (found, state) = or_answer!(
        first_link(kept.timed.card().frames(), line, *place),
        NO_MORE_LINKS
    );
    *place = found + 1;
    *link = PlainLink::of(found, state);
    OK
}

// The place and the state of the first link from a place on.
fn first_link(card: &FrameCard<RawShelf>, line: usize, from: u8) -> Option<(u8, u8)>
    ensures within { IfSome result (λ found. found.0 < 254) }
    ensures first { (m : machine.Card) → FrameCardStands card.now m → FirstFrom line m from result }
{
    for place in from..LINK_PLACES {
        if let Some(state) = card.state(line, service_at(place), place / 2) {
            return Some((place, state));
        }
    }
    None
}

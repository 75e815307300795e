//! The messages of the terminals.

ghost use Rattle.std.specs.Prelude.{◌≡◌, ◌<◌, length, IfSome};
ghost use Rattle.std.specs.List.{list_any, position};
ghost use Rattle.model_teis.specs.network.Messages.{heard_in, is_last, names, responses_in, up_to};
ghost use Rattle.model_teis.specs.network.Rows.{is_among};

use crate::information::{ENTITY, NO_TEI, looked_at};
use crate::table::LOWEST;
use lapd_frame::Reading;
use model_teis::network::Heard;

// How many Ai a check response has at most: a limit of ours (profile).
const MOST_ACTIONS: usize = 64;

/// Which message the information of a UI frame is.
pub(crate) fn read(reading: Reading, information: &[u8]) -> Option<Heard>
    ensures { result ≡ heard_in reading information.now }
{
    let &[entity, high, low, kind, last] = looked_at(reading, information) else {
        return None;
    };
    if entity != ENTITY || last % 2 != 1 {
        return None;
    }
    let ri = u16::from_be_bytes([high, low]);
    let tei = last / 2;
    match kind {
        1 if tei == NO_TEI => Some(Heard::IdentityRequest { ri }),
        1 if tei >= LOWEST => Some(Heard::IdentityRequestOf { ri, tei }),
        5 => Some(Heard::IdentityCheckResponse { tei }),
        7 => Some(Heard::IdentityVerify { tei }),
        _ => None,
    }
}

/// Whether the TEI is among those of a check response, which may have more Ai than one (Q.921 clause 5.3.3.2).
#[tactic(auto, using(crate::proofs::Among::among, crate::proofs::Among::too_few))]
pub(crate) fn is_among(tei: u8, information: &[u8]) -> bool
    ensures { result ≡ is_among tei (responses_in information.now) }
{
    if information.len() < 4 {
        return false;
    }
    information[0] == ENTITY && information[3] == 5 && is_named(tei, &information[4..])
}

// Whether it is among the Ai up to the last, after which nothing is looked at.
fn is_named(tei: u8, actions: &[u8]) -> bool
    ensures { result ≡ is_among tei (up_to actions.now (position is_last actions.now)) }
{
    match last(actions) {
        Some(place) if place < MOST_ACTIONS => names(&actions[..place + 1], tei),
        _ => false,
    }
}

// The place of the first octet whose bit 1 is 1.
fn last(octets: &[u8]) -> Option<usize>
    ensures place { result ≡ position is_last octets.now }
    ensures within { IfSome result (λ place. place < length octets.now) }
{
    octets.iter().position(|octet| *octet % 2 == 1)
}

// Whether an Ai is this TEI.
fn names(actions: &[u8], tei: u8) -> bool
    ensures { result ≡ list_any (names tei) actions.now }
{
    actions.iter().any(|action| *action / 2 == tei)
}

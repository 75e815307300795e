//! Of which TEI the links are that an event may leave in another state.

ghost use Rattle.std.specs.Prelude.{◌≡◌, ◌/◌, slice_index, IfSome};
ghost use Rattle.lapd_card.specs.{heard_of, request_of};
ghost use Rattle.lapd_timed.specs.Named.{Names};
ghost use Rattle.lapd_timed.specs.Touches.{touched_by, touched_by_timer};

use lapd_card::Request;
use lapd_frame::{GROUP, Timer};
use model_bits::Heard;

/// That of a frame that comes, by its second octet; 0 of one that has none, which is of no link.
#[inline(always)]
pub(crate) fn tei_of_frame(octets: &[u8]) -> u8
    ensures { result ≡ slice_index octets.now 1 / 2 }
{
    match octets.get(1) {
        Some(second) => second >> 1,
        None => 0,
    }
}

/// That of what an octet has ended.
#[inline(always)]
pub(crate) fn tei_of_heard(heard: Heard<'_>) -> u8
    ensures { IfSome (heard_of heard.entry) (Names result) }
{
    match heard {
        Heard::Frame(octets) => tei_of_frame(octets),
        Heard::Overlong(head) => head[1] >> 1,
        Heard::Dropped(_) | Heard::Nothing => 0,
    }
}

/// That of a timer that expires.
#[inline(always)]
pub(crate) fn tei_of_timer(timer: Timer) -> u8
    ensures { result ≡ touched_by_timer timer }
{
    match timer {
        Timer::T200(_, tei) | Timer::T203(_, tei) => tei,
        Timer::T201 | Timer::T202 => GROUP,
    }
}

/// That of a request; none of unit data, which is of no link.
#[inline(always)]
pub(crate) fn tei_of_request(request: &Request<'_>) -> Option<u8>
    ensures { result ≡ touched_by (request_of request.now) }
{
    match request {
        Request::Establish(_, tei)
        | Request::Release(_, tei)
        | Request::Data(_, tei, _)
        | Request::SetBusy(_, tei)
        | Request::ClearBusy(_, tei)
        | Request::Deactivate(_, tei) => Some(*tei),
        Request::Unit(_, _, _) => None,
        _ => Some(GROUP),
    }
}

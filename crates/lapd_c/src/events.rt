//! What happens at a card of either kind: a timer that expires, a request.

ghost use Rattle.std.specs.Prelude.{◌≡◌, ◌≢◌, None};
ghost use Rattle.lapd_c.specs.{Called, card_of, expire_asked, IsHandle, named_in, refused_place, request_asked, served_card};
ghost use Rattle.lapd_c.specs.Statuses as status;

use crate::card::CardHandle;
use crate::lend::{lend, or_answer, within};
use crate::plain::{
    DATA, OK, PlainReport, PlainTimer, REFUSED_QUEUE_FULL, WRONG_CARD, refusal_status, request_in,
};
use lapd_card::BareReport;
use lapd_frame::LAST_TEI;

/// A timer of a line expired. One that does not run has no effect, and nothing is told.
#[unsafe(no_mangle)]
pub extern "C" fn lapd_expire(
    handle: &mut CardHandle,
    line: u32,
    timer: &PlainTimer,
    report: &mut PlainReport,
) -> u32
    requires { IsHandle handle.old }
    ensures called { Called (expire_asked line timer.now) handle.old handle.new result report.old report.new }
    ensures unchanged { result ≢ status.ok → card_of handle.new ≡ card_of handle.old }
{
    lend!(kept of handle);
    // The expiries of a card that keeps its own timers are its own.
    if kept.timed.is_timed() {
        return WRONG_CARD;
    }
    within!(line, kept.timed.card());
    let timer = or_answer!(timer.timer());
    let mut told = BareReport::nothing();
    kept.timed.expire(line, timer, &mut told);
    report.show(&told, None);
    kept.tell_reopened(line, None, report);
    OK
}

/// Asks for something at a line.
#[unsafe(no_mangle)]
pub extern "C" fn lapd_request(
    handle: &mut CardHandle,
    line: u32,
    request: u8,
    service: u8,
    tei: u8,
    contents: &[u8],
    report: &mut PlainReport,
) -> u32
    requires { IsHandle handle.old }
    ensures called { Called (request_asked line request service tei contents.now) handle.old handle.new result report.old report.new }
    ensures unchanged { result ≢ status.ok → served_card handle.new ≡ served_card handle.old }
{
    lend!(kept of handle, line);
    let asked = or_answer!(request_in(request, service, tei, contents));
    let mut told = BareReport::nothing();
    match kept.timed.request(line, asked, &mut told) {
        Ok(()) => {
            report.show(&told, None);
            kept.settle(line, named_in(request, tei), report);
            OK
        }
        Err(why) => {
            let status = refusal_status(why);
            kept.wait(line, refused_place(status, request, service, tei));
            status
        }
    }
}

// The TEI of a request of a link, or of one to remove a TEI.
fn named_in(request: u8, tei: u8) -> Option<u8>
    ensures { result ≡ named_in request tei }
{
    matches!(request, 1 | 2 | DATA | 6 | 8 | 9 | 10).then_some(tei)
}

// The place of the link whose queue had no room for what was to be sent.
fn refused_place(status: u32, request: u8, service: u8, tei: u8) -> Option<u8>
    ensures { result ≡ refused_place status request service tei }
{
    if status == REFUSED_QUEUE_FULL && request == DATA && tei <= LAST_TEI {
        return Some(if service == 0 { 2 * tei } else { 2 * tei + 1 });
    }
    None
}

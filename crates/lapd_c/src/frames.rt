//! What happens at a card of frames: a frame that comes, a fault in place of one, and the frame that goes next; and on which
//! lines one waits.

ghost use Rattle.std.specs.Prelude.{◌≡◌, ◌≢◌, ◌==◌, if◌then◌else◌, ◌≤◌, ◌<◌, length, Some, None, IfSome};
ghost use Rattle.lapd_c.specs.{Called, failed_asked, frame_asked, FramesStand, FramesWithRoom, IsFirstWaiting, IsGiven, IsHandle, next_at, next_frame_asked, of_frames, Questioned, waiting_from};
ghost use Rattle.lapd_c.specs.{card_of, kind_in};
ghost use Rattle.model_card.specs.Card as machine;
ghost use Rattle.model_card.specs.declared.kinds.CardKind.TheVariants as kinds;
ghost use Rattle.lapd_c.specs.Statuses as status;
ghost use Rattle.lapd_c.specs.{Shows, contents_or_none, told_beside};
ghost use Rattle.lapd_card.specs.FrameCard.{line_count};
ghost use Rattle.lapd_card.specs.{came, delivered_in, octets_of};

use crate::card::CardHandle;
use crate::lend::{lend, or_answer};
use crate::plain::{NO_FRAME, OK, PlainReport, WRONG_LENGTH, fault_in};
use lapd_card::{BareReport, FrameCard};
use lapd_store::RawShelf;

/// Takes a frame that came from a line, from its address to its information, without its check.
#[unsafe(no_mangle)]
pub extern "C" fn lapd_frame(
    handle: &mut CardHandle,
    line: u32,
    octets: &[u8],
    report: &mut PlainReport,
) -> u32
    requires { IsHandle handle.old }
    ensures called { Called (frame_asked line octets.now) handle.old handle.new result report.old report.new }
    ensures unchanged { result ≢ status.ok → card_of handle.new ≡ card_of handle.old }
{
    // It stands before all else, so that it is cleared once.
    let mut told = BareReport::nothing();
    lend!(kept of handle, Frames(card), line);
    if kept.timed.frame(line, octets, &mut told) {
        // Mostly it leads to nothing but orders, and then nothing else is looked for.
        kept.settle_orders(line, &told.orders, report);
        return OK;
    }
    show_delivered(kept.timed.card().frames(), line, octets, &told, report);
    kept.settle(line, None, report);
    OK
}

// Shows what a frame of these octets led to, with the contents that it delivered.
// It is compiled into its caller: so these are put together only if it is called.
#[inline(always)]
fn show_delivered(
    card: &FrameCard<RawShelf>,
    line: usize,
    octets: &[u8],
    told: &BareReport,
    report: &mut PlainReport,
)
    requires { line < line_count card.now }
    ensures { length (contents_or_none (delivered_in (octets_of (Some (came card.now.config.n201 octets.now))) told.now)) ≤ 260
        → Shows report.new (told_beside (delivered_in (octets_of (Some (came card.now.config.n201 octets.now))) told.now) told.now) }
{
    report.show(told, card.contents(line, octets, told));
}

/// The controller of a line told a fault in place of a frame, by its cause: an abort, bits that are no whole octets, a
/// frame that is too short, or one with an error in its check.
#[unsafe(no_mangle)]
pub extern "C" fn lapd_frame_failed(
    handle: &mut CardHandle,
    line: u32,
    cause: u8,
    report: &mut PlainReport,
) -> u32
    requires { IsHandle handle.old }
    ensures called { Called (failed_asked line cause) handle.old handle.new result report.old report.new }
    ensures unchanged { result ≢ status.ok → card_of handle.new ≡ card_of handle.old }
{
    lend!(kept of handle, Frames(card), line);
    let fault = or_answer!(fault_in(cause));
    let mut told = BareReport::nothing();
    kept.timed.failed(line, fault, &mut told);
    report.show(&told, None);
    kept.settle(line, None, report);
    OK
}

/// Writes the next frame of a line to be sent in front of `out`, from its address to its information, without its check,
/// and tells how long it is, and whether another waits after it. There has to be room for the longest: N201 octets and four.
#[unsafe(no_mangle)]
pub extern "C" fn lapd_next_frame(
    handle: &mut CardHandle,
    line: u32,
    out: &mut [u8],
    count: &mut usize,
    report: &mut PlainReport,
) -> u32
    requires { IsHandle handle.old }
    ensures called { Called (next_frame_asked line (length out.old)) handle.old handle.new result report.old report.new }
    ensures other_card { kind_in handle.old ≡ Some kinds.Octets → card_of handle.new ≡ card_of handle.old }
    ensures unwritten { result ≢ status.ok → (out.new ≡ out.old) × (count.new ≡ count.old) }
    ensures written { FramesWithRoom line (length out.old) handle.old (λ m. IfSome (next_at line m) (λ next. IsGiven next out.old out.new count.new)) }
{
    lend!(kept of handle, Frames(card), line);
    match kept.timed.next_frame(line, out) {
        Ok(Some(next)) => {
            // This comes first, while what was marked is at hand.
            let more = kept.timed.card().frames().has_next(line);
            *count = next.length;
            kept.settle_given(line, &next.order_list(), more, report);
            OK
        }
        Ok(None) => NO_FRAME,
        Err(_) => WRONG_LENGTH,
    }
}

/// The first line on which a frame waits, of those from one on.
#[unsafe(no_mangle)]
pub extern "C" fn lapd_next_waiting(handle: &mut CardHandle, from: u32, line: &mut u32) -> u32
    requires { IsHandle handle.old }
    ensures told { Questioned of_frames None (waiting_from from) handle.old handle.new result line.old line.new }
    // By the machine's own answers: a call for the next frame of that line gives one, and of those before it none.
    ensures first { (m : machine.Card) → FramesStand handle.old m
        → IsFirstWaiting from m (if result == status.ok then Some line.new else None) }
{
    lend!(kept of handle, Frames(card));
    *line = or_answer!(card.next_waiting(from as usize), NO_FRAME) as u32;
    OK
}

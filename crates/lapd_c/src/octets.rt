//! What happens at a card of octets: one that comes, and one that goes; which frame a pull began, and which was heard last, whole
//! or how it begins.

ghost use Rattle.std.specs.Prelude.{◌≡◌, ◌≢◌, ◌≤◌, ◌<◌, length, Some, IfOk, IfErr};
ghost use Rattle.lapd_c.specs.{contents_or_none, told_at, Shows};
ghost use Rattle.lapd_card.specs.Kinds.{kind_of, line_count as card_lines};
ghost use Rattle.lapd_timed.specs.Kinds.{ports_of};
ghost use Rattle.model_card.specs.declared.kinds.CardKind.TheVariants as kinds;
ghost use Rattle.lapd_c.specs.{begun_frame_of, begun_of, card_of, heard_frame_of, heard_of, in_front, IsHandle, octet_asked, octet_of, OctetsWithLine, of_octets, pull_asked, Called, Questioned};
ghost use Rattle.model_card.specs.ports.Card.{answer};
ghost use Rattle.model_card.specs.ports.Event.{at};
ghost use Rattle.model_card.specs.ports.Port as port;
ghost use Rattle.lapd_c.specs.Statuses as status;

use crate::card::CardHandle;
use crate::lend::lend;
use crate::plain::{NO_FRAME, OK, PlainHead, PlainReport, WRONG_LENGTH};
use lapd_card::{AnyCard, BareReport};
use model_bits::Heard;

/// Takes an octet that came from a line, low bit first.
#[unsafe(no_mangle)]
pub extern "C" fn lapd_octet(
    handle: &mut CardHandle,
    line: u32,
    octet: u8,
    report: &mut PlainReport,
) -> u32
    requires { IsHandle handle.old }
    ensures called { Called (octet_asked line octet) handle.old handle.new result report.old report.new }
    ensures unchanged { result ≢ status.ok → card_of handle.new ≡ card_of handle.old }
{
    // Mostly it ends nothing.
    lend!(kept of handle, Octets(card), line);
    match kept.timed.hear(line, octet) {
        None => {
            report.show_nothing();
            kept.tell_reopened(line, None, report);
            OK
        }
        Some(told) => {
            show_ended(kept.timed.card(), line, &told, report);
            kept.settle(line, None, report);
            OK
        }
    }
}

/// Shows what an octet of a line has ended, with the contents that it delivered.
pub(crate) fn show_ended(card: &AnyCard, line: usize, told: &BareReport, report: &mut PlainReport)
    requires kind { kind_of card.now ≡ kinds.Octets }
    requires within { line < card_lines card.now }
    ensures { length (contents_or_none (told_at (ports_of card.now) line told.now).contents) ≤ 260
        → Shows report.new (told_at (ports_of card.now) line told.now) }
{
    let AnyCard::Octets(card) = card else {
        unreachable!();
    };
    report.show(told, card.contents(line, told));
}

/// Gives the next octet of a line to send, low bit first.
#[unsafe(no_mangle)]
pub extern "C" fn lapd_pull(
    handle: &mut CardHandle,
    line: u32,
    octet: &mut u8,
    report: &mut PlainReport,
) -> u32
    requires { IsHandle handle.old }
    ensures called { Called (pull_asked line) handle.old handle.new result report.old report.new }
    ensures unchanged { result ≢ status.ok → (card_of handle.new ≡ card_of handle.old) × (octet.new ≡ octet.old) }
    ensures written { OctetsWithLine line handle.old (λ m. octet.new ≡ octet_of (answer (at line port.pull) m)) }
{
    lend!(kept of handle, Octets(card), line);
    let pulled = kept.timed.pull(line);
    *octet = pulled.octet;
    report.show_pull(pulled.begun, pulled.orders());
    kept.settle(line, None, report);
    OK
}

/// How the frame that a pull of a line began last begins, and how long it is.
#[unsafe(no_mangle)]
pub extern "C" fn lapd_begun(handle: &mut CardHandle, line: u32, head: &mut PlainHead) -> u32
    requires { IsHandle handle.old }
    ensures { Questioned of_octets (Some line) (begun_of line) handle.old handle.new result head.old head.new }
{
    lend!(kept of handle, Octets(card), line);
    *head = PlainHead::of(card.begun(line));
    OK
}

/// How the frame that was heard last at a line begins, and how long it is.
#[unsafe(no_mangle)]
pub extern "C" fn lapd_heard(handle: &mut CardHandle, line: u32, head: &mut PlainHead) -> u32
    requires { IsHandle handle.old }
    ensures { Questioned of_octets (Some line) (heard_of line) handle.old handle.new result head.old head.new }
{
    lend!(kept of handle, Octets(card), line);
    *head = PlainHead::of(card.latest_heard(line));
    OK
}

/// Writes the frame that a pull of a line began last in front of `out`, from its address to its information, without its check,
/// and tells how long it is.
#[unsafe(no_mangle)]
pub extern "C" fn lapd_begun_frame(
    handle: &mut CardHandle,
    line: u32,
    out: &mut [u8],
    count: &mut usize,
) -> u32
    requires { IsHandle handle.old }
    ensures { Questioned of_octets (Some line) (begun_frame_of line out.old) handle.old handle.new result (out.old, count.old) (out.new, count.new) }
{
    lend!(kept of handle, Octets(card), line);
    match card.write_begun(line, out) {
        None => WRONG_LENGTH,
        Some(0) => NO_FRAME,
        Some(length) => {
            *count = length;
            OK
        }
    }
}

/// Writes the frame that the latest octet of a line has ended, as [`lapd_begun_frame`] does; of one that is too long to be kept,
/// its first four octets.
#[unsafe(no_mangle)]
pub extern "C" fn lapd_heard_frame(
    handle: &mut CardHandle,
    line: u32,
    out: &mut [u8],
    count: &mut usize,
) -> u32
    requires { IsHandle handle.old }
    ensures { Questioned of_octets (Some line) (heard_frame_of line out.old) handle.old handle.new result (out.old, count.old) (out.new, count.new) }
{
    lend!(kept of handle, Octets(card), line);
    match card.ended(line) {
        Heard::Frame(octets) => write_in_front(octets, out, count),
        Heard::Overlong(octets) => write_in_front(&octets, out, count),
        Heard::Nothing | Heard::Dropped(_) => NO_FRAME,
    }
}

// Writes the octets of a frame in front of others, if there are any, and if there is room for them.
fn write_in_front(octets: &[u8], out: &mut [u8], count: &mut usize) -> u32
    ensures unwritten { result ≢ status.ok → (out.new ≡ out.old) × (count.new ≡ count.old) }
    ensures wrong { IfErr (in_front out.old octets.now) (λ wrong. result ≡ wrong) }
    ensures told { IfOk (in_front out.old octets.now) (λ is. (result ≡ status.ok) × (out.new ≡ is.0) × (count.new ≡ is.1)) }
{
    if octets.is_empty() {
        return NO_FRAME;
    }
    if out.len() < octets.len() {
        return WRONG_LENGTH;
    }
    out[..octets.len()].copy_from_slice(octets);
    *count = octets.len();
    OK
}

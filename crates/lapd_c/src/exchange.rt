//! Octets taken and given in turn.

ghost use Rattle.std.specs.Prelude.{◌≡◌, ◌≢◌, ◌<◌, ◌*◌, true, false, length, None};
ghost use Rattle.std.specs.Option.{option_copied};
ghost use Rattle.lapd_c.specs.{card_of, Exchanges, is_exchange, IsCallOf, IsHandle, OctetsWithLine, of_octets};
ghost use Rattle.lapd_c.specs.{octet_of, step_event, tells_nothing, told_at, told_beside, with_step};
ghost use Rattle.lapd_c.specs.Exchange.{AreMade, IsStep, ShowsEnded};
ghost use Rattle.lapd_card.specs.Kinds.{kind_of, line_count, with_ports, AnyStands};
ghost use Rattle.lapd_timed.specs.Called.{keeps_timers};
ghost use Rattle.lapd_timed.specs.Kinds.{ports_of};
ghost use Rattle.model_card.specs.declared.kinds.CardKind.TheVariants as kinds;
ghost use Rattle.model_card.specs.ports.Card as machine;
ghost use Rattle.model_card.specs.ports.Card.{answer};
ghost use Rattle.model_card.specs.ports.Event.{at};
ghost use Rattle.model_card.specs.ports.Port as port;
ghost use Rattle.lapd_c.specs.Statuses as status;

use crate::card::CardHandle;
use crate::lend::lend;
use crate::octets::show_ended;
use crate::plain::{OK, PlainReport, WRONG_LENGTH};
use lapd_card::{AnyCard, BareReport};
use lapd_timed::TimedCard;

/// Takes and gives octets in turn: step 2i takes octet i of those taken, step 2i + 1 gives octet i of those given. Goes
/// on from a step, up to and with the first that has something to tell.
#[unsafe(no_mangle)]
pub extern "C" fn lapd_exchange(
    handle: &mut CardHandle,
    line: u32,
    taken: &[u8],
    given: &mut [u8],
    steps: &mut usize,
    report: &mut PlainReport,
) -> u32
    requires { IsHandle handle.old }
    ensures call { IsCallOf of_octets line None handle.old handle.new result report.old report.new }
    ensures unchanged { result ≢ status.ok → (card_of handle.new ≡ card_of handle.old) × (given.new ≡ given.old) × (steps.new ≡ steps.old) }
    ensures wrong_length { OctetsWithLine line handle.old (λ m. is_exchange taken.now given.old steps.old ≡ false → result ≡ status.wrong_length) }
    ensures exchanged { OctetsWithLine line handle.old (λ m. is_exchange taken.now given.old steps.old ≡ true
        → Exchanges line taken.now steps.old m handle.old handle.new result given.old given.new steps.new report.new) }
{
    lend!(kept of handle, Octets(card), line);
    if taken.len() != given.len() || *steps > 2 * taken.len() {
        return WRONG_LENGTH;
    }
    exchange(&mut kept.timed, line, taken, given, steps, report);
    kept.settle(line, None, report);
    OK
}

// Makes steps, up to and with the first that has something to tell.
fn exchange(
    timed: &mut TimedCard,
    line: usize,
    taken: &[u8],
    given: &mut [u8],
    steps: &mut usize,
    report: &mut PlainReport,
)
    requires kind { kind_of timed.old.card ≡ kinds.Octets }
    requires line { line < line_count timed.old.card }
    requires lengths { is_exchange taken.now given.old steps.old ≡ true }
    ensures kind { kind_of timed.new.card ≡ kind_of timed.old.card }
    ensures timed { keeps_timers timed.new ≡ keeps_timers timed.old }
    ensures steps { (m : machine.OctetCard) → AnyStands timed.old.card (with_ports m)
        → AreMade line taken.now steps.old m timed.old timed.new given.old given.new steps.new report.new }
{
    let end = 2 * taken.len();
    for step in *steps..end {
        if make_step(timed, line, taken, given, step, report) {
            *steps = step + 1;
            return;
        }
    }
    *steps = end;
    report.show_nothing();
}

// Makes one step, and answers whether there is anything to tell; else no report is written.
fn make_step(
    timed: &mut TimedCard,
    line: usize,
    taken: &[u8],
    given: &mut [u8],
    step: usize,
    report: &mut PlainReport,
) -> bool
    requires kind { kind_of timed.old.card ≡ kinds.Octets }
    requires line { line < line_count timed.old.card }
    requires within { step < 2 * length taken.now }
    requires lengths { length given.old ≡ length taken.now }
    ensures step { IsStep (step_event line taken.now step) timed.old timed.new result report.old report.new }
    ensures given { (m : machine.OctetCard) → AnyStands timed.old.card (with_ports m) → given.new ≡ with_step step (answer (step_event line taken.now step) m) given.old }
    ensures length { length given.new ≡ length given.old }
{
    if step % 2 == 0 {
        return tells_taken(timed, line, taken[step / 2], report);
    }
    tells_given(timed, line, &mut given[step / 2], report)
}

// Takes an octet, and answers whether there is anything to tell; else nothing is written.
fn tells_taken(timed: &mut TimedCard, line: usize, octet: u8, report: &mut PlainReport) -> bool
    requires kind { kind_of timed.old.card ≡ kinds.Octets }
    requires line { line < line_count timed.old.card }
    ensures { IsStep (at line (port.octet octet)) timed.old timed.new result report.old report.new }
{
    match timed.hear(line, octet) {
        Some(told) => tells_ended(timed.card(), line, &told, report),
        None => false,
    }
}

// Shows what an octet has ended, if that is anything to tell. It stands apart from the loop, since few octets end anything.
#[inline(never)]
fn tells_ended(card: &AnyCard, line: usize, told: &BareReport, report: &mut PlainReport) -> bool
    requires kind { kind_of card.now ≡ kinds.Octets }
    requires line { line < line_count card.now }
    ensures { ShowsEnded (told_at (ports_of card.now) line told.now) result report.old report.new }
{
    let AnyCard::Octets(octets) = card else {
        unreachable!();
    };
    if tells_nothing(told, octets.contents(line, told)) {
        return false;
    }
    show_ended(card, line, told, report);
    true
}

// Gives an octet, and answers whether there is anything to tell; else no report is written.
fn tells_given(timed: &mut TimedCard, line: usize, octet: &mut u8, report: &mut PlainReport) -> bool
    requires kind { kind_of timed.old.card ≡ kinds.Octets }
    requires line { line < line_count timed.old.card }
    ensures step { IsStep (at line port.pull) timed.old timed.new result report.old report.new }
    ensures octet { (m : machine.OctetCard) → AnyStands timed.old.card (with_ports m) → octet.new ≡ octet_of (answer (at line port.pull) m) }
{
    let pulled = timed.pull(line);
    *octet = pulled.octet;
    if !pulled.begun && pulled.orders().is_empty() {
        return false;
    }
    report.show_pull(pulled.begun, pulled.orders());
    true
}

fn tells_nothing(told: &BareReport, delivered: Option<&[u8]>) -> bool
    ensures { result ≡ tells_nothing (port.told (told_beside (option_copied delivered.entry) told.now)) }
{
    told.notes().is_empty()
        && told.orders().is_empty()
        && told.cause().is_none()
        && told.lost == 0
        && told.given_up == 0
        && told.given_up_16 == 0
        && delivered.is_none()
}

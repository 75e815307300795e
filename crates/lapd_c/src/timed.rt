//! A card of either kind that keeps its own timers: what falls due, and when.

ghost use Rattle.std.specs.Prelude.{◌≡◌, ◌≤◌, ◌<◌, ◌⊎◌, false, true, None, IfSome};
ghost use Rattle.model_card.specs.Card as machine;
ghost use Rattle.model_timed.specs.Clock.{Clock, next_moment, with_lengths};
ghost use Rattle.lapd_c.specs.{FindsNoneDue, IsHandle, IsMomentCall, IsQuestion, IsTimersCall, LetsFallDue, RefusesMoment, TellsMoment, TellsWord, TimersStandIn, WithMarks, card_of, changed_of, is_timed, of_any, timers_of};
ghost use Rattle.lapd_c.specs.Timers.{lengths_fault, lengths_in};
ghost use Rattle.lapd_c.specs.Statuses as status;

use crate::card::CardHandle;
use crate::lend::{lend, or_answer, within};
use crate::plain::{
    NO_TIMER, OK, PlainLengths, PlainReport, REFUSED_NO_LINK, WRONG_CARD, WRONG_TIME, link_in,
};
use lapd_card::BareReport;

/// The time is now a moment; and the timer that is due first, if one is, expires: the report tells which it was, of which
/// line, and what its expiry led to.
#[unsafe(no_mangle)]
pub extern "C" fn lapd_fall_due(handle: &mut CardHandle, now: u64, report: &mut PlainReport) -> u32
    requires { IsHandle handle.old }
    ensures call { IsMomentCall handle.old handle.new result report.old report.new }
    ensures wrong_time { RefusesMoment now handle.old handle.new result }
    ensures none { FindsNoneDue now handle.old handle.new result }
    ensures due { LetsFallDue now handle.old handle.new result report.new }
{
    lend!(kept of handle);
    if kept.timed.pass(now) {
        return NO_TIMER;
    }
    fall_due(handle, now, report)
}

// The same, if something may be due or the moment is refused. It stands apart, since mostly nothing is due.
#[cold]
#[inline(never)]
fn fall_due(handle: &mut CardHandle, now: u64, report: &mut PlainReport) -> u32
    requires { IsHandle handle.old }
    ensures call { IsMomentCall handle.old handle.new result report.old report.new }
    ensures wrong_time { RefusesMoment now handle.old handle.new result }
    ensures none { FindsNoneDue now handle.old handle.new result }
    ensures due { LetsFallDue now handle.old handle.new result report.new }
{
    lend!(kept of handle);
    if !kept.timed.is_timed() {
        return WRONG_CARD;
    }
    match kept.timed.go_to(now) {
        Ok(()) => {}
        Err(_) => return WRONG_TIME,
    }
    let mut told = BareReport::nothing();
    let (line, timer) = or_answer!(kept.timed.fall_due(&mut told), NO_TIMER);
    report.show(&told, None);
    kept.settle(line, None, report);
    report.show_expired(timer);
    OK
}

/// The moment at which the card is: the one that it was told last, 0 before the first, and that of its image after a restore.
#[unsafe(no_mangle)]
pub extern "C" fn lapd_now(handle: &mut CardHandle, moment: &mut u64) -> u32
    requires { IsHandle handle.old }
    ensures question { IsQuestion of_any handle.old handle.new result moment.old moment.new }
    ensures wrong_card { is_timed handle.old ≡ false → (card_of handle.old ≡ None) ⊎ (result ≡ status.wrong_card) }
    ensures told { (m : machine.Card) (c : Clock) → TimersStandIn (timers_of handle.old) m c → (result ≡ status.ok) × (moment.new ≡ c.now) }
{
    lend!(kept of handle);
    if !kept.timed.is_timed() {
        return WRONG_CARD;
    }
    *moment = kept.timed.now();
    OK
}

/// When the timer falls due that falls due first, due or not: nothing falls due before. After an [`lapd_fall_due`] that said that
/// nothing is due, it is later than the moment of that call.
#[unsafe(no_mangle)]
pub extern "C" fn lapd_next_moment(handle: &mut CardHandle, moment: &mut u64) -> u32
    requires { IsHandle handle.old }
    ensures question { IsQuestion of_any handle.old handle.new result moment.old moment.new }
    ensures wrong_card { is_timed handle.old ≡ false → (card_of handle.old ≡ None) ⊎ (result ≡ status.wrong_card) }
    ensures told { (m : machine.Card) (c : Clock) → TimersStandIn (timers_of handle.old) m c → TellsMoment (next_moment c) result moment.new }
{
    lend!(kept of handle);
    if !kept.timed.is_timed() {
        return WRONG_CARD;
    }
    *moment = or_answer!(kept.timed.next_moment(), NO_TIMER);
    OK
}

/// The moment at which the state of the link of a service with a TEI changed last. Beside states 4 to 8, that its TEI is not on
/// the line counts as one, so its coming is a change. 0 if that was before a moment was told.
#[unsafe(no_mangle)]
pub extern "C" fn lapd_changed_at(
    handle: &mut CardHandle,
    line: u32,
    service: u8,
    tei: u8,
    moment: &mut u64,
) -> u32
    requires { IsHandle handle.old }
    ensures question { IsQuestion of_any handle.old handle.new result moment.old moment.new }
    ensures wrong_card { is_timed handle.old ≡ false → (card_of handle.old ≡ None) ⊎ (result ≡ status.wrong_card) }
    ensures wrong_line { WithMarks handle.old (λ m marks. m.config.lines ≤ line → result ≡ status.wrong_line) }
    ensures told { WithMarks handle.old (λ m marks. line < m.config.lines → TellsWord (changed_of line service tei m marks) result moment.new) }
{
    lend!(kept of handle);
    if !kept.timed.is_timed() {
        return WRONG_CARD;
    }
    within!(line, kept.timed.card());
    let (service, tei) = or_answer!(link_in(service, tei));
    *moment = or_answer!(kept.timed.changed_at(line, service, tei), REFUSED_NO_LINK);
    OK
}

/// Has timers that are started from now on run so long. Those that run keep their moments.
#[unsafe(no_mangle)]
pub extern "C" fn lapd_card_set_lengths(handle: &mut CardHandle, lengths: &PlainLengths) -> u32
    requires { IsHandle handle.old }
    ensures call { IsTimersCall handle.old handle.new result }
    // A length that is out of range is refused, and what is for a later version, if it is not 0.
    ensures wrong { is_timed handle.old ≡ true
        → IfSome (lengths_fault lengths.now) (λ wrong. (result ≡ wrong) × (card_of handle.new ≡ card_of handle.old)) }
    ensures set { lengths_fault lengths.now ≡ None → (m : machine.Card) (c : Clock) → TimersStandIn (timers_of handle.old) m c
        → (result ≡ status.ok) × TimersStandIn (timers_of handle.new) m (with_lengths (lengths_in lengths.now) c) }
{
    lend!(kept of handle);
    if !kept.timed.is_timed() {
        return WRONG_CARD;
    }
    let lengths = or_answer!(lengths.read());
    kept.timed.set_lengths(lengths);
    OK
}

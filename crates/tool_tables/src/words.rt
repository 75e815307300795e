//! The words in which a cell tells what an event led to.

use crate::page::Page;
use lapd_frame::{Control, Note, Order, Refusal, Timer};
use lapd_link::{BareReport, Offer};
use lapd_seq::Seq;
use lapd_tei::{Change, TeiOutcome};
use model_link::ControlFrame;

/// A frame that is sent, after an event that has this P.
pub fn offer(page: &mut Page, offer: &Offer, polled: Option<bool>) {
    match offer.frame.control {
        Control::Information { ns, nr, pf } => {
            page.tell();
            page.item(if pf { "I P=1 " } else { "I " });
            page.number(ns.value);
            page.say(",");
            page.number(nr.value);
            orders(page, offer.orders.as_slice());
        }
        _ => control_frame(page, offer.frame, polled),
    }
}

/// A control frame, with P or F and its N(R).
fn control_frame(page: &mut Page, frame: ControlFrame, polled: Option<bool>) {
    let (name, pf, nr) = parts_of(frame.control);
    page.item(name);
    page.say(bit_of(frame.command, pf, polled));
    if let Some(nr) = nr {
        page.say(" N(R)=");
        page.number(nr.value);
    }
}

/// The name of a control frame that a link sends, its P or F, and its N(R) if it has one.
fn parts_of(control: Control) -> (&'static str, bool, Option<Seq>) {
    match control {
        Control::ReceiveReady { nr, pf } => ("RR", pf, Some(nr)),
        Control::ReceiveNotReady { nr, pf } => ("RNR", pf, Some(nr)),
        Control::Reject { nr, pf } => ("REJ", pf, Some(nr)),
        Control::Sabme { pf } => ("SABME", pf, None),
        Control::Disc { pf } => ("DISC", pf, None),
        Control::Ua { pf } => ("UA", pf, None),
        Control::Dm { pf } => ("DM", pf, None),
        _ => ("another frame", false, None),
    }
}

/// P of a command; F of a response, which is the event's P if it has one and they are equal.
fn bit_of(command: bool, pf: bool, polled: Option<bool>) -> &'static str {
    match (command, pf) {
        (true, true) => " P=1",
        (true, false) => " P=0",
        (false, f) if polled == Some(f) => " F=P",
        (false, true) => " F=1",
        (false, false) => " F=0",
    }
}

/// What an event of the link led to. What is sent comes elsewhere.
pub fn report(page: &mut Page, report: &BareReport) {
    told(page, report.lost, report.unserved, report.notes.as_slice());
    orders(page, report.orders.as_slice());
}

/// The same of TEI management.
pub fn outcome(page: &mut Page, outcome: Result<TeiOutcome, Refusal>) {
    match outcome {
        Ok(led) => {
            told(page, led.lost, led.unserved, led.notes.as_slice());
            orders(page, led.orders.as_slice());
            changed(page, led.change);
        }
        Err(why) => refusal(page, why),
    }
}

fn changed(page: &mut Page, change: Option<Change>) {
    match change {
        Some(Change::Gained { tei, .. }) => {
            page.item("+");
            page.number(tei);
        }
        Some(Change::Left { tei, .. }) => {
            page.item("-");
            page.number(tei);
        }
        None => (),
    }
}

/// The state after, which is another.
pub fn state(page: &mut Page, after: u8) {
    page.item("**");
    page.number(after);
    page.say("**");
}

/// How many answers found no room, whether the event is not served, and what is told.
fn told(page: &mut Page, lost: u8, unserved: bool, notes: &[Note]) {
    if lost > 0 {
        page.item("lost ");
        page.number(lost);
    }
    if unserved {
        page.item("unserved");
    }
    for given in notes {
        note(page, *given);
    }
}

/// What layer 3 or layer management is told.
fn note(page: &mut Page, note: Note) {
    page.item(note_name(note));
    match note {
        Note::Error(_, _, code) => page.letter(code.letter()),
        Note::Assigned(tei) | Note::Removed(tei) | Note::Doubled(tei) => page.number(tei),
        _ => (),
    }
}

fn note_name(note: Note) -> &'static str {
    match note {
        Note::EstablishIndication(_, _) => "establish indication",
        Note::EstablishConfirm(_, _) => "establish confirm",
        Note::ReleaseIndication(_, _) => "release indication",
        Note::ReleaseConfirm(_, _) => "release confirm",
        Note::Data(_, _) => "data indication",
        Note::Unit(_, _) => "unit data indication",
        Note::Xid(_, _) => "XID indication",
        Note::Error(_, _, _) => "error ",
        Note::Assigned(_) => "assigned ",
        Note::Removed(_) => "removed ",
        Note::Doubled(_) => "doubled ",
        Note::Denied => "denied",
        Note::Unassigned => "unassigned",
        Note::RemoveAll => "remove all",
    }
}

/// What is ordered of timers.
fn orders(page: &mut Page, orders: &[Order]) {
    for given in orders {
        page.item(order_name(*given));
    }
}

fn order_name(order: Order) -> &'static str {
    match order {
        Order::Start(Timer::T200(_, _)) => "+T200",
        Order::Start(Timer::T203(_, _)) => "+T203",
        Order::Start(Timer::T201) => "+T201",
        Order::Start(Timer::T202) => "+T202",
        Order::Stop(Timer::T200(_, _)) => "-T200",
        Order::Stop(Timer::T203(_, _)) => "-T203",
        Order::Stop(Timer::T201) => "-T201",
        Order::Stop(Timer::T202) => "-T202",
    }
}

/// Why a request is refused.
pub fn refusal(page: &mut Page, refusal: Refusal) {
    page.item(match refusal {
        Refusal::BadTei => "bad-tei",
        Refusal::NoLink => "no-link",
        Refusal::WrongState => "wrong-state",
        Refusal::TooLong => "too-long",
        Refusal::QueueFull => "queue-full",
        Refusal::PoolFull => "pool-full",
        Refusal::TeiTaken => "tei-taken",
        Refusal::TableFull => "table-full",
        Refusal::CheckRunning => "check-running",
        Refusal::ControlFull => "control-full",
        Refusal::WrongSide => "wrong-side",
    });
}

/// A message that is sent: its type, its Ri or its Ai; of a denial both, except Ai 127.
pub fn message(page: &mut Page, frame: [u8; 8]) {
    let [_, _, _, _, _, ri, kind, last] = frame;
    page.item(message_name(kind));
    if kind <= 3 {
        page.say(" Ri ");
        page.number(ri);
    }
    if kind != 3 || last != 255 {
        page.say(" Ai ");
        page.number(last / 2);
    }
}

fn message_name(kind: u8) -> &'static str {
    match kind {
        2 => "identity assigned",
        3 => "identity denied",
        4 => "identity check request",
        6 => "identity remove",
        _ => "another message",
    }
}

//! The head of a frame's line: all that stands before the digits of its information.

ghost use Rattle.std.specs.Prelude.{◌≡◌, ◌≤◌, if◌then◌else◌, [], length, decimal, option_map};
ghost use Rattle.lapd_text.specs.{parts_of, fields, number_text, head_text, joined};

use crate::digits::{Digits, decimal};
use arrayvec::ArrayVec;
use lapd_frame::{Control, Frame};
use lapd_seq::Seq;

/// No head has more octets.
pub const MOST_HEAD: usize = 128;

/// The head of a frame's line.
pub type Head = ArrayVec<u8, MOST_HEAD>;

/// Whom a frame is about, its kind, its numbers, and the word before its information.
pub fn head_of(frame: &Frame<'_>) -> Head
    ensures { result.items ≡ head_text (parts_of frame.now) }
{
    let sapi = decimal(u64::from(frame.address.sapi));
    let tei = decimal(u64::from(frame.address.tei));
    let command = frame.address.command;
    let (name, ns, nr, bit) = fields_of(&frame.control);
    let (ns_digits, nr_digits) = (digits_of(ns), digits_of(nr));
    joined(&[
        b"sapi ".as_slice(),
        sapi.as_slice(),
        b" tei ",
        tei.as_slice(),
        one_of(command, b" command ", b" response "),
        name,
        one_of(ns.is_some(), b" ns ", b""),
        ns_digits.as_slice(),
        one_of(nr.is_some(), b" nr ", b""),
        nr_digits.as_slice(),
        one_of(command, b" p ", b" f "),
        one_of(bit, b"1", b"0"),
        b" info ",
    ])
}

// Pieces, one after the other.
pub(crate) fn joined(pieces: &[&[u8]]) -> Head
    requires { length (joined pieces.now) ≤ 128 }
    ensures { result.items ≡ joined pieces.now }
{
    let mut head = Head::new();
    for piece in pieces {
        let _ = head.try_extend_from_slice(piece);
    }
    head
}

fn one_of(test: bool, yes: &'static [u8], no: &'static [u8]) -> &'static [u8]
    ensures { result.now ≡ if test then yes.now else no.now }
{
    if test { yes } else { no }
}

// The digits of a number, where there is one.
fn digits_of(number: Option<Seq>) -> Digits
    ensures { result.items ≡ number_text [] (option_map (λ n. n.value) number) }
{
    match number {
        Some(number) => decimal(u64::from(number.value)),
        None => ArrayVec::new(),
    }
}

// What a control field says: the frame's name, N(S) and N(R) where it has them, and P of a command or F of a response.
fn fields_of(control: &Control) -> (&'static [u8], Option<Seq>, Option<Seq>, bool)
    ensures name { result.0.now ≡ (fields control.now).name }
    ensures short { length result.0.now ≤ 5 }
    ensures ns { option_map (λ n. n.value) result.1 ≡ (fields control.now).ns }
    ensures nr { option_map (λ n. n.value) result.2 ≡ (fields control.now).nr }
    ensures bit { result.3 ≡ (fields control.now).bit }
{
    match *control {
        Control::Information { ns, nr, pf } => (b"i", Some(ns), Some(nr), pf),
        Control::ReceiveReady { nr, pf } => (b"rr", None, Some(nr), pf),
        Control::ReceiveNotReady { nr, pf } => (b"rnr", None, Some(nr), pf),
        Control::Reject { nr, pf } => (b"rej", None, Some(nr), pf),
        Control::Sabme { pf } => (b"sabme", None, None, pf),
        Control::Disc { pf } => (b"disc", None, None, pf),
        Control::Ui { pf } => (b"ui", None, None, pf),
        Control::Ua { pf } => (b"ua", None, None, pf),
        Control::Dm { pf } => (b"dm", None, None, pf),
        Control::Frmr { pf } => (b"frmr", None, None, pf),
        Control::Xid { pf } => (b"xid", None, None, pf),
    }
}

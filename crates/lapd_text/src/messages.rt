//! What a message of TEI management says.

ghost use Rattle.std.specs.Prelude.{◌≡◌, ◌≤◌, length, option_map, Some, IfSome};
ghost use Rattle.lapd_text.specs.{parts_of, meaning_text, message_text, name_of, words_of};

use crate::digits::{decimal, octet_digits};
use crate::shown::{Head, joined};
use lapd_frame::{Control, Frame};

// The SAPI of management (Q.921 clause 3.3.3), and the entity identifier of TEI management (clause 5.3.6).
const MANAGEMENT: u8 = 63;

const ENTITY: u8 = 0x0F;

/// What the information of a frame means, with a space before it, if it is a message of TEI management; otherwise nothing.
pub(crate) fn meaning_of(frame: &Frame<'_>) -> Head
    ensures { result.items ≡ meaning_text (parts_of frame.now) }
{
    if frame.address.sapi != MANAGEMENT {
        return Head::new();
    }
    match frame.control {
        Control::Ui { .. } => message(frame.info),
        _ => Head::new(),
    }
}

// What information means.
fn message(info: &[u8]) -> Head
    ensures { result.items ≡ message_text info.now }
{
    let &[entity, high, low, kind, last] = info else {
        return Head::new();
    };
    if entity != ENTITY || last % 2 != 1 {
        return Head::new();
    }
    match name(kind) {
        Some(name) => words(name, high, low, last / 2),
        None => Head::new(),
    }
}

// The name of the message of a type.
fn name(kind: u8) -> Option<&'static [u8]>
    ensures name { option_map (λ n. n.now) result ≡ name_of kind }
    ensures short { IfSome result (λ n. length n.now ≤ 23) }
{
    match kind {
        1 => Some(b"identity request"),
        2 => Some(b"identity assigned"),
        3 => Some(b"identity denied"),
        4 => Some(b"identity check request"),
        5 => Some(b"identity check response"),
        6 => Some(b"identity remove"),
        7 => Some(b"identity verify"),
        _ => None,
    }
}

// A message in words.
fn words(name: &[u8], high: u8, low: u8, action: u8) -> Head
    requires { length name.now ≤ 23 }
    ensures { result.items ≡ words_of (Some name.now) high low action }
{
    let (high, low) = (octet_digits(high), octet_digits(low));
    let action = decimal(u64::from(action));
    joined(&[
        b" ".as_slice(),
        name,
        b", Ri ",
        high.as_slice(),
        low.as_slice(),
        b", Ai ",
        action.as_slice(),
    ])
}

//! What octets say, in room of the caller's.

ghost use Rattle.std.specs.Prelude.{◌≡◌, ◌≤◌, ◌<◌, ◌+◌, ◌++◌, length, take, drop, codes, IfSome, IfNone};
ghost use Rattle.lapd_text.specs.{digit_count, fault_text, octets_text, told_text, IsPutIn};

use crate::digits::{put, put_digits};
use crate::messages::meaning_of;
use crate::shown::head_of;
use lapd_frame::{ReadFault, Side, read};

/// Writes what octets say, as `side` sent them, in front of `out`, with a 0 in place of its line feed. It is the line that
/// `lapdsim frame` prints, or tells of octets that are no frame. A message of TEI management stands in words after its
/// octets. Whether there was room for it; if not, nothing is written.
pub fn write_text(side: Side, octets: &[u8], out: &mut [u8]) -> bool
    ensures { IsPutIn result (told_text side octets.now) out.old out.new }
{
    match read(side, octets) {
        Ok(frame) => put_frame(
            head_of(&frame).as_slice(),
            frame.info,
            meaning_of(&frame).as_slice(),
            out,
        ),
        Err(fault) => put_line(fault_line(fault), out),
    }
}

/// The line that tells why octets are no frame.
pub fn fault_line(fault: ReadFault) -> &'static [u8]
    ensures { result.now ≡ fault_text fault }
{
    match fault {
        ReadFault::BadExtension => b"frame: bad extension\n",
        ReadFault::Undefined(_) => b"frame: undefined\n",
        ReadFault::WrongSize(_) => b"frame: wrong size\n",
        ReadFault::Short => b"frame: short\n",
    }
}

// Writes the line of a frame, from its head, its information, and what this means.
fn put_frame(head: &[u8], info: &[u8], meaning: &[u8], out: &mut [u8]) -> bool
    requires head { length head.now ≤ 128 }
    requires meaning { length meaning.now ≤ 128 }
    ensures { IsPutIn result (head.now ++ octets_text info.now ++ meaning.now ++ codes "\n") out.old out.new }
{
    let Some(end) = end_of(head.len() + meaning.len(), info.len(), out.len()) else {
        return false;
    };
    put(out, 0, head);
    put_info(out, head.len(), info);
    put(out, end - meaning.len(), meaning);
    put(out, end, b"\0");
    true
}

// Where a line ends that has so many octets of words, and the digits of so many octets, if one more octet has room there.
fn end_of(words: usize, octets: usize, room: usize) -> Option<usize>
    requires { words ≤ 256 }
    ensures there { IfSome result (λ end. (end ≡ words + digit_count octets) × (end < room)) }
    ensures none { IfNone result (room ≤ words + digit_count octets) }
{
    let left = room.checked_sub(words + 1)?;
    if octets > left / 2 {
        return None;
    }
    let digits = if octets == 0 { 1 } else { 2 * octets };
    (digits <= left).then_some(words + digits)
}

// Writes the digits of octets at a place, or `-` of none.
fn put_info(out: &mut [u8], at: usize, info: &[u8])
    requires { at + digit_count (length info.now) ≤ length out.old }
    ensures { out.new ≡ take at out.old ++ octets_text info.now ++ drop (at + digit_count (length info.now)) out.old }
{
    if info.is_empty() {
        put(out, at, b"-");
    } else {
        put_digits(out, at, info);
    }
}

// Writes a line that has an end.
fn put_line(line: &[u8], out: &mut [u8]) -> bool
    requires { 0 < length line.now }
    ensures { IsPutIn result line.now out.old out.new }
{
    if out.len() < line.len() {
        return false;
    }
    out[..line.len()].copy_from_slice(line);
    out[line.len() - 1] = 0;
    true
}

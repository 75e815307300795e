//! Writes what a frame says, octets of a line, and the bound of a card.

ghost use Rattle.std.specs.Prelude.{◌++◌, decimal, codes};
ghost use Rattle.lapd_transcript.specs.{parts_of, on_line_text, shown_text, Writes, joined, octets_text};

use crate::output::Page;
use crate::streams::{Put, Target};
use lapd_frame::Frame;
use lapd_text::{decimal, head_of};

/// What a frame says: whom it is about, its kind, its numbers and its information, in one line.
pub fn write_shown<T: Target>(target: &mut T, frame: &Frame<'_>) -> Put
    ensures { Writes result (T.taken target.old) (T.taken target.new) (shown_text (parts_of frame.now)) }
{
    write_pieces(target, &[head_of(frame).as_slice()], frame.info)
}

/// Octets that are put on a line.
pub fn write_line_octets<T: Target>(target: &mut T, octets: &[u8]) -> Put
    ensures { Writes result (T.taken target.old) (T.taken target.new) (on_line_text octets.now) }
{
    write_pieces(target, &[b"line ".as_slice()], octets)
}

/// Pieces of text and octets, in one line.
fn write_pieces<T: Target>(target: &mut T, head: &[&[u8]], octets: &[u8]) -> Put
    ensures { Writes result (T.taken target.old) (T.taken target.new) (joined head.now ++ octets_text octets.now ++ codes "\n") }
{
    let mut page = Page::new(target);
    let put = page.put_octets_line(head, octets);
    page.finish(put)
}

/// How many octets a card holds at most.
pub fn write_bound<T: Target>(target: &mut T, bound: u32) -> Put
    ensures { Writes result (T.taken target.old) (T.taken target.new) (decimal bound ++ codes "\n") }
{
    let mut page = Page::new(target);
    let bound = decimal(u64::from(bound));
    let put = page.put_all(&[bound.as_slice(), b"\n"]);
    page.finish(put)
}

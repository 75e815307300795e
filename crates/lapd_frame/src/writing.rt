//! From a frame to octets.

ghost use Rattle.std.specs.Prelude.{◌≡◌, ◌+◌, ◌≤◌, ◌++◌, take, drop, length};
ghost use Rattle.lapd_frame.specs.{parts_of, IsFrame, spelling, Spells, reading};

use crate::addresses::Side;
use crate::frames::Frame;

/// Writes a frame that `side` sends to the beginning of `out`, without its frame check, and answers
/// how many octets it has. The octets of `out` past these stay as they are.
///
/// The frame has to be one (`IsFrame`): SAPI at most 63, TEI at most 127, a command or a response
/// as its control field demands, as much information as it allows. It has to fit into `out`, which
/// [`Frame::len`] tells.
// Compiled into its caller, which often has no information to be written.
#[inline(always)]
pub fn write(side: Side, frame: &Frame<'_>, out: &mut [u8]) -> usize
    requires frame { IsFrame (parts_of frame.now) }
    requires room { length (spelling side (parts_of frame.now)) ≤ length out.old }
    // The octets written spell the frame,
    ensures len { result ≡ length (spelling side (parts_of frame.now)) }
    ensures spelled { Spells side (parts_of frame.now) (take result out.new) }
    // those past them stay,
    ensures rest { drop result out.new ≡ drop result out.old }
    ensures whole { out.new ≡ spelling side (parts_of frame.now) ++ drop result out.old }
    // and what was written is read again.
    ensures read_again { reading side (take result out.new) ≡ Ok (parts_of frame.now) }
{
    let start = frame.control.start();
    put_head(out, &frame.head(side), start);
    put(out, start, frame.info);
    start + frame.info.len()
}

// Writes the first three octets of a head, or all four.
#[inline(always)]
fn put_head(out: &mut [u8], head: &[u8; 4], count: usize)
    requires low { 3 ≤ count }
    requires high { count ≤ 4 }
    requires room { count ≤ length out.old }
    ensures { out.new ≡ take count head.now ++ drop count out.old }
{
    out[0] = head[0];
    out[1] = head[1];
    out[2] = head[2];
    if count > 3 {
        out[3] = head[3];
    }
}

// Writes octets at a place.
fn put(out: &mut [u8], at: usize, octets: &[u8])
    requires { at + length octets.now ≤ length out.old }
    ensures { out.new ≡ take at out.old ++ octets.now ++ drop (at + length octets.now) out.old }
{
    out[at..at + octets.len()].copy_from_slice(octets);
}

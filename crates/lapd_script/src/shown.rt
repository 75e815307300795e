//! Shows one frame: what it says, and what it is on a line.

ghost use Rattle.std.specs.Prelude.{◌≡◌, ◌≤◌, take, Ok, IfOk, IfErr};
ghost use Rattle.std.specs.List.{list_all};
ghost use Rattle.std.specs.Char.{is_ascii_hexdigit};
ghost use Rattle.lapd_script.specs.{Side, octets, frame_line, IsUnshown, ShowsFrame};
ghost use Rattle.lapd_script.specs.declared.shown.FrameFault.TheVariants as frame;

use crate::values::octets;
use lapd_frame::{ReadFault, Side, read};
use lapd_text::fault_line;
use lapd_transcript::{
    LONGEST_FRAME, Target, Terminal, WriteFailed, write_line_octets, write_shown,
};
use std::alloc::{AllocError, Global};

/// Why a frame is not shown.
#[derive(Clone, Copy)]
pub enum FrameFault {
    /// The word is no even number of hexadecimal digits.
    BadOctets,
    /// They are more octets than any frame that a terminal sends.
    TooLong,
    /// They are no frame.
    NoFrame(ReadFault),
    /// A write to the target failed.
    Write,
    /// Memory was refused.
    OutOfMemory,
}

impl FrameFault {
    /// The line that tells of it.
    pub fn line(self) -> &'static [u8]
        ensures { result.now ≡ frame_line self }
    {
        match self {
            FrameFault::BadOctets => b"bad octets\n",
            FrameFault::TooLong => b"frame: too long\n",
            FrameFault::NoFrame(fault) => fault_line(fault),
            FrameFault::Write => b"write failed\n",
            FrameFault::OutOfMemory => b"out of memory\n",
        }
    }
}

impl From<WriteFailed> for FrameFault {
    ghost from_gives = { λ _ fault. fault ≡ frame.Write };

    fn from(_error: WriteFailed) -> FrameFault {
        FrameFault::Write
    }
}

impl From<AllocError> for FrameFault {
    ghost from_gives = { λ _ fault. fault ≡ frame.OutOfMemory };

    fn from(_error: AllocError) -> FrameFault {
        FrameFault::OutOfMemory
    }
}

/// Writes what the frame of these digits says, as `side` sent it, and what a fresh sender makes of it on a line.
///
/// # Errors
///
/// The first [`FrameFault`] that holds.
pub fn show_frame<T: Target>(
    alloc: Global,
    digits: &[u8],
    side: Side,
    target: &mut T,
) -> Result<(), FrameFault>
    ensures { ShowsFrame result side digits.now (T.taken target.old) (T.taken target.new) }
{
    let mut room = [0; LONGEST_FRAME];
    let count = octets_of(digits, &mut room)?;
    let octets = &room[..count];
    let frame = match read(side, octets) {
        Ok(frame) => frame,
        Err(fault) => return Err(FrameFault::NoFrame(fault)),
    };
    let mut terminal = Terminal::start(alloc)?;
    let line = terminal.send(octets);
    write_shown(target, &frame)?;
    write_line_octets(target, line.as_slice())?;
    Ok(())
}

/// Puts the octets that the digits stand for into the beginning of `room`, and tells how many.
fn octets_of(digits: &[u8], room: &mut [u8; LONGEST_FRAME]) -> Result<usize, FrameFault>
    ensures octets { IfOk result (λ count. octets digits.now ≡ Ok (take count room.new)) }
    ensures short { IfOk result (λ count. count ≤ 1028) }
    ensures fault { (side : Side) → IfErr result (λ fault. IsUnshown fault side digits.now) }
{
    if digits.len() <= 2 * LONGEST_FRAME {
        return octets(digits, room).map_err(|_| FrameFault::BadOctets);
    }
    if digits.len() % 2 == 0 && are_hex(digits) {
        return Err(FrameFault::TooLong);
    }
    Err(FrameFault::BadOctets)
}

fn are_hex(digits: &[u8]) -> bool
    ensures { result ≡ list_all is_ascii_hexdigit digits.now }
{
    digits.iter().all(|digit| digit.is_ascii_hexdigit())
}

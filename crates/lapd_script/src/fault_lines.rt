//! The lines that tell why the program has not done what its words ask for, and its exit status then.

ghost use Rattle.std.specs.Prelude.{◌≡◌, codes};
ghost use Rattle.lapd_script.specs.{frame_line, play_line, IsWrittenOrFails, Writes};

use crate::faults::PlayFault;
use crate::shown::FrameFault;
use lapd_transcript::{Target, WriteFailed, write_faulty};

/// The exit status after a fault.
const FAILED: u8 = 1;

/// The exit status where the words ask for nothing that there is.
const WRONG_WORDS: u8 = 2;

/// Writes the line that tells of `fault`, and answers the exit status after it. A line that can't be written changes
/// nothing else.
pub fn refuse<F: Target>(fault: PlayFault, faults: &mut F) -> u8
    ensures status { result ≡ 1 }
    ensures told { IsWrittenOrFails (play_line fault) (F.taken faults.old) (F.taken faults.new) }
{
    let _ = write_fault(fault, faults);
    FAILED
}

/// The same of a frame that is not shown.
pub fn refuse_digits<F: Target>(fault: FrameFault, faults: &mut F) -> u8
    ensures status { result ≡ 1 }
    ensures told { IsWrittenOrFails (frame_line fault) (F.taken faults.old) (F.taken faults.new) }
{
    let _ = faults.write(fault.line());
    FAILED
}

/// Writes the line that tells of words that ask for nothing that there is, and answers the exit status after it.
pub fn refuse_words<F: Target>(faults: &mut F) -> u8
    ensures status { result ≡ 2 }
    ensures told { IsWrittenOrFails (codes "usage\n") (F.taken faults.old) (F.taken faults.new) }
{
    let _ = faults.write(b"usage\n");
    WRONG_WORDS
}

fn write_fault<F: Target>(fault: PlayFault, faults: &mut F) -> Result<(), WriteFailed>
    ensures { Writes result (F.taken faults.old) (F.taken faults.new) (play_line fault) }
{
    match fault {
        PlayFault::Read => faults.write(b"read failed\n"),
        PlayFault::Write => faults.write(b"write failed\n"),
        PlayFault::Script { line, kind } => write_faulty(faults, line, kind.words().as_bytes()),
        PlayFault::OutOfMemory => faults.write(b"out of memory\n"),
    }
}

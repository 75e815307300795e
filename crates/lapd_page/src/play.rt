//! Plays a script for a page, and tells how it ended.

ghost use Rattle.std.specs.Prelude.{◌≡◌, ◌⊎◌, IfSome};
ghost use Rattle.lapd_page.specs.Ends.{IsDone, IsFaulty, done, end_of, faulty, no_memory};
ghost use Rattle.lapd_page.specs.Rooms.{in_room};
ghost use Rattle.lapd_script.specs.FaultLines.{play_line};

use lapd_sim::{PlayFault, Text, play_octets, refuse};
use std::alloc::Global;

/// The exit status of `lapdsim run` where a script was played to its end.
const DONE: u32 = 0;
/// Its exit status after a fault.
const FAULTY: u32 = 1;
/// Memory was refused: no exit status of a script, and nothing is told.
const NO_MEMORY: u32 = 3;

/// How long the texts are, and which line is faulty.
#[repr(C)]
#[derive(Clone, Copy)]
pub struct PlainEnd {
    /// Octets of the transcript: more than its room, where it did not fit.
    pub transcript: usize,
    /// Octets of the fault line; 0 if there is no fault.
    pub fault: usize,
    /// The number of the faulty line, from 1; 0 if there is no fault.
    pub line: u64,
}

impl PlainEnd {
    /// The end with these texts.
    pub fn of(transcript: &[u8], fault: &[u8], line: u64) -> PlainEnd
        ensures { result ≡ end_of transcript.now fault.now line }
    {
        PlainEnd {
            transcript: transcript.len(),
            fault: fault.len(),
            line,
        }
    }
}

/// Plays a script. Puts its transcript and its fault line into rooms of the caller's, as much of them as fits, and
/// answers the exit status of `lapdsim run`, or that memory was refused.
#[unsafe(no_mangle)]
pub extern "C" fn lapd_page_play(
    alloc: Global,
    script: &[u8],
    transcript: &mut [u8],
    fault: &mut [u8],
    end: &mut PlainEnd,
) -> u32
    ensures status { (result ≡ done) ⊎ (result ≡ faulty) ⊎ (result ≡ no_memory) }
    ensures done { result ≡ done
        → IsDone script.now transcript.old transcript.new end.new × (fault.new ≡ fault.old) }
    ensures faulty { result ≡ faulty
        → IsFaulty script.now transcript.old transcript.new fault.old fault.new end.new }
    ensures no_memory { result ≡ no_memory
        → (transcript.new ≡ transcript.old) × (fault.new ≡ fault.old) × (end.new ≡ end.old) }
{
    let (text, played) = play_octets(alloc, script, Vec::new(alloc));
    match played {
        Ok(()) => {
            put(text.as_slice(), transcript);
            *end = PlainEnd::of(text.as_slice(), &[], 0);
            DONE
        }
        Err(why @ PlayFault::Script { line, .. }) => match words_of(alloc, why) {
            Some(words) => {
                put(text.as_slice(), transcript);
                put(words.as_slice(), fault);
                *end = PlainEnd::of(text.as_slice(), words.as_slice(), line);
                FAULTY
            }
            None => NO_MEMORY,
        },
        // No read of a script in memory fails, and a write to memory fails only where that is refused.
        Err(PlayFault::Read | PlayFault::Write | PlayFault::OutOfMemory) => NO_MEMORY,
    }
}

/// The line that tells of a fault, unless memory is refused.
fn words_of(alloc: Global, fault: PlayFault) -> Option<Vec<u8>>
    ensures { IfSome result (λ words. words.items ≡ play_line fault) }
{
    let mut text = Text {
        octets: Vec::new(alloc),
        failures: 0,
    };
    refuse(fault, &mut text);
    if text.failures == 0 {
        Some(text.octets)
    } else {
        None
    }
}

/// Puts a text at the beginning of a room, as much of it as fits.
fn put(text: &[u8], room: &mut [u8])
    ensures { room.new ≡ in_room text.now room.old }
{
    let count = text.len().min(room.len());
    room[..count].copy_from_slice(&text[..count]);
}

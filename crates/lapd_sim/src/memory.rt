//! Scripts and texts in memory, and how such a script is played.

ghost use Rattle.lapd_sim.specs.Plays.{PlaysOctets};

use crate::player::play;
use lapd_script::PlayFault;
use lapd_transcript::{ReadFailed, Source, Target, WriteFailed};
use std::alloc::Global;
use std::io::Read;

/// A script in memory. It tells what is left of it, and no read of it fails.
#[derive(Drop)]
struct Script<'a> {
    left: &'a [u8],
}

impl Source for Script<'_> {
    ghost use Rattle.std.specs.Prelude.{Some};

    ghost failures = { λ _. 0 };

    ghost remaining = { λ script. Some script.left.now };

    fn read(&mut self, buffer: &mut [u8]) -> Result<usize, ReadFailed> {
        // A slice has no read that fails.
        Ok(self.left.read(buffer).unwrap_or(0))
    }
}

/// A text in memory, which grows. A write for which it can't puts nothing.
#[derive(Drop)]
pub struct Text {
    /// What was put.
    pub octets: Vec<u8>,
    /// How many writes have failed.
    pub failures: u64,
}

impl Target for Text {
    ghost use Rattle.std.specs.Prelude.{Some, true};

    ghost taken = { λ text. record { contents = Some text.octets.items; failures = text.failures; leaves_out = true } };

    fn write(&mut self, octets: &[u8]) -> Result<(), WriteFailed> {
        if octets.is_empty() || self.octets.extend_from_slice(octets).is_ok() {
            return Ok(());
        }
        self.failures = self.failures.saturating_add(1);
        Err(WriteFailed)
    }
}

/// Plays a script on a card, and puts its transcript at the end of `transcript`, which grows as it needs to.
///
/// # Errors
///
/// As [`play`] does, except that no read fails: the transcript of the lines before the fault has been put. If there was no
/// memory for more of it, `Write`, and a prefix that lacks an octet at least.
pub fn play_octets(
    alloc: Global,
    script: &[u8],
    transcript: Vec<u8>,
) -> (Vec<u8>, Result<(), PlayFault>)
    ensures { PlaysOctets result.1 script.now transcript.items result.0.items }
{
    let mut source = Script { left: script };
    let mut target = Text {
        octets: transcript,
        failures: 0,
    };
    let played = play(alloc, &mut source, &mut target);
    (target.octets, played)
}

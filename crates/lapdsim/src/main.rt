//! `lapdsim run` plays the script on its standard input, and writes the transcript to its standard output.
//! `lapdsim frame` shows one frame, and `lapdsim limits` how many octets a card stores at most; `lapdsim image` puts the image
//! of a card into words. `docs/FORMAT.md` has the words and what they answer. `lapdsim --help` and `lapdsim --version` say what
//! the program is.
//!
//! - `help`: what it says of itself. `image`: reads an image. `restored`: what the card of an image tells,
//!   in lines of `words`.
//!
//! # Only tested
//!
//! A stored run, and the program on real streams (`tests/program`): scripts for every word, every kind of fault
//! but `time over`, and every row of the tables that a script can show; devices that fail (`tests/devices`);
//! hostile streams (`tests/hostile`); what `image` tells (`tests/image/run`).
#![tactic(auto)]

ghost use Rattle.std.specs.Prelude.{◌≡◌};
ghost use Rattle.lapd_sim.specs.Plays.{Shows};

mod help;
mod image;
mod restored;
mod words;

use crate::help::help;
use lapd_sim::{PlayFault, ReadFrom, Source, Target, WriteTo, refuse, serve};
use std::alloc::AllocError;
use std::env;
use std::io::ErrorKind;
use std::process::ExitCode;
use std::rt::Files;

fn main(rt: HostRuntime) -> ExitCode {
    let mut source = ReadFrom::new(rt.stdin());
    let mut target = WriteTo::new(rt.stdout());
    let mut faults = WriteTo::new(rt.stderr());
    let arguments = match env::args(&rt) {
        Ok(arguments) => arguments.skip(1).collect::<Vec<String>>(rt.alloc()),
        Err(error) if error.kind() == ErrorKind::OutOfMemory => Err(AllocError),
        // An argument that is no text is no word of this program.
        Err(_) => Ok(Vec::new(rt.alloc())),
    };
    let words = match &arguments {
        Ok(arguments) => arguments
            .iter()
            .map(|word| word.as_str())
            .collect::<Vec<&str>>(rt.alloc()),
        Err(_) => Err(AllocError),
    };
    let status = match words {
        Ok(words) => obey(&rt, words.as_slice(), &mut source, &mut target, &mut faults),
        Err(_) => refuse(PlayFault::OutOfMemory, &mut faults),
    };
    ExitCode::from(status)
}

/// Does what the words ask for, and answers the exit status.
fn obey<R: Files + AllocGlobal, S: Source, T: Target, F: Target>(
    rt: &R,
    words: &[&str],
    source: &mut S,
    target: &mut T,
    faults: &mut F,
) -> u8 {
    if let Some(text) = help(words) {
        return tell(text, target, faults);
    }
    if let Some(file) = image::asked(words) {
        return image::show(rt, file, source, target, faults);
    }
    serve(rt.alloc(), words, source, target, faults)
}

/// Writes `text`, and answers the exit status: 0, or 1 where the write failed, as for a transcript.
fn tell<T: Target, F: Target>(text: &[u8], target: &mut T, faults: &mut F) -> u8
    ensures told { Shows result text.now (T.taken target.old) (T.taken target.new) }
    ensures untold { result ≡ 0 → F.taken faults.new ≡ F.taken faults.old }
{
    match target.write(text) {
        Ok(()) => 0,
        Err(_) => refuse(PlayFault::Write, faults),
    }
}

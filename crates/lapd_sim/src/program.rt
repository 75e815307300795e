//! The program's work: what its words ask for, its fault lines and its exit status.

ghost use Rattle.std.specs.Prelude.{◌≡◌, ◌≢◌, ◌≤◌, ◌↔◌, ◌++◌, ℕ, Bool, List, Result, Some, None, decimal, codes};
ghost use Rattle.lapd_sim.specs.{bound, job, run, frame, limits, texts, PlayFault, Write, FrameFault, play_line, IsWrittenOrFails, Shows, Frames, Runs, side_of};

use crate::player::play;
use lapd_frame::Side;
use lapd_script::{Job, PlayFault, job, refuse, refuse_digits, refuse_words, show_frame};
use lapd_transcript::{Source, Target, write_bound};
use std::alloc::Global;

/// The exit status if all was done.
const DONE: u8 = 0;

/// Does what the words after the program's name ask for, and answers the exit status.
///
/// `run` plays the script that `source` gives, and writes its transcript to `target`. `frame HEX` writes what the frame
/// of these digits says, as the user sent it, or the network with `--network` after it, and what it is on a line.
/// `limits` with five numbers writes how many octets a card with these sizes stores at most. The status is 0, or 1
/// after a fault, which is told by one line on `faults`. Any other words have status 2 and the line `usage` there. A
/// fault line that can't be written changes nothing else.
pub fn serve<S: Source, T: Target, F: Target>(
    alloc: Global,
    words: &[&str],
    source: &mut S,
    target: &mut T,
    faults: &mut F,
) -> u8
    ensures range { result ≤ 2 }
    ensures wrong_words { (result ≡ 2) ↔ (job (texts words.now) ≡ None) }
    // Other words are told by one line, and where all was done nothing is told.
    ensures usage { job (texts words.now) ≡ None → IsWrittenOrFails (codes "usage\n") (F.taken faults.old) (F.taken faults.new) }
    ensures untold { result ≡ 0 → F.taken faults.new ≡ F.taken faults.old }
    ensures no_read_failed { result ≢ 1 → S.failures source.new ≡ S.failures source.old }
    ensures no_write_failed { result ≢ 1 → (T.taken target.new).failures ≡ (T.taken target.old).failures }
    // The source is read for `run` alone, and other words write nothing to the target.
    ensures unread { (job (texts words.now) ≡ Some run → ⊥) → source.new ≡ source.old }
    ensures unwritten { job (texts words.now) ≡ None → target.new ≡ target.old }
    // `run` ends as an answer of `play` says: the status, the fault line, and the transcript of the script.
    ensures played { job (texts words.now) ≡ Some run → (r : Result Unit PlayFault) × Runs r result
        (record { remaining = S.remaining source.old; failures = S.failures source.old })
        (record { remaining = S.remaining source.new; failures = S.failures source.new })
        (T.taken target.old) (T.taken target.new) (F.taken faults.old) (F.taken faults.new) }
    // `frame`: what the frame says and what it is on a line, or the first fault of its digits.
    ensures shown { (digits : List ℕ) (network : Bool) → job (texts words.now) ≡ Some (frame digits network)
        → (r : Result Unit FrameFault) × Frames r result (side_of network) digits
        (T.taken target.old) (T.taken target.new) (F.taken faults.old) (F.taken faults.new) }
    // `limits`: the bound has been written, or a write failed.
    ensures bound { (l t c s n : ℕ) → job (texts words.now) ≡ Some (limits l t c s n)
        → Shows result (decimal (bound l t c s n) ++ codes "\n") (T.taken target.old) (T.taken target.new) }
    ensures bound_fault { (l t c s n : ℕ) → job (texts words.now) ≡ Some (limits l t c s n) → result ≡ 1
        → IsWrittenOrFails (play_line Write) (F.taken faults.old) (F.taken faults.new) }
{
    match job(words) {
        Some(Job::Run) => match play(alloc, source, target) {
            Ok(()) => DONE,
            Err(fault) => refuse(fault, faults),
        },
        Some(Job::Frame { hex, network }) => {
            match show_frame(alloc, hex.as_bytes(), side_of(network), target) {
                Ok(()) => DONE,
                Err(fault) => refuse_digits(fault, faults),
            }
        }
        Some(Job::Limits(limits)) => match write_bound(target, limits.bound()) {
            Ok(()) => DONE,
            Err(_) => refuse(PlayFault::Write, faults),
        },
        None => refuse_words(faults),
    }
}

/// Who sent a frame: the network with `--network`, otherwise the user.
fn side_of(network: bool) -> Side
    ensures { result ≡ side_of network }
{
    if network { Side::Network } else { Side::User }
}

//! Plays scripts on a line card: what its lines bring is put on the card, and the transcript of the answers is written.
//! `docs/FORMAT.md` describes both texts.
//!
//! - `setup`: what a script is played on: a card with its timers, and the terminals and listeners of its lines. It obeys the
//!   lines of a script. `parts`: what it begins with. `exchange`: what happens at the card.
//!   `images`: the card is saved and restored.
//! - `player`: plays a script; `memory`, one that lies in memory.
//! - `program`: the program's words and exit status.
//! - `machine`: what a script means, and what holds of whole scripts.
//!
//! # Only tested
//!
//! That the answer to each line is written before more is read than that line needs; that `play_octets` and `show_frame`
//! of `lapd_script` succeed if there is memory.
//!
//! # Open
//!
//! Scripts of more than 2^63 octets; what the system's own streams hold, since they tell nothing of it.
#![tactic(auto)]

mod exchange;
mod images;
mod machine;
mod memory;
mod parts;
mod player;
mod program;
mod setup;

pub use lapd_script::{FaultKind, Job, PlayFault, job, refuse};
pub use lapd_transcript::{ReadFailed, ReadFrom, Source, Target, WriteFailed, WriteTo};
pub use machine::{
    frames_are_heard, limits_are_of_cards, runs_on_boards, scripts_are_runs, scripts_stay_within,
    transcripts_are_replies, waits_leave_nothing_due,
};
pub use memory::{Text, play_octets};
pub use player::play;
pub use program::serve;

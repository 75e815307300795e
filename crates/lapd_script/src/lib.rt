//! The language of scripts, in which a line card is played: what a line says, what can be wrong with it, and how the
//! lines are read.
//! `docs/FORMAT.md` describes it for those who write scripts.
//!
//! - `kind`: what can be wrong with a line.
//! - `command`: what a line says.
//! - `word`: the first words.
//! - `words`: the words of a line, and how many a line takes.
//! - `values`: words that stand for numbers, for octets and for causes.
//! - `read`: reads a line.
//! - `lines`: how the lines of a script are read, in pieces.
//! - `faults`: why a script is not played to its end.
//! - `jobs`, `arguments`: what the program can be asked for, and its words.
//! - `shown`: shows one frame.
//! - `fault_lines`: the program's fault lines and its exit status with them.
//!
//! # Only tested
//!
//! What `PlayFault` displays.
#![tactic(auto)]

mod arguments;
mod command;
mod fault_lines;
mod faults;
mod jobs;
mod kind;
mod lines;
mod read;
mod shown;
mod values;
mod word;
mod words;

pub use arguments::job;
pub use command::{Asked, Command, Durations};
pub use fault_lines::{refuse, refuse_digits, refuse_words};
pub use faults::{LineFault, PlayFault};
pub use jobs::{Job, Limits};
pub use kind::FaultKind;
pub use lines::ScriptLines;
pub use model_card::CardKind;
pub use read::read_line;
pub use shown::{FrameFault, show_frame};
pub use values::octets;

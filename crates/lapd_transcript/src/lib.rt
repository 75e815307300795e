//! What goes in and out of a simulation: sources and targets of octets, and the lines of a transcript.
//! `docs/FORMAT.md` describes the lines for those who read them.
//!
//! - `streams`: where a script is read from and a transcript is written to, [`Source`] and [`Target`].
//! - `read_from`, `write_to`: any reader of std as a source, any writer of std as a target.
//! - `output`: puts pieces of text onto a page, [`Page`], which goes to its target once it is full and by [`Page::send`].
//! - `lines`: puts the lines of a transcript onto a page, and writes what tells of a faulty line of a script.
//! - `notes`: what an event brought; `counters`: what was counted of a line.
//! - `shown`: what a frame says, octets of a line, and the bound of a card.
//! - `terminal`: the sender of a terminal.
//! - `listener`: tells the octets that a line takes, and the frames in them.
//!
//! # Only tested
//!
//! That `ReadFrom` and `WriteTo` fail only if their reader or writer did, try interrupted calls again, and
//! flush.
#![tactic(auto)]

mod counters;
mod lines;
mod listener;
mod notes;
mod output;
mod read_from;
mod shown;
mod streams;
mod terminal;
mod write_to;

pub use counters::CounterGroup;
pub use lines::write_faulty;
pub use notes::tei_noted;
pub use output::Page;
pub use read_from::ReadFrom;
pub use shown::{write_bound, write_line_octets, write_shown};
pub use streams::{Put, ReadFailed, Source, Target, WriteFailed};
pub use terminal::{LONGEST_FRAME, LONGEST_INFORMATION, SHORTEST_FRAME, Terminal};
pub use write_to::WriteTo;

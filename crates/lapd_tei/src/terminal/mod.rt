//! TEI management of one line, at a terminal: [`TerminalTeis`] answers as its machine does.
//!
//! - `teis`: [`TerminalTeis`], all of it; each call is one event, and answers a [`TeiOutcome`](crate::TeiOutcome).
//!   `teis/served`: what a message of the network leads to. `teis/words`: the words of the table.
//! - `procedure`: what the terminal has asked the network for.
//! - `queue`: the messages that wait to be sent. `messages`, `heard`: those of the terminal and of the network.
//!
//! No call takes memory.

mod heard;
mod messages;
mod procedure;
mod queue;
mod teis;

pub use teis::TerminalTeis;

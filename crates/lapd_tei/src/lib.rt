//! TEI management of one line (Q.921 clause 5.3), as code, on either side: [`Teis`] is that of the network, [`TerminalTeis`] that
//! of a terminal. Each answers as its machine in `model_teis` does.
//!
//! - `teis`: [`Teis`], all of it; each call is one event, and answers a [`TeiOutcome`]. `teis/requests`: requests of
//!   terminals for a TEI. `teis/checks`: how a check begins, goes on and ends.
//! - `outcome`: what an event led to.
//! - `table`: [`Table`], the TEIs of a line, each at a place, on either side.
//! - `remembered`: the latest assignments, for requests that come again.
//! - `check`: the check of a TEI that runs; `due`: those that are due once it has ended.
//! - `queue`: the messages that wait to be sent.
//! - `messages`, `heard`: the messages of the network and of the terminals. `information`: what those of both sides have in
//!   common, `ENTITY` and `NO_TEI`.
//! - `terminal`: [`TerminalTeis`]. `terminal/procedure`: what it has asked for, in an image; other parts are named as above.
//! - `fault`: why a start fails.
//! - `saved` below these, and below `teis` for the whole: what each is in an image of its card.
//!
//! No call except a start takes memory.
//!
//! # Only tested
//!
//! Starts; worked rows through the code (`test_product`).
#![tactic(auto)]

mod check;
mod due;
mod fault;
mod heard;
mod information;
mod messages;
mod outcome;
mod queue;
mod remembered;
mod table;
mod teis;
mod terminal;

pub use fault::StartFault;
pub use information::{ENTITY, NO_TEI};
pub use model_teis::Change;
pub use model_teis::network::{Check, Message, Period, Remembered};
pub use outcome::TeiOutcome;
pub use table::Table;
pub use teis::Teis;
pub use terminal::TerminalTeis;

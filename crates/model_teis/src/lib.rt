//! TEI management of one line (Q.921 clause 5.3), as machines.
//!
//! That of the network's side says which TEIs are on the line, which of them a terminal is assigned, and whether two
//! terminals have the same one. That of a terminal asks for a TEI, answers checks, has a TEI verified, and gives one up.
//!
//! What both sides share stands in `specs/` itself: the table of a line's TEIs, its changes, what is told of an event, the
//! octets of a message. The rest of each side stands in a folder of its own, `network` or `terminal`. Its events and their
//! effects are in `Rows` and `Events`, one equation for each row, and in our words in `docs/MACHINE.md`. The code is
//! `lapd_tei`. What a line makes of it is in `model_line`.
//!
//! Here are the plain types that the code shares with the definitions:
//!
//! - `changes`: [`Change`], a TEI that came to a line or left it.
//! - `network`: the messages of the network's side and of the terminals as it hears them, a check, an assignment that is
//!   remembered.
//! - `terminal`: the messages of a terminal and of the network as it hears them, a procedure.
//! - `laws` below each: what holds of the table of events itself.
#![tactic(auto)]

mod changes;
pub mod network;
pub mod terminal;

pub use changes::Change;

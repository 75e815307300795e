//! The bits of a line: flags, bit stuffing, aborts and the frame check of ITU-T Q.921 clause 2.
//!
//! A [`Deframer`] hears the frames in the octets of a line, and a [`Framer`] gives the octets for frames to be
//! sent. Both take all their memory when they start.
//!
//! What is heard in a line's bits and what goes out is defined in `model_bits`, which also says what a *gap*, the *open
//! gap* and an *item* are. Its types and laws are public here, too. This is the code:
//!
//! - `deframer`, over `gap`, `unstuffer` and `flag_end`: from octets to frames; `ended`: what an octet ends.
//! - `framer`, over `stuffed_text`, `stuffer` and `waiting`: from frames to octets; `heads`: the first octets of the latest;
//!   `reading`: all of them, read back out of its text.
//! - `start_fault`: why neither could be started.
//! - `check`: the frame check sequence.
//!
//! # Only tested
//!
//! Starts with n201 of 0, 260 and 1,024; worked frames at every bit offset; streams in no order, against another
//! reading of clause 2 (`tests/streams`).
#![tactic(auto)]

mod check;
mod deframer;
mod ended;
mod flag_end;
mod framer;
mod gap;
mod heads;
mod reading;
mod start_fault;
mod stuffed_text;
mod stuffer;
mod unstuffer;
mod waiting;

pub use check::fcs;
pub use deframer::Deframer;
pub use ended::Ended;
pub use framer::Framer;
pub use model_bits::{
    Cause, Head, Heard, abort_after_flag, flag_after_flag, frames_round_trip, heard_within_stream,
    octets_of_a_text, one_event_an_octet, one_stuffed_text, only_check, stuffed_texts,
};
pub use start_fault::StartFault;

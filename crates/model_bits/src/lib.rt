//! The bits of a line, as definitions: flags, bit stuffing, aborts and the frame check of ITU-T Q.921 clause 2.
//!
//! A *gap* is what stands between two flags that follow one another. The *open gap* is what has come since the latest
//! flag, as long as no seven 1s have given it up. An *item* is what is sent after a line's opening flag: an idle flag,
//! or a stuffed frame with its check and its closing flag.
//!
//! `specs/` says what is heard in a line's bits and what goes out, bit by bit over whole lists. The code, which knows
//! registers, counters and buffers, stands above, in another crate. Here are the plain types that it shares with the
//! definitions, and what holds of these:
//!
//! - `heard`: `Heard`, what an octet brought, and `Cause`, why a frame was dropped.
//! - `heads`: `Head`, how the latest frame of a line begins.
//! - `check`, `stuffing`, `one_event`, `heard_within`, `flag_places`, `round_trip`: laws, as functions with no effect.
//!
//! # Open
//!
//! Which errors on a line the frame check misses.
#![tactic(auto)]

mod check;
mod flag_places;
mod heads;
mod heard;
mod heard_within;
mod one_event;
mod round_trip;
mod stuffing;

pub use check::only_check;
pub use flag_places::{abort_after_flag, flag_after_flag};
pub use heads::Head;
pub use heard::{Cause, Heard};
pub use heard_within::heard_within_stream;
pub use one_event::one_event_an_octet;
pub use round_trip::frames_round_trip;
pub use stuffing::{octets_of_a_text, one_stuffed_text, stuffed_texts};

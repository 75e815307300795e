//! What is promised of every list of events at a card, in one record, and the card's own calls with that record in their
//! contracts.
//!
//! `specs/Promises` has the record. Each field is a promise, and the sentence above it says it in words. Of a card of
//! octets it is said of what the events mean to the card of frames inside; `specs/PromisesOfOctets` has what is
//! promised of the octets beside. The clauses of [`lapd_card::Card::drive`] say the rest. They say where the card is
//! after the events, which replies the sink has taken, what bounds storage and frames, and what stands in the octets.
//!
//! - `frame_call` with `frame_events`, `frame_sink` and `frame_replies`: `drive_frames`, which runs a whole list of events
//!   at a card of frames, with what a run is, the laws of every run, and the promises. A caller that needs no proof calls
//!   the card itself.
//! - `timed_call` with `timed_events`, `timed_sink` and `timed_replies`: `drive_timed`, the same of a card of either kind that
//!   keeps its own timers. `specs/TimedRun` has what is said of a kind, and `specs/TimedDrive` the two kinds.
//! - `call`: `drive`, the same of a card of octets.
//! - `laws`: the promises of every machine of a card that is reached, as calls without effect.
#![tactic(auto)]

mod call;
mod frame_call;
mod frame_events;
mod frame_replies;
mod frame_sink;
mod laws;
mod timed_call;
mod timed_events;
mod timed_replies;
mod timed_sink;

pub use call::drive;
pub use frame_call::drive_frames;
pub use frame_events::FrameEvent;
pub use frame_replies::{FrameReply, SentFrame};
pub use frame_sink::FrameSink;
pub use laws::{calls_mean_this, promises_are_kept, promises_of_octets_are_kept};
pub use timed_call::drive_timed;
pub use timed_events::TimedEvent;
pub use timed_replies::TimedReply;
pub use timed_sink::TimedSink;

//! Laws of the machine of a line that say what it does: what happens to what layer 3 gave, what is sent next, what
//! comes of what was heard, and what a line comes to as its frames are taken.
//!
//! The machine itself stands in `model_line`, and the laws of a single link in `laws_link`. The laws of `laws_trace`
//! say what an observer sees of a line. Here stands what those need, and what they leave open. `specs/` has the words
//! of these laws and of the proofs above. `Share` is what an event is to the contents of one link, and `Loss` how layer
//! 3 learns that a link keeps nothing. `Served` is what a call for the next frame takes, `Heard` what comes of what is
//! heard, and `Frames` which frames are told as lost. `Steady` and `Requests` say which events are those of a link, and
//! `OneEvent` that one part has each and nothing else changes. `GoesDown` is of a line that is down. `Timers` says
//! which timers are needed and run, and `Knowledge` what notes tell. `Turns` says whose turn it is, and `Short` how
//! short answers are. The law is in `Laws`, and worked values of it and of the machine are in `Worked*`. `Drains` and
//! `Among` say what a line comes to with calls for the next frame, or with other events between them. Their bounds are
//! numbers of calls, and speak of no time. Each law is the contract of a call that does nothing.
//!
//! - `laws`, `progress`, `turns`: the laws.
//! - `card`: laws of a whole card.
//!
//! # Open
//!
//! When I-frames and unit data go, one by one; when nothing waits any more if other events of the line come between
//! calls for its next frame.
#![tactic(auto)]

pub mod card;
mod laws;
mod progress;
mod turns;

pub use laws::one_event;
pub use progress::takes_come_to_an_end;
pub use turns::answers_are_short;

//! Laws of the machine of a data link that say what it does: what happens to contents that layer 3 gave, what is sent,
//! and what is delivered.
//!
//! The machine itself, and the laws on which the product stands, are in `model_link`. What an observer sees of a link,
//! the laws of `laws_trace` say. Here stands the table of a link said a second time, on which those stand, and what two
//! links come to. `specs/` has the words:
//!
//! - what an event accepts, acknowledges and empties (`Accepted`), and what was accepted since the numbers began
//!   (`History`);
//! - what an offer gives (`Offered`), and what a frame that is heard brings (`Heard`);
//! - what layer 3 knows (`Known`), which timers run (`Timed`), and when an I-frame is sent (`Sending`);
//! - to which state an event leads (`States`), which frames it puts after those that wait (`Waiting`), what it leaves
//!   of the flags (`Flags`), and what it tells (`Telling`); all of these together (`Following`);
//! - worked values (`Worked..`; of the machine over the links of `Samples`).
//!
//! Each law is the contract of a call that does nothing.
//!
//! - `sending`: the effects of a request that is granted, and how contents leave a link;
//! - `following`: what an event leaves of a link, its state, its flags and what waits, and what it tells;
//! - `counting`: what is counted of a link;
//! - `two`: progress of a link, and of two links that face each other.
#![tactic(auto)]

mod counting;
mod following;
mod sending;
mod two;

pub use counting::counts_are_true;
pub use following::{flags_follow, frames_follow, notes_follow, states_follow};
pub use sending::{losses_are_told, requests_take_effect};
pub use two::{
    arrives_in_any_order, busy_ends_are_heard, busy_ends_recover, busy_is_heeded, contents_arrive,
    kept_contents_arrive, losses_are_recovered, stay_up_while_ahead,
};

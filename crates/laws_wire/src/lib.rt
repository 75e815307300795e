//! Laws of two cards on one wire: a line of a card of the network's side faces a line of one of the user's, and what
//! one sends the other receives. There is nothing to call: each law is the contract of a function that does nothing.
//!
//! `specs/` has:
//!
//! - `Wire`: the wire, and what can happen at its ends;
//! - `Call`: a call between two cards that have just begun, in the words of the events and answers of a card alone;
//! - `Losing`: the same with frames that are lost and timers that expire;
//! - `Timely`: a T200 that is long enough. `Recovering` has what it recovers, `StillTimely` the same if it expires as
//!   no turn is left;
//! - `Arriving`: what it recovers under traffic. `Expiring`: how often it expires then;
//! - `Answering`: the same if UA is lost or an end is busy. `Settling`: that such a call comes to rest. `Ending`: its
//!   end;
//! - `Counted`: how often T200 may expire. `Resting`: how many turns there are at most;
//! - `Facing`: two cards that face each other by links in state 7;
//! - `Terminals`: a terminal that asks the network for a TEI, and a call after that;
//! - `Worked..`: worked values that compute.
//!
//! What a card does at an event is the machine of `model_card`, of frames. The laws of two links are those of
//! `laws_link`.
//!
//! # Open
//!
//! What is told after an error other than F of a lost UA. Whether rest is reached after such an error, or after a
//! release. What arrives if UA is lost or an end is busy, while data is asked for on and on. That all arrives with no
//! expiry if nothing is lost, no I-frame comes to a busy end, and each of its reports finds a place to wait (without that
//! it is false: `specs/WorkedReports`). Losses if both ends call, with other requests, links or lines, or from elsewhere
//! than nothing. That a terminal which asks gets a TEI if frames are lost.
#![tactic(auto)]

mod answering;
mod arriving;
mod expiring;
mod laws;
mod resting;
mod settling;
mod terminals;

pub use answering::{a_call_ends, a_call_with_losses_comes_through};
pub use arriving::it_arrives_under_traffic;
pub use expiring::expiries_come_to_an_end;
pub use laws::{
    a_call_comes_through, cards_deliver, expiries_are_counted, told_in_order, what_is_lost_arrives,
    what_is_lost_arrives_from_rest,
};
pub use resting::{rounds_come_to_rest, turns_come_to_an_end};
pub use settling::a_call_with_losses_comes_to_rest;
pub use terminals::a_terminal_comes_through;

//! One data link: the acknowledged exchange of contents with one terminal for one service (Q.921 clause 5, states 4 to
//! 8 of annex B, either side, modulo 128).
//!
//! A [`Link`] takes what happens to it one event at a time and answers what its user is told:
//!
//! - [`Link::frame`]: something came from the terminal; [`Link::receive`] is the same without lending its contents on;
//! - [`Link::expire`]: a timer expired;
//! - [`Link::request`]: layer 3 asks for something;
//! - [`Link::offer`]: the next frame to be sent;
//! - [`Link::room`]: how many contents more it can take;
//! - [`Link::open`], [`Link::clear`]: its TEI comes to the line, or leaves it;
//! - [`Link::save`], [`Link::restore`]: it is written into an image of its card, and read from one.
//! - [`two_ends`]: a law of two links that face each other from an establishment on: while both stay in states 7 and 8,
//!   what each has delivered are the first contents that the other accepted, in order.
//!
//! What it is proved to be is the machine of `model_link`: `specs/Stands.antt` says what a link stands for. The
//! contents that layer 3 gives lie in slots of a shelf that other links use too. They are copied there once, and freed
//! when they are acknowledged or given up. After the start no call takes memory.
//!
//! # Only tested
//!
//! Starts, as parts of a card's (`tests/scripts/card`); what each event leads to in each state (`tool_tables`).
#![tactic(auto)]

mod events;
mod fault;
mod link;
mod offers;
mod orders;
mod outcome;
mod received;
mod requests;
mod restored;
mod rooms;
mod saved;

pub use fault::StartFault;
pub use lapd_link_steps::BareReport;
pub use link::Link;
pub use model_link::{LinkCounts, LinkTimer, Room, two_ends};
pub use offers::Offer;
pub use outcome::Outcome;
pub use received::Received;
pub use requests::LinkRequest;

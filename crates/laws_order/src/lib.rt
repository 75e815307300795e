//! The order of what is told at two cards on one wire, whatever else happens at both.
//!
//! `specs/` has:
//!
//! - `AnySteps`: all that can happen to two cards, at any of their lines;
//! - `Order`, `Release`, `InTheEnd`: the laws;
//! - `Worked`, `WorkedRelease`, `WorkedInTheEnd`: worked runs that meet their premises and use them;
//! - `WorkedBroken`: runs that break what is said if a premise is left out.
//!
//! `circuit` has two cards of octets, `teis` a network's line and terminals on one bus. What a card does at an event is
//! the machine of `model_card`, of frames. The wire is that of `laws_wire`, and what is seen at an end is as in the trace
//! of `laws_trace`. Each law is the contract of a call that does nothing.
//!
//! # Open
//!
//! That what was granted is told in the end; that the other end is told of a release after error H. Order of both ends
//! together while a SABME of the establishment is still in transit as UA is received, after an error is told
//! (`specs/WorkedBroken`; until then `told_in_order` of `laws_wire` says it).
#![tactic(auto)]

mod circuit;
mod laws;
mod teis;

pub use circuit::{
    a_call_comes_through_in_octets, a_call_comes_to_rest, all_is_told_in_beats,
    calls_are_of_frames, delivered_between_kinds, delivered_though_damaged,
};
pub use laws::{delivered_in_order, releases_are_told, releases_end};
pub use teis::{assignments_hold, two_terminals_differ};

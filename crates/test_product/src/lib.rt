//! Tests of what no contract says, in a crate of their own, so that what they test isn't proved again for them. Whatever a
//! transcript shows is in `tests/scripts`, what a link does `tool_tables` prints, and `tool_bench` runs the calls of the lower
//! crates. Starts without memory are in `tests/memory`, streams that fail or come in pieces in `tests/devices`.
//!
//! - `calls`: each call that runs a list of events, at a card of octets, of frames, and of either with its own timers.
//! - `starts`: starts at the ends of their ranges. `words`: what faults say. `checks`: how a check of a TEI ends. `flushes`: a
//!   writer that keeps what it is given.
//! - `kept`: `keep_replies`, which shows by its contract what a caller of `drive` can conclude.
//!
//! `specs/` and `proofs/` have worked values of the definitions of the lower crates, of `model_bits`, of `lapd_count` and of
//! images.
#![tactic(auto)]

#[cfg(test)]
mod calls;
#[cfg(test)]
mod checks;
#[cfg(test)]
mod flushes;
mod kept;
#[cfg(test)]
mod starts;
#[cfg(test)]
mod words;

pub use kept::keep_replies;

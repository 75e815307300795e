//! The machine of a card that keeps its own timers, as definitions: a card of frames or of octets, and the clock of its timers.
//!
//! An event happens at the card, and what its answer orders of timers is carried out at the clock, at once. Time goes
//! on. What is due falls due, first what was due first. `specs/` has the clock (`Clock`), the timed card of whichever
//! kind (`Timed`), both kinds (`Frames`, `Octets`), and what is proved of them.
//!
//! The code of a timed card stands above, in another crate.
//!
//! - `laws`: what holds of both kinds.
#![tactic(auto)]

mod laws;

pub use laws::{changes_are_told, timers_are_true, timers_run_on, timers_run_the_same};

//! The machine of a whole card, as definitions: its lines are machines of their own, which share nothing but the
//! pool of slots for contents (profile).
//!
//! `specs/` has the card and its events (`Card`, `Event`), and what each event makes of it and what it answers
//! (`Machine`). It has whole lists of events (`Run`), and which cards come about (`Reached`). What is counted of them is in
//! `Counts`, `Counted` and `Stored`, of single events in `ByEvent` and `Drops`. It has what a link delivers (`Numbered`), and
//! one line beside the others (`Isolation`). What is promised of whole lists is `Promises`, and `Laws` says of which cards and
//! lists. Nothing of these is of octets on a line: a card of octets is this card with a port at each line ([`ports`]).
//!
//! The code of a card stands above, in another crate.
//!
//! - `kinds`: of octets or of frames.
//! - `laws`: what holds of whole runs, as calls without effect.
//! - `ports`: the same of a card of octets.
#![tactic(auto)]

mod kinds;
mod laws;
pub mod ports;

pub use kinds::CardKind;
pub use laws::{
    cards_stay_sound, deliveries_numbered, drops_change_nothing, drops_cost_nothing,
    frames_amortised, frames_amortised_from_zero, frames_by_event, lines_isolated, pool_never_full,
    refused_by_the_table, rejects_are_long, run_is_moments, stored_within_limit,
};

//! Counters of a line: what an operator asks of it. How many frames of each kind came and went, why some were dropped, which
//! errors were told, how many frames found no room to wait.
//!
//! [`Counters`] has a number of 64 bits for each [`Counter`], which stays at its greatest value. What is counted is what a
//! moment of a line shows: the frame that is heard, the frame that is given, and what an answer tells (`specs/Shown.antt`). So
//! each counter is the number of what its name says, from the start of the line on (`counters_are_numbers`).
//!
//! - `kinds`: the kinds of frames, by their control fields; `messages`: the messages of TEI management, by their types;
//!   `counter`: the names of the counters; `counters`: their values; `image`: how an image has them.
//! - `laws`: that a counter is a number, and that no two stand at one place.
#![tactic(auto)]

mod counter;
mod counters;
mod image;
mod kinds;
mod laws;
mod messages;

pub use counter::{Counter, Way};
pub use counters::Counters;
pub use kinds::Kind;
pub use laws::{controls_have_kinds, counters_are_numbers, places_are_names};
pub use messages::MessageType;

//! Octets around the machine of frames: ports, as definitions (Q.921 clause 2).
//!
//! A card of octets is a card of frames (`model_card`) with a port at each line. What comes at a port is heard as frames, or
//! dropped. What the line gives is put on it as a text of flags and frames with bits stuffed. `specs/ports` has the port
//! (`Port`), a line and a card with ports (`Line`, `Card`), and whole lists of events (`Run`). By the law of the codec
//! (`Codec`) all that is proved of cards of frames holds of cards of octets. What is said of octets alone is promised here,
//! too (`Promises`, `Laws`): that what is heard are octets (`HeardOctets`), what a receiver hears of a line (`GoingOut`),
//! how many pulls bring a frame (`Pulls`), and when a pull takes one (`AtOnce`). `Whole` has the octets in which a
//! controller's frames and faults would stand on a line.
//!
//! - `events`: `Event`, what happens at a card of octets.
//! - `laws`: what holds of whole runs, as calls without effect.

mod events;
mod laws;

pub use events::Event;
pub use laws::{
    cards_stay_sound, drops_are_without_effect, frames_are_heard, frames_go_at_once, frames_linear,
    given_frames_are_heard, heard_frames_are_octets, latest_heard_is_told, lines_isolated,
    octets_are_a_codec, pulls_are_takes, run_is_moments, stored_within_limit,
};

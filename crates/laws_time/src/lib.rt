//! Laws of time: what happens to a link within so many milliseconds. Each law is the contract of a call that does
//! nothing.
//!
//! A card keeps its own timers here, as `model_timed` has it: an event happens, time goes on, and what is due falls
//! due. `specs/` has what is seen of a timed card of either kind (`Watched`), and a line that goes dead (`Silence`).
//! Worked runs meet its premises (`WorkedSilence`), and for each premise one breaks the law without it
//! (`WorkedPremises`). `circuit` has two cards of octets on one line, with their clocks.
#![tactic(auto)]

mod cards;
mod circuit;
mod falling;
mod laws;

pub use cards::timed_cards_are_cards;
pub use circuit::{
    a_call_comes_in_time, a_call_outlasts_noise, a_call_takes_beats, an_answer_tells_what_came,
    answers_come_in_time, calls_bear_noise, commands_are_answered, ends_are_timed_cards,
    frames_come_after_noise, frames_come_in_beats, no_noise_makes_no_frame,
};
pub use falling::falling_due_ends;
pub use laws::{a_dead_line_is_told, n200_takes_its_time, no_answer_is_awaited_longer};

//! The timers of a card's lines: which of them run, and which falls due first.
//!
//! A line of LAPD has T200 and T203 for each link, so two of each for each
//! terminal (one link for each service), and one T201 or, at a terminal, T202 (Q.921 clause 5.9). Its events order timers
//! started and stopped. `Moments` has a place for each timer that may run at a time, with the moment at which it falls due, and
//! gives the timers back one after the other as their moments come. It reads no clock of its own:
//! moments are numbers that its caller hands in, in milliseconds. Its caller starts and stops a timer at its place. Only
//! if that was the first of its line does it look at the others of the line. A `Clock` is for a caller who knows no places:
//! it looks for that of a timer among those of its line. It also knows how long timers run.
//!
//! - `clock`: `Clock`, the running timers of all lines. `clock::saved`: a clock in an image. `clock::restored`: a clock from one.
//! - `moments`: `Moments`, the places of all lines. `moments::place`: one place. `moments::any_place`: which place of a line is
//!   that of a timer. `moments::lead`: which place of a line falls due first, when one changes. `moments::look`:
//!   which of the card does. `moments::saved`: the moment of a place in an image.
//! - `held`: a timer that runs. `lengths`: `Lengths`, how long the timers run. `timers`: which of them goes first at one moment.
//! - `fault`: `StartFault` and `ImageFault`, why there is no clock, and `LengthFault`, which timer cannot run so long.
//! - `laws`: what an order does to the moments of all timers.
//!
//! What each call answers and does is defined on the set of running timers: in `specs/Timers.antt` of a clock, in
//! `specs/OwnPlaces.antt` of places.
//!
//! # Cost
//!
//! All memory of a `Clock` is taken by `Clock::start` or `Clock::start_with`: for each line `4 * terminals + 1` places, a
//! moment, and which place is its first. That of `Moments` is taken by `Moments::idle`: the same, and one place more a line. If
//! none is due, `due` looks at one moment, whatever the lines. Only if the timer that was first has been started anew or stopped,
//! the first `due` after its moment looks at a moment of each line, and until then so does each `next`. `apply` goes
//! over the places of its one line until it finds that of the timer. If the timer runs at none, it goes on to the first
//! free one, and if it was the first of the line, once more over all. A timer that is started again keeps its place, and no
//! other moves. If one is due, `due` also looks at a moment of each line, and goes over the places of its line.
//!
//! # Only tested
//!
//! Starts with 1 and 64 lines of 1 and of 8 terminals.
#![tactic(auto)]

mod clock;
mod fault;
mod held;
mod laws;
mod lengths;
mod moments;
mod timers;

pub use clock::Clock;
pub use fault::{ImageFault, LengthFault, StartFault};
pub use laws::orders_move_one_timer;
pub use lengths::Lengths;
pub use moments::Moments;

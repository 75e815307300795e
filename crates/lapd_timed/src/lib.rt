//! A card that keeps its own timers, or one whose timers are its owner's. What the first orders is carried out in places of
//! their own, at the moment that it is told, and what is due falls due. The orders of the other are told to its owner.
//!
//! [`TimedCard`] is a card of either kind and of either sort, call by call. If it keeps its timers, its owner tells it the
//! moment, and asks what falls due:
//!
//! ```text
//! let timers = CardTimers::start(alloc, card.lines(), terminals, Lengths::standard())?;
//! let mut card = TimedCard::new(card, timers);
//! loop {
//!     let mut report = BareReport::nothing();
//!     card.go_to(now)?;
//!     while card.fall_due(&mut report).is_some() {
//!         layer_3(&report);
//!         report = BareReport::nothing();
//!     }
//!     card.frame(line, frame_that_came, &mut report);
//!     layer_3(&report);
//! }
//! ```
//!
//! [`CardTimers`] is the timers alone, for an owner that has the card: after each event they obey what the answer orders.
//!
//! Each timer that may run at a time has a place, which its line and the place of its TEI on the line tell, so none is ever
//! missing. `model_timed` has the machine of a card with its timers. That these are true, and are those that the lines run, are
//! laws there. The contracts of each call say that the timers stand for its clock (`specs/Stands`), and a card with them for the
//! timed card of its kind (`specs/TimedStands`). One that keeps none stands for no timed card: of it they say what happens to
//! the card inside.
//!
//! - `card_timers`: `CardTimers`; `obeying`: what it is ordered; `places`: where its timers are.
//! - `changes`: when the states of links changed; `noting`: these are noted; `touches`: of which TEI.
//! - `timed_card`: `TimedCard`. `wrong_time`: the time that is refused. `saved` with `saving` and `restoring`: a card in an
//!   image, and restored from it.
#![tactic(auto)]

mod card_timers;
mod changes;
mod noting;
mod obeying;
mod places;
mod restoring;
mod saved;
mod saving;
mod timed_card;
mod touches;
mod wrong_time;

pub use card_timers::CardTimers;
pub use saved::{ImageFault, MOST_LINES, Restored, restore};
pub use timed_card::TimedCard;
pub use wrong_time::WrongTime;

//! The rows of a link's state tables, as code: what each event does to a link and what it tells, except for the slots in
//! which the contents of its queue lie (Q.921 clause 5, states 4 to 8 of annex B).
//!
//! - `entity`: `Entity`, the state and the variables of one link, and the control frames that wait.
//! - `report`: `BareReport`, what an event led to.
//! - `words`: the words of the tables, a method each.
//! - `states`: the rows, by state; `multiple_frame` has those that states 7 and 8 have in common.
//! - `frames`, `timers`, `requests`, `offers`: the kinds of events, each of which goes to the rows of the state.
//! - `heads`, `waiting`: what an image of a card has of a link, before its contents and after them.
//!
//! Each method is proved to do its word or row of the machine in `model_link`. The contents themselves stay with
//! the queue's owner: rows say by `released` of the report how many of the oldest are to go, and by `delivered` that the
//! information of the frame is delivered.
#![tactic(auto)]

mod entity;
mod frames;
mod heads;
mod offers;
mod report;
mod requests;
mod states;
mod timers;
mod waiting;
mod words;

pub use entity::Entity;
pub use offers::Given;
pub use report::BareReport;
pub use timers::is_the;

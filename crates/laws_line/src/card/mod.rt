//! Laws of whole runs of a card that say what it does: what happens to what layer 3 gave, what is sent next, and what
//! comes of what was heard.
//!
//! The machine itself, and the laws that say what a card never does, stand in `model_card`. The laws of a line stand
//! beside this module, and those of a link in `laws_link`. `specs/card` has what holds in a moment (`OneEvent`), and
//! what holds of a list of events (`Promises`). `Brief` has it in brief, beside what the laws of the trace of a line
//! say. There is which timers a caller runs (`Timers`). What calls for the next frame of a line come to is in `Among`
//! and `PromisesOfTakes`; `WaitingIsHeard` has words of the octets that they come to. The laws say of which cards and
//! lists (`Laws`). There are worked values of the laws and of the machine, also some that break them (`Worked*`). Each
//! law is the contract of a call that does nothing. `laws_promises` has what is promised of a list of events in one record,
//! `Promises`. A law here names the fields that it proves, and their comments say it in words.
//!
//! - `laws`, `progress`: the laws.

mod laws;
mod progress;

pub use laws::{causes_are_told, one_event, others_stay};
pub use progress::takes_serve_wherever;

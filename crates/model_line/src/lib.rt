//! The machine of a line, as definitions: what each frame heard, timer expiry, request and call for the next frame makes of
//! the line, and what it answers (Q.921 clauses 3 and 5, either side).
//!
//! A line joins TEI management, a link of each service for each TEI, and unit data that waits. `specs/` has the machine; its
//! worked values are in `laws_line`. It reads from the line and its events (`Line`, `Event`, `Request`) by what an event is
//! to the parts (`Effect`; `Heard`, `Expiry`, `Requested`), why a request is refused (`Refusal`) and what is sent next
//! (`Taken`) to the whole (`Machine`). `Stored`, `Counts` and `Deliveries` say what is counted of a line. `Image` and
//! `ConfigImage` have the octets of a line and of a configuration in an image of a card, `Most` how many these are at most, and
//! `Same` says when two lines are the same to one. Nothing here is of
//! octets on a line: these are a codec around it (`model_card::ports`).
//!
//! The code of a line stands above, in another crate. Here are the plain types that it shares with the definitions:
//!
//! - `config`: `Config`, the sizes and limits of a card.
//! - `requests`: `Request`, what layer 3 and management ask of a line.
//! - `faults`: `Fault`, what a controller of a line's flags, stuffed 0s and checks tells in place of a frame. What that, and a
//!   frame that it brings, are heard as stands in `Came`.
#![tactic(auto)]

mod config;
mod faults;
mod requests;

pub use config::{Config, Field};
pub use faults::Fault;
pub use requests::Request;

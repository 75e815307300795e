//! Laws of progress over the machine of `model_link`: of a link alone, and of two links that face each other. There is
//! nothing to call: each law is the contract of a function that does nothing.
//!
//! `specs/two` has the statements:
//!
//! - what waits and what is sent (`Waits`), a busy terminal (`Heeds`), and the timer that a link needs (`Needed`);
//! - two ends in rounds (`Rounds`), in turns of any order (`AnyOrder`), and after their frames were lost (`CutOff`);
//! - an end that is busy itself (`OwnBusy`), and is no more (`BusyOver`);
//! - what keeps two links up (`Ahead`, `Timely`);
//! - worked values that compute (`Worked..`); `WorkedUntimely` is a run in which T200 is too short.
//!
//! `docs/TWO-CARDS.md` says it in words.
//!
//! - `laws`: two links that face each other;
//! - `any_order`: two links whose turns come in any order;
//! - `own_busy`: two links of which one is busy itself.
//!
//! # Open
//!
//! How long a round takes, and so how long T200 has to be (of two cards in octets `laws_time` says it). That frames get
//! through, and that a busy end comes to be ready again (these laws suppose both). Two links over a line or a card,
//! except what `laws_wire` says of two cards.

mod any_order;
mod laws;
mod own_busy;

pub use any_order::arrives_in_any_order;
pub use laws::{busy_is_heeded, contents_arrive, losses_are_recovered, stay_up_while_ahead};
pub use own_busy::{busy_ends_are_heard, busy_ends_recover, kept_contents_arrive};

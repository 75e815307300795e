//! The machine of one data link, as definitions: what each event of a link of one TEI and one service does to it, and
//! what it answers. It is of Q.921 clause 5, states 4 to 8 of annex B, on either side, in multiple-frame operation
//! modulo 128.
//!
//! `specs/` has the machine, one equation for each row of its tables; its worked values are in `laws_link`. Read the
//! link's state and its events first (`Link`, `Events`). Then come what is answered (`Told`) and the words of the
//! tables (`Steps`, `Words`), and the rows of each state (`TeiAssigned`, `AwaitingEstablishment`, `AwaitingRelease`,
//! `MultipleFrame`, `Established`, `TimerRecovery`). Requests and offers (`Requests`, `Offers`) and the whole
//! (`Machine`) are last. `Image` has its octets in an image of a card, and `Same` says when two links are the same to one.
//!
//! The code of a link stands above, in other crates. Here are the plain types that it shares with
//! the definitions:
//!
//! - `states`: `State`, 4 to 8.
//! - `timers`: `LinkTimer`, T200 and T203.
//! - `frames`: `ControlFrame`, a frame without information that waits to be sent.
//! - `terms`: `Terms`, the parameters of a link.
//! - `counts`: `LinkCounts`, what is counted of a link.
//! - `rooms`: `Room`, how much room a link has.
//! - `laws`: what holds of the machine itself.
//!
//! # Open
//!
//! What two links agree on across a new establishment.
#![tactic(auto)]

mod counts;
mod frames;
mod laws;
mod rooms;
mod states;
mod terms;
mod timers;

pub use counts::LinkCounts;
pub use frames::ControlFrame;
pub use laws::{numbered, rises, stays_sound, tells_little, two_ends, unserved_stays};
pub use rooms::Room;
pub use states::State;
pub use terms::Terms;
pub use timers::LinkTimer;

//! The network's side.
//!
//! - `messages`, `heard`: the messages of the network and of the terminals.
//! - `check`: the check of a TEI that runs.
//! - `remembered`: the latest assignments, for requests that come again.
//! - `laws`: what holds of the table of events itself.

mod check;
mod heard;
mod laws;
mod messages;
mod remembered;

pub use check::{Check, Period};
pub use heard::Heard;
pub use laws::{
    changes_are_told, disowned_is_nobodys, down_gives_up, few_more_wait, lowest_is_assigned,
    orders_follow_the_check, reading_stays, sound_throughout, unserved_changes_nothing,
};
pub use messages::Message;
pub use remembered::Remembered;

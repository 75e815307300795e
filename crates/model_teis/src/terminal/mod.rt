//! A terminal.
//!
//! - `messages`, `heard`: the messages of the terminal and of the network.
//! - `procedure`: what the terminal has asked the network for.
//! - `laws`: what holds of the table of events itself.

mod heard;
mod laws;
mod messages;
mod procedure;

pub use heard::Heard;
pub use laws::{
    down_gives_up, no_message_is_lost, no_number_comes_again, no_tei_is_taken,
    orders_follow_the_procedure, reading_stays, unserved_changes_nothing,
};
pub use messages::Message;
pub use procedure::Procedure;

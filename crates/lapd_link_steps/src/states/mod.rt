//! The rows of the tables, by state.

mod awaiting_establishment;
mod awaiting_release;
mod established;
mod multiple_frame;
mod tei_assigned;
mod timer_recovery;

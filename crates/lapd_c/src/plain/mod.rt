//! The card's types as C sees them, and the way there and back: `include/lapd.h` declares the same structs.
//!
//! A C program gives a configuration, timers and requests as numbers, and reads notes, orders, causes and refusals as
//! numbers from a report of its own. What stands here are those structs, with what each number means, and nothing of a
//! card.
//!
//! - `statuses`: what a call answers: refusals, wrong calls, fields of a configuration.
//! - `config`: the configuration.
//! - `timers`: timers and orders, there and back.
//! - `links`: the links of a line, in order; `rooms`: how much room one has; `heads`: how a frame begins; `fields`: what one
//!   says; `counters`: what was counted of a line, and of a link.
//! - `requests`: what is asked of a line, and `faults`: what a controller tells in place of a frame, from numbers.
//! - `notes`: notes, and why something was dropped.
//! - `reports`: the report of an event.

mod config;
mod counters;
mod faults;
mod fields;
mod heads;
mod links;
mod notes;
mod reports;
mod requests;
mod rooms;
mod statuses;
mod timers;

pub(crate) use config::{PlainConfig, side_in};
pub(crate) use counters::{PlainCounters, PlainLinkCounters};
pub(crate) use faults::fault_in;
pub(crate) use fields::PlainFields;
pub(crate) use heads::PlainHead;
pub(crate) use links::{LINK_PLACES, PlainLink, service_at};
pub(crate) use reports::PlainReport;
pub(crate) use requests::{DATA, request_in};
pub(crate) use rooms::PlainRoom;
pub(crate) use statuses::{
    BAD_IMAGE, BAD_SIDE, NO_CARD, NO_CLOCK, NO_FRAME, NO_MEMORY, NO_MORE_LINKS, NO_PLACE, NO_TIMER,
    OK, REFUSED_NO_LINK, REFUSED_QUEUE_FULL, SECOND_START, WRONG_CARD, WRONG_LENGTH, WRONG_LINE,
    WRONG_ORDER, WRONG_TIME, fault_status, refusal_status,
};
pub(crate) use timers::{PlainDue, PlainLengths, PlainOrder, PlainTimer, lengths_of, link_in};

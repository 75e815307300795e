//! The frames of LAPD: how octets spell them, and the words in which the parts of an exchange
//! termination speak of links (Q.921 clauses 2 and 3).
//!
//! The octets here are those between two flags, without bit stuffing and frame check.
//!
//! - `addresses`: `Side`, who sent a frame, and its `Address`; the SAPI `MANAGEMENT`, the TEIs `LAST_TEI` and `GROUP`.
//! - `controls`: `Control`, what kind of frame it is, a variant for each row of table 5.
//! - `frames`: `Frame`, the whole of it, with its information lent; `MOST_N201`, how much of it there may be.
//! - `faults`, `headers`, `reading`: `read`, from octets to a frame or the first `ReadFault`; `is_short`; `octet_at`.
//! - `overlong`: `read_long` and `is_unit`, what the first four octets tell of a frame that is too long to keep.
//! - `writing`: `write`, from a frame to octets.
//! - `senders`: `Sender`, a side of a line on which the second service has a SAPI of its own; its `read`, `read_long`
//!   and `write`.
//! - `laws`: `one_spelling`, what holds of the grammar itself, and `senders_agree`, of what senders read and write.
//! - `readings`: `Reading`, which rows hold where readers of the standard differ.
//! - `services`, `timers`, `notes`, `refusals`, `short_lists`: the types that links, lines and their users share.
//!
//! The grammar stands in `specs/Grammar.antt`, one equation for each row of table 5. No call takes
//! memory. Octets of frames are copied by `write` alone; a `ShortList` copies its items.
//!
//! # Only tested
//!
//! Every control octet, against table 5 of the standard typed by hand.
#![tactic(auto)]

mod addresses;
mod controls;
mod faults;
mod frames;
mod headers;
mod laws;
mod notes;
mod overlong;
mod reading;
mod readings;
mod refusals;
mod senders;
mod services;
mod short_lists;
mod timers;
mod writing;

pub use addresses::{Address, GROUP, LAST_TEI, MANAGEMENT, Side};
pub use controls::Control;
pub use faults::ReadFault;
pub use frames::{Frame, MOST_N201};
pub use headers::is_short;
pub use laws::{one_spelling, senders_agree};
pub use notes::{ErrorCode, Note};
pub use overlong::{Long, is_unit, read_long};
pub use reading::{octet_at, read};
pub use readings::Reading;
pub use refusals::Refusal;
pub use senders::Sender;
pub use services::Service;
pub use short_lists::ShortList;
pub use timers::{Order, Timer};
pub use writing::write;

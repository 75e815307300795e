//! A line of a card: TEI management, the links of its TEIs, unit data, and what goes out. Beside it the port through which a
//! line of octets hears frames and gives them.
//!
//! A [`FrameLine`] takes what happens to it one event at a time, and answers as the machine of `model_line` does, for every
//! past (`specs/Stands.antt` says what a line stands for). Contents that wait lie on a shelf that other lines use too. After
//! the start no call takes memory. A controller of flags, stuffed 0s and checks brings it frames and takes them
//! ([`FrameLine::frame`], [`FrameLine::next_frame`]); or a [`Port`] does, of octets ([`FrameLine::heard`],
//! [`FrameLine::load_next`]). A [`Line`] is both together, and answers as `OctetLine` of `model_card::ports` does.
//!
//! - `frame_line`: the calls: what is heard, a timer that expires, a request. `came`: what a controller's frames and faults are
//!   heard as. `next_frame`: what goes out, and `outlet`, where to.
//! - `queries`: the state of a link, how much room it has, and how many octets the line stores. `saved`: the line in an image;
//!   `running`: its TEIs, states and timers, by places and numbers.
//! - `port`: the octets of a line; `line`: a line with its port.
//! - `link_layer`: what the calls change: TEI management, links and units. `addressing`: what is heard. `expiries`: timers.
//! - `managing`: TEI management, of the network's side or of a terminal.
//! - `tei_changes`: links that open and are cleared. `requests`: what is requested of a link, of TEI management and as unit data.
//! - `giving_up`: what waits and is of no link. `pulls`: which frame is next. `held`: what the links store.
//! - `units`: the unit data that waits; `marks`: which links have something to give.
//! - `reports`, `pulled`: the answers; `fault`: why a line can't be started.
//!
//! # Only tested
//!
//! Starts, through the tests of the card and through C.
#![tactic(auto)]

mod addressing;
mod came;
mod expiries;
mod fault;
mod frame_line;
mod giving_up;
mod held;
mod line;
mod link_layer;
mod managing;
mod marks;
mod next_frame;
mod outlet;
mod port;
mod pulled;
mod pulls;
mod queries;
mod reports;
mod requests;
mod running;
mod saved;
mod tei_changes;
mod units;

pub use fault::StartFault;
pub use frame_line::FrameLine;
pub use lapd_link::{BareReport, LinkCounts, Room};
pub use line::Line;
pub use marks::Marks;
pub use model_line::{Config, Field, Request};
pub use next_frame::NextFrame;
pub use port::Port;
pub use pulled::Pulled;
pub use reports::Report;

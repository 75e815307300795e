//! A line card that ends D-channels, on either side (ITU-T Q.921, modulo 128). Octets of its lines go in. Notes for
//! layer 3, orders for timers and octets for the lines come out.
//!
//! A card has up to 64 lines and one shelf of slots for the contents that wait on them. Each line ends the D-channel of
//! a subscriber with up to 8 terminals. The lines share nothing but the shelf.
//!
//! A caller starts a card, and then hands it what happens. Each answer says what to tell layer 3 (`notes`, `delivered`)
//! and which timers to start and to stop (`orders`); the caller keeps them, with `lapd_clock` or with timers of its own,
//! and hands back each one that expires. `lines` and `frames` of `tool_bench` are such code:
//!
//! ```text
//! let mut card = Card::start(alloc, config, SlabShelf::start(alloc, slots, n201)?)?;
//! let mut timers = Clock::start(alloc, card.lines(), terminals)?;
//! card.request(line, Request::Assign(tei))?;            // or the terminal asks for a TEI itself
//! loop {
//!     let report = card.octet(line, octet_that_came);   // report.notes(), report.delivered: for layer 3
//!     for order in report.orders() { timers.apply(line, *order, now); }
//!     while let Some((line, timer)) = timers.due(now) {
//!         for order in card.expire(line, timer).orders() { timers.apply(line, *order, now); }
//!     }
//!     octet_to_send = card.pull(line).octet;            // its orders are applied in the same way
//! }
//! ```
//!
//! A [`Card`] is a [`FrameCard`], which takes and gives whole frames, with a port at each line. A port hears frames in the octets
//! that come, and puts those that go on the line. If a controller keeps flags, stuffed 0s and checks, the frame card is all that
//! is needed.
//!
//! - `frame_card`: the card, one call an event, and what it tells of a line: a link's state and room, what was counted.
//! - `card`: the card of octets: its octets and pulls; what else happens is passed on to the card of frames. `kinds`: a card of
//!   either kind, over a shelf of raw memory.
//! - `drive` with `sink` and `replies`: whole lists of events at a card of octets; `kept`: a sink that keeps the replies.
//! - `start` with `fault`: how a card begins, and why it does not.
//! - `saved`: the lines and counters of a card in an image, and its configuration; how long an image is at most.
//!   `saved_kinds`: a card of either kind. `image_queries`: what the owner of a card asks before it saves it.
//! - `stored`: how many octets a card of octets stores, and how many a card of either kind may.
//!
//! What the card does is defined below. A row of a link's tables (by state, in `specs/`) and its notes are in
//! `model_link`, those of TEI management in `model_teis`. The refusals of a line are in `model_line`
//! (`specs/Refusal`), of a link in `model_link` (`specs/Requests`), and the port in `model_card::ports`. The types of notes and
//! refusals stand in `lapd_frame`, the words of a script in `lapd_script`.
//!
//! # Only tested
//!
//! What faults say, and one list of events at a card of each kind (`test_product`); long runs (`tool_bench`). Through C
//! (`tests/c/run`) frames of each length, and a card of frames beside one of octets to which the same happens.
#![tactic(auto)]

mod card;
mod drive;
mod fault;
mod frame_card;
mod image_queries;
mod kept;
mod kinds;
mod replies;
mod saved;
mod saved_kinds;
mod sink;
mod start;
mod stored;

pub use card::Card;
pub use fault::CardFault;
pub use frame_card::{FrameCard, RoomTooSmall};
pub use kept::{Kept, KeptReply};
pub use kinds::AnyCard;
pub use lapd_count::{Counter, Counters, Kind, Way};
pub use lapd_frame::Side;
pub use lapd_line::{
    BareReport, Config, Field, LinkCounts, NextFrame, Pulled, Report, Request, Room,
};
pub use model_bits::Head;
pub use model_card::CardKind;
pub use model_card::ports::Event;
pub use model_line::Fault;
pub use replies::Reply;
pub use saved::{RestoreFault, image_octets, restore_config, save_config};
pub use sink::{Sink, SinkFailed, SinkFault};
pub use stored::{frame_limit, limit};

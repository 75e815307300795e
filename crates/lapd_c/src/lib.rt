//! The card for C: what `include/lapd.h` declares. Each function there is an export here, with its contract.
//!
//! A card or a clock lies in memory of the library, at an address that stands in a struct of the caller's. A call
//! serves it where it lies; a ghost field says which card it is, so that the contracts speak of the card's machine
//! (`model_card`, and for octets `model_card::ports`) and of the clock's timers (`lapd_clock`).
//!
//! The contract of a call is a record of its kind, with at most three clauses of its own: of one that is an event of a line
//! `Called`, of a question `Questioned`. `tests/reading --calls` prints each.
//!
//! - `lend`: how a call begins, with what its handle holds, or with the status that says what is wrong.
//! - `card`: a card in C, how it begins and ends. `kept`: a card with its links that wait for room, which `refused` and, of a
//!   line, `link_marks` mark.
//! - `events`: what happens at a card of either kind. `octets`: one octet that comes and one that goes, with the frames
//!   that these begin and end. `exchange`: octets taken and given in turn. `frames`: frames that come and go, and on which
//!   lines one waits.
//! - `questions`: what a card answers about itself, what was counted of a line and of a link, and how many contents more a link
//!   takes. `links`: which links it has.
//! - `saved`: a card that is saved, and one that is restored; `kept_image` and `waiting`, how what is kept comes into an image.
//! - `clock`: a clock in C, and its exports; `clock_reports`, the orders of a report; `clock_saved`, its images.
//! - `laws`: what holds of the machine's answers, so that a report has room for each.
//! - `plain`: the structs and numbers of C, and what they mean.
//! - `timed`: what falls due at a card that keeps its own timers, and when.
//! - `text`: what octets say in words; `fields`: what they say as a frame, in fields.
//! - `slot`: where a card or a clock lies; `version`: which version this is.
//!
//! # Only tested
//!
//! `tests/c/run` and `tests/c/declared`: starts; that all memory is given back; that structs, prototypes and
//! statuses are as `lapd.h` has them, and its inline functions. Stored scripts are played, call by call and by
//! `lapd_exchange`. Images have the same octets by every build and processor; a changed one is refused, or is that of
//! what it gives. A gateway of 64 lines runs a day with terminals that nobody here wrote (`tests/interop` has more).
//!
//! # Open
//!
//! What a C compiler makes of `lapd.h`; what happens to a caller that breaks the conditions at its top; that a save and a
//! restore stand within one run, except on a card of frames whose caller keeps the timers.
#![tactic(auto)]

mod card;
mod clock;
mod clock_reports;
mod clock_saved;
mod events;
mod exchange;
mod fields;
mod frames;
mod kept;
mod kept_image;
mod laws;
mod lend;
mod link_marks;
mod links;
mod octets;
mod plain;
mod questions;
mod refused;
mod saved;
mod slot;
mod text;
mod timed;
mod version;
mod waiting;

//! What octets say in words: the line that `lapdsim frame` prints of a frame, and the one that a program in C logs. That has
//! messages of TEI management in words, too. No call takes memory.
//!
//! - `digits`: a number in decimal digits, and octets as hexadecimal ones.
//! - `shown`: the head of a frame's line, [`head_of`], to which its information is joined.
//! - `messages`: a message of TEI management in words.
//! - `laws`: what holds of the texts themselves.
//! - `text`: all of it in room of the caller's, [`write_text`], or why octets are no frame.
#![tactic(auto)]

mod digits;
mod laws;
mod messages;
mod shown;
mod text;

pub use digits::{Digits, decimal, octet_digits};
pub use laws::frames_are_named;
pub use shown::{Head, MOST_HEAD, head_of};
pub use text::{fault_line, write_text};

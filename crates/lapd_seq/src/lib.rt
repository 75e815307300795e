//! Sequence numbers modulo 128, as multiple-frame operation of LAPD counts its I-frames (Q.921
//! clause 3.5.2).
//!
//! - `numbers`: `Seq`, one number of 0 to 127.
//! - `circle`: how far it is from one number on to another, and which N(R) is valid.
//! - `windows`: `Window`, the I-frames that were sent and are not yet acknowledged.
//!
//! The contracts speak of plain numbers, which never wrap: an answer on the remainders is the
//! answer on the plain numbers, as long as these are at most 127 apart. Their definitions are in
//! `specs/`.
#![tactic(auto)]

mod circle;
mod numbers;
mod windows;

pub use circle::{distance, valid};
pub use numbers::Seq;
pub use windows::Window;

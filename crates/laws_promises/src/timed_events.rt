//! What happens at a card that keeps its own timers.

use model_line::{Fault, Request};

/// What happens at a card that keeps its own timers, with the line that it happens at. Lines are counted from 0. Expiries are
/// the card's own.
#[derive(Clone, Copy, PartialEq, Eq, Debug)]
pub enum TimedEvent<'a> {
    /// The time is now this moment, in milliseconds.
    Time(u64),
    /// What is due first falls due, if anything is.
    FallDue,
    /// A frame came from the line of a card of frames: its octets from the address to the information, without its check.
    Frame(usize, &'a [u8]),
    /// The controller of the line of a card of frames told a fault in place of a frame.
    Failed(usize, Fault),
    /// The line of a card of frames takes the next frame to send.
    Next(usize),
    /// An octet came from the line of a card of octets.
    Octet(usize, u8),
    /// The line of a card of octets takes the next octet to send.
    Pull(usize),
    /// Layer 3 or management asks for something.
    Request(usize, Request<'a>),
}

//! What happens at a card.

use lapd_frame::Timer;
use model_line::Request;

/// What happens at a card, with the line that it happens at. Lines are counted from 0.
#[derive(Clone, Copy, PartialEq, Eq, Debug)]
pub enum Event<'a> {
    /// An octet came from the line, low bit first.
    Octet(usize, u8),
    /// A timer of the line expired. One that does not run has no effect.
    Expire(usize, Timer),
    /// Layer 3 or management asks for something.
    Request(usize, Request<'a>),
    /// The line takes the next octet to send.
    Pull(usize),
}

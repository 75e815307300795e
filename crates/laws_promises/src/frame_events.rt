//! What happens at a card of frames.

use lapd_frame::Timer;
use model_line::{Fault, Request};

/// What happens at a card whose lines' frames a controller gives and takes whole, with the line that it happens at. Lines
/// are counted from 0.
#[derive(Clone, Copy, PartialEq, Eq, Debug)]
pub enum FrameEvent<'a> {
    /// A frame came from the line: its octets from the address to the information, without its check.
    Frame(usize, &'a [u8]),
    /// The controller told a fault in place of a frame.
    Failed(usize, Fault),
    /// The line takes the next frame to send.
    Next(usize),
    /// A timer of the line expired. One that does not run has no effect.
    Expire(usize, Timer),
    /// Layer 3 or management asks for something.
    Request(usize, Request<'a>),
}

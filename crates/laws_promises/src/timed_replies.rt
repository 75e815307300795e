//! What events at a card that keeps its own timers are answered with.

use crate::frame_replies::FrameReply;
use lapd_card::{Pulled, Report};
use lapd_frame::Timer;

/// The answer to an event. What it orders of timers has been carried out.
#[derive(Clone, Copy, PartialEq, Eq, Debug)]
pub enum TimedReply<'a> {
    /// The time is the moment that was told.
    Went,
    /// The moment that was told is before the last, or from `2^63` on. Nothing has changed.
    WrongTime,
    /// Nothing is due, and nothing has changed.
    NoneDue,
    /// This timer of this line fell due, and so its expiry was answered.
    FellDue(usize, Timer, Report<'a>),
    /// To what else happens at this line. An octet and a request are answered by a report, or refused, as at a card of frames.
    At(usize, FrameReply<'a>),
    /// To a pull of this line.
    Pulled(usize, Pulled),
}

//! What events at a card are answered with.

use lapd_card::{NextFrame, Report};
use lapd_frame::Refusal;

/// The next frame, as it was taken.
#[derive(Clone, Copy, PartialEq, Eq, Debug)]
pub struct SentFrame<'a> {
    /// The frame lies in front of these octets.
    pub octets: &'a [u8],
    /// How many of them it has, and what is to be done with timers of its link.
    pub next: NextFrame,
}

/// The answer to an event.
#[derive(Clone, Copy, PartialEq, Eq, Debug)]
pub enum FrameReply<'a> {
    /// To a frame, to a fault, to an expiry, or to a request that was accepted.
    Report(Report<'a>),
    /// To a request that was refused. The card is as it was before.
    Refused(Refusal),
    /// To a call for the next frame; none if none waits.
    Next(Option<SentFrame<'a>>),
}

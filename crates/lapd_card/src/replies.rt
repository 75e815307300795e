//! What events at a card of octets are answered with.

use lapd_frame::Refusal;
use lapd_line::{Pulled, Report};

/// The answer to an event.
#[derive(Clone, Copy, PartialEq, Eq, Debug)]
pub enum Reply<'a> {
    /// To an octet, to an expiry, or to a request that was accepted.
    Report(Report<'a>),
    /// To a request that was refused. The card is as it was before.
    Refused(Refusal),
    /// To a pull.
    Pulled(Pulled),
}

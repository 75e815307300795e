//! What the latest bit or octet of a line ended.

use model_bits::Cause;

/// What a bit or an octet of a line ended, without references: at most one event. The octets of a frame lie with
/// the deframer until its next octet, and [`Deframer::latest`](crate::Deframer::latest) lends them.
#[derive(Clone, Copy, PartialEq, Eq, Debug)]
pub enum Ended {
    /// Nothing has ended.
    Nothing,
    /// What stood since the latest flag is dropped, for one of the first four causes.
    Dropped(Cause),
    /// A frame of so many octets, without its check.
    Frame(u16),
    /// A frame that is longer than the deframer's room, but otherwise good.
    Overlong,
}

//! What the octets of a line bring, as a deframer answers, and the causes for which a frame is dropped.

/// Why what stood between two flags, or a frame, was dropped without effect. The first cause that holds, in
/// this order, is the one that is told (profile).
#[derive(Clone, Copy, PartialEq, Eq, Debug)]
pub enum Cause {
    /// Seven contiguous 1 bits gave up what had begun since the latest flag (clause 2.10).
    Abort = 1,
    /// Not what a sender makes of octets: not whole octets, or stuffed wrongly (clauses 2.6 and 2.9).
    Ragged,
    /// Too short for a frame (clause 2.9).
    Short,
    /// The frame check tells of an error (clause 2.7).
    Fcs,
    /// An address whose extension bits are not those of two octets (clauses 2.9 and 3.3.1).
    Extension,
    /// A SAPI that is not served (clauses 2.9 and 3.3.3).
    Sapi,
    /// A TEI that is not on the line; with SAPI 63, layer 2 management, a TEI that is not the group's, 127 (clauses
    /// 3.3.4 and 5.3.6).
    Tei,
    /// A frame with a good check and a known address that is not served: the state of its link does not serve it, or
    /// TEI management does not; it is an overlong UI or XID (profile); or it is for layer 2 management and no UI, or
    /// malformed, or overlong (profile).
    Unserved,
}

/// What an octet of a line brought: at most one event.
#[derive(Clone, Copy, PartialEq, Eq, Debug)]
pub enum Heard<'a> {
    /// Nothing has ended.
    Nothing,
    /// What stood since the latest flag is dropped, for one of the first four causes.
    Dropped(Cause),
    /// A frame without its check, lent from the deframer until its next octet.
    Frame(&'a [u8]),
    /// A frame that is longer than the deframer's room, but otherwise good: its first four octets.
    Overlong([u8; 4]),
}

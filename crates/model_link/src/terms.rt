//! The parameters of a link.

use lapd_frame::{Reading, Service};

/// What a link is told when it is opened, and how much it can keep (Q.921 clause 5.9).
#[derive(Clone, Copy, PartialEq, Eq, Debug)]
pub struct Terms {
    /// Whose frames the link carries.
    pub service: Service,
    /// The terminal's TEI: 0 to 126.
    pub tei: u8,
    /// The window: how many I-frames may be outstanding, 1 to 127 (clause 5.9.5).
    pub k: u8,
    /// Octets of an information field at most: 8 to 260 (clause 5.9.3).
    pub n201: u16,
    /// How often a command is repeated: 0 to 10 (clause 5.9.2).
    pub n200: u8,
    /// Contents kept at most, sent or unsent, until they are acknowledged: `k` to 127 (profile).
    pub queue: u8,
    /// Control frames that wait at most: 2 to 16 (profile). One that finds them all waiting is
    /// lost, like a frame that is lost on the line.
    pub control: u8,
    /// Which rows hold where readers of the standard differ.
    pub reading: Reading,
}

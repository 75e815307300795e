//! What a terminal has asked the network for.

/// A procedure that a terminal has begun and that has not ended. T202 runs as long.
#[derive(Clone, Copy, PartialEq, Eq, Debug)]
pub enum Procedure {
    /// The terminal has asked for a TEI (Q.921 clause 5.3.2).
    Asking {
        /// The reference number of the request that is outstanding.
        ri: u16,
        /// How many requests were made, 1 to 3.
        attempts: u8,
    },
    /// The terminal has asked for a check of its TEI (clause 5.3.5).
    Verifying {
        /// Which TEI; it is on the line.
        tei: u8,
        /// How many verifies were made, 1 or 2.
        attempts: u8,
    },
}

//! What a controller tells in place of a frame.

/// Why a controller has no frame, where one had begun (Q.921 clauses 2.7, 2.9 and 2.10).
#[derive(Clone, Copy, PartialEq, Eq, Debug)]
pub enum Fault {
    /// The frame check tells of an error (clause 2.7).
    Fcs,
    /// Seven contiguous 1 bits gave up what had begun (clause 2.10).
    Abort,
    /// What stood between two flags was not whole octets (clause 2.9).
    Ragged,
    /// What stood between two flags was too short for a frame (clause 2.9).
    Short,
}

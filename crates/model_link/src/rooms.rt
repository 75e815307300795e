//! How much room a link has.

/// How much room a link has for contents, and how far what it sent is acknowledged.
#[derive(Clone, Copy, PartialEq, Eq, Debug)]
pub struct Room {
    /// So many contents more find a place in the link's queue: 0 to 127 (profile).
    pub queue: u8,
    /// So many more find a slot, of all that share the pool: 0 to 8192 (profile).
    pub pool: u32,
    /// V(A), the number of the oldest I-frame that is not acknowledged, or of the next one if there is none: 0 to 127
    /// (Q.921 clause 3.5.2.3).
    pub va: u8,
}

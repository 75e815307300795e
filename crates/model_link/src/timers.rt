//! The timers of a link.

/// A timer of one link. At most one of the two runs (profile).
#[derive(Clone, Copy, PartialEq, Eq, Debug)]
pub enum LinkTimer {
    /// An answer to a command, or an acknowledgement, is awaited (Q.921 clause 5.9.1).
    T200,
    /// The longest time without frames exchanged, in state 7 alone (clause 5.9.8).
    T203,
}

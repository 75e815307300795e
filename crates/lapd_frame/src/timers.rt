//! The timers of a line, and what is ordered of them.

use crate::services::Service;

/// A timer of a line. A link's timers name its service and its TEI, 0 to 126.
#[derive(Clone, Copy, PartialEq, Eq, Debug)]
pub enum Timer {
    /// An answer to a command, or an acknowledgement, is awaited (Q.921 clause 5.9.1).
    T200(Service, u8),
    /// The longest time without frames exchanged (clause 5.9.8).
    T203(Service, u8),
    /// Responses to an identity check are awaited (clause 5.9.6).
    T201,
    /// A terminal awaits a TEI, or a check of one, for which it has asked (clauses 5.9.4 and 5.9.7).
    T202,
}

/// What is to be done with a timer. Each timer runs at most once.
#[derive(Clone, Copy, PartialEq, Eq, Debug)]
pub enum Order {
    /// Start the timer; if it runs, start it anew.
    Start(Timer),
    /// Stop the timer: it ran before the event and does not run after it. A timer whose own expiry is the event counts
    /// as running before it, so an expiry that starts its timer anew gives `Start`, and any other gives `Stop`.
    Stop(Timer),
}

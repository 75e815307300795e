//! What comes from the terminal.

use lapd_frame::Frame;

/// What came from the terminal with the link's address.
#[derive(Clone, Copy)]
pub enum Received<'a> {
    /// A frame, with its information.
    Frame(Frame<'a>),
    /// A frame whose control field is undefined (Q.921 clause 5.8.5).
    Undefined,
    /// A frame of wrong size (clause 5.8.5).
    WrongSize,
    /// An I-frame that was too long to keep, or UI that annex B's reading tells of (clauses 3.6.11 and 5.8.5).
    Overlong,
}

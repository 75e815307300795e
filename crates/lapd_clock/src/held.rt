//! A timer that runs.

use lapd_frame::Timer;

/// A timer of a line that runs, and the moment at which it falls due.
#[derive(Clone, Copy, Debug)]
pub(crate) struct Held {
    /// In milliseconds.
    pub moment: u64,
    /// Which timer it is.
    pub timer: Timer,
}

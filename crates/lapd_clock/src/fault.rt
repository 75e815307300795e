//! Why there is no clock, and why timers cannot run so long.

use thiserror::Error;

/// Why a clock could not be started.
#[derive(Clone, Copy, PartialEq, Eq, Debug, Error)]
pub enum StartFault {
    /// There is no memory for the places of the lines.
    #[error("out of memory")]
    OutOfMemory = 1,
}

/// Which timer cannot run as long as was asked: each runs 1 to 3,600,000 ms (profile).
#[derive(Clone, Copy, PartialEq, Eq, Debug, Error)]
pub enum LengthFault {
    /// T200 of each link.
    #[error("T200 is out of range")]
    T200,
    /// T203 of each link.
    #[error("T203 is out of range")]
    T203,
    /// T201 of each line.
    #[error("T201 is out of range")]
    T201,
    /// T202 of each line of a terminal.
    #[error("T202 is out of range")]
    T202,
}

/// Why no clock was restored.
#[derive(Clone, Copy, PartialEq, Eq, Debug, Error)]
pub enum ImageFault {
    /// The octets are no image of a clock.
    #[error("not an image")]
    BadImage,
    /// There is no memory for the places of the lines.
    #[error("out of memory")]
    OutOfMemory,
}

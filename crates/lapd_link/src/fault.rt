//! Why a start can fail.

use thiserror::Error;

/// Why a link could not be started.
#[derive(Clone, Copy, PartialEq, Eq, Debug, Error)]
pub enum StartFault {
    /// There is no memory for all the room that it needs. What was taken by then is given back (tested).
    #[error("out of memory")]
    OutOfMemory = 1,
}

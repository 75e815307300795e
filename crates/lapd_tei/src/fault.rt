//! Why a start can fail.

use thiserror::Error;

/// Why TEI management could not be started.
#[derive(Clone, Copy, PartialEq, Eq, Debug, Error)]
pub enum StartFault {
    /// There is no memory for the messages that wait.
    #[error("out of memory")]
    OutOfMemory = 1,
}

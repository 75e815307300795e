//! What a start answers where it gives no value.
use thiserror::Error;

/// Why a start gave no value. What was taken by then is given back (tested).
#[derive(Clone, Copy, PartialEq, Eq, Debug, Error)]
pub enum StartFault {
    /// The memory that the value uses for good could not be had.
    #[error("out of memory")]
    OutOfMemory = 1,
}

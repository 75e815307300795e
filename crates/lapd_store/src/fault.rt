//! Why a start can fail.
ghost use Rattle.std.specs.Prelude.{◌≡◌};

use std::alloc::AllocError;
use thiserror::Error;

/// Why a shelf or a queue could not be started.
#[derive(Clone, Copy, PartialEq, Eq, Debug, Error)]
pub enum StartFault {
    /// There is no memory for all the room that it needs. What was taken by then is given back (tested).
    #[error("out of memory")]
    OutOfMemory = 1,
}

impl From<AllocError> for StartFault {
    ghost use Rattle.lapd_store.specs.declared.fault.StartFault.TheVariants.{OutOfMemory};

    ghost from_gives = { λ _ fault. fault ≡ OutOfMemory };

    fn from(_error: AllocError) -> StartFault {
        StartFault::OutOfMemory
    }
}

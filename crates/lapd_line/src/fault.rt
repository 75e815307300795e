//! Why a start can fail.
ghost use Rattle.std.specs.Prelude.{◌≡◌};

use std::alloc::AllocError;
use thiserror::Error;

/// Why a line could not be started.
#[derive(Clone, Copy, PartialEq, Eq, Debug, Error)]
pub enum StartFault {
    /// There is no memory for all the room that it needs. What was taken by then is given back (tested).
    #[error("out of memory")]
    OutOfMemory = 1,
}

impl From<AllocError> for StartFault {
    ghost use Rattle.lapd_line.specs.declared.fault.StartFault.TheVariants.{OutOfMemory};

    ghost from_gives = { λ _ fault. fault ≡ OutOfMemory };

    fn from(_error: AllocError) -> StartFault {
        StartFault::OutOfMemory
    }
}

impl From<lapd_bits::StartFault> for StartFault {
    ghost use Rattle.lapd_line.specs.declared.fault.StartFault.TheVariants.{OutOfMemory};

    ghost from_gives = { λ _ fault. fault ≡ OutOfMemory };

    fn from(_fault: lapd_bits::StartFault) -> StartFault {
        StartFault::OutOfMemory
    }
}

impl From<lapd_tei::StartFault> for StartFault {
    ghost use Rattle.lapd_line.specs.declared.fault.StartFault.TheVariants.{OutOfMemory};

    ghost from_gives = { λ _ fault. fault ≡ OutOfMemory };

    fn from(_fault: lapd_tei::StartFault) -> StartFault {
        StartFault::OutOfMemory
    }
}

impl From<lapd_link::StartFault> for StartFault {
    ghost use Rattle.lapd_line.specs.declared.fault.StartFault.TheVariants.{OutOfMemory};

    ghost from_gives = { λ _ fault. fault ≡ OutOfMemory };

    fn from(_fault: lapd_link::StartFault) -> StartFault {
        StartFault::OutOfMemory
    }
}

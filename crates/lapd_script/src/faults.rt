//! Why a script is not played to its end.

ghost use Rattle.std.specs.Prelude.{◌≡◌, ℕ};
ghost use Rattle.lapd_script.specs.Faults.{fault_at, line_writes_failed, reads_failed, writes_failed};
ghost use Rattle.lapd_script.specs.declared.faults.LineFault.TheVariants as line;
ghost use Rattle.lapd_script.specs.declared.faults.PlayFault.TheVariants as play;

use crate::kind::FaultKind;
use std::alloc::AllocError;
use thiserror::Error;

/// Why a script was not played to its end.
#[derive(Clone, Copy, PartialEq, Eq, Debug, Error)]
pub enum PlayFault {
    /// A read of the source failed.
    #[error("read failed")]
    Read,
    /// A write to the target failed.
    #[error("write failed")]
    Write,
    /// A line of the script is faulty. Lines count from 1, skipped ones too.
    #[error("line {line}: {kind}")]
    Script { line: u64, kind: FaultKind },
    /// Memory was refused.
    #[error("out of memory")]
    OutOfMemory,
}

impl From<AllocError> for PlayFault {
    ghost from_gives = { λ _ fault. fault ≡ play.OutOfMemory };

    fn from(_error: AllocError) -> PlayFault {
        PlayFault::OutOfMemory
    }
}

/// What stopped a line.
#[derive(Clone, Copy)]
pub enum LineFault {
    /// The line is faulty.
    Faulty(FaultKind),
    /// Its answer could not be written.
    Write,
    /// Memory was refused.
    OutOfMemory,
}

impl LineFault {
    /// The fault of the script whose line of this number was stopped.
    pub fn at(self, line: u64) -> PlayFault
        ensures fault { result ≡ fault_at self line }
        ensures reads { (count : ℕ) → reads_failed result count ≡ count }
        ensures writes { (count : ℕ) → writes_failed result count ≡ line_writes_failed self count }
    {
        match self {
            LineFault::Faulty(kind) => PlayFault::Script { line, kind },
            LineFault::Write => PlayFault::Write,
            LineFault::OutOfMemory => PlayFault::OutOfMemory,
        }
    }
}

impl From<FaultKind> for LineFault {
    ghost from_gives = { λ kind fault. fault ≡ line.Faulty kind };

    fn from(kind: FaultKind) -> LineFault {
        LineFault::Faulty(kind)
    }
}

impl From<AllocError> for LineFault {
    ghost from_gives = { λ _ fault. fault ≡ line.OutOfMemory };

    fn from(_error: AllocError) -> LineFault {
        LineFault::OutOfMemory
    }
}

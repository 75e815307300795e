//! Why a work was not done.

use lapd_card::CardFault;
use std::alloc::{AllocError, AllocFailed};
use std::io;

/// What the program ends with if it does not end well.
#[derive(Clone, Copy, Debug)]
pub enum Fault {
    /// The words are not a work and a number of rounds.
    Words,
    /// There is no memory for it.
    OutOfMemory,
    /// The result could not be written, or the words not be read.
    Output,
}

impl From<AllocError> for Fault {
    fn from(_: AllocError) -> Fault {
        Fault::OutOfMemory
    }
}

impl<T: Drop> From<AllocFailed<T>> for Fault {
    fn from(_: AllocFailed<T>) -> Fault {
        Fault::OutOfMemory
    }
}

impl From<lapd_bits::StartFault> for Fault {
    fn from(_: lapd_bits::StartFault) -> Fault {
        Fault::OutOfMemory
    }
}

impl From<lapd_clock::StartFault> for Fault {
    fn from(_: lapd_clock::StartFault) -> Fault {
        Fault::OutOfMemory
    }
}

impl From<lapd_store::StartFault> for Fault {
    fn from(_: lapd_store::StartFault) -> Fault {
        Fault::OutOfMemory
    }
}

// The configurations are in range, so want of memory is what is left.
impl From<CardFault> for Fault {
    fn from(_: CardFault) -> Fault {
        Fault::OutOfMemory
    }
}

impl From<io::Error> for Fault {
    fn from(_: io::Error) -> Fault {
        Fault::Output
    }
}

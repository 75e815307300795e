//! Why no card was started.

ghost use Rattle.std.specs.Prelude.{◌≡◌};

use lapd_line::{Field, StartFault};
use thiserror::Error;

/// Why no card was started. The shelf was dropped.
#[derive(Clone, Copy, PartialEq, Eq, Debug, Error)]
pub enum CardFault {
    /// This field of the configuration is the first that is out of range.
    #[error("{0} is out of range")]
    BadConfig(Field),
    /// Memory was refused.
    #[error("out of memory")]
    OutOfMemory,
    /// The shelf has fewer slots than the configuration says, or narrower ones than N201, or a slot of it is in use.
    #[error("the shelf is too small")]
    ShelfTooSmall,
}

impl From<StartFault> for CardFault {
    ghost use Rattle.lapd_card.specs.declared.fault.CardFault.TheVariants.{OutOfMemory};

    ghost from_gives = { λ _ fault. fault ≡ OutOfMemory };

    fn from(_fault: StartFault) -> CardFault {
        CardFault::OutOfMemory
    }
}

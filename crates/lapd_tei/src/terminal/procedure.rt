//! What a terminal has asked the network for.

ghost use Rattle.std.specs.Prelude.{◌≡◌, option_to_list};
ghost use Rattle.model_teis.specs.terminal.Words.{is_verified, stop_of};

mod saved;

use lapd_frame::{Order, Timer};
use model_teis::terminal::Procedure;
pub(crate) use saved::{restore, save};

/// Whether this TEI is verified.
pub(crate) fn is_verified(procedure: Option<Procedure>, tei: u8) -> bool
    ensures { result ≡ is_verified tei procedure }
{
    match procedure {
        Some(Procedure::Verifying { tei: own, .. }) => own == tei,
        Some(Procedure::Asking { .. }) | None => false,
    }
}

/// What is ordered of T202 if a procedure ends.
pub(crate) fn stop_of(procedure: Option<Procedure>) -> Option<Order>
    ensures { option_to_list result ≡ stop_of procedure }
{
    match procedure {
        Some(_) => Some(Order::Stop(Timer::T202)),
        None => None,
    }
}

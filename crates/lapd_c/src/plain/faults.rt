//! What a controller tells in place of a frame.

ghost use Rattle.std.specs.Prelude.{◌≡◌};
ghost use Rattle.lapd_c.specs.Faults.{fault_in};

use crate::plain::statuses::WRONG_CAUSE;
use model_line::Fault;

/// The fault whose cause has this number in a report: 1 to 4.
///
/// # Errors
///
/// [`WRONG_CAUSE`] for every other number: the other causes are found in the frame itself.
pub fn fault_in(cause: u8) -> Result<Fault, u32>
    ensures { result ≡ fault_in cause }
{
    match cause {
        1 => Ok(Fault::Abort),
        2 => Ok(Fault::Ragged),
        3 => Ok(Fault::Short),
        4 => Ok(Fault::Fcs),
        _ => Err(WRONG_CAUSE),
    }
}

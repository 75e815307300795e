//! What a frame and a fault are heard as that a controller of a line's flags, stuffed 0s and checks brings.

ghost use Rattle.std.specs.Prelude.{◌≡◌, Some};
ghost use Rattle.lapd_line.specs.{heard_of, came, cause_of, octets_of};

use lapd_frame::is_short;
use model_bits::{Cause, Heard};
use model_line::Fault;

/// What a frame of these octets is heard as, where information fields have at most `n201`.
pub(crate) fn came(octets: &[u8], n201: u16) -> Heard<'_>
    ensures { heard_of result ≡ Some (came n201 octets.now) }
{
    if is_short(octets) {
        return Heard::Dropped(Cause::Short);
    }
    if octets.len() > usize::from(n201) + 4 {
        return Heard::Overlong([octets[0], octets[1], octets[2], octets[3]]);
    }
    Heard::Frame(octets)
}

/// Why what stands for a fault is dropped.
pub(crate) fn cause_of(fault: Fault) -> Cause
    ensures { result ≡ cause_of fault }
{
    match fault {
        Fault::Fcs => Cause::Fcs,
        Fault::Abort => Cause::Abort,
        Fault::Ragged => Cause::Ragged,
        Fault::Short => Cause::Short,
    }
}

/// The octets of a frame that is heard, and none of anything else.
pub(crate) fn octets_of(heard: Heard<'_>) -> &[u8]
    ensures { result.now ≡ octets_of (heard_of heard.entry) }
{
    match heard {
        Heard::Frame(octets) => octets,
        Heard::Nothing | Heard::Dropped(_) | Heard::Overlong(_) => &[],
    }
}

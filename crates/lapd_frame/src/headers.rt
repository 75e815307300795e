//! The octets before a frame's information.

ghost use Rattle.std.specs.Prelude.{◌≡◌, slice_index};
ghost use Rattle.lapd_frame.specs.{allowed, is_short, supervisory_of, unnumbered_of, control_of, header_of};

use crate::addresses::{Address, Side};
use crate::controls::Control;
use crate::faults::ReadFault;
use lapd_seq::Seq;

/// Whether the octets of a frame, without its check, end before its control field does (Q.921 clause 2.9).
pub fn is_short(octets: &[u8]) -> bool
    ensures { result ≡ is_short octets.now }
{
    match octets {
        [] | [_] | [_, _] => true,
        [_, _, third] => third % 4 != 3,
        _ => false,
    }
}

// The address and the control field of a frame that this side sent. The fourth octet counts where
// the control field has two.
#[tactic(auto, unfolding(crate::specs::Reading::header_of))]
#[inline(always)]
pub(crate) fn header(side: Side, octets: &[u8; 4]) -> Result<(Address, Control), ReadFault>
    ensures { result ≡ header_of side (slice_index octets.now 0) (slice_index octets.now 1)
        (slice_index octets.now 2) (slice_index octets.now 3) }
{
    let [first, second, third, fourth] = *octets;
    if first % 2 != 0 || second % 2 != 1 {
        return Err(ReadFault::BadExtension);
    }
    let address = Address::of(side, first, second);
    match control_of(third, fourth, address.command) {
        Some(control) => Ok((address, control)),
        None => Err(ReadFault::Undefined(address)),
    }
}

// The control field, if these octets are one that a command, or a response, can have. A supervisory frame can be either.
#[tactic(auto, using(crate::proofs::ControlField::supervisory_allowed), unfolding(crate::specs::Reading::control_of))]
#[inline(always)]
pub(crate) fn control_of(third: u8, fourth: u8, command: bool) -> Option<Control>
    ensures { result ≡ allowed command (control_of third fourth) }
{
    let nr = Seq::new(fourth / 2);
    let pf = fourth % 2 == 1;
    if third % 2 == 0 {
        let ns = Seq::new(third / 2);
        return command.then_some(Control::Information { ns, nr, pf });
    }
    if third % 4 == 1 {
        return supervisory(third, nr, pf);
    }
    let control = unnumbered(third)?;
    control.allows(command).then_some(control)
}

// The supervisory frame of an octet, by its function bits (Q.921 clause 3.4.2).
#[tactic(auto, unfolding(crate::specs::Reading::supervisory_of))]
fn supervisory(octet: u8, nr: Seq, pf: bool) -> Option<Control>
    ensures { result ≡ supervisory_of octet nr pf }
{
    match octet {
        0x01 => Some(Control::ReceiveReady { nr, pf }),
        0x05 => Some(Control::ReceiveNotReady { nr, pf }),
        0x09 => Some(Control::Reject { nr, pf }),
        _ => None,
    }
}

// The unnumbered frame of an octet, by its modifier and P/F bits (Q.921 clause 3.4.3).
#[tactic(auto, unfolding(crate::specs::Reading::unnumbered_of))]
fn unnumbered(octet: u8) -> Option<Control>
    ensures { result ≡ unnumbered_of octet }
{
    match octet {
        0x6F => Some(Control::Sabme { pf: false }),
        0x7F => Some(Control::Sabme { pf: true }),
        0x43 => Some(Control::Disc { pf: false }),
        0x53 => Some(Control::Disc { pf: true }),
        0x03 => Some(Control::Ui { pf: false }),
        0x13 => Some(Control::Ui { pf: true }),
        0x63 => Some(Control::Ua { pf: false }),
        0x73 => Some(Control::Ua { pf: true }),
        0x0F => Some(Control::Dm { pf: false }),
        0x1F => Some(Control::Dm { pf: true }),
        0x87 => Some(Control::Frmr { pf: false }),
        0x97 => Some(Control::Frmr { pf: true }),
        0xAF => Some(Control::Xid { pf: false }),
        0xBF => Some(Control::Xid { pf: true }),
        _ => None,
    }
}

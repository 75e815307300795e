//! A frame in fields.

ghost use Rattle.std.specs.Prelude.{◌≡◌, ◌≤◌, length};
ghost use Rattle.lapd_frame.specs.{parts_of};
ghost use Rattle.lapd_text.specs.{fields};
ghost use Rattle.lapd_c.specs.Fields.{kind_of, or_zero, plain_fields};

use lapd_frame::{Control, Frame};

/// What a frame says, in fields: [`Frame`] in C.
#[repr(C)]
#[derive(Clone, Copy)]
pub struct PlainFields {
    /// 1 to 11: I, RR, RNR, REJ, SABME, DISC, UI, UA, DM, FRMR or XID (Q.921 table 5).
    pub kind: u8,
    /// 1 of a command, 0 of a response.
    pub command: u8,
    /// 0 to 63.
    pub sapi: u8,
    /// 0 to 127.
    pub tei: u8,
    /// P of a command, F of a response.
    pub bit: u8,
    /// N(S) of an I frame; otherwise 0.
    pub ns: u8,
    /// N(R) of an I frame, RR, RNR or REJ; otherwise 0.
    pub nr: u8,
    /// At which octet the information begins: 3 or 4.
    pub start: u8,
    /// So many octets the information has.
    pub info: u16,
    /// For a later version: 0.
    pub reserved: [u8; 6],
}

impl PlainFields {
    /// The same for C, of a frame that a card could take.
    pub fn of(frame: &Frame<'_>) -> PlainFields
        requires { length frame.now.info.now ≤ 1028 }
        ensures { result ≡ plain_fields (parts_of frame.now) }
    {
        let (kind, ns, nr, bit) = numbers_of(&frame.control);
        PlainFields {
            kind,
            command: u8::from(frame.address.command),
            sapi: frame.address.sapi,
            tei: frame.address.tei,
            bit: u8::from(bit),
            ns,
            nr,
            start: frame.control.start() as u8,
            info: frame.info.len() as u16,
            reserved: [0; 6],
        }
    }
}

// What a control field says: the kind of its frame, N(S) and N(R), or 0 where it has none, and P or F.
fn numbers_of(control: &Control) -> (u8, u8, u8, bool)
    ensures kind { result.0 ≡ kind_of control.now }
    ensures ns { result.1 ≡ or_zero (fields control.now).ns }
    ensures nr { result.2 ≡ or_zero (fields control.now).nr }
    ensures bit { result.3 ≡ (fields control.now).bit }
{
    match *control {
        Control::Information { ns, nr, pf } => (1, ns.value, nr.value, pf),
        Control::ReceiveReady { nr, pf } => (2, 0, nr.value, pf),
        Control::ReceiveNotReady { nr, pf } => (3, 0, nr.value, pf),
        Control::Reject { nr, pf } => (4, 0, nr.value, pf),
        Control::Sabme { pf } => (5, 0, 0, pf),
        Control::Disc { pf } => (6, 0, 0, pf),
        Control::Ui { pf } => (7, 0, 0, pf),
        Control::Ua { pf } => (8, 0, 0, pf),
        Control::Dm { pf } => (9, 0, 0, pf),
        Control::Frmr { pf } => (10, 0, 0, pf),
        Control::Xid { pf } => (11, 0, 0, pf),
    }
}

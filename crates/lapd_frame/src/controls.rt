//! What kind of frame it is.

ghost use Rattle.std.specs.Prelude.{◌≡◌, ◌≤◌, [], ◌∷◌, length, take};
ghost use Rattle.lapd_frame.specs.{row, allows, takes, second_octet, one_of, start_of};

use lapd_seq::Seq;

/// The control field of a frame: its kind, with the numbers and the bit that this kind has (Q.921
/// clauses 3.4 to 3.6, table 5).
///
/// `pf` is the P bit of a command, which asks for an answer, and the F bit of a response, which is
/// the answer to a command with P (clause 3.5.1). `nr` is N(R), 0 to 127: its sender has received
/// all I-frames before that number and expects the one with it (clause 3.5.2.6).
#[derive(Clone, Copy, PartialEq, Eq, Debug)]
pub enum Control {
    /// I, a command: numbered information (clause 3.6.2).
    Information {
        /// N(S), 0 to 127: the frame's own number (clause 3.5.2.4).
        ns: Seq,
        /// N(R).
        nr: Seq,
        /// P.
        pf: bool,
    },
    /// RR, a command or a response: its sender can take I-frames (clause 3.6.6).
    ReceiveReady {
        /// N(R).
        nr: Seq,
        /// P/F.
        pf: bool,
    },
    /// RNR, a command or a response: its sender can take no I-frames for now (clause 3.6.8).
    ReceiveNotReady {
        /// N(R).
        nr: Seq,
        /// P/F.
        pf: bool,
    },
    /// REJ, a command or a response: its sender asks for the I-frames from N(R) on again (clause
    /// 3.6.7).
    Reject {
        /// N(R).
        nr: Seq,
        /// P/F.
        pf: bool,
    },
    /// SABME, a command: establish multiple-frame operation modulo 128 (clause 3.6.3).
    Sabme {
        /// P.
        pf: bool,
    },
    /// DISC, a command: end multiple-frame operation (clause 3.6.4).
    Disc {
        /// P.
        pf: bool,
    },
    /// UI, a command: information without a number (clause 3.6.5).
    Ui {
        /// P.
        pf: bool,
    },
    /// UA, a response: a SABME or DISC is accepted (clause 3.6.9).
    Ua {
        /// F.
        pf: bool,
    },
    /// DM, a response: multiple-frame operation can't be performed (clause 3.6.10).
    Dm {
        /// F.
        pf: bool,
    },
    /// FRMR, a response: a frame was received that coming again wouldn't mend. Five octets of
    /// information say which, and why (clause 3.6.11).
    Frmr {
        /// F.
        pf: bool,
    },
    /// XID, a command or a response: identification, with any information (clause 3.6.12).
    Xid {
        /// P/F.
        pf: bool,
    },
}

impl Control {
    // Whether such a frame can be a command (true) or a response (false).
    pub(crate) fn allows(&self, command: bool) -> bool
        ensures { result ≡ allows (row self.now).kind command }
    {
        match self {
            Control::Information { .. }
            | Control::Sabme { .. }
            | Control::Disc { .. }
            | Control::Ui { .. } => command,
            Control::Ua { .. } | Control::Dm { .. } | Control::Frmr { .. } => !command,
            Control::ReceiveReady { .. }
            | Control::ReceiveNotReady { .. }
            | Control::Reject { .. }
            | Control::Xid { .. } => true,
        }
    }

    // Whether such a frame can have so many octets of information.
    pub(crate) fn takes(&self, count: usize) -> bool
        ensures { result ≡ takes (row self.now).info count }
    {
        match self {
            Control::Information { .. } | Control::Ui { .. } | Control::Xid { .. } => true,
            Control::Frmr { .. } => count == 5,
            _ => count == 0,
        }
    }

    /// The place at which the information of such a frame begins: after the octets of the address and of the control
    /// field, so 3 or 4.
    pub fn start(&self) -> usize
        ensures value { result ≡ start_of self.now }
        ensures bound { result ≤ 4 }
    {
        match self {
            Control::Information { .. }
            | Control::ReceiveReady { .. }
            | Control::ReceiveNotReady { .. }
            | Control::Reject { .. } => 4,
            _ => 3,
        }
    }

    // The octets of the control field; the second is 0 where it has one only.
    pub(crate) fn field(&self) -> [u8; 2]
        ensures { take (length (row self.now).field) result ≡ (row self.now).field }
    {
        match *self {
            Control::Information { ns, nr, pf } => [2 * ns.value, second_octet(nr, pf)],
            Control::ReceiveReady { nr, pf } => [0x01, second_octet(nr, pf)],
            Control::ReceiveNotReady { nr, pf } => [0x05, second_octet(nr, pf)],
            Control::Reject { nr, pf } => [0x09, second_octet(nr, pf)],
            Control::Sabme { pf } => [one_of(0x6F, 0x7F, pf), 0],
            Control::Disc { pf } => [one_of(0x43, 0x53, pf), 0],
            Control::Ui { pf } => [one_of(0x03, 0x13, pf), 0],
            Control::Ua { pf } => [one_of(0x63, 0x73, pf), 0],
            Control::Dm { pf } => [one_of(0x0F, 0x1F, pf), 0],
            Control::Frmr { pf } => [one_of(0x87, 0x97, pf), 0],
            Control::Xid { pf } => [one_of(0xAF, 0xBF, pf), 0],
        }
    }
}

// N(R) and P/F.
fn second_octet(nr: Seq, pf: bool) -> u8
    ensures { result ≡ second_octet nr pf }
{
    2 * nr.value + u8::from(pf)
}

// The octet of an unnumbered frame without P/F, or that with it.
fn one_of(without: u8, with_pf: u8, pf: bool) -> u8
    ensures { result ∷ [] ≡ one_of without with_pf pf }
{
    if pf { with_pf } else { without }
}

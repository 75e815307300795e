//! The kinds of frames.

ghost use Rattle.std.specs.Prelude.{◌≡◌};
ghost use Rattle.lapd_count.specs.Kinds.{kind_of, asks};

use Kind::{
    Disc as DISC, Dm as DM, Frmr as FRMR, Information as I, ReceiveNotReady as RNR,
    ReceiveReady as RR, Reject as REJ, Sabme as SABME, Ua as UA, Ui as UI, Undefined as NO,
    Xid as XID,
};

/// The kind of a frame, as the first octet of its control field says (Q.921 clause 3.4, table 5). It is counted whether or
/// not the frame is otherwise well formed.
#[derive(Clone, Copy, PartialEq, Eq, Debug)]
pub enum Kind {
    /// I (clause 3.6.2).
    Information,
    /// RR (clause 3.6.6).
    ReceiveReady,
    /// RNR (clause 3.6.8).
    ReceiveNotReady,
    /// REJ (clause 3.6.7).
    Reject,
    /// SABME (clause 3.6.3). Those that are heard are `isdnLapdPeerSabme` of RFC 2127.
    Sabme,
    /// DISC (clause 3.6.4).
    Disc,
    /// UI (clause 3.6.5).
    Ui,
    /// UA (clause 3.6.9).
    Ua,
    /// DM (clause 3.6.10).
    Dm,
    /// FRMR (clause 3.6.11). Those that are heard are `isdnLapdRecvdFrmr` of RFC 2127.
    Frmr,
    /// XID (clause 3.6.12).
    Xid,
    /// No control field that is defined.
    Undefined,
}

/// The kind of each first octet of a control field. As a table it costs one load a frame, whatever the kind.
static KINDS: [Kind; 256] = [
    I, RR, I, UI, I, RNR, I, NO, I, REJ, I, NO, I, NO, I, DM, I, NO, I, UI, I, NO, I, NO, I, NO, I,
    NO, I, NO, I, DM, I, NO, I, NO, I, NO, I, NO, I, NO, I, NO, I, NO, I, NO, I, NO, I, NO, I, NO,
    I, NO, I, NO, I, NO, I, NO, I, NO, I, NO, I, DISC, I, NO, I, NO, I, NO, I, NO, I, NO, I, NO, I,
    NO, I, DISC, I, NO, I, NO, I, NO, I, NO, I, NO, I, NO, I, NO, I, UA, I, NO, I, NO, I, NO, I,
    NO, I, NO, I, SABME, I, NO, I, UA, I, NO, I, NO, I, NO, I, NO, I, NO, I, SABME, I, NO, I, NO,
    I, NO, I, FRMR, I, NO, I, NO, I, NO, I, NO, I, NO, I, NO, I, NO, I, FRMR, I, NO, I, NO, I, NO,
    I, NO, I, NO, I, NO, I, NO, I, NO, I, NO, I, NO, I, NO, I, XID, I, NO, I, NO, I, NO, I, NO, I,
    NO, I, NO, I, NO, I, XID, I, NO, I, NO, I, NO, I, NO, I, NO, I, NO, I, NO, I, NO, I, NO, I, NO,
    I, NO, I, NO, I, NO, I, NO, I, NO, I, NO, I, NO, I, NO, I, NO, I, NO, I, NO, I, NO, I, NO, I,
    NO, I, NO, I, NO, I, NO, I, NO, I, NO, I, NO, I, NO, I, NO,
];

impl Kind {
    /// The kind of a frame by the first octet of its control field.
    pub(crate) fn of(control: u8) -> Kind
        ensures { result ≡ kind_of control }
    {
        KINDS[control as usize]
    }

    /// Whether commands of this kind with P=1 ask for an answer in states 7 and 8.
    pub(crate) fn asks(self) -> bool
        ensures { result ≡ asks self }
    {
        matches!(self, I | RR | RNR | REJ)
    }
}

//! What a line tells its user.

ghost use Rattle.std.specs.Prelude.{◌≡◌};
ghost use Rattle.lapd_frame.specs.Services.{letter_of};

use crate::services::Service;

/// What happened on a line, as its user is told. The number is the TEI that it is about. At a terminal's line the other side
/// is the network: there [`Note::Assigned`] tells a TEI that it assigned to this terminal.
#[derive(Clone, Copy, PartialEq, Eq, Debug)]
pub enum Note {
    /// The link is established without a request for it, by the terminal; or it is established again, by the
    /// terminal or by this side after an error, and contents that were sent and not acknowledged are lost. One
    /// that is established again with none outstanding is not told (DL-ESTABLISH indication, Q.921 clause 4.1.1.1).
    EstablishIndication(Service, u8),
    /// The link that was asked for is established (DL-ESTABLISH confirm).
    EstablishConfirm(Service, u8),
    /// The link is down without a request to release it: the terminal released it, refused its establishment (DM
    /// with F=1) or gave no answer to it, or its TEI left the line (DL-RELEASE indication, clause 4.1.1.2).
    ReleaseIndication(Service, u8),
    /// The link is down, as was asked for (DL-RELEASE confirm).
    ReleaseConfirm(Service, u8),
    /// The contents of an I-frame were received, in order (DL-DATA indication, clause 4.1.1.3).
    Data(Service, u8),
    /// The contents of a UI frame were received (DL-UNIT DATA indication, clause 4.1.1.4). The TEI
    /// is the sender's.
    Unit(Service, u8),
    /// Layer management is told of an error (MDL-ERROR indication, clause 4.1.1.7).
    Error(Service, u8, ErrorCode),
    /// TEI management assigned the TEI to a terminal that asked for one (clause 5.3.2).
    Assigned(u8),
    /// The TEI left the line, since no terminal answered an identity check (clauses 5.3.3.2 and 5.3.4). At a terminal: since the
    /// network removed it, or answered none of the requests to check it (clause 5.3.5).
    Removed(u8),
    /// The TEI left the line, since two terminals answered an identity check (clause 5.3.4).
    Doubled(u8),
    /// The network has no TEI for this terminal, which goes on asking (clause 5.3.2). It names no TEI.
    Denied,
    /// The network assigned no TEI, as often as this terminal asked (clause 5.3.2.1). It names no TEI.
    Unassigned,
    /// The network removes each TEI of this terminal, and more than one is on the line: all are to be taken off by request
    /// (clause 5.3.4).
    RemoveAll,
    /// An XID frame was received. It is not answered (profile).
    Xid(Service, u8),
}

/// Which error it is: the codes of MDL-ERROR indication (Q.921 appendix II, table II.1). M is not
/// used (profile).
#[derive(Clone, Copy, PartialEq, Eq, Debug)]
pub enum ErrorCode {
    /// A supervisory response with F=1 that no command asked for: in state 7, multiple frame established.
    A,
    /// A DM response with F=1 that no command asked for: in states 7 and 8, multiple frame established and timer
    /// recovery. In states 5 and 6 it answers the command that is out.
    B,
    /// A UA response with F=1 that no command asked for: in states 4, 7 and 8. In states 5 and 6 it answers the command
    /// that is out.
    C,
    /// A UA response with F=0, in every state, 4 to 8: the commands that ask for a UA have P=1.
    D,
    /// A DM response with F=0, in states 7 and 8; it is not served in the others.
    E,
    /// The terminal established an established link again.
    F,
    /// SABME was sent as often as allowed, and not answered.
    G,
    /// DISC was sent as often as allowed, and not answered.
    H,
    /// The terminal's state was asked for as often as allowed, without an answer.
    I,
    /// An N(R) that is not valid.
    J,
    /// An FRMR response.
    K,
    /// A frame whose control field is undefined.
    L,
    /// A frame of wrong size.
    N,
    /// An I-frame with more information than N201 allows.
    O,
}

impl ErrorCode {
    /// The code's letter.
    pub fn letter(self) -> char
        ensures { result ≡ letter_of self }
    {
        match self {
            ErrorCode::A => 'A',
            ErrorCode::B => 'B',
            ErrorCode::C => 'C',
            ErrorCode::D => 'D',
            ErrorCode::E => 'E',
            ErrorCode::F => 'F',
            ErrorCode::G => 'G',
            ErrorCode::H => 'H',
            ErrorCode::I => 'I',
            ErrorCode::J => 'J',
            ErrorCode::K => 'K',
            ErrorCode::L => 'L',
            ErrorCode::N => 'N',
            ErrorCode::O => 'O',
        }
    }
}

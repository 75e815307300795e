//! What layer 3 and management ask of a line.

use lapd_frame::Service;

/// What layer 3 and management ask of a line. The number is the TEI that it is about.
///
/// A link is named by its service and its TEI. Contents are lent, and copied where the request is accepted.
#[derive(Clone, Copy, PartialEq, Eq, Debug)]
pub enum Request<'a> {
    /// Establish the link (DL-ESTABLISH request, Q.921 clause 4.1.1.1).
    Establish(Service, u8),
    /// Release the link (DL-RELEASE request, clause 4.1.1.2).
    Release(Service, u8),
    /// Send these contents on the link, numbered and acknowledged (DL-DATA request, clause 4.1.1.3).
    Data(Service, u8, &'a [u8]),
    /// Send these contents without acknowledgement (DL-UNIT DATA request, clause 4.1.1.4). TEI 127 is the group
    /// of all terminals of the line.
    Unit(Service, u8, &'a [u8]),
    /// Put the TEI on the line (MDL-ASSIGN request, clause 4.1.1.5).
    Assign(u8),
    /// Take the TEI from the line (MDL-REMOVE request, clause 4.1.1.6).
    Remove(u8),
    /// Ask which terminals have the TEI (clause 5.3.3.2).
    Check(u8),
    /// Tell the terminals that still use the TEI to give it up, or all terminals, with TEI 127: it is not on the line, as after a
    /// restart of the network's side (clause 5.3.4; the request is the profile's).
    Disown(u8),
    /// Ask the network for a TEI (clause 5.3.2).
    AskTei,
    /// Ask the network to check the TEI (clause 5.3.5).
    VerifyTei(u8),
    /// Take no I-frames on the link for now (own receiver busy, clause 5.6.6; the primitive is the profile's).
    SetBusy(Service, u8),
    /// Take I-frames again.
    ClearBusy(Service, u8),
    /// The line is down: give the link up, with all that waits on it (persistent deactivation, annex B). The TEI stays.
    Deactivate(Service, u8),
    /// The line is down: give up what waits on it and is of no link: unit data, and messages of TEI management, whose check, if
    /// one runs, ends without a result (persistent deactivation, annex B). The TEIs stay.
    Down,
}

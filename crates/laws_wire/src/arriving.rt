//! What arrives under traffic. The law is the contract of a call that does nothing.

ghost use Rattle.laws_wire.specs.Arriving.{ArrivesInRounds, ArrivesInTurns, ArrivesUnderTraffic};

/// What an end was granted to send arrives under traffic, once its own T200 has expired. A call is as in
/// [`crate::what_is_lost_arrives`], with any losses at first. The end that calls was told that the link is established,
/// and from some time after that on no frame is lost. Then data is asked for as before, both ends send frames and
/// receive them, in any order, and timers expire at any time that is timely. Three control frames or more may wait at
/// either end.
///
/// Let T200 of an end have expired since, at any time if it ran, whatever was waiting or in transit then; or let it not
/// run. Then wherever no turn is left, all that this end was ever granted to send has been told at the other: in order,
/// each once, and nothing else (`still`).
///
/// If nothing more is asked for and no timer expires, rounds lead there (`rounds`). They are at most as many as the
/// bound of [`crate::turns_come_to_an_end`] says of the whole call. They are also at most as many as it says of what is
/// left to do there. Count as an expiry each control frame of the link that waits, each frame in transit, and four
/// more. Count as a granted request each note that is still to be told. Turns in any order, at either end, are at most
/// as many, and when none is left all has come (`turns`).
///
/// So an expiry is needed only at the end whose data is missing, and only if T200 runs there; there it is needed
/// (`specs/WorkedArriving`). The other's T200 need not expire, and the line need not be quiet. If only two control
/// frames may wait, an enquiry or its answer may find no room, and then the law is false (`specs/WorkedArriving`).
pub fn it_arrives_under_traffic()
    ensures still { ArrivesUnderTraffic }
    ensures rounds { ArrivesInRounds }
    ensures turns { ArrivesInTurns }
{}

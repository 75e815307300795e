//! What is told where frames are lost, UA too, and where the call ends. Each law is the contract of a call that does
//! nothing.

ghost use Rattle.laws_wire.specs.Answering.{LossyCallsComeThrough};
ghost use Rattle.laws_wire.specs.Ending.{CallsEnd};

/// A call with losses comes through. Two cards have just begun as in [`crate::a_call_comes_through`], and one is asked
/// to establish. Then, in any order and at any time: data is asked for at either end, layer 3 says that it is busy and
/// that it is ready again, and frames are sent, received or lost, UA and RNR, too. T200 and T203 of the link expire.
/// T200 is long enough, and N200 is not used up, as in [`crate::what_is_lost_arrives`]. So layer 3 of the end that is
/// called may ask, and its timers expire, even before its UA is heard.
///
/// Each SABME that this end receives is told: the first as an establishment, and each further one, which comes after a
/// lost UA, as error F (Q.921 clauses 5.5.1.2, 5.5.1.3 and 5.7). If an I-frame of this end was sent since the SABME
/// before, an establishment is told with the error, and all that was granted there up to then is given up. Otherwise
/// nothing is given up, and what was granted is sent after UA.
///
/// Then each is told the data that the other was granted to send and that was not given up, in order, each once. It is
/// told nothing else, so no other error: at any time a prefix of that. It was told all of it wherever no turn is left
/// and T200 runs at neither end. T200 runs while the other end is heard to be busy, or something that was sent is
/// missing; it runs if the card answers its expiry with orders. There both links are in state 7 again, and their rooms
/// (`FrameCard::room`) have each place of their queues, since all that they kept is acknowledged.
///
/// If no data is granted at the end that is called before the other is told of the establishment, nothing is given up.
/// That T200 is long enough is needed (`specs/WorkedAnswering`).
pub fn a_call_with_losses_comes_through()
    ensures { LossyCallsComeThrough }
{}

/// A call ends. After a call as [`a_call_with_losses_comes_through`] has it, no turn is left and T200 runs at neither
/// end, so that all was told. Layer 3 of either end is granted the release of the link. Then nothing more is asked for.
/// Frames are sent, received or lost, in any order and at any time. Timers of the end that releases expire, T200 if it
/// is long enough and N200 is not used up (Q.921 clauses 5.5.3.2 and 5.5.3.3). No timer of the other end expires.
///
/// Layer 3 of the end that releases is told that the release is confirmed, once and nothing else. Layer 3 of the other
/// is told that the link is released, once and nothing else. Both are told once no turn is left and T200 of the end
/// that releases runs no more, even if DISC, UA or DM was lost. So "T200 is long enough" and "runs no more" are said of
/// that end alone. If timers of the other end expire, too, it may give the link up itself before DISC comes
/// (`specs/WorkedEnding`).
pub fn a_call_ends()
    ensures { CallsEnd }
{}

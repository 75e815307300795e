//! Turns come to an end. Each law is the contract of a call that does nothing.

ghost use Rattle.laws_wire.specs.Resting.{MovesComeToAnEnd, RoundsComeToRest, TimelyRoundsComeToRest};

/// Turns come to an end once nothing more is asked for and no timer expires, whatever was lost before. Two cards have
/// just begun as in [`crate::a_call_comes_through`], and one is asked to establish. Then, as in
/// [`crate::told_in_order`], data is asked for, T200 and T203 of the link expire at either end, and frames are sent,
/// received or lost, in any order and at any time. Each frame that is sent, received or lost is a move.
///
/// Let k be at least the window of either end. There are at most 4 (k + 2) moves, and 2 (k + 2) more for each expiry,
/// and 2 (k + 3) more for each request that was granted. That is two for each of these frames:
///
/// - for the establishment SABME and UA, and at each end a REJ for which k are sent again;
/// - for an expiry an enquiry and its answer, for which k are sent again;
/// - for a request an I-frame, its acknowledgement, and a REJ for which k are sent again.
///
/// So with no further request and no further expiry moves come to an end. This holds as long as neither end tells an
/// error. Of the moves after error F of a lost UA [`crate::a_call_with_losses_comes_to_rest`] speaks, and of those
/// after another no law.
pub fn turns_come_to_an_end()
    ensures { MovesComeToAnEnd }
{}

/// Rounds come to rest. After any such call, if nothing more is asked for and no timer expires, rounds without loss
/// come to rest. There no turn is left: neither end has a frame to send, and none is in transit. At most as many rounds
/// are needed as the bound of [`turns_come_to_an_end`] says, if no error is told in the call, nor in as many rounds and
/// one more (`rounds`). If the call was timely, as in [`crate::what_is_lost_arrives`], that is always the case
/// (`timely`): rounds always come to the rest of which that law speaks.
///
/// In a round the end that calls sends its next frame, if it has one, and the other receives it. Then the other sends
/// its next, and the end that calls receives it. These numbers are of rounds in this order.
pub fn rounds_come_to_rest()
    ensures rounds { RoundsComeToRest }
    ensures timely { TimelyRoundsComeToRest }
{}

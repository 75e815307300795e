//! Two cards on one wire. Each law is the contract of a call that does nothing.

ghost use Rattle.laws_wire.specs.Call.{CallsComeThrough};
ghost use Rattle.laws_wire.specs.Counted.{ExpiriesAreCounted, LossyExpiriesAreCounted};
ghost use Rattle.laws_wire.specs.Facing.{CallsFace, CardsDeliver, CardsFaceAgain};
ghost use Rattle.laws_wire.specs.Losing.{CallsAreToldInOrder};
ghost use Rattle.laws_wire.specs.Recovering.{WhatIsLostArrives};
ghost use Rattle.laws_wire.specs.StillTimely.{WhatIsLostArrivesFromRest};

/// A call comes through. Two cards have just begun, one of each side, with configurations in range, the same N201 and the
/// same SAPI of the second service. A line of one faces a line of the other, and each has the same TEI assigned, 0 to
/// 126. Layer 3 of one asks for the establishment of a link, of either service. Then, in any order:
///
/// - layer 3 of either end asks to establish the link, too, or to send data on it, as it is granted or refused;
/// - turns come: an end sends its next frame, or receives the first that is in transit to it. So SABMEs may cross
///   (Q.921 clause 5.5.5.1).
///
/// Nothing is lost, and no timer expires. Then layer 3 of each is told one establishment, by a confirm if it was
/// granted to ask for it and otherwise by an indication. After that it is told the data that the other was granted to
/// send, in order, and nothing else. At any time it was told a prefix of this, and when no turn is left all of it.
/// There are at most four turns for each end that calls, and four more for each request for data that was granted.
///
/// Contents are lists of any numbers: the frames of this machine carry them as they are. Octets alone are asked for if
/// octets are sent (`a_call_comes_through_in_octets` of `laws_order`).
pub fn a_call_comes_through()
    ensures { CallsComeThrough }
{}

/// Cards deliver. Two cards, one of each side, with the same N201 and second SAPI, face each other by a link of the same
/// service and TEI, however they came there. At each `Card::state` tells 7 of it, and neither side is busy. Nothing is in
/// transit or waits on the line except I-frames of the link, and an acknowledgement that it owes. Each has received all
/// that the other has sent, and owes the acknowledgement of what is not acknowledged.
///
/// Then data is asked for at either end, as it is granted or refused, and turns come, in any order. Nothing is lost,
/// and no timer expires. Layer 3 of each is told of the contents that were unsent at the other, and of those that the
/// other's layer 3 was granted to send since. It is told them in order, each once, and nothing else: at any time a
/// prefix of that, and all of it when no turn is left (`cards`). There are at most four turns for each content that was
/// unsent at first, two for each acknowledgement that was owed, and four for each request that is granted meanwhile.
///
/// When no turn is left, the two face each other again (`again`). So do two cards in a call, when no turn is left
/// (`calls`).
pub fn cards_deliver()
    ensures cards { CardsDeliver }
    ensures again { CardsFaceAgain }
    ensures calls { CallsFace }
{}

/// What is told is in order, whatever is lost and whenever timers expire. Two cards have just begun as in
/// [`a_call_comes_through`], and one is asked to establish. Then data is asked for as there, T200 and T203 of the link
/// expire at either end, and frames are sent, received or lost, in any order and at any time.
///
/// As long as neither end tells an error, of whatever link, layer 3 of each was told one establishment and then a
/// prefix of the data that the other was granted to send: in order, each once, and nothing else. These are notes and
/// contents.
///
/// More than that takes an error. It comes with each further establishment, and so after a lost UA, too. After one,
/// contents may come a second time (`specs/WorkedLosing`). Of what is told after an error this law does not speak.
pub fn told_in_order()
    ensures { CallsAreToldInOrder }
{}

/// What is lost arrives, and both ends stay up. Two cards have just begun as in [`a_call_comes_through`], and one is
/// asked to establish. Then data is asked for as there, T203 of the link expires, and frames are sent, received or
/// lost, in any order and at any time. The premises:
///
/// - T200 is long enough (Q.921 clauses 5.5.1.3, 5.6.7 and 5.9.1). It expires in state 7 at any time. In states 5 and 8
///   it runs for a command that waits for its answer, SABME or an enquiry. There it expires only if no answer is to
///   come. So no command of this end with P=1 and no response of the other with F=1 is in transit, or is sent however
///   often the next frame is called for. A lost one is not.
/// - N200 is not used up (clause 5.9.2): no error is told as T200 expires. [`expiries_are_counted`] says when.
/// - UA is not lost. Before the end that calls has heard that the link is established, the other loses none of its
///   frames, and no timer expires there while UA is its next frame.
///
/// Then no error is told at either end. So there is one establishment, and what [`told_in_order`] says holds at any
/// time.
///
/// And what was lost arrives. Wherever no turn is left, let T200 expire at both ends, again with no error told. Then u
/// + 3 rounds in which nothing is lost are enough, if at either end at most u notes are missing. In a round the end
/// that calls, and then the other, sends its next frame, if it has one, and it is received. After them layer 3 of each
/// has heard one establishment and the data that the other was granted to send: all of it, in order, each once, and
/// nothing else. No turn is left. The same holds if SABME was lost.
///
/// That T200 expires there at both ends is in time (`goes_on`). So the run can go on after it, with further losses, and
/// the same holds again wherever it then leads (`specs/WorkedRecovering`). An error may be told if UA is lost, and also
/// if T200 expires while SABME (`specs/WorkedRecovering`) or an enquiry (`specs/WorkedLosing`) is in transit. If T200
/// expires only as no turn is left, one can see that it is long enough ([`what_is_lost_arrives_from_rest`]).
pub fn what_is_lost_arrives()
    ensures { WhatIsLostArrives }
{}

/// What is lost arrives, if T200 expires only as no turn is left on the wire, so that it is long enough, and no error
/// is told as it expires. No more is asked for than what is seen at the two ends. UA is not lost, and before the end
/// that calls was told that the link is established no timer of the other expires. Otherwise all is as in
/// [`what_is_lost_arrives`], and so is what is told.
pub fn what_is_lost_arrives_from_rest()
    ensures { WhatIsLostArrivesFromRest }
{}

/// N200 counts expiries of T200. Count at each end how often T200 expired since its link was last in state 7, or since
/// the call began. The expiry that led out of state 7 is not counted, except by annex B (clause 5.6.7). Let T200 be long
/// enough, and expire in states 5 and 8 only while this count is below N200 (Q.921 clause 5.9.2). Then N200 is not used up,
/// and no error is told as T200 expires. So the call is one of [`what_is_lost_arrives`] (`timely`) or, if UA may be lost
/// and an end may be busy, of [`crate::a_call_with_losses_comes_through`] (`lossy`). While SABME is not answered, T200 may
/// expire N200 times; while an enquiry is not, N200 times after the expiry that led to state 8. By annex B that expiry is
/// one of the N200. Each end has a reading of its own.
pub fn expiries_are_counted()
    ensures timely { ExpiriesAreCounted }
    ensures lossy { LossyExpiriesAreCounted }
{}

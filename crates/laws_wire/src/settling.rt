//! That a call with losses comes to rest. Each law is the contract of a call that does nothing.

ghost use Rattle.laws_wire.specs.Settling.{LossyCallsAreAnswered, LossyCallsComeToRest, LossyCallsSettle};
ghost use Rattle.laws_wire.specs.Settling.{LossyMovesComeToAnEnd, LossyRoundsComeToRest};

/// A call with losses comes to rest. The call is as [`crate::a_call_with_losses_comes_through`] has it: UA may be lost
/// and either end may be busy.
///
/// - Turns come to an end once nothing more is asked for and no timer expires (`turns`). There are as many moves at
///   most as [`crate::turns_come_to_an_end`] says, and two more for each granted request to be busy, or ready again. A
///   SABME that is sent again counts as what is sent for its expiry, and so does its UA. An I-frame that a busy end
///   drops counts when it is sent again.
/// - So at any time of the call rounds without loss come to rest, within that many rounds (`rounds`): no turn is left.
/// - If the end that calls was told nothing yet there, it is told of the establishment in one round, once its T200
///   expires (`answered`). Rounds lead on from there.
/// - If it was told, let neither end be busy, as its layer 3 was granted last to say. T200 expires at both ends. That
///   does nothing if it does not run, and is in time (`goes_on`). Then u + 3 rounds are enough, if at either end at
///   most u notes are missing of what that law says (`settles`): all of it is told, no turn is left, and T200 runs at
///   neither end.
/// - So from any time on at which neither end is busy the call comes to rest, if nothing more is asked for and nothing
///   more is lost (`rests`). Rounds, an expiry at the end that calls, rounds, and an expiry at both lead there, with
///   three rounds more than contents were granted in the call.
///
/// As T200 expires N200 is not used up: no error is told. T200 of an end that takes the other for busy runs on
/// (`specs/WorkedSettling`), so that neither is busy is needed.
pub fn a_call_with_losses_comes_to_rest()
    ensures turns { LossyMovesComeToAnEnd }
    ensures rounds { LossyRoundsComeToRest }
    ensures answered { LossyCallsAreAnswered }
    ensures settles { LossyCallsSettle }
    ensures rests { LossyCallsComeToRest }
{}

//! How often T200 expires once nothing is lost. The law is the contract of a call that does nothing.

ghost use Rattle.laws_wire.specs.Expiring.{ExpiriesComeToAnEnd, MovesComeToAnEndAsT200Expires};

/// Expiries come to an end once no frame is lost any more, and so does all that they cause. The call is as in
/// [`crate::it_arrives_under_traffic`], with any losses at first. From some time on none is lost, and timers expire at
/// any time that is timely.
///
/// From then on T200 of an end expires as often as contents are missing at the other end, and once more at most
/// (`expiries`). Missing are those that this end is granted to send until last, and that the other had not been told
/// at that time. An expiry of a T200 that does not run is not counted. For what is sent again after the first expiry is
/// received. So each further expiry comes after something that was received and not acknowledged, and the answer to the
/// enquiry acknowledges it (Q.921 clauses 5.6.7 and 5.9.1). One time more is needed (`specs/WorkedExpiring`).
///
/// Let nothing more be granted from then on, and no timer expire but T200 while it runs. Let k be at least the window of
/// either end. Then a number of moves that is known at that time is never exceeded, however often and whenever T200
/// expires (`moves`). It is that of [`crate::turns_come_to_an_end`]. Count as an expiry each control frame of the link
/// that waits, each frame in transit, each note that is still to be told, and six more. Count as a granted request each
/// such note. Wherever no turn is left and T200 runs at neither end, all has come
/// ([`crate::it_arrives_under_traffic`]).
pub fn expiries_come_to_an_end()
    ensures expiries { ExpiriesComeToAnEnd }
    ensures moves { MovesComeToAnEndAsT200Expires }
{}

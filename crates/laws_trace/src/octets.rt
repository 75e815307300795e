//! Laws of the octets of a line: what a receiver hears of it, against what layer 3 asked for there.
//!
//! Each law holds from a fresh card of octets of a configuration in range, for every list of events at its lines, and
//! for every line. They are composed of the laws of the trace and of ports (`model_card::ports`). They speak of the
//! octets that pulls gave and of the requests that were granted. `answers_are_heard` speaks also of what the events come
//! to at the card of frames. `specs/octets` has what is granted (`Granted`), when a line was pulled long enough
//! (`Pulled`), a file for each law, and worked values (`Worked`, `WorkedAnswers`). Each law is the contract of a call
//! that does nothing.

ghost use Rattle.model_card.specs.ports.GoingOut.{OfEachLine};
ghost use Rattle.laws_trace.specs.octets.AnswersAreHeard.{AllThatWaitsIsHeard};
ghost use Rattle.laws_trace.specs.octets.FramesGoOut.{OnlyFramesAreHeard, GivenAreOctets, GoOutAsTheyAre, AllFramesGoOut};
ghost use Rattle.laws_trace.specs.octets.LatestIsBegun.{LatestIsBegun};
ghost use Rattle.laws_trace.specs.octets.UnitsAreHeard.{UnitsAreHeard, AllUnitsAreHeard};

/// Unit data is heard at the other end. A receiver hears UI frames in the octets that a line's pulls gave. Except those
/// of TEI management they are the first of the unit data that was granted there: in order, whole, each once, with its
/// service and its TEI. From each time that the line is down on they are the first of what was granted after it
/// (`front`).
///
/// They are all of that once the line was only pulled, as often as the configuration says (`all`). On the network's side
/// this is 64,346 times with eight terminals, N201 of 260, windows of 7, 4 unit data and 4 control frames. Of each number
/// of the contents its eight low bits are heard, so an octet, 0 to 255, as it is (Q.921 clauses 2.2 to 2.7, 3.6.5 and
/// 5.2.2, and annex B).
pub fn units_are_heard()
    ensures front { OfEachLine UnitsAreHeard }
    ensures all { OfEachLine AllUnitsAreHeard }
{}

/// What goes out are frames. All that a receiver hears in the octets that a line's pulls gave are frames that the
/// grammar has, as those of the card's side, with the SAPI of a service or of TEI management (`grammar`). Let the
/// contents that were granted there be octets, each 0 to 255. Then the frames that the card of frames gave there consist
/// of octets, whatever came (`octets`). A receiver hears them as they are, in order, whole, each once, and no other; the
/// last may be in transit (`heard`; Q.921 clauses 2 and 3).
pub fn frames_go_out()
    ensures grammar { OfEachLine OnlyFramesAreHeard }
    ensures octets { OfEachLine GivenAreOctets }
    ensures heard { OfEachLine GoOutAsTheyAre }
{}

/// What answers a poll, SABME or DISC is heard within a number of pulls. A receiver hears all control frames that are in
/// the queue of a link, in order, in the octets that the pulls of the line give after that. By `answers_are_given` each
/// control frame that is due by an event of the line is at the end of that queue, unless the answer tells one as lost. A
/// frame alike that was in transit already may count as one of these; that each has a call of its own,
/// `answers_are_given` says.
///
/// This holds whatever comes between the pulls, as long as the TEI stays on the line and the link is not deactivated,
/// once there are enough pulls. Each of the frames that `answers_are_given` lets go before, and one frame after, counts
/// as the longest. Take the network's side with eight terminals, 4 unit data, 4 control frames and N201 of 260. If no
/// message of TEI management and no unit data comes meanwhile, 23,370 pulls are enough (Q.921 clauses 2.2 to 2.7,
/// 5.5.1.2, 5.5.3.2, 5.6.2 to 5.6.7, 5.7 and 5.8.1, and profile).
pub fn answers_are_heard()
    ensures { OfEachLine AllThatWaitsIsHeard }
{}

/// In the end all frames go out. Once a line was only pulled, as often as the configuration says, a receiver has heard
/// each frame that the card of frames gave there, and none is in transit (Q.921 clauses 2.2 to 2.7).
pub fn all_frames_go_out()
    ensures { OfEachLine AllFramesGoOut }
{}

/// The latest frame is told. What `Card::begun` tells is how the frame begins that a pull of the line began last. This
/// is the latest that the card of frames gave there, whatever else happened since (profile).
pub fn latest_is_begun()
    ensures { OfEachLine LatestIsBegun }
{}

//! The laws. Each is the contract of a call that does nothing.

ghost use Rattle.laws_time.specs.ArrivalsAwaited.{NoAnswerIsAwaitedLonger};
ghost use Rattle.laws_time.specs.ArrivalsUsedUp.{N200TakesItsTime};
ghost use Rattle.laws_time.specs.Silence.{ADeadLineIsTold};
ghost use Rattle.laws_time.specs.Watched.{of_frames, of_octets};

/// A dead line is told. Once nothing of a link is heard any more, layer 3 is told of errors and of the release within
/// so many milliseconds, and of nothing else. The law holds at a line of a card of either kind, after anything that
/// happened since its start, if `Card::state` tells a state from 5 on of the link. From then on:
///
/// - nothing of the link is heard, except UI commands, which bring unit data. (A UI that is sent as a response is
///   malformed, and counts as heard. By annex B so does a UI over N201.)
/// - layer 3 asks neither for its establishment nor for its release, nor to deactivate it. A request that is refused
///   counts as asked, too.
/// - its TEI stays on the line;
/// - anything else may happen.
///
/// Timers fall due late by a number of milliseconds at most, which is 0 if the caller is prompt. Then what is told of
/// the link, except data and unit data, is a prefix of this, and nothing else (Q.921 clauses 5.5.1.3, 5.5.3.3 and
/// 5.6.7):
///
/// - from state 7 or 8 error I, error G and the indication of the release;
/// - from 5 the last two, or the confirm of the release in place of its indication, if a release is owed (annex B);
/// - from 6 error H and the confirm of the release.
///
/// The first of these is told once (N200 + 1) (T200 + late) are over, and from state 7 T203 + late + T200 + late more.
/// All of them are told, from state 7 or 8, after (N200 + 1) (T200 + late) more. (An I-frame may be sent just before
/// T203 falls due: so from state 7 no sooner bound holds, `specs/WorkedSilence`.)
pub fn a_dead_line_is_told()
    ensures frames { ADeadLineIsTold of_frames }
    ensures octets { ADeadLineIsTold of_octets }
{}

/// No answer is awaited longer. While `Card::state` tells 5 of a link, no more than (N200 + 1) (T200 + late)
/// milliseconds pass. The same holds of 6, and of 8. Then the answer has come, or N200 is used up (Q.921 clauses
/// 5.5.1.3, 5.5.3.3 and 5.6.7), or something else has moved the link. So a call, a release and an enquiry are decided
/// within that time. It holds at a line of a card of either kind, whatever happened since its start, and whatever
/// happens meanwhile: any frames come, layer 3 asks for anything, and other links are served. Timers fall due late by a
/// number of milliseconds at most, which is 0 if the caller is prompt. (`news_is_told` of `laws_trace` says what layer 3
/// is told as the link moves.)
pub fn no_answer_is_awaited_longer()
    ensures frames { NoAnswerIsAwaitedLonger of_frames }
    ensures octets { NoAnswerIsAwaitedLonger of_octets }
{}

/// N200 takes its time. From a time on at which `Card::state` tells 4 or 7 of a link, no error G, H or I of it is told
/// for (N200 + 1) T200 milliseconds, whatever comes on the line, and whatever layer 3 asks for (Q.921 clauses 5.5.1.3,
/// 5.5.3.3 and 5.6.7). By annex B it is N200 T200 from state 7, or T200 if N200 is 0, as T200 may fall due at once
/// there, and N200 enquiries go in all (`enquiries`). So N200 is not used up while noise lasts that began then and lasts
/// for less. It may be used up after that, on a clean line, too. An answer may find no place to wait, and if N200 is 0, one
/// expiry is enough. It holds at a line of a card of either kind, whatever happened before. The moment is that of the last
/// step, up to which time has gone on.
pub fn n200_takes_its_time()
    ensures frames { N200TakesItsTime of_frames }
    ensures octets { N200TakesItsTime of_octets }
{}

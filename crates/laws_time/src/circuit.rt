//! Laws of two cards of octets on one circuit, with their clocks. Each is the contract of a call that does nothing.
//!
//! `specs/circuit` has that world (`Clocked`): both lines run at one rate, so many octets are in transit to each end,
//! and nothing else is in it except requests and noise. In an octet time layer 3 asks, then what is due falls due, and then
//! each end gives an octet and takes one. (A caller that asks after it, as `lapd.h` has it, does the same if nothing falls
//! due there.) Both ends count milliseconds in octets from one start. Its worked runs (`Worked`) compute. There are a call from
//! nothing, calls that cross, an I-frame that is lost and goes again, and SABME that is heard just before N200 is used
//! up. There are a dead line, too, and noise that makes a frame of another link. How long an answer takes at most is in
//! `LongEnough`, and worked out in `WorkedLongEnough`. Answers that come are in `Answered` and `WorkedAnswered`. What a
//! call through noise tells is in `Arriving`, and a run that meets its premises in `WorkedArriving`. How soon it comes
//! through is in `InCall` and `WorkedInCall`. How many beats a call without noise takes is in `InBeats` and
//! `WorkedInBeats`, and with which T200 no timer falls due in it in `WorkedInTime`. What the answer to an enquiry
//! brings is in `CaughtUp` and `WorkedCaughtUp`. What comes after noise is in `AfterNoise` and `WorkedAfterNoise`.
//!
//! # Open
//!
//! That each command and each answer finds a place in its queue of control frames (these laws suppose that none is told
//! as lost). That all is told in the end once noise has ended, and how soon. So far runs alone tell: in those of
//! `tests/clocks --after-noise 18000` all is told, or told as given up. It takes 0.69 s at most for one message, and
//! 2.35 s for eight, at 16 kbit/s with T200 of 362 ms. (Layer 3 asks for no unit data and is not busy, T203 is T200 at
//! least, and noise makes no frame.) That N200 lasts longer than `a_call_outlasts_noise` says.

ghost use Rattle.laws_time.specs.circuit.AfterNoise.{FramesComeAfterNoise, NoiseMakesNoFrameAfter};
ghost use Rattle.laws_time.specs.circuit.Answered.{AnEnquiryIsAnswered, CommandsAreAnswered, NoNoiseIsClear, OneEnquiryIsEnough};
ghost use Rattle.laws_time.specs.circuit.Arriving.{CallsBearNoise};
ghost use Rattle.laws_time.specs.circuit.CaughtUp.{AllPlacesAreFree, AnEnquiryCatchesUp, AnswersTellWhatCame};
ghost use Rattle.laws_time.specs.circuit.Ends.{EndsAreTimedCards};
ghost use Rattle.laws_time.specs.circuit.InBeats.{ACallComesInTime, ACallTakesBeats, AShortCallTakesBeats, FramesComeInBeats, MessagesComeInTime, MessagesTakeBeats, ShortMessagesTakeBeats, T203FallsDueFirst, T203FallsDueFirstSince};
ghost use Rattle.laws_time.specs.circuit.InCall.{ACallOutlastsNoise, N200LastsInACall};
ghost use Rattle.laws_time.specs.circuit.LongEnough.{AnswersComeInTime};
ghost use Rattle.laws_time.specs.circuit.WorkedAnswered.{AnEnquiryIsMet};
ghost use Rattle.laws_time.specs.circuit.WorkedCaughtUp.{AnEnquiryMeetsIt};

/// Each end of the clocked circuit is a timed card of octets, as `model_timed` has it. Anything may be asked for at
/// either end, with any noise, and any number of beats may have passed. Then the card at an end and its clock came
/// about by steps that are prompt to the millisecond. Events happen at its line, time goes on, and what is due falls
/// due before time goes on again. So what is proved of every timed card holds of each end. Lines run at an octet a
/// millisecond at least, and each timer runs for a millisecond at least.
pub fn ends_are_timed_cards()
    ensures { EndsAreTimedCards }
{}

/// Answers come in time: as T200 falls due in a state that awaits an answer (5, 6 or 8), none is to come. No command
/// with P=1 of that end waits or is in transit, and no response with F=1 of the other. So what was asked was lost, or
/// is not answered, and it is right to ask again (Q.921 clauses 5.5.1.3, 5.5.3.3 and 5.6.7). It holds after any number
/// of beats from the start, and at any time in the next one, whatever noise there is. T200 of each end, which may be
/// another, runs for at least 2 (L + D) + 9 (c + c') octet times, and a millisecond more, as moments are whole. L is the
/// longest frame in octets, D octets are in transit, and c and c' control frames may wait at the two ends. Noise makes
/// no frame: each frame that is heard stood at that place in what the other end gave. Layer 3 of each end asks for
/// anything of the link except unit data and deactivation. (Unit data goes before all frames of a link. With it, or with
/// noise that makes a frame, the law is false, `specs/circuit/WorkedTooLate`; with a shorter T200, too,
/// `specs/circuit/WorkedLongEnough`.)
pub fn answers_come_in_time()
    ensures { AnswersComeInTime }
{}

/// Commands are answered in time. An end comes from state 7 to state 8, in which it enquires (`enquiries`), or to state
/// 5 or 6, in which it waits for the answer to SABME or DISC (`others`). From the beat before on there is no noise. Then
/// it is in state 8 for fewer than 2 (L + D) + 9 (c + c') octet times, and in state 5 or 6 for no more (Q.921 clauses
/// 5.5.1.2, 5.5.3.2 and 5.6.7). T200 does not fall due in state 8 meanwhile: one enquiry is enough (`once`). The
/// lengths, the requests and the noise before are as [`answers_come_in_time`] has them. As long as the end waits, no
/// frame finds no place at either end (`lost` of a report), and for state 8 the other end is up, in state 7 or 8. (An
/// end in state 5 answers no enquiry. A command that finds no place is not sent.)
pub fn commands_are_answered()
    ensures enquiries { AnEnquiryIsAnswered }
    ensures once { OneEnquiryIsEnough }
    ensures others { CommandsAreAnswered }
{}

/// A call bears noise. Two cards of octets begin on one line with their clocks, as [`answers_come_in_time`] has it, and
/// T200 is long enough. At first nothing is asked for. At any time layer 3 of one end asks for the establishment of the
/// link. After that layer 3 of either end asks to send octets, or says that it is busy, or ready again, at any time,
/// as it is granted or refused. Noise makes no frame.
///
/// Let N200 not be used up: no end tells error G, H or I (Q.921 clauses 5.5.1.3, 5.5.3.3 and 5.6.7). Then the end that
/// calls tells no error at all, and the other none except F, of a UA that was lost (clause 5.7). Whatever is lost,
/// timers and noise bring no other.
///
/// As long as there is no such F, each end was told one establishment, and then data that the other was granted to send.
/// That is a prefix of it, in order, each once, and nothing else is told except what was dropped, or lost for want of a
/// place. Once each place of the queue at one end is free (`Card::room`), the other was told all data that was granted
/// there. That holds at any time, in the midst of noise and traffic, too.
pub fn calls_bear_noise()
    ensures { CallsBearNoise }
{}

/// A call outlasts noise. Two cards begin, and one end calls, as [`calls_bear_noise`] has it, with any noise that makes no
/// frame, and with data and busy requests at any time.
///
/// For (N200 + 1) T200 of each end, less a millisecond, no end tells error G, H or I (`bears`). So all that
/// [`calls_bear_noise`] says holds in that time.
///
/// Let noise end in that time, and then let no frame find no place at either end (`lost` of a report). Once T200 of the end
/// that calls has run, and 2 (L + D) + 9 (c + c') octet times more, both ends are up, in state 7 or 8 (`through`). They
/// stay so in that time, even if noise comes again. Layer 3 of the end that calls was told the confirm of the establishment
/// first of all, and that of the other the indication. (SABME goes again as T200 falls due, and then it is answered in
/// time: Q.921 clauses 5.5.1.2 and 5.5.1.3. Busy requests may take all places.)
pub fn a_call_outlasts_noise()
    ensures bears { N200LastsInACall }
    ensures through { ACallOutlastsNoise }
{}

/// An answer tells what came. A call is as [`calls_bear_noise`] has it, with any noise that makes no frame, and with data and
/// busy requests at any time. N200 is not used up, and the end that is called tells no error F (of a lost UA).
///
/// Let an end be in state 8 at any time, so that it enquires. Once it is in state 7 again, so many contents are acknowledged
/// there as the other end had been told at that time, or more (`came`). The room of the link says how many (`Card::room`): its
/// queue keeps the others of those that were granted. No more are acknowledged than the other end was told by now. (Of the
/// end that is called this is said from when the other is up.)
///
/// Let either end come from state 7 to state 8, as T200 or T203 falls due, without noise from the octet time before on. Let
/// no noise come for 2 (L + D) + 9 (c + c') octet times from then on, and let no frame find no place, while requests may go
/// on. Then that end has caught up with what the other had been told as the timer fell due, whatever noise took before
/// (`in_time`). So a lost acknowledgement is made good so soon (Q.921 clause 5.6.7). If nothing more is granted, and the
/// other end had been told all by then, each place of the queue is free (`all`). A worked run meets all premises of the
/// first (`met`).
pub fn an_answer_tells_what_came()
    ensures came { AnswersTellWhatCame }
    ensures in_time { AnEnquiryCatchesUp }
    ensures all { AllPlacesAreFree }
    ensures met { AnEnquiryMeetsIt }
{}

/// Without noise from the start on, noise makes no frame (`clear`): each frame that is heard stood at that place in what
/// the other end gave. So the premise of the laws above is met by each run without noise. And a worked run meets all
/// premises of the enquiries in [`commands_are_answered`] (`met`).
pub fn no_noise_makes_no_frame()
    ensures clear { NoNoiseIsClear }
    ensures met { AnEnquiryIsMet }
{}

/// A call takes so many beats. Two cards of octets begin on one line with their clocks. In the first beat layer 3 of one
/// end asks for the establishment of a link. Then layer 3 of either end asks to send octets, at any time. There is no
/// noise, and no timer falls due. Let u requests for data be granted in the whole call. Then (2 + 2 u) (2 L + D) octet
/// times after the last request each end was told one establishment, and all data that the other was granted to send:
/// in order, each once, and nothing else (`told`). So no error was told. L is the longest frame in octets, and D octets
/// are in transit. After (3 + 2 u) (2 L + D) octet times it is so if L is the longest frame that went by then (`short`).
///
/// The same holds of a link at rest (`since`). Without noise anything of the link was asked for except unit data and
/// deactivation, and timers fell due. Then both ends are in state 7, neither side is busy, all that was sent is
/// acknowledged, and no frame waits or is in transit. From there on only data is asked for, and no timer falls due. Let u
/// requests be granted since. Then 2 u (2 L + D) octet times after the last each end was told all that the other was
/// granted since, and nothing else. After (1 + 2 u) (2 L + D) it is so if L is the longest frame that went by then
/// (`short_since`).
///
/// When no timer falls due is a matter of numbers, see [`a_call_comes_in_time`]. (Noise delays a call,
/// `specs/circuit/WorkedInBeats`.)
pub fn a_call_takes_beats()
    ensures told { ACallTakesBeats }
    ensures short { AShortCallTakesBeats }
    ensures since { MessagesTakeBeats }
    ensures short_since { ShortMessagesTakeBeats }
{}

/// Frames come in so many beats. On a line without noise each frame that an end has put on its line is received whole
/// L + D octet times later, in order. It holds from any beat on, whatever layer 3 of either end asks for of the link except
/// unit data and deactivation, and whichever timers fall due. L is the longest of the frames that were put there up to
/// then, in octets with flag, check and stuffed 0s, and D octets are in transit.
pub fn frames_come_in_beats()
    ensures { FramesComeInBeats }
{}

/// Frames come after noise. Any noise may have come before, of any length, even such as makes frames. Then there is none.
/// Each frame that an end puts on its line after the first octet time without noise is received whole within L + D octet
/// times, as in [`frames_come_in_beats`]. They are received in order, and nothing is heard between them. So noise takes
/// no frame that is put there after it (`come`). It holds whatever layer 3 of either end asks for of the link except unit
/// data and deactivation, and whichever timers fall due.
///
/// L + 1 octet times after noise has ended no noise is left in what is heard: each frame that is heard from then on stood at
/// that place in what the other end gave (`clear`). So [`answers_come_in_time`] supposes this of the time before alone.
pub fn frames_come_after_noise()
    ensures come { FramesComeAfterNoise }
    ensures clear { NoiseMakesNoFrameAfter }
{}

/// A call comes in time. Two cards begin, one end calls, layer 3 of either end asks to send octets, and there is no noise,
/// as [`a_call_takes_beats`] has it. T200 of each end runs for more than 3 L + 2 D octet times, and a millisecond more, as
/// moments are whole.
///
/// If T203 of each end runs as long as the call, no timer falls due in it. So (2 + 2 u) (2 L + D) octet times after the
/// last request all is told, as that law has it (`told`). However long T203 runs, it is the first that falls due (`first`),
/// so until then that law holds. For whatever an end has sent is received L + D octet times later. In the next L a frame of
/// the other end begins that acknowledges it, and L + D later that is received. With N201 of 260, at 16 kbit/s with 4 octets
/// in transit, T200 of 487 ms is long enough, and at 64 kbit/s with 16 one of 126 ms. (One some octet times shorter may fall
/// due though nothing is lost; one that SABME and its UA outlast may bring error C. A short T203 falls due, and so does T200
/// if noise takes SABME: `specs/circuit/WorkedInTime`.)
///
/// The same holds of a link at rest, as [`a_call_takes_beats`] has it, with that T200. Only data is asked for since, without
/// noise. T203 runs at each end then: if no timer that runs there falls due in so many octet times, none does. So 2 u (2 L
/// + D) octet times after the last request all is told (`since`). And T203 is the first that falls due (`since_first`).
pub fn a_call_comes_in_time()
    ensures told { ACallComesInTime }
    ensures first { T203FallsDueFirst }
    ensures since { MessagesComeInTime }
    ensures since_first { T203FallsDueFirstSince }
{}

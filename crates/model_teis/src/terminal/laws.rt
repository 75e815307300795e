//! What holds of the table of TEI management of a terminal itself.

ghost use Rattle.model_teis.specs.terminal.Laws.{IsSoundThroughout, RoomIsEnough, NoneIsLost, FewMoreWait, ChangesAreTold, NoneIsTaken, EachWasGiven, ReadingStays, T202Follows, ExpiredT202Follows, NumbersGoOn, UnservedChangesNothing, DownGivesUp};
ghost use Rattle.model_teis.specs.terminal.Numbers.{NoneComesAgain, AllComeAgain};

/// A line is sound from a fresh one of at most eight places on, after any events and pulls whose requests put on the line
/// TEIs of at most 126. No TEI stands twice, each is at most 126, and a TEI that is verified is on the line. Each message
/// that waits is the request that is outstanding, the verify of the TEI that is verified, or a response for a TEI on the
/// line, none twice. So a place more than the line may have TEIs is enough for them, and none is ever lost. An event lets
/// one more wait at most, or one for each TEI of the line. A law about the definitions in `specs/`; the call does nothing.
pub fn no_message_is_lost()
    ensures sound { IsSoundThroughout }
    ensures room { RoomIsEnough }
    ensures lost { NoneIsLost }
    ensures more { FewMoreWait }
{}

/// The change that is told of an event is the change of the table. And no TEI is taken by itself: one comes to the line
/// by a request, or by an assignment with the reference number that is outstanding. So each TEI of a line was given in
/// the run that led there. A law about the definitions in `specs/`; the call does nothing.
pub fn no_tei_is_taken()
    ensures told { ChangesAreTold }
    ensures given { NoneIsTaken }
    ensures each { EachWasGiven }
{}

/// T202 runs while a procedure does, and a caller that obeys the orders runs it then, and only then. A law about the
/// definitions in `specs/`; the call does nothing.
#[tactic(auto, using(crate::proofs::OfTerminal::Told::t202_follows, crate::proofs::OfTerminal::Told::expired_t202_follows))]
pub fn orders_follow_the_procedure()
    ensures each { T202Follows }
    ensures expired { ExpiredT202Follows }
{}

/// The reference number of a line goes on along one sequence from its seed, once for each message that is made with
/// one, and that message has it. In the sequence none comes again before all 65,536 have come. A law about the
/// definitions in `specs/`; the call does nothing.
pub fn no_number_comes_again()
    ensures along { NumbersGoOn }
    ensures none { NoneComesAgain }
    ensures all { AllComeAgain }
{}

/// No event changes the reading of the table. A law about the definitions in `specs/`; the call does nothing.
#[tactic(auto, using(crate::proofs::OfTerminal::Read::reading_stays))]
pub fn reading_stays()
    ensures { ReadingStays }
{}

/// A message that is not served changes nothing, and nothing else is told of it. A law about the definitions in
/// `specs/`; the call does nothing.
#[tactic(auto, using(crate::proofs::OfTerminal::Told::unserved_changes_nothing))]
pub fn unserved_changes_nothing()
    ensures { UnservedChangesNothing }
{}

/// If the line is down (Q.921 annex B, persistent deactivation), no message waits and no procedure runs; the TEIs stay,
/// and all that is told is that T202 stops, if it ran. A law about the definitions in `specs/`; the call does nothing.
#[tactic(auto, using(crate::proofs::OfTerminal::GivenUp::given_up))]
pub fn down_gives_up()
    ensures { DownGivesUp }
{}

//! What holds of the table of TEI management itself.

ghost use Rattle.model_teis.specs.network.Laws.{IsSoundThroughout, ChangesAreTold, LowestIsAssigned, NewIsAssigned, OneIsFree, FewMoreWait, FewAreLost, OneFewerWaits, ReadingStays, UnservedChangesNothing, T201Follows, ExpiredT201Follows, DownGivesUp, DisownSendsRemove, DisownSpares, DisownAllSpares};

/// TEI management is sound from the empty table on, after any events and pulls whose requests name TEIs of at most 126, or
/// disown one of at most 127. No TEI and no Ri stands twice, and each TEI is at most 126. At most four assignments are
/// remembered, each of a TEI that is on the line, and none by annex B. At most four messages wait, each with an Ai of at most
/// 127. A check is of a TEI that is on the line, and has at most one response in each period; it settles only by annex B, and
/// has none then. A check is due only by annex B, only while another runs, and only of another TEI on the line. This is a law
/// about the definitions in `specs/`; the call does nothing.
pub fn sound_throughout()
    ensures { IsSoundThroughout }
{}

/// In sound management, and for events whose requests name TEIs of that range: the change that is told
/// of an event is the change of the table, and a TEI that came was not on the line and took the lowest
/// free place. A law about the definitions in `specs/`; the call does nothing.
#[tactic(auto, using(crate::proofs::OfNetwork::LawLemmas::changes_are_told))]
pub fn changes_are_told()
    ensures { ChangesAreTold }
{}

/// If a terminal is assigned a TEI, it is the lowest of 64 to 126 that is not on the line, and in a
/// table of fewer than 63 places one of these is always free. One whose Ri is not remembered gets it,
/// if there is room for the answer and a place is free; by annex B also no answer to it may wait. A law
/// about the definitions in `specs/`; the call does nothing.
pub fn lowest_is_assigned()
    ensures lowest { LowestIsAssigned }
    ensures new { NewIsAssigned }
    ensures one { OneIsFree }
{}

/// An event lets at most one message more wait, if a check that is due counts as the message with which it begins, and loses
/// at most one. By annex B a message that is heard lets two wait at most. A pull lets one fewer wait, or finds none. A law about
/// the definitions in `specs/`; the call does nothing.
#[tactic(auto, using(crate::proofs::OfNetwork::LawLemmas::few_more_wait, crate::proofs::OfNetwork::LawLemmas::few_are_lost))]
pub fn few_more_wait()
    ensures more { FewMoreWait }
    ensures lost { FewAreLost }
    ensures fewer { OneFewerWaits }
{}

/// No event changes the reading of the table. A law about the definitions in `specs/`; the call does nothing.
#[tactic(auto, using(crate::proofs::OfNetwork::LawLemmas::reading_stays))]
pub fn reading_stays()
    ensures { ReadingStays }
{}

/// A message that is not served changes nothing, and nothing else is told of it. A law about the
/// definitions in `specs/`; the call does nothing.
#[tactic(auto, using(crate::proofs::OfNetwork::LawLemmas::unserved_changes_nothing))]
pub fn unserved_changes_nothing()
    ensures { UnservedChangesNothing }
{}

/// T201 runs while a TEI is under check, and a caller that obeys the orders runs it then, and only then. An event
/// has one order at most: a Start of T201 after which a check runs, or a Stop after which none does. It has none
/// if T201 goes on as it was. After its own expiry T201 is started anew, or no check runs. A law
/// about the definitions in `specs/`; the call does nothing.
#[tactic(auto, using(crate::proofs::OfNetwork::Followed::t201_follows, crate::proofs::OfNetwork::Followed::expired_t201_follows))]
pub fn orders_follow_the_check()
    ensures each { T201Follows }
    ensures expired { ExpiredT201Follows }
{}

/// If the line is down (Q.921 annex B, persistent deactivation), no message waits, and no check runs or is due. The TEIs
/// and what is remembered of their assignments stay, and all that is told is that T201 stops, if it ran. A law about the
/// definitions in `specs/`; the call does nothing.
#[tactic(auto, using(crate::proofs::OfNetwork::GivenUp::down_gives_up))]
pub fn down_gives_up()
    ensures { DownGivesUp }
{}

/// A TEI that is not in use is disowned (Q.921 clause 5.3.4): an identity remove of it waits after the other messages,
/// nothing else changes, and nothing is told. One that is on the line is never disowned, and while any is, all are not. A law
/// about the definitions in `specs/`; the call does nothing.
pub fn disowned_is_nobodys()
    ensures sends { DisownSendsRemove }
    ensures spares { DisownSpares }
    ensures spares_all { DisownAllSpares }
{}

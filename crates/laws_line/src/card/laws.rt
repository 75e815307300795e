//! What a card does, over whole runs. Each law is the contract of a call that does nothing. If its comment names a
//! field of `Promises` (crate `laws_promises`), the comment of the field says it in words.

ghost use Rattle.laws_line.specs.card.Laws.{OneEvent, OthersAreLeft, CausesTold};

/// In every moment one part of one line has one event, and all else is as it was. Some are an event of a link, which
/// changes nothing else; the answer tells what the link tells. These are a frame for a link of a TEI on the line, also one
/// that the grammar does not have or that is too long, the expiry of a timer of it, and a request of it that is granted.
/// Others are an event of TEI management: a message of it, the expiry of T201, or at a terminal of T202, and a request of
/// management that is granted. Then the links of a TEI that comes or leaves are as ones that begin, and the others stay.
/// Noted is what TEI management notes, and what the links of a TEI that leaves tell as they end. Unit data whose request
/// was granted waits, whole, after what waits. If the line is down, no unit data, no message of TEI management, no check
/// that runs or is due and no procedure of a terminal are left, and all that is told is that T201 stops, or T202. A call
/// for the next frame leaves its line, and answers, as the machine of the line does. Whatever else comes changes nothing,
/// and nothing is told (clauses 2.2 to 2.7, 3.6.1, 5.2.2, 5.3, 5.8.5, annex B and the profile).
pub fn one_event()
    ensures { OneEvent }
{}

/// In every moment all lines stay as they are but that of the event, and of its links all but one: `others_stay`.
pub fn others_stay()
    ensures { OthersAreLeft }
{}

/// Of what is heard and is no frame all that is answered is why it is none. Of a frame of TEI management at a trunk's
/// end, and of a response at a terminal, it is that it is not served: `causes_are_told`.
pub fn causes_are_told()
    ensures { CausesTold }
{}

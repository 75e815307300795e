//! TEIs of the network's side and of terminals on one bus, whatever is lost. Each law is the contract of a call that does
//! nothing.
//!
//! What a card does at an event is the machine of `model_card`, and what an observer of a line knows of its TEIs is as in
//! the laws of `laws_trace`. `specs/teis` has the bus and what is known of it (`Bus`), the laws, and worked runs.

ghost use Rattle.laws_order.specs.teis.Assignments.{AssignmentsHold};
ghost use Rattle.laws_order.specs.teis.TwoTerminals.{TwoTerminalsDiffer};

/// An assignment holds until the terminal hears that it is over, whatever is lost and whenever T201 and T202 expire. A
/// line of a network's card and one of a terminal's have just begun. Then any events happen at either card, at any of its
/// lines. The network's line hears any frames. The terminal's line hears only frames that the network's line sent, each
/// at most once and in order; the others are lost.
///
/// A TEI is told as assigned at the terminal's line, and has been on it since, as `Card::state` tells. It came by an
/// assignment that the network made, with the reference number by which the terminal asked. Then one of these holds:
///
/// - the TEI has been on the network's line since the assignment was made;
/// - a message that removes it is in transit to the terminal, or is owed by the network;
/// - since the TEI left, the terminal missed one. It was lost; it was given up as the network's line was down; or the TEI
///   left without one, as in the profile if T201 expires for the second time, or if there is no room for the message.
///
/// What the network owes, and so which assignments it makes, an observer of its line knows (`Managing` of `laws_trace`). Of
/// a TEI that management put on the terminal's line nothing is said (Q.921 clauses 5.3.2, 5.3.3.2 and 5.3.4, annex B, and
/// profile).
pub fn assignments_hold()
    ensures { AssignmentsHold }
{}

/// Two terminals on one bus differ. Each hears one line of the network as in [`assignments_hold`]: each frame of it
/// comes to each terminal, or is lost for it alone. Both are told one TEI as assigned, and have had it on their lines
/// since. Then both asked for it by one reference number; or for the one whose assignment is older it is over, and the
/// message that removes the TEI is still to come to it, or it missed one (Q.921 clauses 5.3.2 and 5.3.4, and profile).
///
/// An assignment is older if the network made the other after it made this one for the last time.
///
/// Two that ask by one number may both be assigned one TEI. So each needs a seed of its own.
pub fn two_terminals_differ()
    ensures { TwoTerminalsDiffer }
{}

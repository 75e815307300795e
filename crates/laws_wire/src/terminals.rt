//! A terminal on a wire. The law is the contract of a call that does nothing.

ghost use Rattle.laws_wire.specs.Terminals.{TerminalsComeThrough};

/// A terminal comes through. A line of a terminal's card faces one of a card of the network's side. Both cards have just
/// begun, with configurations in range, the same N201 and the same SAPI of the second service. So no TEI is on either
/// line. Layer 3 of the terminal, or its management, asks for a TEI (Q.921 clause 5.3.2). Then turns come, in any order:
/// an end sends its next frame, or receives the first that is in transit to it. Nothing is lost, and no timer expires.
///
/// Then each end is told that TEI 64 is assigned: once, and nothing else. When no turn is left both have been told. There
/// are at most four turns.
///
/// As soon as the terminal's end was told, layer 3 of either end may ask for the establishment of a link of this TEI, of
/// either service. Then a call comes through as in [`crate::a_call_comes_through`], by whatever is done there. So each
/// end is told of its TEI, then of one establishment, and then of the data that the other was granted to send, in order.
/// At any time it was told a prefix of this, and when no turn is left all of it. There are at most four turns more than
/// in a call alone.
///
/// TEI 64 is the lowest that the network assigns (clause 3.3.4.2; that it takes the lowest is profile). This law does not
/// speak of losses, of an expiry of T202, or of a second terminal.
pub fn a_terminal_comes_through()
    ensures { TerminalsComeThrough }
{}

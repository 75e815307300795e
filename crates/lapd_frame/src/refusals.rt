//! Why a request is refused.

/// Why a request is refused: the first of these that applies to the request and holds. A refused
/// request changes nothing (profile).
#[derive(Clone, Copy, PartialEq, Eq, Debug)]
pub enum Refusal {
    /// The TEI is over 126; over 127 for `Disown`, and for unit data on the network's side, since 127 names all.
    BadTei = 1,
    /// The TEI is not on the line. Not for `Assign`, `Disown`, nor unit data to the group.
    NoLink,
    /// The link is not in a state that serves the request.
    WrongState,
    /// The contents are longer than N201.
    TooLong,
    /// The link's queue of I-frame contents is full, or the line's queue of unit data.
    QueueFull,
    /// The card holds as many contents as it has slots.
    PoolFull,
    /// The TEI is on the line already. `Disown` of 127: a TEI is on the line.
    TeiTaken,
    /// The line has as many TEIs as it may have.
    TableFull,
    /// An identity check is running on the line.
    CheckRunning,
    /// No room for one more TEI management message.
    ControlFull,
    /// Only the network's side takes a TEI off the line, checks one, or disowns one (Q.921 clauses 5.3.3 and 5.3.4).
    WrongSide,
}

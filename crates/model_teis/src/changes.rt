//! What changes in the table of a line's TEIs.

/// A change of the line's TEIs. A TEI is 0 to 126; its place is that in the table, from 0 on.
#[derive(Clone, Copy, PartialEq, Eq)]
pub enum Change {
    /// The TEI is on the line now: its links begin, in state 4.
    Gained {
        /// The TEI that came.
        tei: u8,
        /// Where it is in the table.
        place: usize,
    },
    /// The TEI is no longer on the line: its links are to be cleared.
    Left {
        /// The TEI that left.
        tei: u8,
        /// Where it was in the table.
        place: usize,
    },
}

//! The check of a TEI.

/// A check of a TEI that is under way (Q.921 clause 5.3.3.2).
#[derive(Clone, Copy, PartialEq, Eq, Debug)]
pub struct Check {
    /// Of which TEI.
    pub tei: u8,
    /// Which run of T201 it is.
    pub period: Period,
    /// How many responses came in the first period: 0 or 1, since the second ends the check.
    pub first: u8,
    /// How many came in the second period: 0 or 1.
    pub second: u8,
}

/// A check asks twice, and awaits responses for one run of T201 each time. One that was due (annex B) settles for one run
/// before that.
#[derive(Clone, Copy, PartialEq, Eq, Debug)]
pub enum Period {
    /// The first run of T201.
    First,
    /// The second, after which the check ends.
    Second,
    /// The run before the first: the terminals have not been asked yet, and no response counts.
    Settling,
}

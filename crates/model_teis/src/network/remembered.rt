//! An assignment that is remembered.

/// The TEI that was assigned to a request with this reference number Ri.
#[derive(Clone, Copy, PartialEq, Eq, Debug, Default)]
pub struct Remembered {
    /// The reference number of the request.
    pub ri: u16,
    /// The TEI, 64 to 126.
    pub tei: u8,
}

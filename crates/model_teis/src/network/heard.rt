//! The messages of the terminals, as the network hears them.

/// A message of TEI management that a terminal sends (Q.921 clause 5.3.6, table 8).
#[derive(Clone, Copy)]
pub enum Heard {
    /// A terminal asks for any TEI, by a reference number Ri of its choice (clause 5.3.2).
    IdentityRequest { ri: u16 },
    /// A terminal asks for this TEI, one of those that the network assigns.
    IdentityRequestOf { ri: u16, tei: u8 },
    /// A terminal has this TEI (clause 5.3.3.2).
    IdentityCheckResponse { tei: u8 },
    /// A terminal asks for a check of its TEI (clause 5.3.5).
    IdentityVerify { tei: u8 },
}

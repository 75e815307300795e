//! The messages of the network, as a terminal hears them.

/// A message of TEI management that the network sends (Q.921 clause 5.3.6, table 8).
#[derive(Clone, Copy)]
pub enum Heard {
    /// The TEI is assigned to the terminal that asked for one with this reference number Ri (clause 5.3.2).
    IdentityAssigned {
        /// That of the request.
        ri: u16,
        /// 0 to 127.
        tei: u8,
    },
    /// There is no TEI for the terminal that asked with this Ri (clause 5.3.2).
    IdentityDenied {
        /// That of the request.
        ri: u16,
    },
    /// Each terminal with this TEI is to answer; 127 stands for each TEI (clause 5.3.3.2).
    IdentityCheckRequest {
        /// 0 to 127.
        tei: u8,
    },
    /// Each terminal with this TEI is to give it up; 127 stands for each TEI (clause 5.3.4).
    IdentityRemove {
        /// 0 to 127.
        tei: u8,
    },
}

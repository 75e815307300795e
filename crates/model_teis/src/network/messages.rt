//! The messages of the network.

/// A message of TEI management that the network sends to the terminals of a line (Q.921 clause
/// 5.3.6, table 8).
#[derive(Clone, Copy, PartialEq, Eq, Debug)]
pub enum Message {
    /// The TEI is assigned to the terminal that asked for one with this reference number Ri (clause
    /// 5.3.2).
    IdentityAssigned {
        /// That of the request.
        ri: u16,
        /// 64 to 126.
        tei: u8,
    },
    /// No TEI can be assigned to the terminal that asked with this Ri (clause 5.3.2).
    IdentityDenied {
        /// That of the request.
        ri: u16,
        /// 127, or 64 to 126 if the terminal asked for this one.
        tei: u8,
    },
    /// Each terminal with this TEI is to answer (clause 5.3.3.2).
    IdentityCheckRequest {
        /// 0 to 126.
        tei: u8,
    },
    /// Each terminal with this TEI is to give it up, or each terminal, if it is 127 (clause 5.3.4).
    IdentityRemove {
        /// 0 to 127.
        tei: u8,
    },
}

//! The messages of a terminal.

/// A message of TEI management that a terminal sends to the network (Q.921 clause 5.3.6, table 8).
#[derive(Clone, Copy, PartialEq, Eq, Debug)]
pub enum Message {
    /// The terminal asks for any TEI (clause 5.3.2).
    IdentityRequest {
        /// The reference number, by which the terminal knows the answer as its own.
        ri: u16,
    },
    /// The terminal has this TEI (clause 5.3.3.2).
    IdentityCheckResponse {
        /// A reference number of its own, which tells two terminals apart that have one TEI.
        ri: u16,
        /// 0 to 126.
        tei: u8,
    },
    /// The terminal asks for a check of its TEI (clause 5.3.5).
    IdentityVerify {
        /// 0 to 126.
        tei: u8,
    },
}

impl Default for Message {
    /// What a place of a queue holds if no message waits.
    fn default() -> Message {
        Message::IdentityVerify { tei: 0 }
    }
}

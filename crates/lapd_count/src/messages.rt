//! The messages of TEI management.

ghost use Rattle.std.specs.Prelude.{◌≡◌};
ghost use Rattle.lapd_count.specs.Messages.{message_of};

/// A message of TEI management, as its type says (Q.921 clause 5.3.6, table 8). It is counted whether or not the message is
/// otherwise well formed, and whether or not it is served.
#[derive(Clone, Copy, PartialEq, Eq, Debug)]
pub enum MessageType {
    /// A terminal asks for a TEI (clause 5.3.2).
    IdentityRequest,
    /// The network gives one (clause 5.3.2).
    IdentityAssigned,
    /// The network gives none (clause 5.3.2).
    IdentityDenied,
    /// The network asks who has a TEI (clause 5.3.3).
    IdentityCheckRequest,
    /// A terminal has it (clause 5.3.3).
    IdentityCheckResponse,
    /// The network takes a TEI back (clause 5.3.4).
    IdentityRemove,
    /// A terminal asks that its TEI be checked (clause 5.3.5).
    IdentityVerify,
}

impl MessageType {
    /// The message of a type; none where no message has it.
    pub(crate) fn of(kind: u8) -> Option<MessageType>
        ensures { result ≡ message_of kind }
    {
        match kind {
            1 => Some(MessageType::IdentityRequest),
            2 => Some(MessageType::IdentityAssigned),
            3 => Some(MessageType::IdentityDenied),
            4 => Some(MessageType::IdentityCheckRequest),
            5 => Some(MessageType::IdentityCheckResponse),
            6 => Some(MessageType::IdentityRemove),
            7 => Some(MessageType::IdentityVerify),
            _ => None,
        }
    }
}

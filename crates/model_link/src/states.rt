//! The states of a link.

ghost use Rattle.std.specs.Prelude.{◌≡◌};
ghost use Rattle.model_link.specs.Link.{state_number};

/// The state of a link whose TEI is assigned (Q.921 annex B).
///
/// ```text
///               Establish               UA, F=1
///       +---------------------> +---+ ----------------------+
///       |                       | 5 |                       |
///       |  +------------------- +---+ <------------------+  |
///       |  |  DM, F=1;                 an error (7 and 8) |  |
///       |  v  no answer                                   |  v
///     +---+                     SABME                     +---+
///     | 4 | --------------------------------------------> | 7 | <--+ SABME (7 and 8)
///     +---+ <-------------------------------------------- +---+ ---+
///       ^                   DISC (7 and 8)                |  ^
///       |                                      T200, T203 |  | the answer to the enquiry
///       |  UA or DM, F=1;                                 v  |
///       |  no answer            +---+       Release       +---+
///       +---------------------- | 6 | <------------------ | 8 |
///                               +---+      (7 and 8)      +---+
/// ```
///
/// What is marked (7 and 8) goes from both. No answer comes if T200 expires after N200 repeats. An error is a DM with
/// F=0, an FRMR, an N(R) that is not valid, and a malformed frame; in state 8 also a DM with F=1 and an enquiry without
/// answer. If its TEI leaves the line, a link comes to 4 from every state. By annex B a DM with F=0 leads from 4 to 5, too.
#[derive(Clone, Copy, PartialEq, Eq, Debug)]
pub enum State {
    /// State 4: the link is down.
    TeiAssigned,
    /// State 5: this side asked for the establishment, by SABME.
    AwaitingEstablishment,
    /// State 6: this side asked for the release, by DISC.
    AwaitingRelease,
    /// State 7: multiple-frame operation.
    Established,
    /// State 8: multiple-frame operation, while this side asks how far the terminal has received.
    TimerRecovery,
}

impl State {
    /// The state's number.
    pub fn number(self) -> u8
        ensures { result ≡ state_number self }
    {
        match self {
            State::TeiAssigned => 4,
            State::AwaitingEstablishment => 5,
            State::AwaitingRelease => 6,
            State::Established => 7,
            State::TimerRecovery => 8,
        }
    }
}

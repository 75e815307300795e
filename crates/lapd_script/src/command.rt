//! What a line of a script says.

use lapd_frame::Service;
use lapd_transcript::CounterGroup;
use model_card::CardKind;
use model_line::{Config, Fault};

/// What layer 3 asks for, in a line that names a card's line and a TEI.
#[derive(Clone, Copy)]
pub enum Asked {
    /// `assign`: puts the TEI on the line.
    Assign,
    /// `remove`: takes it from the line.
    Remove,
    /// `check`: asks the terminals of the line who has it.
    Check,
    /// `disown`: tells its terminals, or all of them, to give up a TEI that is not on the line.
    Disown,
    /// `verify`: a terminal asks the network whether the TEI is still its own.
    Verify,
    /// `establish`, `establish16`: the link's establishment.
    Establish(Service),
    /// `release`, `release16`: its release.
    Release(Service),
    /// `busy`, `busy16`: the receiver is not ready.
    SetBusy(Service),
    /// `ready`, `ready16`: it is ready again.
    ClearBusy(Service),
    /// `deactivate`, `deactivate16`: the line is down, so the link is given up.
    Deactivate(Service),
    /// `data`, `data16`: contents for the link.
    Data(Service),
    /// `unit`, `unit16`: contents without acknowledgement.
    Unit(Service),
}

/// How many milliseconds timers run, 1 to 3,600,000 each.
#[derive(Clone, Copy)]
pub struct Durations {
    /// T200.
    pub t200: u32,
    /// T203.
    pub t203: u32,
    /// T201.
    pub t201: u32,
    /// T202.
    pub t202: u32,
}

/// What a line of a script says. `line` is the number of a line of the card, from 0, and `octets` how many octets HEX
/// stands for.
#[derive(Clone, Copy)]
pub enum Command {
    /// Nothing: the line is empty, or begins with `#`.
    Skip,
    /// `card`, `frames`: starts a card with these sizes and limits, which are any numbers of 16 bits. In the line `k16`
    /// stands after the other numbers, and it is `k` if it is left out. The reading is the profile's unless the line ends
    /// with `annex-b`.
    Card(CardKind, Config),
    /// `rx LINE HEX`: octets come from the line.
    Rx {
        line: u16,
        octets: usize,
    },
    /// `in LINE HEX`: a frame comes from the line.
    In {
        line: u16,
        octets: usize,
    },
    /// `failed LINE CAUSE`: the line's controller has no frame, where one had begun.
    Failed {
        line: u16,
        fault: Fault,
    },
    /// `next LINE`: the line takes the next frame.
    Next(u16),
    /// `down LINE`: the line is down, so its links are given up, and all that waits on it.
    Down(u16),
    /// `ask LINE`: a terminal asks the network for a TEI.
    AskTei(u16),
    /// `pull LINE N`: the line takes 1 to 4,096 octets.
    Pull {
        line: u16,
        count: u32,
    },
    /// `wait MS`: so many milliseconds pass, at most 3,600,000.
    Wait(u32),
    /// `timers T200 T203 T201 T202`: from now on timers that are started run so long. In the line T202 is 2,000 if it is left
    /// out.
    Timers(Durations),
    /// `stored`: shows what the card holds.
    Stored,
    /// `losses`: from now on it is shown how many contents are given up.
    Losses,
    /// `save`: shows how long the image of the card is, and its check.
    Save,
    /// `restore`: the card is started anew, from its own image.
    Restore,
    /// `counters LINE`, `messages LINE`: shows what was counted of the line.
    Counters {
        line: u16,
        group: CounterGroup,
    },
    /// A request of layer 3, and the octets that it carries: those of `data` and `unit`, otherwise none.
    Ask {
        line: u16,
        tei: u8,
        what: Asked,
        octets: usize,
    },
}

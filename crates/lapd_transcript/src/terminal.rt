//! The sender of a terminal.

ghost use Rattle.std.specs.Prelude.{◌≡◌, ◌+◌, ◌*◌, ◌<◌, ◌≤◌, ℕ, List, [], length, IfOk};
ghost use Rattle.model_bits.specs.Sent.{Item};
ghost use Rattle.lapd_transcript.specs.Put.{HasPut};

use arrayvec::ArrayVec;
use lapd_bits::Framer;
use std::alloc::{AllocError, Global};

/// The most octets of information in a frame that a terminal sends, or that is found in what is pulled.
pub const LONGEST_INFORMATION: u16 = 1024;

/// A frame begins with so many octets of address and control, if it has them.
const HEAD: usize = 4;

/// The shortest and the longest frame that a terminal sends, in octets without frame check.
pub const SHORTEST_FRAME: usize = 3;

pub const LONGEST_FRAME: usize = HEAD + LONGEST_INFORMATION as usize;

/// More octets than the longest frame is on a line, with its check, stuffed bits and two flags.
const MOST_ON_LINE: usize = 1300;

/// What a terminal puts on its line to send a frame.
pub type Sent = ArrayVec<u8, MOST_ON_LINE>;

/// The sender of a terminal.
#[derive(Drop)]
pub struct Terminal {
    framer: Framer,
    ghost room: { framer.room ≡ 1024 },
    ghost few: { length framer.left ≤ 8 },
}

impl Terminal {
    ghost use Rattle.lapd_transcript.specs.Terminal as machine;
    ghost use Rattle.lapd_transcript.specs.Terminal.{Sends, octets_sent, after_sending};

    /// It has sent nothing yet.
    ///
    /// # Errors
    ///
    /// `AllocError` if there is no memory for the longest frame.
    pub fn start(alloc: Global) -> Result<Terminal, AllocError>
        ensures { IfOk result (λ terminal. Sends terminal (record { items = []; given = 0 })) }
    {
        let Ok(framer) = Framer::start(alloc, LONGEST_INFORMATION) else {
            return Err(AllocError);
        };
        Ok(Terminal { framer })
    }

    /// Sends a frame: the octets that it puts on its line until the last bit of the frame's closing flag is out.
    pub fn send(&mut self, frame: &[u8]) -> Sent
        requires short { 3 ≤ length frame.now }
        requires long { length frame.now ≤ 1028 }
        ensures { (t : machine.Terminal) → Sends self.old t
            → (result.items ≡ octets_sent frame.now t) × Sends self.new (after_sending frame.now t) }
    {
        let mut line = ArrayVec::new();
        give(&mut self.framer, &mut line);
        let (head, information) = frame.split_at(frame.len().min(HEAD));
        self.framer.load(head, information);
        give(&mut self.framer, &mut line);
        if self.framer.left() == 0 {
            return line;
        }
        line.push(self.framer.octet());
        line
    }
}

/// Puts what a framer has to give, except for the last bits that are no whole octet.
fn give(framer: &mut Framer, line: &mut Sent)
    requires room { 8 * length line.old.items + length framer.old.left ≤ 8 * 1300 }
    ensures rest { length framer.new.left < 8 }
    ensures moved { 8 * length line.new.items + length framer.new.left ≡ 8 * length line.old.items + length framer.old.left }
    ensures same { framer.new.room ≡ framer.old.room }
    ensures put { (before : List ℕ) (items : List Item) → HasPut framer.old before line.old.items items → HasPut framer.new before line.new.items items }
{
    while framer.busy() {
        line.push(framer.octet());
    }
}

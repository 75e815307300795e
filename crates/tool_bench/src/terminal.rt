//! The octets that a terminal sends.

ghost use Rattle.std.specs.Prelude.{◌≡◌, ◌≤◌, length};

use crate::sender::N201;
use lapd_bits::{Framer, StartFault};
use std::alloc::{AllocError, Global};

/// More octets than the longest frame takes on a line.
const LONGEST: usize = 400;

/// Writes down what a terminal sends.
#[derive(Drop)]
pub struct Terminal {
    framer: Framer,
    line: Vec<u8>,
    ghost room: { framer.room ≡ 260 },
}

impl Terminal {
    /// It has sent nothing.
    pub fn start(alloc: Global) -> Result<Terminal, StartFault> {
        let framer = Framer::start(alloc, N201)?;
        Ok(Terminal {
            framer,
            line: Vec::new(alloc),
        })
    }

    /// Sends a frame, up to the last whole octet of its closing flag.
    pub fn send(&mut self, head: &[u8], info: &[u8]) -> Result<(), AllocError>
        requires least { 3 ≤ length head.now }
        requires most { length head.now ≤ 4 }
        requires info { length info.now ≤ 260 }
    {
        self.finish()?;
        if !self.framer.busy() {
            self.framer.load(head, info);
        }
        self.finish()
    }

    /// How many octets have been sent.
    pub fn sent(&self) -> usize {
        self.line.len()
    }

    /// Gives what has been sent, with the rest of the last flag.
    pub fn line(mut self) -> Result<Vec<u8>, AllocError> {
        let octet = self.framer.octet();
        self.line.push(octet)?;
        Ok(self.line)
    }

    // Sends the whole octets that are left.
    fn finish(&mut self) -> Result<(), AllocError> {
        for _ in 0..LONGEST {
            if !self.framer.busy() {
                break;
            }
            let octet = self.framer.octet();
            self.line.push(octet)?;
        }
        Ok(())
    }
}

//! The octets that the works go over.

ghost use Rattle.std.specs.Prelude.{◌≤◌};

use crate::fault::Fault;
use crate::sender::Sender;
use std::alloc::Global;

/// How many octets a round has.
pub const ROUND: usize = 65_000;

/// Octets in no order, the same in each run: the high octets of a linear congruence.
#[derive(Clone, Copy)]
pub struct Shuffled {
    state: u32,
}

impl Shuffled {
    /// The first is still to come.
    pub fn new() -> Shuffled {
        Shuffled { state: 1 }
    }

    /// The next octet.
    pub fn octet(&mut self) -> u8 {
        self.state = self
            .state
            .wrapping_mul(1_664_525)
            .wrapping_add(1_013_904_223);
        (self.state >> 24) as u8
    }
}

/// A round of one octet over and over.
pub fn repeated(alloc: Global, octet: u8) -> Result<Vec<u8>, Fault> {
    Ok(vec![in alloc; octet; ROUND]?)
}

/// A round of octets in no order.
pub fn in_no_order(alloc: Global) -> Result<Vec<u8>, Fault> {
    let mut shuffled = Shuffled::new();
    let mut line = Vec::with_capacity(alloc, ROUND)?;
    for _ in 0..ROUND {
        line.push(shuffled.octet())?;
    }
    Ok(line)
}

/// Information in no order.
pub fn information() -> [u8; 260] {
    let mut shuffled = Shuffled::new();
    let mut info = [0u8; 260];
    for place in 0..260 {
        info[place] = shuffled.octet();
    }
    info
}

/// A round of frames with so many octets of information in no order, one flag between them.
pub fn framed(alloc: Global, len: usize) -> Result<Vec<u8>, Fault>
    requires { len ≤ 260 }
{
    let mut sender = Sender::start(alloc, information(), len)?;
    let mut line = Vec::with_capacity(alloc, ROUND)?;
    for _ in 0..ROUND {
        line.push(sender.octet())?;
    }
    Ok(line)
}

//! A framer that always has a frame to send.
ghost use Rattle.std.specs.Prelude.{◌≡◌, ◌≤◌};

use lapd_bits::{Framer, StartFault};
use std::alloc::Global;

/// The most octets of information in a frame.
pub const N201: u16 = 260;

/// An address and a control field.
const HEAD: [u8; 4] = [0x00, 0x81, 0x02, 0x04];

/// Sends one frame after the other, without idle flags.
#[derive(Drop)]
pub struct Sender {
    framer: Framer,
    info: [u8; 260],
    /// How many octets of information each frame has.
    len: usize,
    frames: u64,
    ghost room: { framer.room ≡ 260 },
    ghost fits: { len ≤ 260 },
}

impl Sender {
    /// A sender of frames with this information.
    pub fn start(alloc: Global, info: [u8; 260], len: usize) -> Result<Sender, StartFault>
        requires fits { len ≤ 260 }
    {
        let framer = Framer::start(alloc, N201)?;
        Ok(Sender {
            framer,
            info,
            len,
            frames: 0,
        })
    }

    /// The next octet of the line.
    pub fn octet(&mut self) -> u8 {
        if !self.framer.busy() {
            self.framer.load(&HEAD, &self.info[..self.len]);
            self.frames = self.frames.wrapping_add(1);
        }
        self.framer.octet()
    }

    /// The frames begun so far.
    pub fn frames(&self) -> u64 {
        self.frames
    }

    /// The octets that the framer holds.
    pub fn held(&self) -> u32 {
        self.framer.held()
    }
}

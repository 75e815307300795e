//! What a work has done.

/// How much there was of it.
#[derive(Clone, Copy)]
pub struct Done {
    /// The octets that were gone over.
    pub octets: u64,
    /// The frames that were heard, sent or checked.
    pub frames: u64,
    /// The most octets that the worker held after a round.
    pub held: u32,
    /// The sum of the octets that came out, so that none is left out by a compiler.
    pub sum: u64,
}

impl Done {
    /// Nothing yet.
    pub fn new() -> Done {
        Done {
            octets: 0,
            frames: 0,
            held: 0,
            sum: 0,
        }
    }

    /// Counts a round.
    pub fn count(&mut self, octets: usize, frames: u64, held: u32) {
        self.octets = self.octets.saturating_add(octets as u64);
        self.frames = self.frames.saturating_add(frames);
        self.held = self.held.max(held);
    }

    /// Adds octets that came out.
    pub fn add(&mut self, sum: u64) {
        self.sum = self.sum.wrapping_add(sum);
    }
}

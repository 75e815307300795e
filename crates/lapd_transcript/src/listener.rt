//! What is told of the octets that a line takes: the octets, and the frames that are complete in them.

ghost use Rattle.std.specs.Prelude.{◌<◌, ℕ, List, ◌++◌, flat_map, OnOk};
ghost use Rattle.lapd_transcript.specs.{Hears, found, pulled_text, on, Puts, frame_text};

use crate::output::Page;
use crate::streams::{Put, Target};
use lapd_bits::Deframer;
use model_bits::Heard;

impl<T: Target> Page<'_, T> {
    /// Tells the octets that a line took, and the frames that are complete in them.
    pub fn tell(&mut self, listener: &mut Deframer, line: u16, octets: &[u8]) -> Put
        ensures told { (past : List ℕ) → Hears listener.old past
            → Puts result (on T.taken self.old) (on T.taken self.new) (pulled_text line past octets.now) }
        ensures after { OnOk result ((past : List ℕ) → Hears listener.old past → Hears listener.new (past ++ octets.now)) }
    {
        self.put_sent(line, octets)?;
        self.show_frames(listener, line, octets)
    }

    /// Tells the frames that are complete in what a line took.
    fn show_frames(&mut self, listener: &mut Deframer, line: u16, octets: &[u8]) -> Put
        ensures told { (past : List ℕ) → Hears listener.old past
            → Puts result (on T.taken self.old) (on T.taken self.new) (flat_map (frame_text line) (found past octets.now)) }
        ensures after { OnOk result ((past : List ℕ) → Hears listener.old past → Hears listener.new (past ++ octets.now)) }
    {
        for octet in octets {
            listener.step(*octet);
            if let Heard::Frame(frame) = listener.latest() {
                self.put_frame(line, frame)?;
            }
        }
        Ok(())
    }
}

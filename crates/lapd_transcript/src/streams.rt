//! What a script is read from, and what text is written to.

ghost use Rattle.std.specs.Prelude.{◌≡◌, ◌≤◌, ℕ, List, Option, length, IfOk, OnOk, OnErr};
ghost use Rattle.std.specs.Io.KnownBytes.{ReadConsumes};
ghost use Rattle.lapd_transcript.specs.Streams.{Taken, Writes, one_failure_more};

/// A read failed.
#[derive(Clone, Copy, PartialEq, Eq, Debug)]
pub struct ReadFailed;

/// A write failed.
#[derive(Clone, Copy, PartialEq, Eq, Debug)]
pub struct WriteFailed;

/// A text was written, or put onto a page: all of it; or a write failed, and a beginning has been written of what stood on
/// the page and of the text.
pub type Put = Result<(), WriteFailed>;

/// What octets are read from. It counts the reads that failed.
pub trait Source {
    /// How many reads have failed: a number of 64 bits that stays at its greatest value.
    ghost failures: { Self → ℕ };

    /// The octets that it still gives, where it tells.
    ghost remaining: { Self → Option (List ℕ) };

    /// Puts the next octets into the beginning of `buffer`, as many as it likes, and tells how many: 0 if
    /// there are no more, or where `buffer` is empty. A read that fails takes none.
    fn read(&mut self, buffer: &mut [u8]) -> Result<usize, ReadFailed>
        ensures within { IfOk result (λ count. count ≤ length buffer.new) }
        ensures steady { OnOk result (failures self.new ≡ failures self.old) }
        ensures counted { OnErr result (failures self.new ≡ one_failure_more (failures self.old)) }
        ensures octets { ReadConsumes (remaining self.old) (remaining self.new) result buffer.new };
}

/// What octets are written to. It counts the writes that failed.
pub trait Target {
    /// What it has taken, where it tells, and how many writes have failed.
    ghost taken: { Self → Taken };

    /// Writes all of `octets`. After a failure a beginning of them may have been written.
    fn write(&mut self, octets: &[u8]) -> Put
        ensures { Writes result (taken self.old) (taken self.new) octets.now };
}

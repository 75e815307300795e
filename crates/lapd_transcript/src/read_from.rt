//! A reader of std as a source.

ghost use Rattle.std.specs.Prelude.{◌≡◌, ◌≤◌, length, IfOk};
ghost use Rattle.std.specs.Io.KnownBytes.{ReadConsumes};

use crate::streams::{ReadFailed, Source};
use std::io;

/// A reader of std as a [`Source`], which tells what the reader tells. A read that was interrupted is tried again, as
/// std does.
#[derive(Drop)]
pub struct ReadFrom<R> {
    reader: R,
    failures: u64,
}

impl<R: io::Read> ReadFrom<R> {
    /// A source of what `reader` gives.
    pub fn new(reader: R) -> ReadFrom<R>
        ensures failures { ⟦<ReadFrom<R> as Source>⟧.failures result ≡ 0 }
        ensures remaining { ⟦<ReadFrom<R> as Source>⟧.remaining result ≡ R.remaining reader }
    {
        ReadFrom {
            reader,
            failures: 0,
        }
    }

    fn read_once(&mut self, buffer: &mut [u8]) -> io::Result<usize>
        ensures within { IfOk result (λ count. count ≤ length buffer.new) }
        ensures steady { self.new.failures ≡ self.old.failures }
        ensures octets { ReadConsumes (R.remaining self.old.reader) (R.remaining self.new.reader) result buffer.new }
    {
        for _ in 0..u64::MAX {
            match self.reader.read(buffer) {
                Err(error) if error.kind() == io::ErrorKind::Interrupted => {}
                answer => return answer,
            }
        }
        Err(io::Error::from(io::ErrorKind::Interrupted))
    }
}

impl<R: io::Read> Source for ReadFrom<R> {
    ghost failures = { λ source. source.failures };

    ghost remaining = { λ source. R.remaining source.reader };

    fn read(&mut self, buffer: &mut [u8]) -> Result<usize, ReadFailed> {
        match self.read_once(buffer) {
            Ok(count) => Ok(count),
            Err(_) => {
                self.failures = self.failures.saturating_add(1);
                Err(ReadFailed)
            }
        }
    }
}

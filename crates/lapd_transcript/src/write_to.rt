//! A writer of std as a target.

ghost use Rattle.std.specs.Prelude.{◌≡◌, ◌≤◌, ℕ, false, length, take, IfOk, OnOk, OnErr};
ghost use Rattle.std.specs.Io.KnownBytes.{Appends, WriteAppends};

use crate::streams::{Target, WriteFailed};
use std::io;

/// A writer of std as a [`Target`], which tells what the writer tells. A write that takes no octet is a failure; one
/// that was interrupted is tried again, as std does. Each write is flushed.
#[derive(Drop)]
pub struct WriteTo<W> {
    writer: W,
    failures: u64,
}

impl<W: io::Write> WriteTo<W> {
    /// A target that hands on to `writer`.
    pub fn new(writer: W) -> WriteTo<W>
        ensures { ⟦<WriteTo<W> as Target>⟧.taken result ≡ record { contents = W.contents writer; failures = 0; leaves_out = false } }
    {
        WriteTo {
            writer,
            failures: 0,
        }
    }

    /// Hands on some of `octets`.
    fn write_once(&mut self, octets: &[u8]) -> io::Result<usize>
        ensures within { IfOk result (λ count. count ≤ length octets.now) }
        ensures steady { self.new.failures ≡ self.old.failures }
        ensures octets { WriteAppends (W.contents self.old.writer) (W.contents self.new.writer) result octets.now }
    {
        for _ in 0..u64::MAX {
            match self.writer.write(octets) {
                Err(error) if error.kind() == io::ErrorKind::Interrupted => {}
                answer => return answer,
            }
        }
        Err(io::Error::from(io::ErrorKind::Interrupted))
    }

    /// Hands on all of `octets`, and flushes.
    fn write_whole(&mut self, octets: &[u8]) -> io::Result<()>
        ensures whole { OnOk result (Appends (W.contents self.old.writer) (W.contents self.new.writer) octets.now) }
        ensures begun { OnErr result ((n : ℕ) × Appends (W.contents self.old.writer) (W.contents self.new.writer) (take n octets.now)) }
        ensures steady { self.new.failures ≡ self.old.failures }
    {
        let mut rest = octets;
        while !rest.is_empty() {
            match self.write_once(rest) {
                Ok(0) => return Err(io::Error::from(io::ErrorKind::WriteZero)),
                Ok(count) => rest = &rest[count..],
                Err(error) => return Err(error),
            }
        }
        self.writer.flush()
    }
}

impl<W: io::Write> Target for WriteTo<W> {
    ghost taken = { λ target. record { contents = W.contents target.writer; failures = target.failures; leaves_out = false } };

    fn write(&mut self, octets: &[u8]) -> Result<(), WriteFailed> {
        if self.write_whole(octets).is_ok() {
            return Ok(());
        }
        self.failures = self.failures.saturating_add(1);
        Err(WriteFailed)
    }
}

//! A writer that keeps what it is given is flushed after each write.

use lapd_transcript::{Target, WriteFailed, WriteTo};
use std::io::{Error, ErrorKind, Result, Write};

/// Takes everything. Its second flush fails.
#[derive(Drop)]
struct Buffered {
    flushes: u8,
}

impl Write for Buffered {
    fn write(&mut self, buf: &[u8]) -> Result<usize> {
        Ok(buf.len())
    }

    fn flush(&mut self) -> Result<()> {
        self.flushes = self.flushes.saturating_add(1);
        if self.flushes == 2 {
            return Err(Error::from(ErrorKind::BrokenPipe));
        }
        Ok(())
    }
}

#[test]
fn each_write_is_flushed(rt: HostRuntime) {
    let mut target = WriteTo::new(Buffered { flushes: 0 });
    for answer in [Ok(()), Err(WriteFailed), Ok(())] {
        assert!(rt; target.write(b"a") == answer);
    }
}

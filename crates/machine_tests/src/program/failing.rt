//! A reader that fails.
ghost use Rattle.std.specs.Prelude.{◌≡◌};

use std::io;
use std::io::{ErrorKind, Read};

/// A reader that gives one byte per read. The read with the number `fails_at` fails; the first one has number 0. After
/// the last byte one more read finds the end. A read that failed fails again.
#[derive(Drop)]
pub struct FailingReader<'a> {
    bytes: &'a [u8],
    reads: usize,
    fails_at: usize,
}

impl<'a> Read for FailingReader<'a> {
    fn read(&mut self, buf: &mut [u8]) -> io::Result<usize> {
        if self.reads == self.fails_at {
            return Err(io::Error::from(ErrorKind::Interrupted));
        }
        self.reads = self.reads.saturating_add(1);
        let rest = self.bytes;
        if buf.is_empty() || rest.is_empty() {
            return Ok(0);
        }
        buf[0] = rest[0];
        self.bytes = &rest[1..];
        Ok(1)
    }
}

/// A reader of the bytes of a text.
pub fn failing(text: &str, fails_at: usize) -> FailingReader<'_>
    ensures { (result.reads ≡ 0) × (result.fails_at ≡ fails_at) }
{
    FailingReader {
        bytes: text.as_bytes(),
        reads: 0,
        fails_at,
    }
}

//! A reader and a writer that fail.
ghost use Rattle.std.specs.Prelude.{◌≡◌};

use std::io;
use std::io::{ErrorKind, Read, Write};

/// A reader that gives one byte per read. The read with the number `fails_at` fails; the first one has number 0. After
/// the last byte one more read finds the end.
#[derive(Drop)]
pub struct FailingReader<'a> {
    bytes: &'a [u8],
    reads: usize,
    fails_at: usize,
}

impl<'a> Read for FailingReader<'a> {
    fn read(&mut self, buf: &mut [u8]) -> io::Result<usize> {
        if self.reads == self.fails_at {
            return Err(io::Error::from(ErrorKind::Interrupted));
        }
        self.reads = self.reads.saturating_add(1);
        let rest = self.bytes;
        if buf.is_empty() || rest.is_empty() {
            return Ok(0);
        }
        buf[0] = rest[0];
        self.bytes = &rest[1..];
        Ok(1)
    }
}

/// A reader of the bytes.
pub fn failing(bytes: &[u8], fails_at: usize) -> FailingReader<'_>
    ensures { (result.reads ≡ 0) × (result.fails_at ≡ fails_at) }
{
    FailingReader {
        bytes,
        reads: 0,
        fails_at,
    }
}

/// A writer that takes two bytes per write. The write with the number `fails_at` fails; the first one has number 0.
#[derive(Drop)]
pub struct FailingWriter {
    held: Vec<u8>,
    writes: usize,
    fails_at: usize,
}

impl Write for FailingWriter {
    fn write(&mut self, buf: &[u8]) -> io::Result<usize> {
        if self.writes == self.fails_at {
            return Err(io::Error::from(ErrorKind::BrokenPipe));
        }
        self.writes = self.writes.saturating_add(1);
        let count = buf.len().min(2);
        if self.held.extend_from_slice(&buf[..count]).is_err() {
            return Err(io::Error::from(ErrorKind::OutOfMemory));
        }
        Ok(count)
    }

    fn flush(&mut self) -> io::Result<()> {
        Ok(())
    }
}

impl FailingWriter {
    /// A writer that appends what it takes to these bytes.
    pub fn new(held: Vec<u8>, fails_at: usize) -> FailingWriter
        ensures { (result.held ≡ held) × (result.writes ≡ 0) × (result.fails_at ≡ fails_at) }
    {
        FailingWriter {
            held,
            writes: 0,
            fails_at,
        }
    }

    /// All that it took.
    pub fn held(&self) -> &[u8]
        ensures { result.now ≡ self.now.held.items }
    {
        self.held.as_slice()
    }
}

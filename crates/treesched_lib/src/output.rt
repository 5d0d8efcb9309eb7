//! A writer that counts its failed writes, and the writing of all bytes.
ghost use Rattle.std.specs.Prelude.{◌≡◌, ◌+◌, ◌-◌, ◌<◌, ◌^◌, length, IfOk, OnOk};
ghost use Rattle.std.specs.Io.{WritesAtMost};
ghost use Rattle.std.specs.Io.KnownBytes.{Appends, WriteAppends};
ghost use Rattle.treesched_lib.specs.Devices.{BeginningWentOut, failed_writes};

use std::io;
use std::io::Write;

/// Why not all bytes went out.
#[derive(Debug, Drop)]
pub enum WriteFault {
    /// A write failed.
    Failed(io::Error),
    /// A write of some bytes took none.
    TookNone,
}

/// A writer that counts the writes that failed, or took none of some bytes.
#[derive(Drop)]
pub struct CountedWriter<W> {
    writer: W,
    failures: u64,
}

impl<W: Write> CountedWriter<W> {
    /// Wraps a writer. No write has failed yet.
    pub fn new(writer: W) -> CountedWriter<W>
        ensures { (result.writer ≡ writer) × (result.failures ≡ 0) }
    {
        CountedWriter {
            writer,
            failures: 0,
        }
    }

    // Writes some bytes once. The write is counted if it fails or takes no byte.
    fn write(&mut self, bytes: &[u8]) -> Result<usize, WriteFault>
        requires countable { self.old.failures < 2 ^ 64 - 1 }
        requires some { 0 < length bytes.now }
        ensures bound { WritesAtMost result bytes.now }
        ensures some { IfOk result (λ count. 0 < count) }
        ensures bytes { WriteAppends (W.contents self.old.writer) (W.contents self.new.writer)
            result bytes.now }
        ensures count { self.new.failures ≡ self.old.failures + failed_writes result }
    {
        let fault = match self.writer.write(bytes) {
            Ok(0) => WriteFault::TookNone,
            Ok(count) => return Ok(count),
            Err(error) => WriteFault::Failed(error),
        };
        self.failures += 1;
        Err(fault)
    }
}

/// Writes the bytes in order, and retries no write. What went out is a beginning of them. Returns a fault exactly where
/// a write failed or took no byte, as the writer counts it.
pub fn put_all<W: Write>(writer: &mut CountedWriter<W>, bytes: &[u8]) -> Result<(), WriteFault>
    requires { writer.old.failures < 2 ^ 64 - 1 }
    ensures all { OnOk result (Appends (W.contents writer.old.writer) (W.contents writer.new.writer) bytes.now) }
    ensures beginning { BeginningWentOut (W.contents writer.old.writer) (W.contents writer.new.writer) bytes.now }
    ensures count { writer.new.failures ≡ writer.old.failures + failed_writes result }
{
    let mut rest = bytes;
    for _ in 0..bytes.len() {
        if rest.is_empty() {
            return Ok(());
        }
        let count = writer.write(rest)?;
        rest = &rest[count..];
    }
    Ok(())
}

//! A reader that counts its failed reads, and the reading of all its bytes.
ghost use Rattle.std.specs.Prelude.{◌≡◌, ◌+◌, ◌-◌, ◌<◌, ◌^◌, IfOk, OnOk};
ghost use Rattle.std.specs.Io.{ReadsAtMost};
ghost use Rattle.std.specs.Io.KnownBytes.{Consumes, IsAtEnd, ReadConsumes};
ghost use Rattle.sched_program.specs.Loading.{failed_reads};
ghost use Rattle.sched_program.specs.declared.counted.ReadFault.TheVariants.{OutOfMemory};

use std::alloc::{AllocError, Global};
use std::io::Read;
use thiserror::Error;

/// The most bytes that one read takes.
const CHUNK: usize = 4096;

/// Why not all bytes were read.
#[derive(Clone, Copy, Debug, PartialEq, Eq, Error)]
pub enum ReadFault {
    /// A read failed.
    #[error("a read failed")]
    Device,
    /// A growth was refused.
    #[error("out of memory")]
    OutOfMemory,
}

impl From<AllocError> for ReadFault {
    ghost from_gives = { λ _ e. e ≡ OutOfMemory };

    fn from(_error: AllocError) -> ReadFault {
        ReadFault::OutOfMemory
    }
}

/// A reader that counts its failed reads, so that whoever lends it sees whether one failed.
#[derive(Drop)]
pub struct Counted<R> {
    reader: R,
    failures: u64,
}

impl<R: Read> Counted<R> {
    /// Wraps a reader, with no failed read counted yet.
    pub fn new(reader: R) -> Counted<R>
        ensures { (result.reader ≡ reader) × (result.failures ≡ 0) }
    {
        Counted {
            reader,
            failures: 0,
        }
    }

    /// How many of its reads failed.
    pub fn failures(&self) -> u64
        ensures { result ≡ self.now.failures }
    {
        self.failures
    }

    // One read, which is counted where it fails.
    fn read(&mut self, buf: &mut [u8]) -> Result<usize, ReadFault>
        requires { self.old.failures < 2 ^ 64 - 1 }
        ensures bound { ReadsAtMost result buf.new }
        ensures bytes { ReadConsumes (R.remaining self.old.reader) (R.remaining self.new.reader)
            result buf.new }
        ensures count { self.new.failures ≡ self.old.failures + failed_reads result }
    {
        match self.reader.read(buf) {
            Ok(n) => Ok(n),
            Err(_) => {
                self.failures += 1;
                Err(ReadFault::Device)
            }
        }
    }

    /// All bytes from the reader's position to its end.
    ///
    /// # Errors
    ///
    /// `Device` exactly where a read failed, which is counted and ends the call, whatever its cause: a read that was
    /// interrupted is not tried again. `OutOfMemory` where a growth was refused. Bytes that were read already are lost.
    pub fn read_all(&mut self, alloc: Global) -> Result<Vec<u8>, ReadFault>
        requires { self.old.failures < 2 ^ 64 - 1 }
        ensures bytes { IfOk result (λ bytes. Consumes (R.remaining self.old.reader)
            (R.remaining self.new.reader) bytes.items) }
        ensures end { OnOk result (IsAtEnd (R.remaining self.new.reader)) }
        ensures count { self.new.failures ≡ self.old.failures + failed_reads result }
    {
        let mut bytes = Vec::new(alloc);
        let mut chunk = [0u8; CHUNK];
        for _ in 0..u64::MAX {
            let count = self.read(&mut chunk)?;
            if count == 0 {
                return Ok(bytes);
            }
            bytes.extend_from_slice(&chunk[..count])?;
        }
        // No vector has `u64::MAX` bytes.
        Err(ReadFault::OutOfMemory)
    }
}

//! Programs out of readers.
ghost use Rattle.std.specs.Prelude.{◌≡◌, ◌+◌, ◌-◌, ◌<◌, ◌^◌};
ghost use Rattle.sched_program.specs.Loading.{AnswersAllRead, failed_loads};

use crate::OutOfMemory;
use crate::counted::{Counted, ReadFault};
use crate::fault::ProgramFault;
use crate::program::Program;
use std::alloc::Global;
use std::io::Read;
use thiserror::Error;

/// Why a reader gives no program.
#[derive(Clone, Copy, Debug, PartialEq, Eq, Error)]
pub enum LoadFault {
    /// A read failed. Reported before any fault of the text.
    #[error("a read failed")]
    Device,
    /// All was read, and it is no program; or a growth was refused.
    #[error("{0}")]
    Program(#[from] ProgramFault),
}

impl From<ReadFault> for LoadFault {
    ghost use Rattle.sched_program.specs.Loading.{load_fault};

    ghost from_gives = { λ fault e. e ≡ load_fault fault };

    fn from(fault: ReadFault) -> LoadFault {
        match fault {
            ReadFault::Device => LoadFault::Device,
            ReadFault::OutOfMemory => LoadFault::Program(ProgramFault::from(OutOfMemory)),
        }
    }
}

impl Program {
    /// The program that all the bytes of a reader describe, from its position to its end, as [`Program::from_json`]
    /// reads them.
    ///
    /// # Errors
    ///
    /// `Device` exactly where a read failed, which the reader counts and which ends the call, whatever the failure: a
    /// read that was interrupted is not tried again. Else the fault of the bytes, or the fault `OutOfMemory` where a
    /// growth was refused. Bytes that were read already are lost.
    pub fn from_reader<R: Read>(
        alloc: Global,
        reader: &mut Counted<R>,
    ) -> Result<Program, LoadFault>
        requires { reader.old.failures < 2 ^ 64 - 1 }
        ensures count { reader.new.failures ≡ reader.old.failures + failed_loads result }
        ensures read { AnswersAllRead (R.remaining reader.old.reader) (R.remaining reader.new.reader) result }
    {
        let text = reader.read_all(alloc)?;
        match Program::from_json(alloc, text.as_slice()) {
            Ok(program) => Ok(program),
            Err(fault) => Err(LoadFault::Program(fault)),
        }
    }
}

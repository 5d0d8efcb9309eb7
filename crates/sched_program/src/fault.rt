//! Why a text is no program.
ghost use Rattle.std.specs.Prelude.{◌≡◌};

use crate::OutOfMemory;
use thiserror::Error;

/// Why a text is no program. The faults are tested one after the other, in this order and each over the whole text, and
/// the first one found is reported. Shown as its number and name.
#[derive(Clone, Copy, Debug, PartialEq, Eq, Error)]
pub enum ProgramFault {
    /// The bytes are no JSON text, nest deeper than 127, or are not UTF-8.
    #[error("P1 NotJson")]
    NotJson,
    /// The value is no object.
    #[error("P2 NotObject")]
    NotObject,
    /// `version` is absent or not 1 or 2.
    #[error("P3 Version")]
    Version,
    /// `tree` is absent or not one of the names.
    #[error("P4 Tree")]
    Tree,
    /// `initial` is absent, no list, longer than 12, or has an item that is no key.
    #[error("P5 Initial")]
    Initial,
    /// A key is in `initial` twice.
    #[error("P6 InitialTwice")]
    InitialTwice,
    /// `threads` is absent, no list, or has not 1 to 4 items.
    #[error("P7 Threads")]
    Threads,
    /// A thread is no list, has not 1 to 6 items, or all have more than 12.
    #[error("P8 Ops")]
    Ops,
    /// An operation is no object, or its `op` is absent or no known word.
    #[error("P9 Op")]
    Op,
    /// An operation's `key` is absent or no key.
    #[error("P10 Key")]
    Key,
    /// A growth was refused. It may come at any point.
    #[error("P11 OutOfMemory")]
    OutOfMemory,
    /// In version 2, an operation's `after` is no list of two numbers, or names no thread before its own, or not 1 up
    /// to all of that thread's operations.
    #[error("P12 After")]
    After,
}

impl From<OutOfMemory> for ProgramFault {
    ghost use Rattle.sched_program.specs.declared.fault.ProgramFault.TheVariants as fault;

    ghost from_gives = { λ _ e. e ≡ fault.OutOfMemory };

    fn from(_refused: OutOfMemory) -> ProgramFault {
        ProgramFault::OutOfMemory
    }
}

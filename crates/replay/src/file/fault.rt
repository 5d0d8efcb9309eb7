//! Why a book file is refused.
ghost use Rattle.std.specs.Prelude.{◌≡◌};

use sched_program::OutOfMemory;
use thiserror::Error;

/// Why a book file is refused; each but the last with the number of a line, counted from 1. Shown as its number with
/// the line. The form is tested over the whole file; then the others for each entry in turn, in this order, but for the
/// open steps, which are looked for last.
#[derive(Clone, Copy, Debug, PartialEq, Eq, Error)]
pub enum CheckFault {
    /// The line is not in the form.
    #[error("C1 at line {0}")]
    Form(usize),
    /// The parent's number is not below the entry's own.
    #[error("C2 at line {0}")]
    Parent(usize),
    /// The thread is not enabled in the parent's state.
    #[error("C3 at line {0}")]
    Step(usize),
    /// The state is astray or breaks search order.
    #[error("C4 at line {0}")]
    Fault(usize),
    /// The order is no linearization of the state's history.
    #[error("C5 at line {0}")]
    History(usize),
    /// An enabled step of the state is alike to no entry's state.
    #[error("C6 at line {0}")]
    Open(usize),
    /// A growth was refused. It may come at any point.
    #[error("C7")]
    OutOfMemory,
}

impl From<OutOfMemory> for CheckFault {
    ghost use Rattle.replay.specs.declared.file.fault.CheckFault.TheVariants as fault;

    ghost from_gives = { λ _ e. e ≡ fault.OutOfMemory };

    fn from(_refused: OutOfMemory) -> CheckFault {
        CheckFault::OutOfMemory
    }
}

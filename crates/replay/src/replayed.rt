//! What a replay returns.
ghost use Rattle.std.specs.Prelude.{◌≡◌};

use crate::finding::Finding;
use sched_program::OutOfMemory;
use tree_machine::{Encode, State};

/// The state that a schedule reaches, with its finding.
#[derive(Drop)]
pub struct Replay<M: Encode> {
    /// The last state.
    pub state: State<M>,
    /// What was found of it.
    pub finding: Finding,
}

/// Why a schedule was not replayed.
#[derive(Clone, Copy, Debug, PartialEq, Eq)]
pub enum ReplayFault {
    /// The thread of this step, counted from 1, was not enabled, or is no thread.
    NotEnabled(usize),
    /// A growth was refused.
    OutOfMemory,
}

impl From<OutOfMemory> for ReplayFault {
    ghost use Rattle.replay.specs.declared.replayed.ReplayFault.TheVariants as fault;

    ghost from_gives = { λ _ e. e ≡ fault.OutOfMemory };

    fn from(_refused: OutOfMemory) -> ReplayFault {
        ReplayFault::OutOfMemory
    }
}

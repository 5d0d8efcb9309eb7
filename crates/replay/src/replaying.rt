//! The replay of a schedule, without a book.
ghost use Rattle.std.specs.Prelude.{◌≡◌, ◌+◌, ◌<◌, IfOk, IfErr, IsSome, Some};
ghost use Rattle.tree_machine.specs.Step.{Fits};
ghost use Rattle.replay.specs.Schedule.{after};
ghost use Rattle.replay.specs.Findings.{machine_of, IsFindingOf};
ghost use Rattle.replay.specs.Replay.{StopsAt};

use crate::finding::find;
use crate::replayed::{Replay, ReplayFault};
use sched_program::{OutOfMemory, Program};
use std::alloc::Global;
use tree_machine::{Encode, State, StepFault};

/// The state after a schedule, with its finding. A refusal names the first step whose thread is not enabled.
pub fn replay<M: Encode>(
    alloc: Global,
    machine: M,
    program: &Program,
    schedule: &[u8],
) -> Result<Replay<M>, ReplayFault>
    ensures state { IfOk result (λ r. after (machine_of (M.rules machine) program.now) schedule.now ≡ Some r.state) }
    ensures finding { IfOk result (λ r. IsFindingOf (M.rules machine) program.now r.state r.finding) }
    ensures fits { IfOk result (λ r. Fits (M.rules machine) program.now r.state) }
    ensures not_enabled { IfErr result
        (StopsAt (machine_of {Machine = M} {Form = M.Form} (M.rules machine) program.now) schedule.now) }
{
    let mut state = State::start(alloc, machine, program)?;
    for (i, t) in schedule.iter().enumerate() {
        state = match state.step(alloc, machine, program, *t) {
            Ok(next) => next,
            Err(StepFault::NotEnabled) => return Err(ReplayFault::NotEnabled(i + 1)),
            Err(StepFault::OutOfMemory) => return Err(ReplayFault::OutOfMemory),
        };
    }
    let finding = find(alloc, machine, program, &state)?;
    Ok(Replay { state, finding })
}

/// The state after a schedule whose threads are enabled in their turns.
pub fn state_after<M: Encode>(
    alloc: Global,
    machine: M,
    program: &Program,
    schedule: &[u8],
) -> Result<State<M>, OutOfMemory>
    requires leads { IsSome
        (after (machine_of {Machine = M} {Form = M.Form} (M.rules machine) program.now) schedule.now) }
    ensures state { IfOk result (λ s. after (machine_of (M.rules machine) program.now) schedule.now ≡ Some s) }
    ensures fits { IfOk result (Fits (M.rules machine) program.now) }
{
    match replay(alloc, machine, program, schedule) {
        Ok(end) => Ok(end.state),
        Err(ReplayFault::OutOfMemory) => Err(OutOfMemory),
        Err(ReplayFault::NotEnabled(_)) => unreachable!(),
    }
}

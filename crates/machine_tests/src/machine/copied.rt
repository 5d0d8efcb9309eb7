//! Steps of the machine `Atomic`: their labels, copied from those of the states before them, and steps that are taken
//! back.
ghost use Rattle.tree_machine.specs.Atomic.{atomic_rules};
ghost use Rattle.tree_machine.specs.Step.{Fits};

use crate::machine::broken::{Broken, Case, ensure};
use crate::machine::labels::{Labelling, NAMINGS, Scratch, is_read_after, is_step_labelled};
use crate::machine::states::{after, two_inserts};
use sched_program::Program;
use std::alloc::Global;
use std::snapshot::Snapshot;
use tree_machine::{Atomic, State, Undo};

/// A schedule, and the thread whose step comes then.
struct Row {
    case: Case,
    schedule: &'static [u8],
    thread: u8,
}

/// The first insert adds its key. The second finds it there and leaves the keys as they are.
const ROWS: &[Row] = &[
    Row {
        case: Case::AStepOfTheFirst,
        schedule: &[],
        thread: 0,
    },
    Row {
        case: Case::AStepOfTheSecond,
        schedule: &[],
        thread: 1,
    },
    Row {
        case: Case::TheFirstBeforeTheSecond,
        schedule: &[0],
        thread: 1,
    },
    Row {
        case: Case::TheSecondBeforeTheFirst,
        schedule: &[1],
        thread: 0,
    },
];

/// The label of the state after a step of a thread, copied from that of the state before it, equals the one written in
/// full, by both namings. That state is also read back in the place of the one before it.
fn is_copied(
    alloc: Global,
    program: &Program,
    state: &State<Atomic>,
    thread: u8,
    case: Case,
) -> Result<(), Broken>
    requires { Fits atomic_rules program.now state.now }
{
    if state.steps() >= 100 {
        return Err(Broken::NotEnabled);
    }
    let next = state.step(alloc, Atomic, program, thread)?;
    let mut scratch = Scratch::with(alloc, State::start(alloc, Atomic, program)?);
    for naming in NAMINGS {
        let how = Labelling {
            machine: Atomic,
            program,
            naming,
        };
        ensure(
            is_step_labelled(alloc, &how, state, thread, &mut scratch)?,
            case,
        )?;
        ensure(
            is_read_after(alloc, &how, state, &next, &mut scratch)?,
            case,
        )?;
    }
    Ok(())
}

/// A step made in place reaches the state that `step` reaches, and taking it back restores what was there.
fn is_taken_back(
    alloc: Global,
    program: &Program,
    state: &State<Atomic>,
    thread: u8,
    case: Case,
) -> Result<(), Broken>
    requires { Fits atomic_rules program.now state.now }
{
    if state.steps() >= 100 {
        return Err(Broken::NotEnabled);
    }
    let next = state.step(alloc, Atomic, program, thread)?;
    let mut here = state.copy(alloc, Atomic)?;
    let source = Snapshot::of(&here);
    let mut undo = Undo::new();
    here.step_here(alloc, Atomic, program, thread, &mut undo)?;
    let is_memory_kept = undo.reads() == (next.memory() == state.memory());
    ensure(here == next && is_memory_kept, case)?;
    here.take_back(&source, thread, &mut undo);
    ensure(here == *state, case)
}

/// Both hold for the step of each row.
fn are_copied(alloc: Global) -> Result<(), Broken> {
    let program = two_inserts(alloc)?;
    for row in ROWS {
        let state = after(alloc, &program, row.schedule)?;
        is_copied(alloc, &program, &state, row.thread, row.case)?;
        is_taken_back(alloc, &program, &state, row.thread, row.case)?;
    }
    Ok(())
}

#[test]
fn steps_are_copied(rt: HostRuntime) -> Result<(), Broken> {
    match are_copied(rt.alloc()) {
        Ok(()) => Ok(()),
        Err(_) => are_copied(rt.alloc()),
    }
}

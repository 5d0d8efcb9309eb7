//! Each state along a schedule, read back from its label into a state that was another one before, and the labels of
//! its steps.
ghost use Rattle.tree_machine.specs.Step.{Fits};
ghost use Rattle.ellen.specs.EllenRules.{ellen_rules};

use crate::machine::labels::{
    Labelling, Scratch, StepKinds, beginnings_read, is_read_after, is_read_back, is_step_labelled,
    label_of, most_beginnings,
};
use crate::on_ellen::states::{next, program_of, start};
use crate::on_ellen::transcript::thread_of;
use ellen::Ellen;
use sched_program::OutOfMemory;
use std::alloc::Global;
use tree_machine::{Naming, State, StepFault};

/// Whether a state is read back from its label, and from no more beginnings of it than may be read.
fn is_code_read(
    alloc: Global,
    how: &Labelling<'_, Ellen>,
    state: &State<Ellen>,
    scratch: &mut Scratch<Ellen>,
) -> Result<bool, OutOfMemory>
    requires { Fits (ellen_rules how.now.machine) how.now.program.now state.now }
{
    let is_read = is_read_back(alloc, how, state, scratch)?;
    let label = label_of(alloc, how, state, &mut scratch.buffer)?;
    let beginnings = beginnings_read(alloc, how.machine, label.as_slice(), &mut scratch.shell)?;
    Ok(is_read && beginnings <= most_beginnings(how.naming))
}

/// What is looked at of each state along a schedule.
#[derive(Clone, Copy)]
pub enum Look {
    /// It is read from its label, but from no beginning of that which may not be read, into the one that was read
    /// before.
    Read,
    /// It is read where the one before it was read.
    ReadAfter,
    /// The labels of its steps are copied from its own.
    Steps,
}

/// Whether the labels of the steps of four threads, as far as they have one, are copied from that of the state.
fn are_steps_labelled(
    alloc: Global,
    how: &Labelling<'_, Ellen>,
    state: &State<Ellen>,
    scratch: &mut Scratch<Ellen>,
) -> Result<bool, StepFault>
    requires { Fits (ellen_rules how.now.machine) how.now.program.now state.now }
{
    for thread in 0..4 {
        if state.enabled(how.program, thread) {
            if !is_step_labelled(alloc, how, state, thread, scratch)? {
                return Ok(false);
            }
        }
    }
    Ok(true)
}

/// Whether a state is right, or the next one.
fn is_right(
    alloc: Global,
    how: &Labelling<'_, Ellen>,
    look: Look,
    state: &State<Ellen>,
    next: &State<Ellen>,
    scratch: &mut Scratch<Ellen>,
) -> Result<bool, StepFault>
    requires state { Fits (ellen_rules how.now.machine) how.now.program.now state.now }
    requires next { Fits (ellen_rules how.now.machine) how.now.program.now next.now }
{
    match look {
        Look::Read => Ok(is_code_read(alloc, how, next, scratch)?),
        Look::ReadAfter => Ok(is_read_after(alloc, how, state, next, scratch)?),
        Look::Steps => are_steps_labelled(alloc, how, state, scratch),
    }
}

/// What a look at the states along a schedule has found.
#[derive(Clone, Copy)]
pub enum Found {
    /// The state after this number of steps is not right.
    Lost(u64),
    /// All are right, and steps of these kinds were labelled.
    Right(StepKinds),
}

/// Looks at each state along a schedule, in which each step is the first byte of a line.
fn look_along(
    alloc: Global,
    how: &Labelling<'_, Ellen>,
    look: Look,
    lines: &str,
) -> Result<Found, StepFault> {
    let mut scratch = Scratch::with(alloc, State::start(alloc, how.machine, how.program)?);
    let mut state = start(alloc, how.machine, how.program)?;
    for line in lines.lines() {
        let after = next(alloc, how.machine, how.program, &state, thread_of(line)?)?;
        if !is_right(alloc, how, look, &state, &after, &mut scratch)? {
            return Ok(Found::Lost(after.steps()));
        }
        state = after;
    }
    Ok(Found::Right(scratch.kinds))
}

/// Looks at each state along a schedule of the program of a text.
pub fn looked(
    alloc: Global,
    machine: Ellen,
    naming: Naming,
    look: Look,
    text: &str,
    lines: &str,
) -> Result<Found, StepFault> {
    let program = program_of(alloc, text)?;
    let how = Labelling {
        machine,
        program: &program,
        naming,
    };
    look_along(alloc, &how, look, lines)
}

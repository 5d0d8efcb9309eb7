//! States of the machine that runs a program, each in a box: dropping it takes one call, and not one for each of its
//! lists.
ghost use Rattle.std.specs.Prelude.{◌≡◌, IfOk};
ghost use Rattle.tree_machine.specs.Step.{Fits};
ghost use Rattle.ellen.specs.EllenRules.{ellen_rules};

use ellen::Ellen;
use sched_program::{OutOfMemory, Program, ProgramFault};
use std::alloc::Global;
use tree_machine::{State, StepFault};

/// The program of a text.
pub fn program_of(alloc: Global, text: &str) -> Result<Box<Program>, StepFault> {
    match Program::from_json(alloc, text.as_bytes()) {
        Ok(program) => Ok(boxed_program(alloc, program)?),
        Err(ProgramFault::OutOfMemory) => Err(StepFault::OutOfMemory),
        Err(_) => Err(StepFault::NotEnabled),
    }
}

fn boxed_program(alloc: Global, program: Program) -> Result<Box<Program>, OutOfMemory> {
    Ok(Box::new(alloc, program)?)
}

fn boxed(alloc: Global, state: State<Ellen>) -> Result<Box<State<Ellen>>, OutOfMemory>
    ensures { IfOk result (λ boxed. boxed.value ≡ state) }
{
    Ok(Box::new(alloc, state)?)
}

/// The state before the first step.
pub fn start(
    alloc: Global,
    machine: Ellen,
    program: &Program,
) -> Result<Box<State<Ellen>>, StepFault>
    ensures { IfOk result (λ state. Fits (ellen_rules machine) program.now state.value) }
{
    Ok(boxed(alloc, State::start(alloc, machine, program)?)?)
}

/// The state after one more step, of this thread.
pub fn next(
    alloc: Global,
    machine: Ellen,
    program: &Program,
    state: &State<Ellen>,
    thread: u8,
) -> Result<Box<State<Ellen>>, StepFault>
    requires { Fits (ellen_rules machine) program.now state.now }
    ensures { IfOk result (λ next. Fits (ellen_rules machine) program.now next.value) }
{
    // No test takes as many steps.
    if state.steps() > 1000 {
        return Err(StepFault::NotEnabled);
    }
    Ok(boxed(alloc, state.step(alloc, machine, program, thread)?)?)
}

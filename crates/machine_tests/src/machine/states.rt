//! States of the machine `Atomic` that runs a program.
//!
//! A state, a form and a program come in a box each: dropping one takes one call, and not one for each of its lists.
ghost use Rattle.std.specs.Prelude.{◌≡◌, IfOk};
ghost use Rattle.tree_machine.specs.Atomic.{atomic_rules};
ghost use Rattle.tree_machine.specs.Step.{Fits};

use crate::machine::broken::{Broken, Case, ensure};
use sched_program::{OutOfMemory, Program};
use std::alloc::Global;
use tree_machine::{Atomic, State, StateForm};

/// Two threads that each insert 1.
const TWO_INSERTS: &str =
    r#"{"version":1,"tree":"atomic","initial":[],"threads":[[{"op":"insert","key":1}],[{"op":"insert","key":1}]]}"#;

/// The program of the two inserts.
pub fn two_inserts(alloc: Global) -> Result<Box<Program>, Broken> {
    match Box::new(alloc, Program::from_json(alloc, TWO_INSERTS.as_bytes())?) {
        Ok(program) => Ok(program),
        Err(_) => Err(Broken::OutOfMemory),
    }
}

/// A state in a box.
fn boxed(alloc: Global, state: State<Atomic>) -> Result<Box<State<Atomic>>, Broken>
    ensures { IfOk result (λ boxed. boxed.value ≡ state) }
{
    match Box::new(alloc, state) {
        Ok(boxed) => Ok(boxed),
        Err(_) => Err(Broken::OutOfMemory),
    }
}

/// The state before the first step.
fn start(alloc: Global, program: &Program) -> Result<Box<State<Atomic>>, Broken>
    ensures { IfOk result (λ state. Fits atomic_rules program.now state.value) }
{
    boxed(alloc, State::start(alloc, Atomic, program)?)
}

/// The state after one more step, of this thread.
fn next(
    alloc: Global,
    program: &Program,
    state: &State<Atomic>,
    thread: u8,
) -> Result<Box<State<Atomic>>, Broken>
    requires { Fits atomic_rules program.now state.now }
    ensures { IfOk result (λ next. Fits atomic_rules program.now next.value) }
{
    if state.steps() >= 100 {
        return Err(Broken::NotEnabled);
    }
    boxed(alloc, state.step(alloc, Atomic, program, thread)?)
}

/// A copy of a state.
pub fn copy_of(
    alloc: Global,
    program: &Program,
    state: &State<Atomic>,
) -> Result<Box<State<Atomic>>, Broken>
    requires { Fits atomic_rules program.now state.now }
    ensures { IfOk result (λ copy. Fits atomic_rules program.now copy.value) }
{
    Ok(boxed(alloc, state.copy(alloc, Atomic)?)?)
}

/// The form of a state.
pub fn form_of(
    alloc: Global,
    program: &Program,
    state: &State<Atomic>,
) -> Result<Box<StateForm<Atomic>>, OutOfMemory>
    requires { Fits atomic_rules program.now state.now }
{
    // Whoever reads a program knows that it meets the limits.
    let _ = program.initial();
    Ok(Box::new(alloc, state.form(alloc, Atomic)?)?)
}

/// Two schedules, and whether the states after them have equal forms.
struct Forms {
    case: Case,
    schedule: &'static [u8],
    other: &'static [u8],
    are_equal: bool,
}

const FORMS: &[Forms] = &[
    Forms {
        case: Case::StepsInAnotherOrder,
        schedule: &[0, 1],
        other: &[1, 0],
        are_equal: false,
    },
    Forms {
        case: Case::TheSameSteps,
        schedule: &[0, 1],
        other: &[0, 1],
        are_equal: true,
    },
    Forms {
        case: Case::NoStepAndOne,
        schedule: &[],
        other: &[0],
        are_equal: false,
    },
];

/// A state has this form, or not, as is expected.
pub fn has_form(
    alloc: Global,
    program: &Program,
    state: &State<Atomic>,
    form: &StateForm<Atomic>,
    expected: bool,
    case: Case,
) -> Result<(), Broken>
    requires { Fits atomic_rules program.now state.now }
{
    let own = form_of(alloc, program, state)?;
    ensure((*own == *form) == expected, case)
}

/// The state after the steps of a schedule.
pub fn after(
    alloc: Global,
    program: &Program,
    schedule: &[u8],
) -> Result<Box<State<Atomic>>, Broken>
    ensures { IfOk result (λ state. Fits atomic_rules program.now state.value) }
{
    let mut state = start(alloc, program)?;
    for thread in schedule {
        state = next(alloc, program, &state, *thread)?;
    }
    Ok(state)
}

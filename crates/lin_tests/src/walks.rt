//! The judge beside the two plainer searchers, on the history of every state that some explorations reach.
ghost use Rattle.std.specs.Prelude.{IfOk};
ghost use Rattle.tree_machine.specs.Step.{Fits};

use crate::broken::{Broken, ensure};
use crate::fixtures::program_of;
use crate::searchers::agree;
use ellen::Ellen;
use natmit::NatMit;
use sched_program::{History, OutOfMemory, Program, ShortList, Tree};
use std::alloc::Global;
use tree_machine::{Bytes, Encode, EncodeBuffer, Machine, Naming, State, StepFault};

const ELLEN: Ellen = Ellen {
    mark: true,
    iflag: true,
};

const NO_MARK: Ellen = Ellen {
    mark: false,
    iflag: true,
};

const NO_IFLAG: Ellen = Ellen {
    mark: true,
    iflag: false,
};

const NO_TAG: NatMit = NatMit { tag: false };

/// The threads of at most twenty steps.
type Schedule = ShortList<u8, 20>;

/// A program of two threads, how many states at most `steps` steps reach, and after how many steps the first history
/// without an order comes.
struct Row {
    text: &'static str,
    steps: usize,
    states: usize,
    fault: Option<usize>,
}

const ROWS: &[Row] = &[
    Row {
        text: r#"{"version":1,"tree":"ellen","initial":[],"threads":[[{"op":"find","key":5}],[{"op":"find","key":5}]]}"#,
        steps: 4,
        states: 13,
        fault: None,
    },
    Row {
        text: r#"{"version":1,"tree":"ellen-no-mark","initial":[10],"threads":[[{"op":"delete","key":10}],[{"op":"insert","key":5},{"op":"find","key":5}]]}"#,
        steps: 17,
        states: 456,
        fault: Some(17),
    },
    Row {
        text: r#"{"version":1,"tree":"ellen-no-iflag","initial":[10],"threads":[[{"op":"delete","key":10}],[{"op":"insert","key":5},{"op":"find","key":5}]]}"#,
        steps: 16,
        states: 329,
        fault: Some(16),
    },
    Row {
        text: r#"{"version":1,"tree":"nm-no-tag","initial":[10,20],"threads":[[{"op":"delete","key":10}],[{"op":"insert","key":25},{"op":"find","key":25}]]}"#,
        steps: 13,
        states: 133,
        fault: Some(13),
    },
];

/// Where a schedule ends: all of the state in bytes, and its history.
#[derive(Drop)]
struct End {
    schedule: Schedule,
    code: Bytes,
    history: History,
}

/// The ends, one for each state, in the order in which they were reached; and the least number of steps of a state
/// whose history has no order.
#[derive(Drop)]
struct Reached {
    ends: Vec<Box<End>>,
    fault: Option<usize>,
}

/// The state after a schedule.
fn state_after<M: Machine>(
    alloc: Global,
    machine: M,
    program: &Program,
    schedule: &[u8],
) -> Result<State<M>, StepFault>
    ensures { IfOk result (Fits (M.rules machine) program.now) }
{
    let mut state = State::start(alloc, machine, program)?;
    for thread in schedule {
        if state.steps() >= 1000 {
            return Err(StepFault::NotEnabled);
        }
        state = state.step(alloc, machine, program, *thread)?;
    }
    Ok(state)
}

/// All of a state in bytes.
fn code_of<M: Encode>(
    alloc: Global,
    machine: M,
    program: &Program,
    state: &State<M>,
) -> Result<Bytes, OutOfMemory>
    requires { Fits (M.rules machine) program.now state.now }
{
    // Whoever reads a program knows that it meets the limits.
    let _ = program.initial();
    let mut buffer = EncodeBuffer::new(alloc);
    state.label(alloc, machine, Naming::Own, &mut buffer, Vec::new(alloc))
}

/// An end in a box: dropping it takes one call, and not one for each of its lists.
fn boxed(
    alloc: Global,
    schedule: Schedule,
    code: Bytes,
    history: History,
) -> Result<Box<End>, OutOfMemory> {
    Ok(Box::new(
        alloc,
        End {
            schedule,
            code,
            history,
        },
    )?)
}

/// Where a schedule ends that reached this state.
fn end_at<M: Encode>(
    alloc: Global,
    machine: M,
    program: &Program,
    schedule: Schedule,
    state: &State<M>,
) -> Result<Box<End>, OutOfMemory>
    requires { Fits (M.rules machine) program.now state.now }
{
    let history = state.history(alloc, program)?;
    let code = code_of(alloc, machine, program, state)?;
    boxed(alloc, schedule, code, history)
}

/// Where a schedule ends on a machine.
fn end_on<M: Encode>(
    alloc: Global,
    machine: M,
    program: &Program,
    schedule: Schedule,
) -> Result<Box<End>, StepFault> {
    let state = state_after(alloc, machine, program, schedule.as_slice())?;
    Ok(end_at(alloc, machine, program, schedule, &state)?)
}

/// Where a schedule ends on a machine of Ellen's tree.
fn end_on_ellen(
    alloc: Global,
    machine: Ellen,
    program: &Program,
    schedule: Schedule,
) -> Result<Box<End>, StepFault> {
    end_on(alloc, machine, program, schedule)
}

/// Where a schedule ends on the machine that the program names.
fn end_of(alloc: Global, program: &Program, schedule: Schedule) -> Result<Box<End>, StepFault> {
    match program.tree() {
        Tree::Ellen => end_on_ellen(alloc, ELLEN, program, schedule),
        Tree::EllenNoMark => end_on_ellen(alloc, NO_MARK, program, schedule),
        Tree::EllenNoIflag => end_on_ellen(alloc, NO_IFLAG, program, schedule),
        Tree::NmNoTag => end_on(alloc, NO_TAG, program, schedule),
        Tree::Atomic | Tree::Nm => Err(StepFault::NotEnabled),
    }
}

/// Whether a state was reached.
fn is_known(ends: &[Box<End>], code: &Bytes) -> bool {
    for end in ends {
        if end.code == *code {
            return true;
        }
    }
    false
}

/// Appends an end to those that were reached, if its state is new. Returns whether it is.
fn add(reached: &mut Reached, end: Box<End>) -> Result<bool, OutOfMemory> {
    let is_new = !is_known(reached.ends.as_slice(), &end.code);
    if is_new {
        reached.ends.push(end)?;
    }
    Ok(is_new)
}

/// Checks that the searchers agree on the history of a new state.
fn look(alloc: Global, program: &Program, reached: &mut Reached) -> Result<(), Broken> {
    let Some(end) = reached.ends.as_slice().last() else {
        return Ok(());
    };
    let steps = end.schedule.len();
    if !agree(alloc, program, &end.history)? && reached.fault.is_none() {
        reached.fault = Some(steps);
    }
    Ok(())
}

/// Adds a state that was reached, and looks at it if it is new.
fn reach(
    alloc: Global,
    program: &Program,
    reached: &mut Reached,
    end: Box<End>,
) -> Result<(), Broken> {
    if add(reached, end)? {
        look(alloc, program, reached)
    } else {
        Ok(())
    }
}

/// Follows a schedule, if each of its steps is one.
fn follow(
    alloc: Global,
    program: &Program,
    reached: &mut Reached,
    schedule: Schedule,
) -> Result<(), Broken> {
    match end_of(alloc, program, schedule) {
        Ok(end) => reach(alloc, program, reached, end),
        Err(StepFault::NotEnabled) => Ok(()),
        Err(StepFault::OutOfMemory) => Err(Broken::OutOfMemory),
    }
}

/// The schedule with one more step, for which it has room.
fn one_more(mut schedule: Schedule, thread: u8) -> Schedule {
    if schedule.len() < 20 {
        schedule.push(thread);
    }
    schedule
}

/// The schedule to the state of this number, if there is one and it has fewer steps than this.
fn schedule_to(reached: &Reached, number: usize, steps: usize) -> Option<Schedule> {
    match reached.ends.as_slice().get(number) {
        Some(end) if end.schedule.len() < steps => Some(end.schedule),
        _ => None,
    }
}

/// Takes a step of each of the two threads from the state of this number, if there is one and it has fewer than `steps`
/// steps.
fn step_from(
    alloc: Global,
    program: &Program,
    reached: &mut Reached,
    number: usize,
    steps: usize,
) -> Result<(), Broken> {
    if let Some(schedule) = schedule_to(reached, number, steps) {
        follow(alloc, program, reached, one_more(schedule, 0))?;
        follow(alloc, program, reached, one_more(schedule, 1))?;
    }
    Ok(())
}

/// Reaches all states of at most `steps` steps, which are fewer than a thousand: those of fewer steps first.
fn reach_all(
    alloc: Global,
    program: &Program,
    reached: &mut Reached,
    steps: usize,
) -> Result<(), Broken> {
    follow(alloc, program, reached, Schedule::new())?;
    for number in 0..1000 {
        step_from(alloc, program, reached, number, steps)?;
    }
    Ok(())
}

/// How many states at most `steps` steps reach, and after how many steps the first history without an order comes.
fn count_of(
    alloc: Global,
    program: &Program,
    steps: usize,
) -> Result<(usize, Option<usize>), Broken> {
    let mut reached = Reached {
        ends: Vec::new(alloc),
        fault: None,
    };
    reach_all(alloc, program, &mut reached, steps)?;
    Ok((reached.ends.len(), reached.fault))
}

/// The number of states, and the number of steps to the first history without an order, are those of the row.
fn is_walked(alloc: Global, row: &Row) -> Result<(), Broken> {
    let program = program_of(alloc, row.text)?;
    let (states, fault) = count_of(alloc, &program, row.steps)?;
    ensure(
        states == row.states && fault == row.fault,
        Broken::Count(states as u64),
    )
}

fn explorations(alloc: Global) -> Result<(), Broken> {
    for row in ROWS {
        is_walked(alloc, row)?;
    }
    Ok(())
}

/// Runs once more where an allocation was refused: that happens once at most.
#[test]
fn searchers_agree_on_explorations(rt: HostRuntime) -> Result<(), Broken> {
    match explorations(rt.alloc()) {
        Ok(()) => Ok(()),
        Err(_) => explorations(rt.alloc()),
    }
}

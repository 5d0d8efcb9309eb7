//! A run of a program by a table of steps, each with what is seen then.
ghost use Rattle.std.specs.Prelude.{IfOk};
ghost use Rattle.tree_machine.specs.Step.{Fits};
ghost use Rattle.natmit.specs.NatMitRules.{natmit_rules};

use natmit::{NatMit, NatMitLoc, Node, Path, Word};
use sched_program::{OutOfMemory, Program, ProgramFault};
use std::alloc::Global;
use tree_machine::{Machine, Side, State, StepFault};

/// The whole machine.
pub const WHOLE: NatMit = NatMit { tag: true };

/// The path to a child of node 1.
pub const BELOW_1: Path = Path {
    ancestor: 0,
    successor: 1,
    parent: 1,
};

/// The path to a child of node 6, which stands below node 1.
pub const BELOW_6: Path = Path {
    ancestor: 1,
    successor: 6,
    parent: 6,
};

/// The path to a child of node 8, which stands below node 6.
pub const BELOW_8: Path = Path {
    ancestor: 6,
    successor: 8,
    parent: 8,
};

/// The path to a child of node 10, to which a tagged word of node 8 led.
pub const BELOW_10: Path = Path {
    ancestor: 6,
    successor: 8,
    parent: 10,
};

/// What is seen of a state.
#[derive(Clone, Copy)]
pub enum Seen {
    /// The child word of a node on a side: its flag, its tag and the number of the child.
    Word(u16, Side, (bool, bool, u16)),
    /// A thread is at this place.
    At(u8, NatMitLoc),
    /// A thread is in an operation.
    Busy(u8),
    /// A thread is in no operation, and replied this to the one before.
    Replied(u8, bool),
    /// The memory keeps search order, or does not.
    Ordered(bool),
}

/// A thread, how many steps it takes, and what is seen then.
pub type Row = (u8, usize, Seen);

/// Why a table was not followed to its end.
#[derive(Clone, Copy, Debug, PartialEq, Eq)]
pub enum Broken {
    /// What is seen differs in the row with this number.
    Row(usize),
    /// The text is no program.
    NoProgram,
    /// A thread had no step.
    NotEnabled,
    /// A growth was refused.
    OutOfMemory,
}

impl From<StepFault> for Broken {
    ghost from_gives = { λ _ _. Unit {0} };

    fn from(fault: StepFault) -> Broken {
        match fault {
            StepFault::NotEnabled => Broken::NotEnabled,
            StepFault::OutOfMemory => Broken::OutOfMemory,
        }
    }
}

impl From<OutOfMemory> for Broken {
    ghost from_gives = { λ _ _. Unit {0} };

    fn from(_fault: OutOfMemory) -> Broken {
        Broken::OutOfMemory
    }
}

/// The state after `steps` more steps of a thread.
pub fn advance(
    alloc: Global,
    machine: NatMit,
    program: &Program,
    mut state: State<NatMit>,
    thread: u8,
    steps: usize,
) -> Result<State<NatMit>, StepFault>
    requires { Fits (natmit_rules machine) program.now state }
    ensures { IfOk result (Fits (natmit_rules machine) program.now) }
{
    for _step in 0..steps {
        if state.steps() >= 1_000 {
            return Err(StepFault::NotEnabled);
        }
        state = state.step(alloc, machine, program, thread)?;
    }
    Ok(state)
}

/// Whether a thread is in no operation, and replied this to the one before.
fn replied(state: &State<NatMit>, thread: u8, reply: bool) -> bool {
    match state.threads.get(usize::from(thread)) {
        Some(thread) => {
            let count = thread.replies.len();
            thread.place.is_none() && count > 0 && thread.replies.get(count - 1) == Some(reply)
        }
        None => false,
    }
}

fn place_of(state: &State<NatMit>, thread: u8) -> Option<NatMitLoc> {
    state.threads.get(usize::from(thread))?.place
}

/// The child word of a node on a side; a leaf has none.
fn word_on(side: Side, node: Node) -> Option<Word> {
    match (side, node) {
        (_, Node::Leaf { .. }) => None,
        (Side::Left, Node::Internal { left, .. }) => Some(left),
        (Side::Right, Node::Internal { right, .. }) => Some(right),
    }
}

fn is_seen(machine: NatMit, program: &Program, state: &State<NatMit>, seen: Seen) -> bool
    requires { Fits (natmit_rules machine) program.now state.now }
{
    match seen {
        Seen::Word(x, side, (flag, tag, node)) => {
            word_on(side, state.memory().node(x)) == Some(Word { flag, tag, node })
        }
        Seen::At(thread, place) => place_of(state, thread) == Some(place),
        Seen::Busy(thread) => place_of(state, thread).is_some(),
        Seen::Replied(thread, reply) => replied(state, thread, reply),
        Seen::Ordered(is_ordered) => machine.ordered(state.memory()) == is_ordered,
    }
}

/// Follows a table from the start of a program.
fn follow_rows(
    alloc: Global,
    machine: NatMit,
    program: &Program,
    rows: &[Row],
) -> Result<(), Broken> {
    let mut state = State::start(alloc, machine, program)?;
    for (i, (thread, steps, seen)) in rows.iter().enumerate() {
        state = advance(alloc, machine, program, state, *thread, *steps)?;
        if !is_seen(machine, program, &state, *seen) {
            return Err(Broken::Row(i));
        }
    }
    Ok(())
}

/// The program of a text.
pub fn program_of(alloc: Global, text: &str) -> Result<Program, Broken> {
    match Program::from_json(alloc, text.as_bytes()) {
        Ok(program) => Ok(program),
        Err(ProgramFault::OutOfMemory) => Err(Broken::OutOfMemory),
        Err(_) => Err(Broken::NoProgram),
    }
}

/// Follows a table from the start of the program of a text.
fn follow(alloc: Global, machine: NatMit, text: &str, rows: &[Row]) -> Result<(), Broken> {
    let program = program_of(alloc, text)?;
    follow_rows(alloc, machine, &program, rows)
}

/// How following a table ends. Tries again where memory was refused, which happens once at most.
pub fn ends(alloc: Global, machine: NatMit, text: &str, rows: &[Row]) -> Result<(), Broken> {
    match follow(alloc, machine, text, rows) {
        Err(Broken::OutOfMemory) => follow(alloc, machine, text, rows),
        end => end,
    }
}

/// Whether a table is followed to its end.
pub fn is_followed(alloc: Global, machine: NatMit, text: &str, rows: &[Row]) -> bool {
    ends(alloc, machine, text, rows) == Ok(())
}

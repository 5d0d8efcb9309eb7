//! What is seen of a few states of the machine `Atomic`.
ghost use Rattle.tree_machine.specs.Atomic.{atomic_rules};
ghost use Rattle.tree_machine.specs.Step.{Fits};

use crate::machine::broken::{Broken, Case, ensure};
use crate::machine::labels::{Labelling, Scratch, is_read_back, label_of};
use crate::machine::states::{after, copy_of, form_of, has_form, two_inserts};
use sched_program::{OpId, Program};
use std::alloc::Global;
use tree_machine::{Atomic, AtomicLoc, EncodeBuffer, Naming, Replies, ShortNote, State, Thread};

/// What is seen of a thread of one operation: its reply, and once it began how many each thread had finished then.
struct Seen {
    replies: &'static [bool],
    note: Option<&'static [u8]>,
}

/// A schedule, and what is seen of the state after it: the keys, the threads, which of three threads have a step, the
/// replies in its history, and all of it in bytes: the number of steps, the replies of each thread (a binary digit each
/// below a leading one, the first lowest), its notes (each in two bytes, 32 for two counts and then their octal
/// digits), who went astray, what each thread holds, and behind a 0 the keys.
struct Row {
    case: Case,
    schedule: &'static [u8],
    keys: &'static [u8],
    threads: [&'static Seen; 2],
    enabled: [bool; 3],
    replies: &'static [(OpId, bool)],
    code: &'static [u8],
}

const NOTHING: &Seen = &Seen {
    replies: &[],
    note: None,
};

const WON: &Seen = &Seen {
    replies: &[true],
    note: Some(&[0, 0]),
};

const LOST: &Seen = &Seen {
    replies: &[false],
    note: Some(&[0, 1]),
};

const LATER: &Seen = &Seen {
    replies: &[false],
    note: Some(&[1, 0]),
};

const A: OpId = OpId {
    thread: 0,
    index: 0,
};

const B: OpId = OpId {
    thread: 1,
    index: 0,
};

const ROWS: &[Row] = &[
    Row {
        case: Case::NoStep,
        schedule: &[],
        keys: &[],
        threads: [NOTHING, NOTHING],
        enabled: [true, true, false],
        replies: &[],
        code: &[0, 2, 1, 1, 2, 0, 0, 0, 1, 1, 0],
    },
    Row {
        case: Case::AStepOfTheFirst,
        schedule: &[0],
        keys: &[1],
        threads: [WON, NOTHING],
        enabled: [false, true, false],
        replies: &[(A, true)],
        code: &[1, 2, 3, 1, 2, 1, 32, 0, 0, 0, 1, 1, 0, 1],
    },
    Row {
        case: Case::AStepOfTheSecond,
        schedule: &[1],
        keys: &[1],
        threads: [NOTHING, WON],
        enabled: [true, false, false],
        replies: &[(B, true)],
        code: &[1, 2, 1, 3, 2, 0, 1, 32, 0, 0, 1, 1, 0, 1],
    },
    Row {
        case: Case::TheSecondBeforeTheFirst,
        schedule: &[1, 0],
        keys: &[1],
        threads: [LOST, WON],
        enabled: [false, false, false],
        replies: &[(A, false), (B, true)],
        code: &[2, 2, 2, 3, 2, 1, 32, 8, 1, 32, 0, 0, 1, 1, 0, 1],
    },
    Row {
        case: Case::TheFirstBeforeTheSecond,
        schedule: &[0, 1],
        keys: &[1],
        threads: [WON, LATER],
        enabled: [false, false, false],
        replies: &[(A, true), (B, false)],
        code: &[2, 2, 3, 2, 2, 1, 32, 0, 1, 32, 1, 0, 1, 1, 0, 1],
    },
];

/// Whether these are the replies of a thread, in order.
fn are_replies(replies: Replies, expected: &[bool]) -> bool {
    for (index, reply) in expected.iter().enumerate() {
        if replies.get(index) != Some(*reply) {
            return false;
        }
    }
    replies.len() == expected.len()
}

/// Whether this is the note of a thread of one operation.
fn is_note(notes: &[ShortNote], expected: Option<&[u8]>) -> bool {
    match (notes, expected) {
        ([note], Some(counts)) => note.counts().as_slice() == counts,
        ([], None) => true,
        _ => false,
    }
}

/// Whether this is seen of a thread.
fn is_thread(thread: &Thread<AtomicLoc>, seen: &Seen) -> bool {
    thread.place.is_none()
        && are_replies(thread.replies, seen.replies)
        && is_note(thread.notes.as_slice(), seen.note)
}

/// Whether these are the threads of a state.
fn are_threads(threads: &[Thread<AtomicLoc>], seen: &[&Seen; 2]) -> bool {
    match threads {
        [first, second] => is_thread(first, seen[0]) && is_thread(second, seen[1]),
        _ => false,
    }
}

/// Whether those of three threads have a step that are expected to.
fn are_enabled(program: &Program, state: &State<Atomic>, expected: &[bool; 3]) -> bool {
    state.enabled(program, 0) == expected[0]
        && state.enabled(program, 1) == expected[1]
        && state.enabled(program, 2) == expected[2]
}

/// Whether a state is what a row says.
fn is_state(program: &Program, state: &State<Atomic>, row: &Row) -> bool {
    state.memory().as_slice() == row.keys
        && are_threads(state.threads.as_slice(), &row.threads)
        && state.steps() == row.schedule.len() as u64
        && state.astray().is_none()
        && are_enabled(program, state, &row.enabled)
}

/// A copy of the state of a row is equal to it, and so what the row says too.
fn is_copied(
    alloc: Global,
    program: &Program,
    state: &State<Atomic>,
    row: &Row,
) -> Result<(), Broken>
    requires { Fits atomic_rules program.now state.now }
{
    let copy = copy_of(alloc, program, state)?;
    ensure(*copy == *state && is_state(program, &copy, row), row.case)
}

/// The history of a state has the replies of a row.
fn has_replies(
    alloc: Global,
    program: &Program,
    state: &State<Atomic>,
    row: &Row,
) -> Result<(), Broken>
    requires { Fits atomic_rules program.now state.now }
{
    let history = state.history(alloc, program)?;
    ensure(history.finished() == row.replies, row.case)
}

/// Whether bytes are others with a 0 in place of the first one.
fn begins_with_0(bytes: &[u8], others: &[u8]) -> bool {
    match (bytes.split_first(), others.split_first()) {
        (Some((first, rest)), Some((_, other_rest))) => *first == 0 && rest == other_rest,
        _ => false,
    }
}

/// A state has the bytes of a row as its label: canonical labels leave out the number of steps.
fn has_label(
    alloc: Global,
    program: &Program,
    state: &State<Atomic>,
    naming: Naming,
    row: &Row,
) -> Result<(), Broken>
    requires { Fits atomic_rules program.now state.now }
{
    let how = Labelling {
        machine: Atomic,
        program,
        naming,
    };
    let label = label_of(alloc, &how, state, &mut EncodeBuffer::new(alloc))?;
    let is_right = match naming {
        Naming::Own => label.as_slice() == row.code,
        Naming::Canonical => begins_with_0(label.as_slice(), row.code),
    };
    ensure(is_right, row.case)
}

/// A state is read from its label into the state of each row.
fn is_read(
    alloc: Global,
    program: &Program,
    state: &State<Atomic>,
    naming: Naming,
    row: &Row,
) -> Result<(), Broken>
    requires { Fits atomic_rules program.now state.now }
{
    let how = Labelling {
        machine: Atomic,
        program,
        naming,
    };
    for other in ROWS {
        let shell = after(alloc, program, other.schedule)?.copy(alloc, Atomic)?;
        let mut scratch = Scratch::with(alloc, shell);
        let is_read = is_read_back(alloc, &how, state, &mut scratch)?;
        let read = &scratch.shell;
        let is_seen = read.memory().as_slice() == row.keys
            && are_threads(read.threads.as_slice(), &row.threads)
            && are_enabled(program, read, &row.enabled);
        ensure(is_read && is_seen, row.case)?;
    }
    Ok(())
}

/// A copy of a state has its form.
fn keeps_form(
    alloc: Global,
    program: &Program,
    state: &State<Atomic>,
    row: &Row,
) -> Result<(), Broken>
    requires { Fits atomic_rules program.now state.now }
{
    let form = form_of(alloc, program, state)?;
    let copy = copy_of(alloc, program, state)?;
    has_form(alloc, program, &copy, &form, true, row.case)
}

/// What is looked at.
#[derive(Clone, Copy)]
pub enum Look {
    State,
    Copy,
    Replies,
    Label(Naming),
    Read(Naming),
    FormOfCopy,
}

/// The schedule of a row reaches its state, by `start` and `step`, and what is looked at is as the row says.
fn is_seen(alloc: Global, program: &Program, row: &Row, look: Look) -> Result<(), Broken> {
    let state = after(alloc, program, row.schedule)?;
    match look {
        Look::State => ensure(is_state(program, &state, row), row.case),
        Look::Copy => is_copied(alloc, program, &state, row),
        Look::Replies => has_replies(alloc, program, &state, row),
        Look::Label(naming) => has_label(alloc, program, &state, naming, row),
        Look::Read(naming) => is_read(alloc, program, &state, naming, row),
        Look::FormOfCopy => keeps_form(alloc, program, &state, row),
    }
}

/// What is looked at is as every row says.
pub fn are_seen(alloc: Global, look: Look) -> Result<(), Broken> {
    let program = two_inserts(alloc)?;
    for row in ROWS {
        is_seen(alloc, &program, row, look)?;
    }
    Ok(())
}

#[test]
fn start_and_steps_are_as_defined(rt: HostRuntime) -> Result<(), Broken> {
    match are_seen(rt.alloc(), Look::State) {
        Ok(()) => Ok(()),
        Err(_) => are_seen(rt.alloc(), Look::State),
    }
}

#[test]
fn copies_are_equal(rt: HostRuntime) -> Result<(), Broken> {
    match are_seen(rt.alloc(), Look::Copy) {
        Ok(()) => Ok(()),
        Err(_) => are_seen(rt.alloc(), Look::Copy),
    }
}

#[test]
fn the_first_insert_wins(rt: HostRuntime) -> Result<(), Broken> {
    match are_seen(rt.alloc(), Look::Replies) {
        Ok(()) => Ok(()),
        Err(_) => are_seen(rt.alloc(), Look::Replies),
    }
}

#[test]
fn a_label_is_of_the_whole_state(rt: HostRuntime) -> Result<(), Broken> {
    match are_seen(rt.alloc(), Look::Label(Naming::Own)) {
        Ok(()) => Ok(()),
        Err(_) => are_seen(rt.alloc(), Look::Label(Naming::Own)),
    }
}

#[test]
fn states_are_read_from_their_labels(rt: HostRuntime) -> Result<(), Broken> {
    match are_seen(rt.alloc(), Look::Read(Naming::Own)) {
        Ok(()) => Ok(()),
        Err(_) => are_seen(rt.alloc(), Look::Read(Naming::Own)),
    }
}

#[test]
fn a_canonical_label_has_no_steps(rt: HostRuntime) -> Result<(), Broken> {
    match are_seen(rt.alloc(), Look::Label(Naming::Canonical)) {
        Ok(()) => Ok(()),
        Err(_) => are_seen(rt.alloc(), Look::Label(Naming::Canonical)),
    }
}

#[test]
fn states_are_read_from_their_canonical_labels(rt: HostRuntime) -> Result<(), Broken> {
    match are_seen(rt.alloc(), Look::Read(Naming::Canonical)) {
        Ok(()) => Ok(()),
        Err(_) => are_seen(rt.alloc(), Look::Read(Naming::Canonical)),
    }
}

//! States of the machine `Atomic` that are read from bytes, and bytes that are those of no state.

use crate::machine::broken::{Broken, Case, ensure};
use crate::machine::states::{after, two_inserts};
use std::alloc::Global;
use tree_machine::{Atomic, State};

/// Bytes of a state, and some of what it has.
struct Row {
    case: Case,
    bytes: &'static [u8],
    steps: u64,
    thread_count: usize,
    astray: Option<u8>,
    keys: &'static [u8],
}

/// Read one after the other into one state, they have it lose threads and gain them.
const ROWS: &[Row] = &[
    Row {
        case: Case::NoThread,
        bytes: &[0, 0, 0, 0, 0],
        steps: 0,
        thread_count: 0,
        astray: None,
        keys: &[],
    },
    Row {
        case: Case::ManySteps,
        bytes: &[255, 255, 45, 1, 1, 1, 0, 0, 1, 0, 9],
        steps: 555,
        thread_count: 1,
        astray: None,
        keys: &[9],
    },
    Row {
        case: Case::FourThreads,
        bytes: &[3, 4, 1, 1, 1, 1, 4, 0, 0, 0, 0, 0, 1, 1, 1, 1, 0, 7, 8],
        steps: 3,
        thread_count: 4,
        astray: None,
        keys: &[7, 8],
    },
    Row {
        case: Case::TheSecondAstray,
        bytes: &[2, 2, 1, 1, 2, 0, 0, 1, 1, 1, 2, 0],
        steps: 2,
        thread_count: 2,
        astray: Some(1),
        keys: &[],
    },
];

/// Bytes of no state.
struct Refused {
    case: Case,
    bytes: &'static [u8],
}

const REFUSED: &[Refused] = &[
    Refused {
        case: Case::NoByte,
        bytes: &[],
    },
    Refused {
        case: Case::FiveThreads,
        bytes: &[0, 5, 1, 1, 1, 1, 1, 5, 0, 0, 0, 0, 0, 0, 1, 1, 1, 1, 1, 0],
    },
    Refused {
        case: Case::SevenReplies,
        bytes: &[0, 1, 128, 1, 0, 0, 1, 0],
    },
    Refused {
        case: Case::RepliesWithoutALeadingOne,
        bytes: &[0, 1, 0, 1, 0, 0, 1, 0],
    },
    Refused {
        case: Case::NotesOfMoreThreads,
        bytes: &[0, 1, 1, 2, 0, 0, 0, 1, 0],
    },
    Refused {
        case: Case::SevenNotes,
        bytes: &[
            0, 1, 1, 1, 7, 0, 0, 0, 0, 0, 0, 0, 0, 0, 0, 0, 0, 0, 0, 0, 1, 0,
        ],
    },
    Refused {
        case: Case::FiveCounts,
        bytes: &[0, 1, 1, 1, 1, 80, 0, 0, 1, 0],
    },
    Refused {
        case: Case::ACountBehindTheLast,
        bytes: &[0, 1, 1, 1, 1, 0, 1, 0, 1, 0],
    },
    Refused {
        case: Case::AstrayOfNeither,
        bytes: &[0, 1, 1, 1, 0, 2, 1, 0],
    },
    Refused {
        case: Case::AnUnknownPlace,
        bytes: &[0, 1, 1, 1, 0, 0, 3, 0],
    },
    Refused {
        case: Case::APlaceTooFew,
        bytes: &[0, 2, 1, 1, 2, 0, 0, 0, 1, 0],
    },
];

/// The bytes of a state of two threads and no key.
const WHOLE: &[u8] = &[0, 2, 1, 1, 2, 0, 0, 0, 1, 1, 0];

/// Whether a state has what a row says.
fn is_state(state: &State<Atomic>, row: &Row) -> bool {
    state.steps() == row.steps
        && state.threads.len() == row.thread_count
        && state.astray() == row.astray
        && state.memory().as_slice() == row.keys
}

/// A state is read from the bytes of each row, and is what the row says.
fn are_read(alloc: Global, state: &mut State<Atomic>) -> Result<(), Broken> {
    for row in ROWS {
        let read = state.decode(alloc, Atomic, row.bytes, None)?;
        ensure(read.is_some() && is_state(state, row), row.case)?;
    }
    Ok(())
}

/// No state is read from bytes of none.
fn are_refused(alloc: Global, state: &mut State<Atomic>) -> Result<(), Broken> {
    for refused in REFUSED {
        let read = state.decode(alloc, Atomic, refused.bytes, None)?;
        ensure(read.is_none(), refused.case)?;
    }
    Ok(())
}

/// A state is read from all of its bytes, and from no beginning of them.
fn are_codes_read(alloc: Global, state: &mut State<Atomic>) -> Result<(), Broken> {
    for count in 0..WHOLE.len() {
        let read = state.decode(alloc, Atomic, &WHOLE[..count], None)?;
        ensure(read.is_none(), Case::BytesCutShort)?;
    }
    let read = state.decode(alloc, Atomic, WHOLE, None)?;
    ensure(read.is_some(), Case::BytesCutShort)
}

/// All of this, each with one state that was another before.
fn are_as_written(alloc: Global) -> Result<(), Broken> {
    let program = two_inserts(alloc)?;
    let mut state = after(alloc, &program, &[0])?;
    are_read(alloc, &mut state)?;
    are_refused(alloc, &mut state)?;
    are_codes_read(alloc, &mut state)
}

#[test]
fn bytes_are_read_or_refused(rt: HostRuntime) -> Result<(), Broken> {
    match are_as_written(rt.alloc()) {
        Ok(()) => Ok(()),
        Err(_) => are_as_written(rt.alloc()),
    }
}

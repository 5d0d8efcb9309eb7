//! Worked histories.

use crate::broken::{Broken, Case, ensure};
use crate::fixtures::{history_of, is_answer, note, program_of};
use lin::{check_order, judge};
use sched_program::{History, Note, OpId, OutOfMemory, Program};
use std::alloc::Global;

/// One thread inserts 1 and deletes it, the other looks for it twice.
pub const SMALL: &str = r#"{"version":1,"tree":"atomic","initial":[],"threads":[
[{"op":"insert","key":1},{"op":"delete","key":1}],[{"op":"find","key":1},{"op":"find","key":1}]]}"#;

pub const A: OpId = OpId {
    thread: 0,
    index: 0,
};

pub const B: OpId = OpId {
    thread: 0,
    index: 1,
};

pub const C: OpId = OpId {
    thread: 1,
    index: 0,
};

pub const D: OpId = OpId {
    thread: 1,
    index: 1,
};

/// The operations that begin, each with its note, those that finish, each with its reply, and the answer.
pub struct Row {
    pub case: Case,
    pub begun: &'static [(OpId, [u8; 2])],
    pub finished: &'static [(OpId, bool)],
    pub order: Option<&'static [OpId]>,
}

/// A find that is finished saw a key whose insert is pending.
pub const SEEN_PENDING: &Row = &Row {
    case: Case::AFindThatSawTheKeyOfAPendingInsert,
    begun: &[(A, [0, 0]), (C, [0, 0])],
    finished: &[(C, true)],
    order: Some(&[A, C]),
};

const ROWS: &[&Row] = &[
    &Row {
        case: Case::NothingBegan,
        begun: &[],
        finished: &[],
        order: Some(&[]),
    },
    &Row {
        case: Case::AnInsertIsPending,
        begun: &[(A, [0, 0])],
        finished: &[],
        order: Some(&[]),
    },
    SEEN_PENDING,
    &Row {
        case: Case::AFindAfterTheInsertSawNoKey,
        begun: &[(A, [0, 0]), (C, [1, 0])],
        finished: &[(A, true), (C, false)],
        order: None,
    },
    &Row {
        case: Case::AFindBeforeTheDelete,
        begun: &[(A, [0, 0]), (B, [1, 0]), (C, [0, 0]), (D, [1, 1])],
        finished: &[(A, true), (C, true), (D, false)],
        order: Some(&[A, C, B, D]),
    },
    &Row {
        case: Case::AFindBesideTheDelete,
        begun: &[(A, [0, 0]), (B, [1, 0]), (C, [0, 0]), (D, [1, 1])],
        finished: &[(A, true), (C, true), (D, true)],
        order: Some(&[A, C, D]),
    },
];

fn begun_of(alloc: Global, begun: &[(OpId, [u8; 2])]) -> Result<Vec<(OpId, Note)>, OutOfMemory> {
    let mut notes = Vec::new(alloc);
    for (name, counts) in begun {
        notes.push((*name, note(counts)))?;
    }
    Ok(notes)
}

/// The history of a row.
pub fn history_of_row(alloc: Global, program: &Program, row: &Row) -> Result<Box<History>, Broken> {
    let begun = begun_of(alloc, row.begun)?;
    let finished = Vec::from_slice(alloc, row.finished)?;
    history_of(alloc, program, begun, finished)
}

/// The judge returns what the row says.
fn judges(alloc: Global, program: &Program, row: &Row) -> Result<(), Broken> {
    let history = history_of_row(alloc, program, row)?;
    let answer = judge(alloc, program, &history)?;
    ensure(is_answer(&answer, row.order), Broken::Wrong(row.case))
}

fn small_histories(alloc: Global) -> Result<(), Broken> {
    let program = program_of(alloc, SMALL)?;
    for row in ROWS {
        judges(alloc, &program, row)?;
    }
    Ok(())
}

/// A list of operations, and whether it is a linearization of `SEEN_PENDING`.
struct List {
    case: Case,
    order: &'static [OpId],
    is_one: bool,
}

const LISTS: &[List] = &[
    List {
        case: Case::TheFindAlone,
        order: &[C],
        is_one: false,
    },
    List {
        case: Case::TheInsertAndTheFind,
        order: &[A, C],
        is_one: true,
    },
    List {
        case: Case::TheInsertTwice,
        order: &[A, A, C],
        is_one: false,
    },
];

fn are_checked(program: &Program, history: &History) -> Result<(), Broken> {
    for list in LISTS {
        ensure(
            check_order(program, history, list.order) == list.is_one,
            Broken::Wrong(list.case),
        )?;
    }
    Ok(())
}

fn orders_of_a_history(alloc: Global) -> Result<(), Broken> {
    let program = program_of(alloc, SMALL)?;
    let history = history_of_row(alloc, &program, SEEN_PENDING)?;
    are_checked(&program, &history)
}

// Each test runs once more where an allocation was refused: that happens once at most.
#[test]
fn histories_of_a_small_program(rt: HostRuntime) -> Result<(), Broken> {
    match small_histories(rt.alloc()) {
        Ok(()) => Ok(()),
        Err(_) => small_histories(rt.alloc()),
    }
}

#[test]
fn orders_are_checked(rt: HostRuntime) -> Result<(), Broken> {
    match orders_of_a_history(rt.alloc()) {
        Ok(()) => Ok(()),
        Err(_) => orders_of_a_history(rt.alloc()),
    }
}

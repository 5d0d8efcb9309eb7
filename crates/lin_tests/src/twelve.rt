//! Twelve operations of four threads at once.

use crate::broken::{Broken, Case, ensure};
use crate::fixtures::{history_of, is_answer, note, program_of};
use crate::searchers::agree;
use lin::{judge, judge_counted};
use sched_program::{History, Note, OpId, OutOfMemory, Program};
use std::alloc::Global;

/// Three threads insert, and the last looks for a key that none inserts.
pub const PROGRAM: &str = r#"{"version":1,"tree":"atomic","initial":[],"threads":[
[{"op":"insert","key":1},{"op":"insert","key":2},{"op":"insert","key":3}],
[{"op":"insert","key":4},{"op":"insert","key":5},{"op":"insert","key":6}],
[{"op":"insert","key":7},{"op":"insert","key":8},{"op":"insert","key":10}],
[{"op":"find","key":9},{"op":"find","key":9},{"op":"find","key":9}]]}"#;

/// The operations in the order of their names.
pub const NAMES: &[OpId] = &[
    OpId {
        thread: 0,
        index: 0,
    },
    OpId {
        thread: 0,
        index: 1,
    },
    OpId {
        thread: 0,
        index: 2,
    },
    OpId {
        thread: 1,
        index: 0,
    },
    OpId {
        thread: 1,
        index: 1,
    },
    OpId {
        thread: 1,
        index: 2,
    },
    OpId {
        thread: 2,
        index: 0,
    },
    OpId {
        thread: 2,
        index: 1,
    },
    OpId {
        thread: 2,
        index: 2,
    },
    OpId {
        thread: 3,
        index: 0,
    },
    OpId {
        thread: 3,
        index: 1,
    },
    LAST,
];

pub const LAST: OpId = OpId {
    thread: 3,
    index: 2,
};

/// Each operation with its note, which counts those before it in its own thread and none of another.
fn begun(alloc: Global) -> Result<Vec<(OpId, Note)>, OutOfMemory> {
    let mut begun = Vec::new(alloc);
    for name in NAMES {
        let own = name.index;
        let counts = match name.thread {
            0 => [own, 0, 0, 0],
            1 => [0, own, 0, 0],
            2 => [0, 0, own, 0],
            _ => [0, 0, 0, own],
        };
        begun.push((*name, note(&counts)))?;
    }
    Ok(begun)
}

/// Each operation with its reply: all inserts true, and all finds false but for the last, which replied this.
fn finished(alloc: Global, last: bool) -> Result<Vec<(OpId, bool)>, OutOfMemory> {
    let mut finished = Vec::new(alloc);
    for name in NAMES {
        finished.push((*name, name.thread < 3 || (last && name.index == 2)))?;
    }
    Ok(finished)
}

/// The history in which the last find replied this.
fn history_with(alloc: Global, program: &Program, last: bool) -> Result<Box<History>, Broken> {
    let begun = begun(alloc)?;
    let finished = finished(alloc, last)?;
    history_of(alloc, program, begun, finished)
}

/// The judge returns this order, or that there is none.
fn judges(
    alloc: Global,
    program: &Program,
    history: &History,
    order: Option<&[OpId]>,
) -> Result<(), Broken> {
    let answer = judge(alloc, program, history)?;
    ensure(is_answer(&answer, order), Broken::Wrong(Case::TwelveJudged))
}

/// Whether the judge's counting twin returns this order, or that there is none, and what it counted.
fn counted(
    alloc: Global,
    program: &Program,
    history: &History,
    order: Option<&[OpId]>,
) -> Result<(bool, u64), OutOfMemory> {
    let (answer, sought) = judge_counted(alloc, program, history)?;
    Ok((is_answer(&answer, order), sought))
}

/// The twin returns this order, or that there is none, and this count.
fn counts(
    alloc: Global,
    program: &Program,
    history: &History,
    order: Option<&[OpId]>,
    expected: u64,
) -> Result<(), Broken> {
    let (is_right, sought) = counted(alloc, program, history, order)?;
    ensure(is_right, Broken::Wrong(Case::TwelveCounted))?;
    ensure(sought == expected, Broken::Count(sought))
}

/// The last find can't have seen its key.
fn none_if_true(alloc: Global, program: &Program) -> Result<(), Broken> {
    let history = history_with(alloc, program, true)?;
    judges(alloc, program, &history, None)?;
    counts(alloc, program, &history, None, 192)
}

/// The first order is found without backtracking, and the searchers find it too.
fn is_first_order(alloc: Global, program: &Program, history: &History) -> Result<(), Broken> {
    judges(alloc, program, history, Some(NAMES))?;
    counts(alloc, program, history, Some(NAMES), 12)?;
    agree(alloc, program, history)?;
    Ok(())
}

fn order_if_false(alloc: Global, program: &Program) -> Result<(), Broken> {
    let history = history_with(alloc, program, false)?;
    is_first_order(alloc, program, &history)
}

fn twelve_operations(alloc: Global) -> Result<(), Broken> {
    let program = program_of(alloc, PROGRAM)?;
    none_if_true(alloc, &program)?;
    order_if_false(alloc, &program)
}

/// Runs once more where an allocation was refused: that happens once at most.
#[test]
fn configurations_that_failed_are_not_tried_again(rt: HostRuntime) -> Result<(), Broken> {
    match twelve_operations(rt.alloc()) {
        Ok(()) => Ok(()),
        Err(_) => twelve_operations(rt.alloc()),
    }
}

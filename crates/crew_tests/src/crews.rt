//! Explorations by several workers.
use crate::faulty::Faulty;
use crate::gates::{Both, Slow};
use crate::rows::{DELETES, FINDS, INSERTS};
use crate::summary::{Bounds, Line, Summary, summary_of};
use book::Merge;
use crew::Share;
use sched_program::OutOfMemory;
use std::alloc::Global;
use std::process::Abort;
use std::sync::Wait;
use std::thread::Threads;
use tree_machine::{Atomic, Encode};

/// The gate holds the first arrival in layer 1 until another worker has arrived at the other place. So a body that does
/// all the work on one thread, or runs its workers one after the other, is held to the limit, which the gate reports.
/// One whose workers arrive and enter nothing, and that then explores again on one thread, never reaches layer 1, and
/// reports three expansions by the first worker, though there was one arrival. One whose worker puts a fresh book under
/// the lock reports shares that are not the arrivals, or a second exploration.
fn meet_in_a_layer<R: Abort + Threads + Wait + Sync>(
    rt: &R,
    alloc: Global,
    workers: u8,
) -> Result<(), OutOfMemory> {
    let gate = Both::new();
    let bounds = Bounds {
        steps: 2,
        limit: 200_000,
        merge: Merge::Exact,
        workers,
    };
    let summary = summary_of(rt, alloc, Atomic, INSERTS, bounds, &gate)?;
    gate.compare(rt);
    gate.arrivals.compare(rt, &*summary);
    assert_eq!(rt; summary.line, Line::Holds(2));
    assert_eq!(rt; summary.totals.entries, 5);
    assert_eq!(rt; summary.totals.expanded, 3);
    assert_eq!(rt; summary.shares.len(), usize::from(workers));
    Ok(())
}

#[test]
fn two_workers_and_more_are_in_one_layer_at_once(rt: HostRuntime) {
    for workers in 2..=8 {
        passes!(rt; meet_in_a_layer(&rt, rt.alloc(), workers));
    }
}

/// A program, how far it is explored, how states are merged, and the answer with the number of states.
#[derive(Clone, Copy)]
struct Row {
    text: &'static [u8],
    steps: u16,
    limit: u32,
    merge: Merge,
    line: Line,
    entries: usize,
    /// Whether the labels of the machine can be decoded.
    is_decoded: bool,
}

/// Whether all the work is in the first worker's share.
fn is_alone(shares: &[Share]) -> bool {
    let none = Share {
        expanded: 0,
        entered: 0,
        met: 0,
    };
    match shares.get(1..) {
        Some(others) => others.iter().all(|share| *share == none),
        None => false,
    }
}

impl Row {
    /// Compares the answer and the number of states. If the exploration was not stopped, either each worker arrived as
    /// often as its share says, or one thread explored again, which it does where labels can't be decoded.
    fn compare(&self, rt: &impl Abort, workers: u8, gate: &Slow, summary: &Summary) {
        assert_eq!(rt; summary.line, self.line);
        assert_eq!(rt; summary.shares.len(), usize::from(workers));
        if matches!(self.line, Line::Stopped(_, _)) {
            return;
        }
        assert_eq!(rt; summary.totals.entries, self.entries);
        if self.is_decoded {
            gate.arrivals.compare(rt, summary);
        } else {
            assert!(rt; is_alone(summary.shares.as_slice()));
        }
    }
}

fn try_row<M: Encode, R: Abort + Threads + Wait + Sync>(
    rt: &R,
    alloc: Global,
    machine: M,
    row: Row,
    workers: u8,
) -> Result<(), OutOfMemory> {
    let gate = Slow::new();
    let bounds = Bounds {
        steps: row.steps,
        limit: row.limit,
        merge: row.merge,
        workers,
    };
    let summary = summary_of(rt, alloc, machine, row.text, bounds, &gate)?;
    row.compare(rt, workers, &gate, &*summary);
    Ok(())
}

/// For 1, 2 and 8 workers.
fn compare_all<M: Encode, R: Abort + Threads + Wait + Sync>(
    rt: &R,
    alloc: Global,
    machine: M,
    row: Row,
) {
    for workers in [1, 2, 8] {
        passes!(rt; try_row(rt, alloc, machine, row, workers));
    }
}

/// Two inserts, with these steps and limit, this answer, and this many states.
fn compare_inserts<R: Abort + Threads + Wait + Sync>(
    rt: &R,
    alloc: Global,
    merge: Merge,
    rows: &[(u16, u32, Line, usize)],
) {
    for (steps, limit, line, entries) in rows {
        let row = Row {
            text: INSERTS,
            steps: *steps,
            limit: *limit,
            merge,
            line: *line,
            entries: *entries,
            is_decoded: true,
        };
        compare_all(rt, alloc, Atomic, row);
    }
}

#[test]
fn the_number_of_workers_changes_no_answer(rt: HostRuntime) {
    let rows = [
        (0, 200_000, Line::Holds(0), 1),
        (1, 200_000, Line::Holds(1), 3),
        (2, 200_000, Line::Holds(2), 5),
        (400, 5, Line::Holds(400), 5),
        (2, 4, Line::Stopped(4, 1), 4),
        (2, 2, Line::Stopped(2, 0), 1),
    ];
    compare_inserts(&rt, rt.alloc(), Merge::Exact, rows.as_slice());
}

/// No thread has a third step, so an exploration to three steps or more covers every schedule.
#[test]
fn the_number_of_workers_changes_no_answer_by_names(rt: HostRuntime) {
    let rows = [
        (0, 200_000, Line::Holds(0), 1),
        (1, 200_000, Line::Holds(1), 3),
        (2, 200_000, Line::Holds(2), 5),
        (3, 200_000, Line::Every, 5),
        (400, 5, Line::Every, 5),
        (2, 4, Line::Stopped(4, 1), 4),
        (2, 2, Line::Stopped(2, 0), 1),
    ];
    compare_inserts(&rt, rt.alloc(), Merge::Names, rows.as_slice());
}

/// No label of this machine can be decoded, by either merge.
#[test]
fn the_number_of_workers_changes_no_fault(rt: HostRuntime) {
    for (text, steps, limit, line, entries) in [
        (INSERTS, 20, 5, Line::History(2), 5),
        (INSERTS, 1, 5, Line::Holds(1), 3),
        (INSERTS, 20, 4, Line::Stopped(4, 1), 4),
        (DELETES, 20, 200_000, Line::Astray(2), 6),
        (FINDS, 20, 200_000, Line::Order(1), 3),
        (FINDS, 20, 2, Line::Stopped(2, 0), 1),
    ] {
        for merge in [Merge::Exact, Merge::Names] {
            let row = Row {
                text,
                steps,
                limit,
                merge,
                line,
                entries,
                is_decoded: false,
            };
            compare_all(&rt, rt.alloc(), Faulty, row);
        }
    }
}

/// One step of two inserts, by two workers.
fn step_once<R: Abort + Threads + Wait + Sync>(rt: &R, alloc: Global) -> Result<(), OutOfMemory> {
    let gate = Slow::new();
    let bounds = Bounds {
        steps: 1,
        limit: 200_000,
        merge: Merge::Exact,
        workers: 2,
    };
    let summary = summary_of(rt, alloc, Atomic, INSERTS, bounds, &gate)?;
    assert_eq!(rt; summary.line, Line::Holds(1));
    assert_eq!(rt; summary.totals.entries, 3);
    gate.arrivals.compare(rt, &*summary);
    let none = Share {
        expanded: 0,
        entered: 0,
        met: 0,
    };
    let all = Share {
        expanded: 1,
        entered: 2,
        met: 0,
    };
    let shares = summary.shares.as_slice();
    assert!(rt; shares == [all, none].as_slice() || shares == [none, all].as_slice());
    Ok(())
}

#[test]
fn one_step_is_one_worker_s_work(rt: HostRuntime) {
    passes!(rt; step_once(&rt, rt.alloc()));
}

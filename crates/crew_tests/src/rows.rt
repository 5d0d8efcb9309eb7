//! Explorations of small programs by one worker, with the answers worked out by hand.
use crate::faulty::Faulty;
use crate::summary::{Bounds, Line, Summary, summary_of};
use book::Merge;
use crew::{Open, Share};
use sched_program::OutOfMemory;
use std::alloc::Global;
use std::process::Abort;
use std::sync::Wait;
use std::thread::Threads;
use tree_machine::{Atomic, Encode};

pub const INSERTS: &[u8] =
    b"{\"version\":1,\"tree\":\"atomic\",\"initial\":[],\"threads\":[[{\"op\":\"insert\",\"key\":1}],[{\"op\":\"insert\",\"key\":1}]]}";

pub const DELETES: &[u8] =
    b"{\"version\":1,\"tree\":\"atomic\",\"initial\":[],\"threads\":[[{\"op\":\"delete\",\"key\":1}],[{\"op\":\"delete\",\"key\":1}]]}";

pub const FINDS: &[u8] =
    b"{\"version\":1,\"tree\":\"atomic\",\"initial\":[],\"threads\":[[{\"op\":\"find\",\"key\":1}],[{\"op\":\"find\",\"key\":1}]]}";

/// A program, how far it is explored, and what is reported of it.
#[derive(Clone, Copy)]
struct Row {
    text: &'static [u8],
    steps: u16,
    limit: u32,
    line: Line,
    /// The schedule of a fault; empty for another answer.
    schedule: &'static [u8],
    /// The number of states, where it was worked out.
    entries: Option<usize>,
    /// What the worker did, where it was worked out: the entries expanded, and the steps to new and to known states.
    share: Option<(usize, usize, usize)>,
}

impl Row {
    fn compare(&self, rt: &impl Abort, summary: &Summary) {
        assert_eq!(rt; summary.line, self.line);
        assert_eq!(rt; summary.schedule.as_slice(), self.schedule);
        if let Some(entries) = self.entries {
            assert_eq!(rt; summary.totals.entries, entries);
        }
        if let Some((expanded, entered, met)) = self.share {
            let share = Share {
                expanded,
                entered,
                met,
            };
            assert_eq!(rt; summary.shares.as_slice(), [share].as_slice());
        }
    }
}

fn try_row<M: Encode, R: Abort + Threads + Wait + Sync>(
    rt: &R,
    alloc: Global,
    machine: M,
    row: Row,
) -> Result<(), OutOfMemory> {
    let bounds = Bounds {
        steps: row.steps,
        limit: row.limit,
        merge: Merge::Exact,
        workers: 1,
    };
    let summary = summary_of(rt, alloc, machine, row.text, bounds, &Open)?;
    row.compare(rt, &*summary);
    Ok(())
}

/// Each row, by one worker.
fn compare_rows<M: Encode, R: Abort + Threads + Wait + Sync>(
    rt: &R,
    alloc: Global,
    machine: M,
    rows: &[Row],
) {
    for row in rows {
        passes!(rt; try_row(rt, alloc, machine, *row));
    }
}

const HOLDING: [Row; 4] = [
    Row {
        text: INSERTS,
        steps: 0,
        limit: 200_000,
        line: Line::Holds(0),
        schedule: &[],
        entries: Some(1),
        share: Some((0, 0, 0)),
    },
    Row {
        text: INSERTS,
        steps: 1,
        limit: 200_000,
        line: Line::Holds(1),
        schedule: &[],
        entries: Some(3),
        share: Some((1, 2, 0)),
    },
    Row {
        text: INSERTS,
        steps: 2,
        limit: 200_000,
        line: Line::Holds(2),
        schedule: &[],
        entries: Some(5),
        share: Some((3, 4, 0)),
    },
    Row {
        text: INSERTS,
        steps: 400,
        limit: 200_000,
        line: Line::Holds(400),
        schedule: &[],
        entries: Some(5),
        share: Some((5, 4, 0)),
    },
];

#[test]
fn every_schedule_of_two_inserts_holds(rt: HostRuntime) {
    compare_rows(&rt, rt.alloc(), Atomic, HOLDING.as_slice());
}

const LIMITED: [Row; 2] = [
    Row {
        text: INSERTS,
        steps: 2,
        limit: 4,
        line: Line::Stopped(4, 1),
        schedule: &[],
        entries: None,
        share: Some((2, 3, 0)),
    },
    Row {
        text: INSERTS,
        steps: 2,
        limit: 5,
        line: Line::Holds(2),
        schedule: &[],
        entries: None,
        share: None,
    },
];

#[test]
fn the_limit_stops_in_a_layer(rt: HostRuntime) {
    compare_rows(&rt, rt.alloc(), Atomic, LIMITED.as_slice());
}

const WRONG_REPLIES: [Row; 4] = [
    Row {
        text: INSERTS,
        steps: 2,
        limit: 5,
        line: Line::History(2),
        schedule: &[0, 1],
        entries: None,
        share: Some((3, 4, 0)),
    },
    Row {
        text: INSERTS,
        steps: 20,
        limit: 5,
        line: Line::History(2),
        schedule: &[0, 1],
        entries: None,
        share: Some((3, 4, 0)),
    },
    Row {
        text: INSERTS,
        steps: 1,
        limit: 5,
        line: Line::Holds(1),
        schedule: &[],
        entries: None,
        share: None,
    },
    Row {
        text: INSERTS,
        steps: 20,
        limit: 4,
        line: Line::Stopped(4, 1),
        schedule: &[],
        entries: None,
        share: None,
    },
];

#[test]
fn a_wrong_reply_is_reported_after_its_layer(rt: HostRuntime) {
    compare_rows(&rt, rt.alloc(), Faulty, WRONG_REPLIES.as_slice());
}

const GOING_ASTRAY: [Row; 1] = [Row {
    text: DELETES,
    steps: 20,
    limit: 200_000,
    line: Line::Astray(2),
    schedule: &[0, 0],
    entries: Some(6),
    share: Some((3, 5, 1)),
}];

#[test]
fn a_second_step_astray_is_reported(rt: HostRuntime) {
    compare_rows(&rt, rt.alloc(), Faulty, GOING_ASTRAY.as_slice());
}

const LOST_ORDERS: [Row; 2] = [
    Row {
        text: FINDS,
        steps: 20,
        limit: 200_000,
        line: Line::Order(1),
        schedule: &[0],
        entries: Some(3),
        share: None,
    },
    Row {
        text: FINDS,
        steps: 20,
        limit: 2,
        line: Line::Stopped(2, 0),
        schedule: &[],
        entries: None,
        share: None,
    },
];

#[test]
fn a_lost_order_is_reported(rt: HostRuntime) {
    compare_rows(&rt, rt.alloc(), Faulty, LOST_ORDERS.as_slice());
}

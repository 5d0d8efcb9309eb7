//! Replays of schedules.

use crate::fixtures::{Broken, TWO_INSERTS, program_of, replayed, settled};
use book::{Finding, Order, Replay};
use sched_program::{OpId, ShortList};
use std::alloc::Global;
use std::test::Fail;
use tree_machine::Atomic;

pub const ZERO: OpId = OpId {
    thread: 0,
    index: 0,
};

pub const ONE: OpId = OpId {
    thread: 1,
    index: 0,
};

/// What a schedule comes to: its linearization, or the step at which it stops.
type End = Result<&'static [OpId], usize>;

const ENDS: [(&[u8], End); 4] = [
    (&[], Ok(&[])),
    (&[1, 0], Ok(&[ONE, ZERO])),
    (&[0, 0], Err(2)),
    (&[7], Err(1)),
];

/// Whether an order has these names.
fn has_names(order: &Order, names: &[OpId]) -> bool {
    let mut found = ShortList::<OpId, 12>::new();
    for name in order.as_slice() {
        if found.len() < 12 {
            found.push(name.name());
        }
    }
    found.as_slice() == names
}

/// Whether a finding is this linearization.
pub fn is_order(finding: &Finding, order: &[OpId]) -> bool {
    match finding {
        Finding::Sound(found) => has_names(found, order),
        _ => false,
    }
}

/// Whether a replay of `steps` steps comes to this.
fn has_end(replay: &Replay<Atomic>, steps: u64, end: End) -> bool {
    match end {
        Ok(order) => is_order(&replay.finding, order) && replay.state.steps() == steps,
        Err(_) => false,
    }
}

/// What a schedule of the two inserts reaches.
fn end_of(alloc: Global, schedule: &[u8]) -> Result<Box<Replay<Atomic>>, Broken> {
    let program = program_of(alloc, TWO_INSERTS)?;
    replayed(alloc, Atomic, &program, schedule)
}

/// Whether a schedule comes to this.
fn ends(alloc: Global, schedule: &[u8], end: End) -> Result<bool, Broken> {
    match end_of(alloc, schedule) {
        Ok(replay) => Ok(has_end(&replay, schedule.len() as u64, end)),
        Err(Broken::NotEnabled(at)) => Ok(matches!(end, Err(step) if step == at)),
        Err(broken) => Err(broken),
    }
}

#[test]
fn schedules_are_replayed(rt: HostRuntime) -> Result<(), Fail> {
    let alloc = rt.alloc();
    for (schedule, end) in ENDS {
        let is_so = settled!(ends(alloc, schedule, end))?;
        assert!(rt; is_so, "{schedule:?}");
    }
    Ok(())
}

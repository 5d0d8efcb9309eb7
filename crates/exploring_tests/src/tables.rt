//! Explorations, by one worker, by each number of workers, and by workers that a gate holds now and then.
use crate::alone::explores_alone;
use crate::answers::Runtime;
use crate::held::explores_held;
use crate::known::{
    AMPLE, CLOSING, Exploration, FAULTS, IN_TURN, Known, ONE_THREAD, STOPS, Stops, TIGHT,
    TWO_THREADS, WHOLE,
};
use crate::ledger::Counts;
use crate::together::{explores_by_two, explores_together};
use book::Merge;
use sched_program::OutOfMemory;
use std::test::Fail;

/// Who explores.
pub enum By {
    /// One worker.
    Alone,
    /// One worker, and each of these numbers of workers.
    Together(&'static [u8]),
    /// Two workers, who count this in all.
    Two(Counts),
    /// Each number of workers, whom a gate holds now and then.
    Held,
}

static ALONE: By = By::Alone;

static SOME: By = By::Together(&[2, 8]);

static ALL: By = By::Together(&[2, 3, 4, 5, 6, 7, 8]);

static HELD: By = By::Held;

/// Whether the exploration comes to what is known of it. Its bounds are printed where it does not.
fn explores<R: Runtime>(rt: &R, by: &By, exploration: &Exploration) -> Result<bool, OutOfMemory> {
    let is_met = match by {
        By::Alone => explores_alone(rt, exploration),
        By::Together(crews) => explores_together(rt, exploration, crews),
        By::Two(counts) => explores_by_two(rt, exploration, *counts),
        By::Held => explores_held(rt, exploration),
    }?;
    if !is_met {
        let Exploration {
            steps,
            merge,
            limit,
            ..
        } = exploration;
        let _ = println!(rt; "{steps} steps, merged by {merge:?}, at most {limit} states");
    }
    Ok(is_met)
}

/// Fails unless the exploration of this number in its table comes to what is known of it. It is tried once more where
/// memory was refused: a run of the tests refuses one request at most.
pub fn check<R: Runtime>(
    rt: &R,
    number: usize,
    by: &By,
    exploration: &Exploration,
) -> Result<(), Fail> {
    let answer = match explores(rt, by, exploration) {
        Err(OutOfMemory) => explores(rt, by, exploration),
        answer => answer,
    };
    if answer == Ok(true) {
        return Ok(());
    }
    println!(rt; "case {number}, counted from 0: {answer:?}")?;
    Err(Fail::from("another answer, or memory refused twice"))
}

/// Fails unless each program comes to what is known of it, by both ways to merge.
fn explores_all<R: Runtime>(rt: &R, by: &By, table: &[Known]) -> Result<(), Fail> {
    for (number, known) in table.iter().enumerate() {
        for merge in [Merge::Exact, Merge::Names] {
            check(rt, number, by, &known.exploration(merge, AMPLE))?;
        }
    }
    Ok(())
}

/// Fails unless each program comes to what is known of it where no more states are allowed than are reached.
fn fits_all<R: Runtime>(rt: &R, by: &By, table: &[Known]) -> Result<(), Fail> {
    for (number, known) in table.iter().enumerate() {
        for merge in [Merge::Exact, Merge::Names] {
            let limit = known.states(merge);
            check(rt, number, by, &known.exploration(merge, limit))?;
        }
    }
    Ok(())
}

/// Fails unless each program is stopped at each of its limits.
fn stops_all<R: Runtime>(rt: &R, by: &By, table: &[Stops]) -> Result<(), Fail> {
    for (number, stops) in table.iter().enumerate() {
        for limit in stops.limits() {
            check(rt, number, by, &stops.exploration(limit))?;
        }
    }
    Ok(())
}

#[test]
fn one_worker_explores_one_thread(rt: HostRuntime) -> Result<(), Fail> {
    explores_all(&rt, &ALONE, ONE_THREAD.as_slice())
}

#[test]
fn one_worker_explores_two_threads(rt: HostRuntime) -> Result<(), Fail> {
    explores_all(&rt, &ALONE, TWO_THREADS.as_slice())
}

#[test]
fn operations_wait_their_turn(rt: HostRuntime) -> Result<(), Fail> {
    explores_all(&rt, &ALONE, IN_TURN.as_slice())?;
    explores_all(&rt, &SOME, IN_TURN.as_slice())
}

#[test]
fn one_worker_explores_whole_programs(rt: HostRuntime) -> Result<(), Fail> {
    explores_all(&rt, &ALONE, WHOLE.as_slice())
}

#[test]
fn one_worker_finds_the_faults_of_the_variants(rt: HostRuntime) -> Result<(), Fail> {
    explores_all(&rt, &ALONE, FAULTS.as_slice())
}

#[test]
fn one_worker_needs_no_higher_limit(rt: HostRuntime) -> Result<(), Fail> {
    fits_all(&rt, &ALONE, TIGHT.as_slice())
}

#[test]
fn one_worker_stops_at_the_limit(rt: HostRuntime) -> Result<(), Fail> {
    stops_all(&rt, &ALONE, STOPS.as_slice())
}

#[test]
fn workers_explore_one_thread(rt: HostRuntime) -> Result<(), Fail> {
    explores_all(&rt, &SOME, ONE_THREAD.as_slice())
}

#[test]
fn workers_explore_two_threads(rt: HostRuntime) -> Result<(), Fail> {
    explores_all(&rt, &SOME, TWO_THREADS.as_slice())
}

#[test]
fn workers_find_the_faults_of_the_variants(rt: HostRuntime) -> Result<(), Fail> {
    explores_all(&rt, &SOME, FAULTS.as_slice())
}

#[test]
fn workers_need_no_higher_limit(rt: HostRuntime) -> Result<(), Fail> {
    fits_all(&rt, &ALL, TIGHT.as_slice())
}

#[test]
fn workers_stop_at_the_limit(rt: HostRuntime) -> Result<(), Fail> {
    stops_all(&rt, &ALL, STOPS.as_slice())
}

#[test]
fn every_schedule_holds_from_the_step_that_closes(rt: HostRuntime) -> Result<(), Fail> {
    for (number, closing) in CLOSING.iter().enumerate() {
        for steps in closing.steps() {
            check(&rt, number, &SOME, &closing.exploration(steps))?;
        }
    }
    Ok(())
}

#[test]
fn held_workers_explore_one_thread(rt: HostRuntime) -> Result<(), Fail> {
    explores_all(&rt, &HELD, ONE_THREAD.as_slice())
}

#[test]
fn held_workers_explore_two_threads(rt: HostRuntime) -> Result<(), Fail> {
    explores_all(&rt, &HELD, TWO_THREADS.as_slice())
}

#[test]
fn held_workers_find_the_faults_of_the_variants(rt: HostRuntime) -> Result<(), Fail> {
    explores_all(&rt, &HELD, FAULTS.as_slice())
}

#[test]
fn held_workers_need_no_higher_limit(rt: HostRuntime) -> Result<(), Fail> {
    fits_all(&rt, &HELD, TIGHT.as_slice())
}

#[test]
fn held_workers_stop_at_the_limit(rt: HostRuntime) -> Result<(), Fail> {
    stops_all(&rt, &HELD, STOPS.as_slice())
}

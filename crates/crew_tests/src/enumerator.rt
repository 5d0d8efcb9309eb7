//! Random programs on `Atomic`, explored beside a plain enumerator, which replays every schedule and keeps the set of
//! the states.
ghost use Rattle.std.specs.Prelude.{◌<◌};

use crate::summary::{Bounds, Line, explored, program_of};
use book::{Merge, ReplayFault, replay};
use crew::Open;
use sched_program::{OutOfMemory, Program};
use std::alloc::{AllocError, Global};
use std::mem;
use std::process::Abort;
use std::sync::Wait;
use std::thread::Threads;
use tree_machine::{Atomic, State};

/// Numbers of no pattern (a linear congruential generator).
#[derive(Clone, Copy)]
struct Random {
    seed: u64,
}

impl Random {
    fn below(&mut self, bound: u8) -> u8
        requires { 0 < bound }
        ensures { result < bound }
    {
        self.seed = self
            .seed
            .wrapping_mul(6_364_136_223_846_793_005)
            .wrapping_add(1_442_695_040_888_963_407);
        ((self.seed >> 56) as u8) % bound
    }
}

/// The beginnings of the texts of operations, up to their keys.
const OPERATIONS: [&[u8]; 3] = [
    b"{\"op\":\"insert\",\"key\":",
    b"{\"op\":\"delete\",\"key\":",
    b"{\"op\":\"find\",\"key\":",
];

/// The text of a random operation.
fn put_operation(text: &mut Vec<u8>, random: &mut Random) -> Result<(), AllocError> {
    text.extend_from_slice(OPERATIONS[usize::from(random.below(3))])?;
    text.push(b'0' + random.below(3))?;
    text.push(b'}')?;
    Ok(())
}

/// The text of a thread of one or two operations.
fn put_thread(text: &mut Vec<u8>, random: &mut Random) -> Result<(), AllocError> {
    text.push(b'[')?;
    for index in 0..1 + random.below(2) {
        if index > 0 {
            text.push(b',')?;
        }
        put_operation(text, random)?;
    }
    text.push(b']')?;
    Ok(())
}

/// The text of two or three threads, each of one or two operations on the keys 0 to 2.
fn put_threads(text: &mut Vec<u8>, random: &mut Random) -> Result<(), AllocError> {
    for thread in 0..2 + random.below(2) {
        if thread > 0 {
            text.push(b',')?;
        }
        put_thread(text, random)?;
    }
    Ok(())
}

/// The text of a random program.
fn text_of(alloc: Global, random: &mut Random) -> Result<Vec<u8>, AllocError> {
    let mut text = Vec::new(alloc);
    text.extend_from_slice(b"{\"version\":1,\"tree\":\"atomic\",\"initial\":[1],\"threads\":[")?;
    put_threads(&mut text, random)?;
    text.extend_from_slice(b"]}")?;
    Ok(text)
}

/// The state after a schedule, which is sound; none if a thread of it is not enabled.
fn state_after(
    rt: &impl Abort,
    alloc: Global,
    program: &Program,
    schedule: &[u8],
) -> Result<Option<Box<State<Atomic>>>, OutOfMemory> {
    match replay(alloc, Atomic, program, schedule) {
        Ok(end) => {
            assert!(rt; end.finding.is_sound());
            Ok(Some(Box::new(alloc, end.state)?))
        }
        Err(ReplayFault::NotEnabled(_)) => Ok(None),
        Err(ReplayFault::OutOfMemory) => Err(OutOfMemory),
    }
}

/// The schedules of one length whose threads are enabled, and the states that they and the shorter ones reach.
#[derive(Drop)]
struct Reached {
    schedules: Vec<Vec<u8>>,
    states: Vec<Box<State<Atomic>>>,
}

impl Reached {
    fn new(alloc: Global) -> Reached {
        Reached {
            schedules: Vec::new(alloc),
            states: Vec::new(alloc),
        }
    }

    /// Puts a state into the set.
    fn put_state(&mut self, state: Box<State<Atomic>>) -> Result<(), OutOfMemory> {
        if !self.states.iter().any(|other| **other == *state) {
            self.states.push(state)?;
        }
        Ok(())
    }

    /// Adds a schedule and its state, if its threads are enabled.
    fn put(
        &mut self,
        rt: &impl Abort,
        alloc: Global,
        program: &Program,
        schedule: Vec<u8>,
    ) -> Result<(), OutOfMemory> {
        if let Some(state) = state_after(rt, alloc, program, schedule.as_slice())? {
            self.put_state(state)?;
            self.schedules.push(schedule)?;
        }
        Ok(())
    }

    /// Replaces the schedules by those with one more step.
    fn put_longer(
        &mut self,
        rt: &impl Abort,
        alloc: Global,
        program: &Program,
    ) -> Result<(), OutOfMemory> {
        let shorter = mem::replace(&mut self.schedules, Vec::new(alloc));
        for schedule in &shorter {
            for thread in 0..3u8 {
                let longer = longer_by(alloc, schedule.as_slice(), thread)?;
                self.put(rt, alloc, program, longer)?;
            }
        }
        Ok(())
    }
}

/// A schedule with one more step.
fn longer_by(alloc: Global, schedule: &[u8], thread: u8) -> Result<Vec<u8>, AllocError> {
    let mut longer = schedule.to_vec(alloc)?;
    longer.push(thread)?;
    Ok(longer)
}

/// The answer by every schedule, and the number of states.
fn enumerate(
    rt: &impl Abort,
    alloc: Global,
    program: &Program,
    bounds: Bounds,
    reached: &mut Reached,
) -> Result<(Line, usize), OutOfMemory> {
    reached.put(rt, alloc, program, Vec::new(alloc))?;
    for depth in 0..bounds.steps {
        reached.put_longer(rt, alloc, program)?;
        if reached.states.len() > bounds.limit as usize {
            return Ok((Line::Stopped(bounds.limit, depth), reached.states.len()));
        }
    }
    Ok((Line::Holds(bounds.steps), reached.states.len()))
}

/// Compares the exploration with the enumerator on one program.
fn compare<R: Abort + Threads + Wait + Sync>(
    rt: &R,
    alloc: Global,
    program: &Program,
    bounds: Bounds,
) -> Result<(), OutOfMemory> {
    let summary = explored(rt, alloc, Atomic, program, bounds, &Open)?;
    let mut reached = Box::new(alloc, Reached::new(alloc))?;
    let (line, count) = enumerate(rt, alloc, program, bounds, &mut *reached)?;
    assert_eq!(rt; summary.line, line);
    if let Line::Holds(_) = line {
        assert_eq!(rt; summary.totals.entries, count);
    }
    Ok(())
}

/// Compares the exploration with the enumerator on the program of a text, within several bounds.
fn compare_within<R: Abort + Threads + Wait + Sync>(
    rt: &R,
    alloc: Global,
    text: &[u8],
    workers: u8,
) -> Result<(), OutOfMemory> {
    let program = program_of(rt, alloc, text)?;
    for (steps, limit) in [(0, 1), (2, 9), (3, 12), (4, 20), (6, 30), (6, 200_000)] {
        let bounds = Bounds {
            steps,
            limit,
            merge: Merge::Exact,
            workers,
        };
        compare(rt, alloc, &*program, bounds)?;
    }
    Ok(())
}

/// Compares the exploration with the enumerator on the next random program. The program after it is made from the
/// numbers that are returned.
fn compare_next<R: Abort + Threads + Wait + Sync>(
    rt: &R,
    alloc: Global,
    mut random: Random,
    workers: u8,
) -> Result<Random, OutOfMemory> {
    let text = text_of(alloc, &mut random)?;
    compare_within(rt, alloc, text.as_slice(), workers)?;
    Ok(random)
}

#[test]
fn the_answers_are_those_of_every_schedule(rt: HostRuntime) {
    let mut random = Random { seed: 2026 };
    for program in 0..20u8 {
        let workers = 1 + program % 8;
        // Once more where a growth was refused, which happens once at most.
        random = match compare_next(&rt, rt.alloc(), random, workers) {
            Ok(next) => next,
            Err(_) => {
                let next = compare_next(&rt, rt.alloc(), random, workers);
                next.expect(&rt, "out of memory twice")
            }
        };
    }
}

//! What an exploration reports, without its book, and how the tests run one.
use book::{Finding, Merge, Totals};
use crew::{Answer, Gate, Options, Report, Share, explore};
use sched_program::{OutOfMemory, Program, ProgramFault};
use std::alloc::Global;
use std::process::Abort;
use std::sync::Wait;
use std::thread::Threads;
use tree_machine::Encode;

/// An answer with its numbers: none where every schedule holds, the steps that hold, the length of a fault, the limit
/// and the steps.
#[derive(Clone, Copy, Debug, PartialEq, Eq)]
pub enum Line {
    Every,
    Holds(u16),
    Astray(usize),
    Order(usize),
    History(usize),
    Sound(usize),
    Stopped(u32, u16),
}

/// How far an exploration goes, how it merges states, and by how many workers.
#[derive(Clone, Copy)]
pub struct Bounds {
    pub steps: u16,
    pub limit: u32,
    pub merge: Merge,
    pub workers: u8,
}

/// What the tests compare of a report.
#[derive(Drop)]
pub struct Summary {
    pub line: Line,
    /// The schedule of a fault; empty for another answer.
    pub schedule: Vec<u8>,
    pub totals: Totals,
    pub shares: Vec<Share>,
}

/// An answer with its numbers, and the schedule of a fault, which is empty for another answer.
fn line_of(alloc: Global, answer: Answer) -> (Line, Vec<u8>) {
    match answer {
        Answer::Every => (Line::Every, Vec::new(alloc)),
        Answer::Holds { steps } => (Line::Holds(steps), Vec::new(alloc)),
        Answer::Stopped { limit, holds_to } => (Line::Stopped(limit, holds_to), Vec::new(alloc)),
        Answer::Fault { finding, schedule } => {
            let len = schedule.len();
            let line = match finding {
                Finding::Astray => Line::Astray(len),
                Finding::Order => Line::Order(len),
                Finding::History => Line::History(len),
                Finding::Sound(_) => Line::Sound(len),
            };
            (line, schedule)
        }
    }
}

/// The program of a text that is one.
pub fn program_of(
    rt: &impl Abort,
    alloc: Global,
    text: &[u8],
) -> Result<Box<Program>, OutOfMemory> {
    match Program::from_json(alloc, text) {
        Ok(program) => Ok(Box::new(alloc, program)?),
        Err(fault) => {
            assert_eq!(rt; fault, ProgramFault::OutOfMemory);
            Err(OutOfMemory)
        }
    }
}

/// An exploration within bounds that are in range. The book is dropped here, so that no test holds one.
pub fn explored<M: Encode, G: Gate, R: Abort + Threads + Wait + Sync>(
    rt: &R,
    alloc: Global,
    machine: M,
    program: &Program,
    bounds: Bounds,
    gate: &G,
) -> Result<Box<Summary>, OutOfMemory> {
    let options = Options::new(bounds.steps, bounds.limit, bounds.merge, bounds.workers);
    let options = options.expect(rt, "bounds in range");
    let Report {
        answer,
        totals,
        shares,
        book: _,
    } = explore(rt, alloc, machine, program, options, gate)?;
    let (line, schedule) = line_of(alloc, answer);
    let summary = Summary {
        line,
        schedule,
        totals,
        shares,
    };
    Ok(Box::new(alloc, summary)?)
}

/// What an exploration of the program of a text reports.
pub fn summary_of<M: Encode, G: Gate, R: Abort + Threads + Wait + Sync>(
    rt: &R,
    alloc: Global,
    machine: M,
    text: &[u8],
    bounds: Bounds,
    gate: &G,
) -> Result<Box<Summary>, OutOfMemory> {
    let program = program_of(rt, alloc, text)?;
    explored(rt, alloc, machine, &*program, bounds, gate)
}

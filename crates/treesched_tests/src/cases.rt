//! Cases, and tables of them.
use crate::answers::{Wanted, answers, checks};
use crate::books::closes;
use crate::command_lines::{Asked, asks};
use crate::devices::{Device, works};
use crate::faults::{is_shown, is_shown_with_its_line};
use crate::programs::nests;
use crate::replaying::{replays, replays_zeros};
use book::CheckFault;
use sched_program::{OutOfMemory, ProgramFault};
use std::sync::Wait;
use std::test::Fail;
use std::thread::Threads;

/// What the tests ask of the runtime: memory, a place to print, and threads.
pub trait Runtime: AllocGlobal + Print + Sync + Threads + Wait {}

impl<R: AllocGlobal + Print + Sync + Threads + Wait> Runtime for R {}

/// A case.
#[derive(Clone, Copy)]
pub enum Case<'a> {
    /// The words of a line, what FILE has, and what is answered.
    Line(&'a str, &'a [u8], Wanted<'a>),
    /// How many opening brackets FILE has, with the same number of closing ones, and what is answered.
    Nested(usize, Wanted<'a>),
    /// A schedule, the program that it is replayed of, and what is answered.
    Replay(&'a str, &'a [u8], Wanted<'a>),
    /// How many steps of the first of two threads, which has one step, are replayed, and what is answered.
    Zeros(usize, Wanted<'a>),
    /// A book file, the program that it is checked against, and what is answered.
    Check(&'a [u8], &'a [u8], Wanted<'a>),
    /// The words of an exploration with a book file, the program, and the line of the states: every schedule is
    /// reported to hold, and the book passes.
    Closes(&'a str, &'a [u8], &'a str),
    /// A reader or a writer that fails.
    Works(Device<'a>),
    /// Words, and what they ask for.
    Reads(&'a [&'a str], Asked),
    /// A fault of a program, whose text is what `Display` shows of it.
    Shows(ProgramFault),
    /// A fault of a book file, whose text is what `Display` shows of it.
    ShowsLine(CheckFault),
}

impl Case<'_> {
    /// Whether it is met.
    fn is_met<R: Runtime>(&self, rt: &R) -> Result<bool, OutOfMemory> {
        match self {
            Case::Line(line, file, wanted) => answers(rt, line, file, wanted),
            Case::Nested(count, wanted) => nests(rt, *count, wanted),
            Case::Replay(schedule, file, wanted) => replays(rt, schedule, file, wanted),
            Case::Zeros(count, wanted) => replays_zeros(rt, *count, wanted),
            Case::Check(book, file, wanted) => checks(rt, book, file, wanted),
            Case::Closes(line, file, states) => closes(rt, line, file, states),
            Case::Works(device) => works(rt, device),
            Case::Reads(words, asked) => asks(rt.alloc(), words, asked),
            Case::Shows(fault) => is_shown(rt.alloc(), *fault),
            Case::ShowsLine(fault) => is_shown_with_its_line(rt.alloc(), *fault),
        }
    }
}

/// Fails unless each case of the table is met.
pub fn check_all<R: Runtime>(rt: &R, cases: &[Case<'_>]) -> Result<(), Fail> {
    for (number, case) in cases.iter().enumerate() {
        check(rt, number, case)?;
    }
    Ok(())
}

/// Fails unless the case of this number is met. It is tried once more where memory was refused: a run of the tests
/// refuses one request at most.
pub fn check<R: Runtime>(rt: &R, number: usize, case: &Case<'_>) -> Result<(), Fail> {
    let answer = match case.is_met(rt) {
        Err(OutOfMemory) => case.is_met(rt),
        answer => answer,
    };
    if answer == Ok(true) {
        return Ok(());
    }
    println!(rt; "case {number}, counted from 0: {answer:?}")?;
    Err(Fail::from("another answer, or memory refused twice"))
}

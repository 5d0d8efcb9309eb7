//! Book files, as bytes.

use crate::fixtures::{Broken, TWO_INSERTS, program_of, settled};
use crate::straying::Straying;
use book::{CheckFault, check_book};
use natmit::NatMit;
use sched_program::Program;
use std::alloc::Global;
use std::process::Abort;
use std::test::Fail;
use tree_machine::Atomic;

/// A text, and how many entries it has if it passes, or what it is refused for.
type Case = (&'static str, Result<usize, CheckFault>);

/// Files of the two inserts: as a book writes it; with an entry more that is alike to another; with a state that is
/// entered before one of fewer steps; and with two entries that are alike, each with a step of its own.
static PASSING: [Case; 4] = [
    (
        "treesched book 1 entries 5\n- - -\n0 0 0.0\n0 1 1.0\n1 1 0.0,1.0\n2 0 1.0,0.0\n",
        Ok(5),
    ),
    (
        "treesched book 1 entries 6\n- - -\n0 0 0.0\n0 1 1.0\n1 1 0.0,1.0\n2 0 1.0,0.0\n1 1 0.0,1.0\n",
        Ok(6),
    ),
    (
        "treesched book 1 entries 5\n- - -\n0 1 1.0\n1 0 1.0,0.0\n0 0 0.0\n3 1 0.0,1.0\n",
        Ok(5),
    ),
    (
        "treesched book 1 entries 7\n- - -\n0 1 1.0\n0 0 0.0\n0 0 0.0\n3 1 0.0,1.0\n2 1 0.0,1.0\n1 0 1.0,0.0\n",
        Ok(7),
    ),
];

/// Files of the two inserts that are in the form, but are wrong.
static AMISS: [Case; 10] = [
    (
        "treesched book 1 entries 5\n- - -\n0 0 0.0\n0 1 1.0\n1 1 1.0,0.0\n2 0 1.0,0.0\n",
        Err(CheckFault::History(5)),
    ),
    (
        "treesched book 1 entries 5\n- - -\n0 0 0.0\n0 1 1.0\n3 1 0.0,1.0\n2 0 1.0,0.0\n",
        Err(CheckFault::Parent(5)),
    ),
    (
        "treesched book 1 entries 4\n- - -\n0 0 0.0\n0 1 1.0\n2000000 1 0.0,1.0\n",
        Err(CheckFault::Parent(5)),
    ),
    (
        "treesched book 1 entries 3\n- - -\n0 0 0.0\n99999999999999999999999 1 1.0\n",
        Err(CheckFault::Parent(4)),
    ),
    (
        "treesched book 1 entries 5\n- - -\n0 0 0.0\n0 1 1.0\n1 0 0.0,1.0\n2 0 1.0,0.0\n",
        Err(CheckFault::Step(5)),
    ),
    (
        "treesched book 1 entries 2\n- - -\n0 9 0.0\n",
        Err(CheckFault::Step(3)),
    ),
    (
        "treesched book 1 entries 2\n- - -\n0 0 0.0,9.9\n",
        Err(CheckFault::History(3)),
    ),
    (
        "treesched book 1 entries 2\n- - -\n0 0 -\n",
        Err(CheckFault::History(3)),
    ),
    (
        "treesched book 1 entries 4\n- - -\n0 0 0.0\n0 1 1.0\n1 1 0.0,1.0\n",
        Err(CheckFault::Open(4)),
    ),
    (
        "treesched book 1 entries 1\n- - -\n",
        Err(CheckFault::Open(2)),
    ),
];

/// Texts that are not in the form, each with its first line that is not.
static MISFORMED: [Case; 27] = [
    ("", Err(CheckFault::Form(1))),
    (
        "treesched book 1 entries 5\n- - -\n0 0 0.0\n0 1 1.0\n1 1 0.0,1.0\n",
        Err(CheckFault::Form(1)),
    ),
    (
        "treesched book 1 entries 5\n- - -\n0 0 0.0\n00 1 1.0\n1 1 0.0,1.0\n2 0 1.0,0.0\n",
        Err(CheckFault::Form(4)),
    ),
    ("\n", Err(CheckFault::Form(1))),
    ("treesched book 1 entries 1", Err(CheckFault::Form(1))),
    ("treesched book 1 entries 1\n", Err(CheckFault::Form(1))),
    (
        "treesched book 1 entries 1\n- - -",
        Err(CheckFault::Form(1)),
    ),
    (
        "treesched book 1 entries 1\n- - -\nx",
        Err(CheckFault::Form(1)),
    ),
    (
        "treesched book 1 entries 1\n- - -\n\n",
        Err(CheckFault::Form(1)),
    ),
    (
        "treesched book 1 entries 1\n- - -\n0 0 -\n",
        Err(CheckFault::Form(1)),
    ),
    (
        "treesched book 1 entries 2\n- - -\n",
        Err(CheckFault::Form(1)),
    ),
    (
        "treesched book 1 entries 2\n0 0 -\n",
        Err(CheckFault::Form(1)),
    ),
    ("treesched book 1 entries 0\n", Err(CheckFault::Form(1))),
    (
        "treesched book 1 entries 0\n- - -\n",
        Err(CheckFault::Form(1)),
    ),
    (
        "treesched book 1 entries 01\n- - -\n",
        Err(CheckFault::Form(1)),
    ),
    (
        "treesched book 1 entries -1\n- - -\n",
        Err(CheckFault::Form(1)),
    ),
    (
        "treesched book 1 entries 2000001\n- - -\n",
        Err(CheckFault::Form(1)),
    ),
    (
        "treesched book 1 entries 18446744073709551617\n- - -\n",
        Err(CheckFault::Form(1)),
    ),
    (
        "treesched book 1 entries \n- - -\n",
        Err(CheckFault::Form(1)),
    ),
    (
        "treesched book 1 entries 1 \n- - -\n",
        Err(CheckFault::Form(1)),
    ),
    (
        "treesched book 2 entries 1\n- - -\n",
        Err(CheckFault::Form(1)),
    ),
    (
        "treesched book 1 entries 1\r\n- - -\r\n",
        Err(CheckFault::Form(1)),
    ),
    (
        "treesched book 1 entries 1\n- - -\r\n",
        Err(CheckFault::Form(2)),
    ),
    ("treesched book 1 entries 1\n\n", Err(CheckFault::Form(2))),
    (
        "treesched book 1 entries 2\n0 0 -\n00 0 -\n",
        Err(CheckFault::Form(2)),
    ),
    (
        "treesched book 1 entries 4\n- - -\n0 0 -\n0 1 1.0\n1 0 x\n",
        Err(CheckFault::Form(5)),
    ),
    (
        "treesched book 1 entries 4\n- - -\n0 0 -\n0 1 x\n1 0 x\n",
        Err(CheckFault::Form(4)),
    ),
];

/// One thread that inserts 5.
const ONE_INSERT: &str =
    r#"{"version":1,"tree":"nm","initial":[],"threads":[[{"op":"insert","key":5}]]}"#;

/// Files of one insert on a tree: while it is pending, it may be in the order or not.
static OF_A_TREE: [Case; 3] = [
    ("treesched book 1 entries 3\n- - -\n0 0 -\n1 0 0.0\n", Ok(3)),
    (
        "treesched book 1 entries 3\n- - -\n0 0 0.0\n1 0 0.0\n",
        Ok(3),
    ),
    (
        "treesched book 1 entries 2\n- - -\n0 0 -\n",
        Err(CheckFault::Open(3)),
    ),
];

/// A file of a machine whose second step goes astray.
static ASTRAY: [Case; 1] = [(
    "treesched book 1 entries 3\n- - -\n0 0 -\n1 0 -\n",
    Err(CheckFault::Fault(4)),
)];

/// A machine, with the program whose files are judged.
#[derive(Clone, Copy)]
pub enum Subject {
    /// The two inserts.
    Inserts,
    /// One insert on a tree.
    Tree,
    /// The two inserts on a machine that goes astray.
    Straying,
}

impl Subject {
    fn program(self) -> &'static str {
        match self {
            Subject::Inserts | Subject::Straying => TWO_INSERTS,
            Subject::Tree => ONE_INSERT,
        }
    }

    fn check(self, alloc: Global, program: &Program, text: &[u8]) -> Result<usize, CheckFault> {
        match self {
            Subject::Inserts => check_book(alloc, Atomic, program, text),
            Subject::Tree => check_book(alloc, NatMit { tag: true }, program, text),
            Subject::Straying => check_book(alloc, Straying, program, text),
        }
    }

    /// What the check of a text returns.
    fn answer(self, alloc: Global, text: &str) -> Result<Result<usize, CheckFault>, Broken> {
        let program = program_of(alloc, self.program())?;
        Ok(self.check(alloc, &program, text.as_bytes()))
    }
}

/// Whether the check of a text returns this answer.
pub fn is_answer(
    alloc: Global,
    subject: Subject,
    text: &str,
    answer: Result<usize, CheckFault>,
) -> Result<bool, Broken> {
    match subject.answer(alloc, text)? {
        Err(CheckFault::OutOfMemory) => Err(Broken::OutOfMemory),
        found => Ok(found == answer),
    }
}

/// Fails unless each text is judged as it should be.
fn judges_all(
    rt: &(impl AllocGlobal + Abort),
    subject: Subject,
    cases: &[Case],
) -> Result<(), Fail> {
    let alloc = rt.alloc();
    for (text, answer) in cases {
        let is_so = settled!(is_answer(alloc, subject, text, *answer))?;
        assert!(rt; is_so, "{text}");
    }
    Ok(())
}

#[test]
fn files_pass(rt: HostRuntime) -> Result<(), Fail> {
    judges_all(&rt, Subject::Inserts, PASSING.as_slice())
}

#[test]
fn the_first_that_is_amiss_is_reported(rt: HostRuntime) -> Result<(), Fail> {
    judges_all(&rt, Subject::Inserts, AMISS.as_slice())
}

#[test]
fn the_first_misformed_line_is_reported(rt: HostRuntime) -> Result<(), Fail> {
    judges_all(&rt, Subject::Inserts, MISFORMED.as_slice())
}

#[test]
fn files_of_a_tree_are_judged(rt: HostRuntime) -> Result<(), Fail> {
    judges_all(&rt, Subject::Tree, OF_A_TREE.as_slice())
}

#[test]
fn a_state_astray_is_reported(rt: HostRuntime) -> Result<(), Fail> {
    judges_all(&rt, Subject::Straying, ASTRAY.as_slice())
}

/// Each fault with its text.
static SHOWN: [(CheckFault, &str); 7] = [
    (CheckFault::Form(1), "C1 at line 1"),
    (CheckFault::Parent(5), "C2 at line 5"),
    (CheckFault::Step(5), "C3 at line 5"),
    (CheckFault::Fault(4), "C4 at line 4"),
    (CheckFault::History(12), "C5 at line 12"),
    (CheckFault::Open(3), "C6 at line 3"),
    (CheckFault::OutOfMemory, "C7"),
];

fn is_shown(alloc: Global, fault: CheckFault, text: &str) -> Result<bool, Broken> {
    Ok(format!(in alloc; "{fault}")?.as_str() == text)
}

#[test]
fn faults_are_shown(rt: HostRuntime) -> Result<(), Fail> {
    let alloc = rt.alloc();
    for (fault, text) in SHOWN.as_slice() {
        let is_so = settled!(is_shown(alloc, *fault, text))?;
        assert!(rt; is_so, "{text}");
    }
    Ok(())
}

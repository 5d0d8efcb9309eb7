//! Book files: what is written for programs, and what is reported of files.
use crate::answers::{Wanted, answer_to, checks};
use crate::cases::{Case, Runtime, check_all};
use crate::sources::{ELLEN_NO_MARK, TWO_FINDS, TWO_IN_TURN, TWO_INSERTS};
use sched_program::OutOfMemory;
use std::test::Fail;

/// The book of two inserts.
pub const BOOK: &[u8] =
    b"treesched book 1 entries 5\n- - -\n0 0 0.0\n0 1 1.0\n1 1 0.0,1.0\n2 0 1.0,0.0\n";

/// One insert on the tree of Natarajan and Mittal.
const NM_ALONE: &[u8] =
    br#"{"version":1,"tree":"nm","initial":[],"threads":[[{"op":"insert","key":5}]]}"#;

/// Two inserts there.
const NM_TWO: &[u8] =
    br#"{"version":1,"tree":"nm","initial":[10,20],"threads":[[{"op":"insert","key":5}],[{"op":"insert","key":25}]]}"#;

/// Whether every schedule is reported to hold, with this line of the states, and the book passes.
pub fn closes<R: Runtime>(
    rt: &R,
    line: &str,
    file: &[u8],
    states: &str,
) -> Result<bool, OutOfMemory> {
    let output = answer_to(rt, line, file)?;
    let holds = Wanted::Holds(states).is_met(rt, &output);
    match &output.book {
        Some(book) if holds => checks(rt, book.as_slice(), file, &Wanted::Passes(states)),
        _ => Ok(false),
    }
}

static CLOSED: [Case<'static>; 13] = [
    Case::Closes(
        "treesched explore f --merge names --steps 3 --book b",
        TWO_INSERTS,
        "states 5\n",
    ),
    Case::Closes(
        "treesched explore f --merge names --steps 3 --book b",
        NM_ALONE,
        "states 3\n",
    ),
    Case::Closes(
        "treesched explore f --merge names --steps 5 --book b",
        TWO_FINDS,
        "states 13\n",
    ),
    Case::Closes(
        "treesched explore f --merge names --steps 5 --book b --workers 2",
        TWO_FINDS,
        "states 13\n",
    ),
    Case::Closes(
        "treesched explore f --merge names --steps 5 --book b --workers 8",
        TWO_FINDS,
        "states 13\n",
    ),
    Case::Closes(
        "treesched explore f --merge names --steps 9 --book b",
        NM_TWO,
        "states 33\n",
    ),
    Case::Closes(
        "treesched explore f --merge names --steps 9 --book b --workers 2",
        NM_TWO,
        "states 33\n",
    ),
    Case::Closes(
        "treesched explore f --merge names --steps 9 --book b --workers 8",
        NM_TWO,
        "states 33\n",
    ),
    Case::Closes(
        "treesched explore f --merge names --steps 400 --book b --states 33",
        NM_TWO,
        "states 33\n",
    ),
    Case::Closes(
        "treesched explore f --merge names --steps 3 --book b",
        TWO_IN_TURN,
        "states 3\n",
    ),
    Case::Closes(
        "treesched explore f --merge names --steps 3 --book b --workers 2",
        TWO_IN_TURN,
        "states 3\n",
    ),
    Case::Closes(
        "treesched explore f --merge names --steps 3 --book b --workers 8",
        TWO_IN_TURN,
        "states 3\n",
    ),
    Case::Closes(
        "treesched explore f --merge names --steps 400 --book b",
        TWO_INSERTS,
        "states 5\n",
    ),
];

#[test]
fn books_of_every_schedule_pass(rt: HostRuntime) -> Result<(), Fail> {
    check_all(&rt, CLOSED.as_slice())
}

static WRITTEN: [Case<'static>; 2] = [
    Case::Line(
        "treesched explore f --merge names --steps 3 --book b",
        TWO_INSERTS,
        Wanted::Book(BOOK),
    ),
    Case::Line(
        "treesched explore f --merge names --steps 3 --book b --ledger",
        TWO_INSERTS,
        Wanted::Book(BOOK),
    ),
];

#[test]
fn writes_the_book(rt: HostRuntime) -> Result<(), Fail> {
    check_all(&rt, WRITTEN.as_slice())
}

/// Explorations with another answer, and one for which no book is requested.
static NOT_WRITTEN: [Case<'static>; 5] = [
    Case::Line(
        "treesched explore f --merge names --steps 3",
        TWO_INSERTS,
        Wanted::NoBook,
    ),
    Case::Line(
        "treesched explore f --merge names --steps 2 --book b",
        TWO_INSERTS,
        Wanted::NoBook,
    ),
    Case::Line(
        "treesched explore f --merge names --steps 3 --states 4 --book b",
        TWO_INSERTS,
        Wanted::NoBook,
    ),
    Case::Line(
        "treesched explore f --merge names --steps 8 --book b",
        NM_TWO,
        Wanted::NoBook,
    ),
    Case::Line(
        "treesched explore f --merge names --steps 20 --book b",
        ELLEN_NO_MARK,
        Wanted::NoBook,
    ),
];

#[test]
fn writes_no_book_on_other_answers(rt: HostRuntime) -> Result<(), Fail> {
    check_all(&rt, NOT_WRITTEN.as_slice())
}

/// Books that pass, whoever wrote them.
static PASSING: [Case<'static>; 3] = [
    Case::Check(BOOK, TWO_INSERTS, Wanted::Passes("states 5\n")),
    Case::Check(
        b"treesched book 1 entries 6\n- - -\n0 0 0.0\n0 1 1.0\n1 1 0.0,1.0\n2 0 1.0,0.0\n1 1 0.0,1.0\n",
        TWO_INSERTS,
        Wanted::Passes("states 6\n"),
    ),
    Case::Check(
        b"treesched book 1 entries 3\n- - -\n0 0 -\n1 0 0.0\n",
        NM_ALONE,
        Wanted::Passes("states 3\n"),
    ),
];

#[test]
fn passes_books_of_others(rt: HostRuntime) -> Result<(), Fail> {
    check_all(&rt, PASSING.as_slice())
}

static REFUSED: [Case<'static>; 11] = [
    Case::Check(
        b"treesched book 1 entries 5\n- - -\n0 0 0.0\n0 1 1.0\n1 1 1.0,0.0\n2 0 1.0,0.0\n",
        TWO_INSERTS,
        Wanted::Tells(3, "treesched: book refused: C5 at line 5\n"),
    ),
    Case::Check(
        b"treesched book 1 entries 5\n- - -\n0 0 0.0\n0 1 1.0\n3 1 0.0,1.0\n2 0 1.0,0.0\n",
        TWO_INSERTS,
        Wanted::Tells(3, "treesched: book refused: C2 at line 5\n"),
    ),
    Case::Check(
        b"treesched book 1 entries 5\n- - -\n0 0 0.0\n0 1 1.0\n1 0 0.0,1.0\n2 0 1.0,0.0\n",
        TWO_INSERTS,
        Wanted::Tells(3, "treesched: book refused: C3 at line 5\n"),
    ),
    Case::Check(
        b"treesched book 1 entries 4\n- - -\n0 0 0.0\n0 1 1.0\n1 1 0.0,1.0\n",
        TWO_INSERTS,
        Wanted::Tells(3, "treesched: book refused: C6 at line 4\n"),
    ),
    Case::Check(
        b"treesched book 1 entries 5\n- - -\n0 0 0.0\n0 1 1.0\n1 1 0.0,1.0\n",
        TWO_INSERTS,
        Wanted::Tells(3, "treesched: book refused: C1 at line 1\n"),
    ),
    Case::Check(
        b"",
        TWO_INSERTS,
        Wanted::Tells(3, "treesched: book refused: C1 at line 1\n"),
    ),
    Case::Check(
        b"treesched book 1 entries 5\n- - -\n0 0 0.0\n00 1 1.0\n1 1 0.0,1.0\n2 0 1.0,0.0\n",
        TWO_INSERTS,
        Wanted::Tells(3, "treesched: book refused: C1 at line 4\n"),
    ),
    Case::Check(
        b"treesched book 1 entries 5\n0 0 -\n0 0 0.0\n0 1 1.0\n1 1 0.0,1.0\n2 0 1.0,0.0\n",
        TWO_INSERTS,
        Wanted::Tells(3, "treesched: book refused: C1 at line 2\n"),
    ),
    Case::Check(
        b"treesched book 1 entries 2\n- - -\n0 0 -\n",
        NM_ALONE,
        Wanted::Tells(3, "treesched: book refused: C6 at line 3\n"),
    ),
    Case::Check(
        BOOK,
        TWO_IN_TURN,
        Wanted::Tells(3, "treesched: book refused: C3 at line 4\n"),
    ),
    Case::Check(
        BOOK,
        NM_ALONE,
        Wanted::Tells(3, "treesched: book refused: C3 at line 4\n"),
    ),
];

#[test]
fn refuses_other_books(rt: HostRuntime) -> Result<(), Fail> {
    check_all(&rt, REFUSED.as_slice())
}

/// Programs that are refused: their book file is not judged.
static NO_PROGRAMS: [Case<'static>; 2] = [
    Case::Check(b"no book", b"", Wanted::Tells(3, "treesched: P1 NotJson\n")),
    Case::Check(
        b"no book",
        br#"{"version":3}"#,
        Wanted::Tells(3, "treesched: P3 Version\n"),
    ),
];

#[test]
fn judges_the_program_before_the_book(rt: HostRuntime) -> Result<(), Fail> {
    check_all(&rt, NO_PROGRAMS.as_slice())
}

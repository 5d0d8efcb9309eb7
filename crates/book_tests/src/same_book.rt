//! Books whose entries are expanded by their labels, beside those that are expanded by their
//! states.

use crate::by_label::expand_layers;
use crate::fixtures::{
    Broken, ELLEN, MERGES, NO_MARK, NO_TAG, NO_TAG_PROGRAM, TWO_FINDS, TWO_INSERTS, expand, open,
    settled, way_of,
};
use crate::picture::Picture;
use book::{Book, Merge};
use std::alloc::Global;
use std::test::Fail;
use tree_machine::{Atomic, Encode};

/// A machine with a program.
#[derive(Clone, Copy, Debug)]
enum Subject {
    /// Two inserts, each done at once.
    Inserts,
    /// Two finds in Ellen's tree.
    Finds,
    /// A delete, and an insert with a find, in Ellen's tree without marks.
    NoMark,
    /// A delete, and an insert with a find, in the tree of Natarajan and Mittal without tags.
    NoTag,
}

/// A delete, and an insert with a find, in Ellen's tree without marks.
const NO_MARK_PROGRAM: &str =
    r#"{"version":1,"tree":"ellen-no-mark","initial":[10],"threads":[[{"op":"delete","key":10}],[{"op":"insert","key":5},{"op":"find","key":5}]]}"#;

/// A subject, how many states at most `steps` steps reach, and the number of steps of the first
/// with a fault.
struct Row {
    subject: Subject,
    steps: usize,
    states: usize,
    fault: Option<usize>,
}

const ROWS: &[Row] = &[
    Row {
        subject: Subject::Inserts,
        steps: 2,
        states: 5,
        fault: None,
    },
    Row {
        subject: Subject::Finds,
        steps: 4,
        states: 13,
        fault: None,
    },
    Row {
        subject: Subject::NoMark,
        steps: 17,
        states: 456,
        fault: Some(17),
    },
    Row {
        subject: Subject::NoTag,
        steps: 13,
        states: 133,
        fault: Some(13),
    },
];

/// Whether an entry of this number is a fault.
fn is_fault<M: Encode>(book: &Book<M>, id: usize) -> bool {
    match book.finding_of(id) {
        Some(finding) => !finding.is_sound(),
        None => false,
    }
}

/// Whether the first fault of a book comes after `steps` steps.
fn has_fault_after<M: Encode>(
    alloc: Global,
    book: &Book<M>,
    steps: Option<usize>,
) -> Result<bool, Broken> {
    match book.first_fault() {
        Some(id) => Ok(steps == Some(way_of(alloc, book, id)?.len()) && is_fault(book, id)),
        None => Ok(steps.is_none()),
    }
}

/// Whether a book has the number of states of the row, where it merges exactly, and the row's fault.
fn is_as_said<M: Encode>(alloc: Global, book: &Book<M>, row: &Row) -> Result<bool, Broken> {
    let is_counted = book.merge() == Merge::Names || book.len() == row.states;
    Ok(is_counted && has_fault_after(alloc, book, row.fault)?)
}

/// Whether another book becomes this one if its entries are taken one by one, and their steps are
/// made from their states.
fn is_by_states<M: Encode>(
    alloc: Global,
    book: &Book<M>,
    other: &mut Book<M>,
) -> Result<bool, Broken> {
    expand(alloc, other, book.totals().expanded)?;
    Picture::of(alloc, book)?.is_of(alloc, other)
}

/// Expands the layers of a book by the labels of its entries. Whether it becomes what the row says,
/// and shows the same as another that is expanded by their states.
fn is_same_by_states<M: Encode>(
    alloc: Global,
    book: &mut Book<M>,
    other: &mut Book<M>,
    row: &Row,
) -> Result<bool, Broken> {
    expand_layers(alloc, book, row.steps)?;
    Ok(is_as_said(alloc, book, row)? && is_by_states(alloc, book, other)?)
}

/// Whether the books of a machine and a program by labels and by states are equal.
fn are_one_on<M: Encode>(
    alloc: Global,
    machine: M,
    text: &str,
    merge: Merge,
    row: &Row,
) -> Result<bool, Broken> {
    let mut book = open(alloc, machine, text, 1000, merge)?;
    let mut other = open(alloc, machine, text, 1000, merge)?;
    is_same_by_states(alloc, &mut *book, &mut *other, row)
}

/// Whether the books of a row by labels and by states are equal.
fn are_one(alloc: Global, merge: Merge, row: &Row) -> Result<bool, Broken> {
    match row.subject {
        Subject::Inserts => are_one_on(alloc, Atomic, TWO_INSERTS, merge, row),
        Subject::Finds => are_one_on(alloc, ELLEN, TWO_FINDS, merge, row),
        Subject::NoMark => are_one_on(alloc, NO_MARK, NO_MARK_PROGRAM, merge, row),
        Subject::NoTag => are_one_on(alloc, NO_TAG, NO_TAG_PROGRAM, merge, row),
    }
}

// The counts of states and the steps of the faults are those that a search without a book finds:
// the tests of `lin` have it.
#[test]
fn a_book_by_labels_is_the_book_by_states(rt: HostRuntime) -> Result<(), Fail> {
    let alloc = rt.alloc();
    for merge in MERGES {
        for row in ROWS {
            let is_one = settled!(are_one(alloc, merge, row))?;
            assert!(rt; is_one, "{merge:?}, {:?}", row.subject);
        }
    }
    Ok(())
}

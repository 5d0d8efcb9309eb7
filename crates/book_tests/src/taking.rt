//! Entries that are taken at once.

use crate::by_label::steps_by_label;
use crate::fixtures::{
    Broken, ELLEN, MERGES, NO_MARK, TWO_FINDS, expanded, has_none_left, open, program_of, settled,
};
use book::{Book, Merge, Scratch};
use ellen::Ellen;
use sched_program::Program;
use std::alloc::Global;
use std::sync::Arc;
use std::test::Fail;
use tree_machine::{Atomic, State};

/// Whether an entry has this number and a state of one step.
fn is_first_step(entry: &(usize, Arc<State<Atomic>>), id: usize) -> bool {
    entry.0 == id && entry.1.steps() == 1
}

/// Takes the steps of the start at once: the entries 1 and 2.
fn takes_both(book: &mut Book<Atomic>) -> Result<bool, Broken> {
    let layer = book.take_layer()?;
    Ok(layer.len() == 2 && is_first_step(&layer[0], 1) && is_first_step(&layer[1], 2))
}

fn takes_no_layer(book: &mut Book<Atomic>) -> Result<bool, Broken> {
    Ok(book.take_layer()?.is_empty())
}

/// Takes the steps of the start, and then there is nothing to take.
fn takes_a_layer(book: &mut Book<Atomic>) -> Result<bool, Broken> {
    let both = takes_both(book)?;
    let totals = book.totals();
    let none_left = has_none_left(book)? && takes_no_layer(book)?;
    Ok(both && totals.fresh == 0 && totals.taken == 2 && totals.expanded == 1 && none_left)
}

fn takes_the_first_steps(alloc: Global) -> Result<bool, Broken> {
    let mut book = expanded(alloc, Merge::Exact, 1)?;
    takes_a_layer(&mut *book)
}

#[test]
fn a_layer_is_taken_at_once(rt: HostRuntime) -> Result<(), Fail> {
    let alloc = rt.alloc();
    let is_taken = settled!(takes_the_first_steps(alloc))?;
    assert!(rt; is_taken);
    Ok(())
}

/// Whether the entry of this number is taken, and one step is made from its label.
fn has_one_step(
    alloc: Global,
    book: &Book<Atomic>,
    id: usize,
    scratch: &mut Scratch<Atomic>,
) -> Result<bool, Broken> {
    let program = book.program().copy(alloc)?;
    let steps = steps_by_label(alloc, book, id, &program, scratch)?;
    Ok(steps.id() == id && steps.len() == 1)
}

/// Whether no entry of this number is taken.
fn is_not_taken(
    alloc: Global,
    book: &Book<Atomic>,
    id: usize,
    scratch: &mut Scratch<Atomic>,
) -> Result<bool, Broken> {
    let program = book.program().copy(alloc)?;
    Ok(book.taken_entry(id, &program, scratch)?.is_none())
}

/// Takes the steps of the start, which are open before, without their states.
fn takes_both_entries(
    alloc: Global,
    book: &mut Book<Atomic>,
    scratch: &mut Scratch<Atomic>,
) -> Result<bool, Broken> {
    let too_early = !is_not_taken(alloc, book, 1, scratch)?;
    let range = book.take_range();
    let both = has_one_step(alloc, book, 1, scratch)? && has_one_step(alloc, book, 2, scratch)?;
    Ok(!too_early && range == (1, 3) && both)
}

/// Takes neither the start, which is expanded, nor an entry that does not exist.
fn takes_no_other(
    alloc: Global,
    book: &mut Book<Atomic>,
    scratch: &mut Scratch<Atomic>,
) -> Result<bool, Broken> {
    let before = book.totals();
    let (start, end) = book.take_range();
    let is_no_other = is_not_taken(alloc, book, 0, scratch)?
        && is_not_taken(alloc, book, 3, scratch)?;
    Ok(start == end && is_no_other && before.taken == 2 && book.totals() == before)
}

fn takes_a_range(alloc: Global, merge: Merge) -> Result<bool, Broken> {
    let mut book = expanded(alloc, merge, 1)?;
    let mut scratch = Scratch::new(alloc);
    Ok(
        takes_both_entries(alloc, &mut *book, &mut scratch)?
            && takes_no_other(alloc, &mut *book, &mut scratch)?,
    )
}

#[test]
fn a_range_is_taken_at_once(rt: HostRuntime) -> Result<(), Fail> {
    let alloc = rt.alloc();
    for merge in MERGES {
        let is_taken = settled!(takes_a_range(alloc, merge))?;
        assert!(rt; is_taken, "{merge:?}");
    }
    Ok(())
}

/// One find in place of two.
const ONE_FIND: &str =
    r#"{"version":1,"tree":"ellen","initial":[],"threads":[[{"op":"find","key":5}]]}"#;

/// Two finds of other keys. No operation has begun at the start, so its label is that of the two
/// finds' start.
const OTHER_FINDS: &str =
    r#"{"version":1,"tree":"ellen","initial":[],"threads":[[{"op":"find","key":1}],[{"op":"find","key":2}]]}"#;

/// Machines and programs, each with whether the book of the two finds in Ellen's tree is of them.
static SUBJECTS: [(Ellen, &str, bool); 4] = [
    (ELLEN, TWO_FINDS, true),
    (NO_MARK, TWO_FINDS, false),
    (ELLEN, ONE_FIND, false),
    (ELLEN, OTHER_FINDS, false),
];

/// Whether a book is of a machine and a program, as `is_of` says and as what it hands out says.
fn is_book_of(book: &Book<Ellen>, machine: Ellen, program: &Program, is_of: bool) -> bool {
    let is_handed_out = book.machine() == machine && book.program().is_same(program);
    book.is_of(machine, program) == is_of && is_handed_out == is_of
}

/// Whether the book of the two finds says of a machine and a program whether it is of them.
fn knows(alloc: Global, machine: Ellen, text: &str, is_of: bool) -> Result<bool, Broken> {
    let book = open(alloc, ELLEN, TWO_FINDS, 100, Merge::Exact)?;
    let program = program_of(alloc, text)?;
    Ok(is_book_of(&book, machine, &program, is_of))
}

#[test]
fn a_book_is_of_one_machine_and_program(rt: HostRuntime) -> Result<(), Fail> {
    let alloc = rt.alloc();
    for (machine, text, is_of) in SUBJECTS.as_slice() {
        let is_so = settled!(knows(alloc, *machine, text, *is_of))?;
        assert!(rt; is_so, "{machine:?} {text}");
    }
    Ok(())
}

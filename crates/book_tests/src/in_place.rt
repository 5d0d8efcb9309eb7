//! The steps of taken entries, made in what is decoded from their labels, entered into a book of
//! either merge.

use crate::by_label::{enter_by_label, expand_layers, steps_by_label};
use crate::fixtures::{
    Broken, MERGES, NO_TAG, NO_TAG_PROGRAM, TWO_INSERTS, open, settled, take_number,
};
use crate::replays::{ONE, ZERO, is_order};
use crate::straying::Straying;
use book::{Book, Merge, Scratch, Totals};
use natmit::NatMit;
use sched_program::OpId;
use std::alloc::Global;
use std::test::Fail;
use tree_machine::{Atomic, Encode};

/// How many states each entry of the two inserts adds, in their order: the start adds two, each of
/// these adds a different one, and the last two add none.
const COUNTS: [usize; 5] = [2, 1, 1, 0, 0];

/// The totals once all are expanded.
const ALL_EXPANDED: Totals = Totals {
    entries: 5,
    fresh: 0,
    taken: 0,
    expanded: 5,
    entered: 4,
    met: 0,
};

/// The linearization of each entry: each step's operation comes behind those of its source.
const ORDERS: [&[OpId]; 5] = [&[], &[ZERO], &[ONE], &[ZERO, ONE], &[ONE, ZERO]];

/// Whether these are the linearizations of the entries, one by one.
fn have_orders(book: &Book<Atomic>) -> bool {
    for (id, order) in ORDERS.iter().enumerate() {
        match book.finding_of(id) {
            Some(finding) if is_order(finding, order) => {}
            _ => return false,
        }
    }
    book.len() == ORDERS.len()
}

/// Takes the next entry and enters its steps, made from its label. Whether `count` of them are new,
/// and none is known.
fn enters_next(
    alloc: Global,
    book: &mut Book<Atomic>,
    count: usize,
    scratch: &mut Scratch<Atomic>,
) -> Result<bool, Broken> {
    let id = take_number(book)?;
    let entered = enter_by_label(alloc, book, id, scratch)?;
    Ok(entered.entered == count && entered.met == 0)
}

fn are_entered(alloc: Global, merge: Merge) -> Result<bool, Broken> {
    let mut book = open(alloc, Atomic, TWO_INSERTS, 100, merge)?;
    let mut scratch = Scratch::new(alloc);
    for count in COUNTS {
        if !enters_next(alloc, &mut *book, count, &mut scratch)? {
            return Ok(false);
        }
    }
    Ok(book.totals() == ALL_EXPANDED && have_orders(&*book))
}

#[test]
fn steps_made_from_labels_are_entered(rt: HostRuntime) -> Result<(), Fail> {
    let alloc = rt.alloc();
    for merge in MERGES {
        let are_so = settled!(are_entered(alloc, merge))?;
        assert!(rt; are_so, "{merge:?}");
    }
    Ok(())
}

/// Whether no steps are made from the label of a taken entry.
fn has_no_steps<M: Encode>(alloc: Global, book: &Book<M>, id: usize) -> Result<bool, Broken> {
    let program = book.program().copy(alloc)?;
    let mut scratch = Scratch::new(alloc);
    match steps_by_label(alloc, book, id, &program, &mut scratch) {
        Err(Broken::NoSteps) => Ok(true),
        Err(broken) => Err(broken),
        Ok(_) => Ok(false),
    }
}

/// Takes the first entry with a fault, with all of its layer.
fn fault_taken(alloc: Global, book: &mut Book<NatMit>) -> Result<usize, Broken> {
    expand_layers(alloc, book, 13)?;
    book.take_range();
    book.first_fault().ok_or(Broken::NoEntry)
}

fn has_no_steps_at_a_fault(alloc: Global) -> Result<bool, Broken> {
    let mut book = open(alloc, NO_TAG, NO_TAG_PROGRAM, 1000, Merge::Exact)?;
    let id = fault_taken(alloc, &mut *book)?;
    has_no_steps(alloc, &*book, id)
}

/// The start of a machine that decodes nothing.
fn has_no_steps_undecoded(alloc: Global) -> Result<bool, Broken> {
    let mut book = open(alloc, Straying, TWO_INSERTS, 100, Merge::Exact)?;
    book.take_range();
    has_no_steps(alloc, &*book, 0)
}

#[test]
fn neither_a_fault_nor_what_is_not_decoded_has_steps(rt: HostRuntime) -> Result<(), Fail> {
    let alloc = rt.alloc();
    let has_none = settled!(has_no_steps_at_a_fault(alloc))?;
    assert!(rt; has_none, "a fault");
    let has_none = settled!(has_no_steps_undecoded(alloc))?;
    assert!(rt; has_none, "not decoded");
    Ok(())
}

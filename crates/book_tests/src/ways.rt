//! The schedules that a book records, where several reach one state.

use crate::by_label::{enter_steps, steps_by_label};
use crate::fixtures::{
    BOTH_NEW, Broken, ELLEN, MERGES, ONE_NEW, TWO_FINDS, enter_under, expand, is_way, open,
    program_of, replayed, settled, take_next, take_number,
};
use book::{Book, Entered, Merge, Replay, Scratch, Totals};
use ellen::Ellen;
use std::alloc::Global;
use std::test::Fail;

/// Entries and the ways to them, once the entries 0 and 1 are expanded.
const FIRST_WAYS: &[(usize, &[u8])] = &[(0, &[]), (1, &[0]), (2, &[1]), (3, &[0, 0]), (4, &[0, 1])];

/// The book of the two finds, with `entries` entries expanded.
fn expanded(alloc: Global, merge: Merge, entries: usize) -> Result<Box<Book<Ellen>>, Broken> {
    let mut book = open(alloc, ELLEN, TWO_FINDS, 100, merge)?;
    expand(alloc, &mut *book, entries)?;
    Ok(book)
}

/// What a schedule of the two finds reaches.
fn end_of(alloc: Global, schedule: &[u8]) -> Result<Box<Replay<Ellen>>, Broken> {
    let program = program_of(alloc, TWO_FINDS)?;
    replayed(alloc, ELLEN, &program, schedule)
}

/// Whether two schedules reach one state.
fn meet(alloc: Global, first: &[u8], second: &[u8]) -> Result<bool, Broken> {
    let one = end_of(alloc, first)?;
    let other = end_of(alloc, second)?;
    Ok(one.state == other.state)
}

/// Whether all ways of the book are those of the table.
fn has_first_ways(alloc: Global, book: &Book<Ellen>) -> Result<bool, Broken> {
    for (entry, way) in FIRST_WAYS {
        if !is_way(alloc, book, *entry, *way)? {
            return Ok(false);
        }
    }
    Ok(book.len() == FIRST_WAYS.len())
}

fn records_first_ways(alloc: Global, merge: Merge) -> Result<bool, Broken> {
    let book = expanded(alloc, merge, 2)?;
    has_first_ways(alloc, &book)
}

// The reverse of the way to entry 4 reaches the same state, and is not the one that was entered.
#[test]
fn the_recorded_way_is_the_one_entered(rt: HostRuntime) -> Result<(), Fail> {
    let alloc = rt.alloc();
    let is_met = settled!(meet(alloc, &[0, 1], &[1, 0]))?;
    assert!(rt; is_met);
    for merge in MERGES {
        let is_recorded = settled!(records_first_ways(alloc, merge))?;
        assert!(rt; is_recorded, "{merge:?}");
    }
    Ok(())
}

/// The totals once the entries 0, 1 and 2 are expanded.
const THREE_EXPANDED: Totals = Totals {
    entries: 6,
    fresh: 3,
    taken: 0,
    expanded: 3,
    entered: 5,
    met: 1,
};

/// How the steps of an entry are made.
#[derive(Clone, Copy, Debug)]
enum Making {
    /// From its state.
    ByState,
    /// From its label.
    ByLabel,
}

/// Takes the next entry and enters its steps, made from its state. Whether it is the entry of this
/// number, and they come to these counts.
fn enters_by_state(
    alloc: Global,
    book: &mut Book<Ellen>,
    number: usize,
    counts: Entered,
) -> Result<bool, Broken> {
    let (id, state) = take_next(book)?;
    let entered = enter_under(alloc, book, id, &state)?;
    Ok(id == number && entered == counts)
}

/// Takes the next entry and enters its steps, made from its label. Whether it is the entry of this
/// number, they come to these counts, and the prefetch finds the number of known states.
fn enters_by_label(
    alloc: Global,
    book: &mut Book<Ellen>,
    number: usize,
    counts: Entered,
) -> Result<bool, Broken> {
    let mut scratch = Scratch::new(alloc);
    let id = take_number(book)?;
    let program = book.program().copy(alloc)?;
    let steps = steps_by_label(alloc, book, id, &program, &mut scratch)?;
    let known = book.prefetch(&steps);
    let entered = enter_steps(book, steps, &mut scratch)?;
    Ok(id == number && known == counts.met && entered == counts)
}

/// Takes the next entry and enters its steps. Whether it is the entry of this number, and they come
/// to these counts.
fn enters(
    alloc: Global,
    book: &mut Book<Ellen>,
    making: Making,
    number: usize,
    counts: Entered,
) -> Result<bool, Broken> {
    match making {
        Making::ByState => enters_by_state(alloc, book, number, counts),
        Making::ByLabel => enters_by_label(alloc, book, number, counts),
    }
}

/// One step of entry 2 reaches entry 4 again, and only the other one a new entry.
fn keeps_the_way(alloc: Global, book: &mut Book<Ellen>, making: Making) -> Result<bool, Broken> {
    for (number, counts) in [(0, BOTH_NEW), (1, BOTH_NEW), (2, ONE_NEW)] {
        if !enters(alloc, book, making, number, counts)? {
            return Ok(false);
        }
    }
    let is_kept = is_way(alloc, book, 4, &[0, 1])? && is_way(alloc, book, 5, &[1, 1])?;
    Ok(is_kept && book.totals() == THREE_EXPANDED)
}

fn is_way_kept(alloc: Global, merge: Merge, making: Making) -> Result<bool, Broken> {
    let mut book = expanded(alloc, merge, 0)?;
    keeps_the_way(alloc, &mut *book, making)
}

#[test]
fn an_entry_met_again_keeps_its_way(rt: HostRuntime) -> Result<(), Fail> {
    let alloc = rt.alloc();
    for merge in MERGES {
        for making in [Making::ByState, Making::ByLabel] {
            let is_kept = settled!(is_way_kept(alloc, merge, making))?;
            assert!(rt; is_kept, "{merge:?}, {making:?}");
        }
    }
    Ok(())
}

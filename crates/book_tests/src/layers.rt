//! Books of two steps.

use crate::fixtures::{Broken, MERGES, expanded, is_way, settled};
use book::{Book, Finding, Merge, Totals};
use std::alloc::Global;
use std::test::Fail;
use tree_machine::Encode;

/// The totals of two steps of both threads: five entries, the later ones open.
const WHOLE: Totals = Totals {
    entries: 5,
    fresh: 2,
    taken: 0,
    expanded: 3,
    entered: 4,
    met: 0,
};

/// Whether a finding is a linearization of `length` operations.
fn is_order_of(finding: Option<&Finding>, length: usize) -> bool {
    let Some(finding) = finding else {
        return false;
    };
    match finding {
        Finding::Sound(order) => finding.is_sound() && order.len() == length,
        _ => false,
    }
}

/// Whether the findings are those of five entries.
fn finds_no_fault<M: Encode>(book: &Book<M>) -> bool {
    is_order_of(book.finding_of(4), 2)
        && book.finding_of(5).is_none()
        && book.first_fault().is_none()
}

/// Whether the numbers are those of two steps, the later ones open.
fn counts_two_layers<M: Encode>(book: &Book<M>) -> bool {
    book.totals() == WHOLE
        && book.count_to(1) == 3
        && book.is_left_to(2)
        && !book.is_left_to(1)
        && book.limit() == 100
}

/// Whether the book of two steps shows what it should.
fn is_two_layers<M: Encode>(alloc: Global, book: &Book<M>, merge: Merge) -> Result<bool, Broken> {
    let is_so = finds_no_fault(book) && counts_two_layers(book) && book.merge() == merge;
    Ok(is_way(alloc, book, 4, &[1, 0])? && is_so)
}

fn has_two_layers(alloc: Global, merge: Merge) -> Result<bool, Broken> {
    let book = expanded(alloc, merge, 3)?;
    is_two_layers(alloc, &book, merge)
}

// A book of either merge labels the steps of an expansion when it enters them.
#[test]
fn a_book_of_two_layers(rt: HostRuntime) -> Result<(), Fail> {
    let alloc = rt.alloc();
    for merge in MERGES {
        let is_whole = settled!(has_two_layers(alloc, merge))?;
        assert!(rt; is_whole, "{merge:?}");
    }
    Ok(())
}

/// How a book merges, how many entries are expanded of its five, and whether it is closed then.
const CLOSED: [(Merge, usize, bool); 3] = [
    (Merge::Names, 4, false),
    (Merge::Names, 5, true),
    (Merge::Exact, 5, false),
];

/// Whether the book with `entries` entries expanded is closed.
fn is_closed(alloc: Global, merge: Merge, entries: usize) -> Result<bool, Broken> {
    Ok(expanded(alloc, merge, entries)?.closed())
}

#[test]
fn a_book_by_names_closes_with_its_last_entry(rt: HostRuntime) -> Result<(), Fail> {
    let alloc = rt.alloc();
    for (merge, entries, closed) in CLOSED {
        let answer = settled!(is_closed(alloc, merge, entries))?;
        assert!(rt; answer == closed, "{merge:?} with {entries} expanded");
    }
    Ok(())
}

//! The text of a book's file.

use crate::fixtures::{Broken, expanded, settled};
use book::{Book, Merge};
use std::alloc::Global;
use std::test::Fail;
use tree_machine::Atomic;

const TEXT: &str =
    "treesched book 1 entries 5\n- - -\n0 0 0.0\n0 1 1.0\n1 1 0.0,1.0\n2 0 1.0,0.0\n";

/// Books of the two inserts: how states are merged, how many entries are expanded, and the text.
static BOOKS: [(Merge, usize, Option<&str>); 3] = [
    (Merge::Names, 5, Some(TEXT)),
    (Merge::Names, 4, None),
    (Merge::Exact, 5, None),
];

/// Whether the text of a book is this.
fn is_text(alloc: Global, book: &Book<Atomic>, text: Option<&str>) -> Result<bool, Broken> {
    match book.to_text(alloc)? {
        Some(bytes) => match text {
            Some(text) => Ok(bytes.as_slice() == text.as_bytes()),
            None => Ok(false),
        },
        None => Ok(text.is_none()),
    }
}

fn is_text_of(
    alloc: Global,
    merge: Merge,
    entries: usize,
    text: Option<&str>,
) -> Result<bool, Broken> {
    let book = expanded(alloc, merge, entries)?;
    is_text(alloc, &book, text)
}

#[test]
fn closed_books_are_written(rt: HostRuntime) -> Result<(), Fail> {
    let alloc = rt.alloc();
    for (merge, entries, text) in BOOKS.as_slice() {
        let is_so = settled!(is_text_of(alloc, *merge, *entries, *text))?;
        assert!(rt; is_so, "{merge:?}, {entries}");
    }
    Ok(())
}

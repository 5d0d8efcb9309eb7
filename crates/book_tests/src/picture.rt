//! What a book shows of its entries.

use crate::fixtures::{Broken, way_of};
use book::{Book, Finding, Totals};
use std::alloc::Global;
use tree_machine::Encode;

/// The totals of a book; and of each entry its recorded schedule, ended by `u8::MAX`, and which
/// finding it has.
#[derive(PartialEq, Drop)]
pub struct Picture {
    totals: Totals,
    entries: Vec<u8>,
}

/// Which finding an entry has, as a byte.
fn finding_byte(finding: Option<&Finding>) -> u8 {
    match finding {
        None => 0,
        Some(Finding::Astray) => 1,
        Some(Finding::Order) => 2,
        Some(Finding::History) => 3,
        Some(Finding::Sound(_)) => 4,
    }
}

/// Appends what a book shows of an entry.
fn add_entry<M: Encode>(
    alloc: Global,
    book: &Book<M>,
    id: usize,
    entries: &mut Vec<u8>,
) -> Result<(), Broken> {
    let way = way_of(alloc, book, id)?;
    let end = [u8::MAX, finding_byte(book.finding_of(id))];
    entries.extend_from_slice(way.as_slice())?;
    entries.extend_from_slice(end.as_slice())?;
    Ok(())
}

impl Picture {
    /// What a book shows now.
    pub fn of<M: Encode>(alloc: Global, book: &Book<M>) -> Result<Picture, Broken> {
        let mut entries = Vec::new(alloc);
        for id in 0..book.len() {
            add_entry(alloc, book, id, &mut entries)?;
        }
        Ok(Picture {
            totals: book.totals(),
            entries,
        })
    }

    /// Whether a book shows this now.
    pub fn is_of<M: Encode>(&self, alloc: Global, book: &Book<M>) -> Result<bool, Broken> {
        Ok(*self == Picture::of(alloc, book)?)
    }
}

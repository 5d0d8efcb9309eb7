//! Canonical forms of a few cells.
ghost use Rattle.std.specs.Prelude.{◌≡◌, ◌<◌, length, IsTrue, IfSome};
ghost use Rattle.std.specs.List.{All};

use crate::machine::broken::{Broken, Case, ensure};
use crate::machine::ranges::are_below;
use sched_program::OutOfMemory;
use std::alloc::Global;
use tree_machine::{Cell, canon};

/// A cell of one fact: the fact, and the references.
type Row = (u64, &'static [Option<usize>]);

/// A ring of two cells, beside one that no root reaches.
const RING: &[Row] = &[(7, &[Some(2), None]), (9, &[Some(0)]), (8, &[Some(0)])];

/// The ring of `RING` under other numbers, from cell 1.
const TURNED: &[Row] = &[(8, &[Some(1)]), (7, &[Some(0), None])];

/// The first cell of the canonical form of the ring.
const FIRST: &Row = &(7, &[Some(1), None]);

/// The other one.
const SECOND: &Row = &(8, &[Some(0)]);

/// A ring with another fact.
const OTHER_FACT: &[Row] = &[(7, &[Some(1), None]), (6, &[Some(0)])];

/// A ring with a reference less.
const NONE_ON_ONE_SIDE: &[Row] = &[(7, &[Some(1), None]), (8, &[None])];

/// The cell of a row.
fn cell_of(alloc: Global, (fact, refs): &Row) -> Result<Cell, OutOfMemory> {
    let facts = vec![in alloc; *fact]?;
    Ok(Cell::new(facts, Vec::from_slice(alloc, refs)?))
}

/// The cells of these rows.
fn cells_of(alloc: Global, rows: &[Row]) -> Result<Vec<Cell>, OutOfMemory> {
    let mut cells = Vec::new(alloc);
    for row in rows {
        cells.push(cell_of(alloc, row)?)?;
    }
    Ok(cells)
}

/// Whether each reference is none or a cell.
fn are_in_range(cells: &[Cell]) -> bool
    ensures { IsTrue result → All (λ c. All (λ r. IfSome r (λ x. x < length cells.now)) c.refs) cells.now }
{
    let count = cells.len();
    cells.iter().all(|cell| are_below(&cell.refs, count))
}

/// The canonical form from one root; nothing where a number is out of range.
fn canon_from(alloc: Global, cells: &[Cell], root: usize) -> Result<Vec<Cell>, OutOfMemory> {
    if root < cells.len() && are_in_range(cells) {
        canon(alloc, cells, &[root])
    } else {
        Ok(Vec::new(alloc))
    }
}

/// The canonical form of the cells of these rows, from one root.
fn form_of(alloc: Global, rows: &[Row], root: usize) -> Result<Vec<Cell>, OutOfMemory> {
    let cells = cells_of(alloc, rows)?;
    canon_from(alloc, &cells, root)
}

/// Whether a cell is that of a row.
fn is_cell(cell: &Cell, (fact, refs): &Row) -> bool {
    cell.facts.as_slice() == [*fact].as_slice() && cell.refs.as_slice() == *refs
}

/// Whether these are two cells, and the canonical form of the ring.
fn is_ring(cells: &[Cell]) -> bool {
    match cells {
        [first, second] => is_cell(first, FIRST) && is_cell(second, SECOND),
        _ => false,
    }
}

/// The form of the cells of these rows is that of the ring, or another one of two cells, as is expected.
fn has_form(
    alloc: Global,
    case: Case,
    rows: &[Row],
    root: usize,
    expected: bool,
) -> Result<(), Broken> {
    let form = form_of(alloc, rows, root)?;
    ensure(form.len() == 2 && is_ring(&form) == expected, case)
}

fn rings(alloc: Global) -> Result<(), Broken> {
    has_form(alloc, Case::TheRing, RING, 0, true)?;
    has_form(alloc, Case::TheRingUnderOtherNumbers, TURNED, 1, true)
}

#[test]
fn a_ring_under_other_numbers_is_equal(rt: HostRuntime) -> Result<(), Broken> {
    match rings(rt.alloc()) {
        Ok(()) => Ok(()),
        Err(_) => rings(rt.alloc()),
    }
}

fn others(alloc: Global) -> Result<(), Broken> {
    has_form(alloc, Case::TheRing, RING, 0, true)?;
    has_form(alloc, Case::AnotherFact, OTHER_FACT, 0, false)?;
    has_form(alloc, Case::NoneOnOneSide, NONE_ON_ONE_SIDE, 0, false)
}

#[test]
fn other_facts_and_other_references_differ(rt: HostRuntime) -> Result<(), Broken> {
    match others(rt.alloc()) {
        Ok(()) => Ok(()),
        Err(_) => others(rt.alloc()),
    }
}

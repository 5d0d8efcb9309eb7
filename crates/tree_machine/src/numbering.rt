//! The numbers by which bytes name cells: each cell's own, or its place in the order in which a walk meets cells.
ghost use Rattle.std.specs.Prelude.{◌≡◌, ◌<◌, ◌≤◌, ◌+◌, ◌++◌, false, [], Some, length, slice_get, vec_capacity};
ghost use Rattle.std.specs.Prelude.{OnOk, nat_eq};
ghost use Rattle.std.specs.List.{All, IsDistinct, list_any};
ghost use Rattle.std.proofs.Props.{props};
ghost use Rattle.tree_machine.specs.Cells.{met, place_in};
ghost use Rattle.tree_machine.specs.Flat.{reference_number};
ghost use Rattle.tree_machine.specs.Graphs.{numbers_from};
ghost use Rattle.tree_machine.specs.Numbered.{HasNumbers};
ghost use Rattle.tree_machine.specs.declared.numbering.TheConstants.{CELLS_BELOW};

use sched_program::OutOfMemory;
use std::alloc::Global;

/// Bytes name fewer cells than this, so that the number of each, one more than its place, is one byte below 255.
pub(crate) const CELLS_BELOW: usize = 254;

/// Cells in an order, and the number of each cell: one more than its place in that order, or 0 where it has none. The
/// order has capacity for all cells from the beginning.
#[derive(Drop)]
pub(crate) struct Numbering {
    order: Vec<u8>,
    numbers: Vec<u8>,
    ghost has_numbers: { HasNumbers order.items numbers.items },
    ghost distinct: { IsDistinct nat_eq order.items } by { Prim.hlevel props },
    ghost known: { All (λ x. x < length numbers.items) order.items },
    ghost bounded: { length numbers.items < CELLS_BELOW },
    ghost room: { length numbers.items ≤ vec_capacity order },
}

impl Numbering {
    /// The numbering of no cells. It allocates nothing.
    #[tactic(auto, using(crate::proofs::Numbers::nothing_met, crate::proofs::Numbers::nothing_twice))]
    pub(crate) fn none(alloc: Global) -> Numbering
        ensures order { result.order.items ≡ [] }
        ensures cells { result.numbers.items ≡ [] }
    {
        Numbering {
            order: Vec::new(alloc),
            numbers: Vec::new(alloc),
        }
    }

    /// Forgets all cells.
    #[inline(always)]
    #[tactic(auto, using(crate::proofs::Numbers::nothing_met, crate::proofs::Numbers::nothing_twice))]
    pub(crate) fn clear(&mut self)
        ensures order { self.new.order.items ≡ [] }
        ensures cells { self.new.numbers.items ≡ [] }
    {
        self.order.clear();
        self.numbers.clear();
    }

    /// Begins anew with `cells` cells, none of which has a number. More cells than bytes can name are refused with
    /// `OutOfMemory`.
    #[inline(always)]
    #[tactic(auto, using(crate::proofs::Numbers::made_or_left, crate::proofs::Numbers::nothing_twice))]
    pub(crate) fn restart(&mut self, cells: usize) -> Result<(), OutOfMemory>
        ensures nothing { OnOk result (self.new.order.items ≡ []) }
        ensures cells { OnOk result (length self.new.numbers.items ≡ cells) }
    {
        if cells >= CELLS_BELOW {
            return Err(OutOfMemory);
        }
        self.clear();
        self.order.reserve(cells)?;
        self.numbers.resize(cells, 0)?;
        Ok(())
    }

    /// Whether a cell has a number.
    #[inline(always)]
    #[tactic(auto, using(crate::proofs::Numbers::has_number, crate::proofs::Numbers::no_number))]
    pub(crate) fn has(&self, cell: usize) -> bool
        requires { cell < length self.now.numbers.items }
        ensures has { result ≡ list_any (nat_eq cell) self.now.order.items }
        ensures absent { result ≡ false → slice_get self.now.numbers.items cell ≡ Some 0 }
    {
        self.numbers[cell] != 0
    }

    /// Gives a cell that has no number the next one.
    #[inline(always)]
    #[tactic(auto, using(crate::proofs::Numbers::assigned))]
    pub(crate) fn assign(&mut self, cell: usize)
        requires known { cell < length self.old.numbers.items }
        requires absent { slice_get self.old.numbers.items cell ≡ Some 0 }
        ensures order { self.new.order.items ≡ met self.old.order.items cell }
        ensures cells { length self.new.numbers.items ≡ length self.old.numbers.items }
    {
        let place = self.order.len();
        self.order.push_reserved(cell as u8);
        self.numbers[cell] = place as u8 + 1;
    }

    /// Appends a cell to the order, unless it is there already.
    #[inline(always)]
    fn assign_once(&mut self, cell: usize)
        requires { cell < length self.old.numbers.items }
        ensures order { self.new.order.items ≡ met self.old.order.items cell }
        ensures cells { length self.new.numbers.items ≡ length self.old.numbers.items }
    {
        if !self.has(cell) {
            self.assign(cell);
        }
    }

    /// Meets `count` cells from `first` on, all behind those met before.
    #[inline(always)]
    #[tactic(auto, using(crate::proofs::Numbers::run_next))]
    pub(crate) fn assign_range(&mut self, first: usize, count: usize)
        requires in_range { first + count ≤ length self.old.numbers.items }
        requires behind { All (λ x. x < first) self.old.order.items }
        ensures order { self.new.order.items ≡ self.old.order.items ++ numbers_from first count }
        ensures cells { length self.new.numbers.items ≡ length self.old.numbers.items }
    {
        for i in 0..count {
            self.assign_once(first + i);
        }
    }

    /// How many cells the order has.
    #[inline(always)]
    #[tactic(auto, using(crate::proofs::Numbers::order_bounded))]
    pub(crate) fn len(&self) -> usize
        ensures count { result ≡ length self.now.order.items }
        ensures small { result < 255 }
    {
        self.order.len()
    }

    /// How many cells it may number.
    #[inline(always)]
    pub(crate) fn cells(&self) -> usize
        ensures cells { result ≡ length self.now.numbers.items }
        ensures small { result < CELLS_BELOW }
    {
        self.numbers.len()
    }

    /// The number of a cell.
    #[inline(always)]
    #[tactic(auto, using(crate::proofs::Numbers::number_bounded))]
    pub(crate) fn number(&self, cell: usize) -> u8
        requires { cell < length self.now.numbers.items }
        ensures number { reference_number (place_in self.now.order.items cell) ≡ result }
        ensures small { result < 255 }
    {
        self.numbers[cell]
    }
}

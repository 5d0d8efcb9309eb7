//! Cells that refer to each other, renumbered in the order in which a walk from the roots meets them.
ghost use Rattle.std.specs.Prelude.{◌≡◌, ◌<◌, ◌↔◌, ℕ, List, [], Some, length, map, slice_get, IfOk, OnOk, IfSome};
ghost use Rattle.std.specs.List.{All};
ghost use Rattle.tree_machine.specs.Cells.{Content, canonical, content_at, renamed, met, met_all};
ghost use Rattle.tree_machine.specs.Cells.{order_of, place_in, IsRooted, CanBePaired, HasPlaces};

use sched_program::OutOfMemory;
use std::alloc::Global;
use std::marker::Model;

/// Facts, and references to other cells by their numbers.
#[derive(Debug, Drop)]
pub struct Cell {
    pub facts: Vec<u64>,
    pub refs: Vec<Option<usize>>,
}

impl Model for Cell {
    ghost use Rattle.tree_machine.specs.Cells.{Content};

    ghost Value = { Content };

    ghost view = { λ c. record { facts = c.facts.items; refs = c.refs.items } };
}

impl Cell {
    /// The cell of these facts and references. It allocates nothing.
    pub fn new(facts: Vec<u64>, refs: Vec<Option<usize>>) -> Self
        ensures { result ≡ record { facts = facts.items; refs = refs.items } }
    {
        Cell { facts, refs }
    }
}

/// The cells met so far, in the order met, and the place of each in that order.
#[derive(Drop)]
struct Order {
    order: Vec<usize>,
    numbers: Vec<Option<usize>>,
    ghost has_places: { HasPlaces order.items numbers.items },
}

impl Order {
    /// The order of a walk over `cells` cells that has met none of them.
    fn new(alloc: Global, cells: usize) -> Result<Self, OutOfMemory>
        ensures nothing { IfOk result (λ n. n.order.items ≡ []) }
        ensures range { IfOk result (λ n. length n.numbers.items ≡ cells) }
    {
        let mut numbers = Vec::new(alloc);
        numbers.resize(cells, None)?;
        Ok(Order {
            order: Vec::new(alloc),
            numbers,
        })
    }

    /// Meets a cell, and returns its place.
    #[inline(always)]
    #[tactic(auto, using(crate::proofs::Numbers::placed))]
    fn assign(&mut self, cell: usize) -> Result<usize, OutOfMemory>
        requires { cell < length self.old.numbers.items }
        ensures order { OnOk result (self.new.order.items ≡ met self.old.order.items cell) }
        ensures place { IfOk result (λ place. place_in (met self.old.order.items cell) cell ≡ Some place) }
        ensures range { length self.new.numbers.items ≡ length self.old.numbers.items }
    {
        match self.numbers[cell] {
            Some(place) => Ok(place),
            None => {
                let place = self.order.len();
                self.order.push(cell)?;
                self.numbers[cell] = Some(place);
                Ok(place)
            }
        }
    }

    fn assign_all(&mut self, refs: &[Option<usize>]) -> Result<(), OutOfMemory>
        requires { All (λ r. IfSome r (λ x. x < length self.old.numbers.items)) refs.now }
        ensures order { OnOk result (self.new.order.items ≡ met_all self.old.order.items refs.now) }
        ensures range { length self.new.numbers.items ≡ length self.old.numbers.items }
    {
        for reference in refs {
            if let Some(cell) = reference {
                let _place = self.assign(*cell)?;
            }
        }
        Ok(())
    }

    fn visit(&mut self, cells: &[Cell], cell: usize) -> Result<(), OutOfMemory>
        requires cell_in_range { cell < length cells.now }
        requires refs_in_range { All
            (λ c. All (λ r. IfSome r (λ x. x < length self.old.numbers.items)) c.refs) cells.now }
        ensures order { OnOk result (self.new.order.items
            ≡ met_all self.old.order.items (content_at cells.now cell).refs) }
        ensures range { length self.new.numbers.items ≡ length self.old.numbers.items }
    {
        let visited = &cells[cell];
        self.assign_all(&visited.refs)
    }

    /// The cell at this place of the order. `None` if fewer cells were met.
    fn cell_at(&self, place: usize) -> Option<usize>
        ensures { result ≡ slice_get self.now.order.items place }
    {
        self.order.get(place).copied()
    }

    /// The cell with places in the order as its references.
    fn renamed(&self, alloc: Global, cell: &Cell) -> Result<Cell, OutOfMemory>
        requires { All (λ r. IfSome r (λ x. x < length self.now.numbers.items)) cell.now.refs }
        ensures { IfOk result (λ c. c ≡ renamed self.now.order.items cell.now) }
    {
        let mut refs = Vec::with_capacity(alloc, cell.refs.len())?;
        for reference in &cell.refs {
            refs.push(match reference {
                Some(met) => self.numbers[*met],
                None => None,
            })?;
        }
        Ok(Cell {
            facts: Vec::from_slice(alloc, &cell.facts)?,
            refs,
        })
    }

    /// The cells met, renamed, in the order met.
    fn rename_all(&self, alloc: Global, cells: &[Cell]) -> Result<Vec<Cell>, OutOfMemory>
        requires cells_in_range { All (λ x. x < length cells.now) self.now.order.items }
        requires refs_in_range { All
            (λ c. All (λ r. IfSome r (λ x. x < length self.now.numbers.items)) c.refs) cells.now }
        ensures { IfOk result (λ v. v.items
            ≡ map (λ x. renamed self.now.order.items (content_at cells.now x)) self.now.order.items) }
    {
        let mut answer = Vec::with_capacity(alloc, self.order.len())?;
        for cell in &self.order {
            answer.push(self.renamed(alloc, &cells[*cell])?)?;
        }
        Ok(answer)
    }
}

/// Meets the roots, and then what each cell met refers to, in the order met.
#[tactic(auto, using(crate::proofs::Walks::walked))]
fn walk(alloc: Global, cells: &[Cell], roots: &[usize]) -> Result<Order, OutOfMemory>
    requires { IsRooted cells.now roots.now }
    ensures order { IfOk result (λ n. n.order.items ≡ order_of cells.now roots.now) }
    ensures range { IfOk result (λ n. length n.numbers.items ≡ length cells.now) }
{
    let mut order = Order::new(alloc, cells.len())?;
    for root in roots {
        let _place = order.assign(*root)?;
    }
    for visits in 0..cells.len() {
        match order.cell_at(visits) {
            Some(cell) => order.visit(cells, cell)?,
            None => break,
        }
    }
    Ok(order)
}

/// The cells that the roots reach, in the order in which a walk meets them, with their places in it as references.
///
/// Roots and references are numbers of cells, and the roots are distinct. Two results, from equally many roots, are
/// equal exactly if some one-to-one set of pairs of cells pairs the roots place by place, and pairs only cells of equal
/// facts whose references it pairs place by place. The walk is breadth first: the list of the cells met is its queue.
///
/// # Errors
/// `OutOfMemory` where a growth was refused.
pub fn canon(alloc: Global, cells: &[Cell], roots: &[usize]) -> Result<Vec<Cell>, OutOfMemory>
    requires { IsRooted cells.now roots.now }
    ensures canonical { IfOk result (λ v. v.items ≡ canonical cells.now roots.now) }
    ensures exact { IfOk result (λ v. (others : List Content) (targets : List ℕ) → IsRooted others targets
        → length roots.now ≡ length targets
        → (v.items ≡ canonical others targets) ↔ CanBePaired cells.now roots.now others targets) }
{
    walk(alloc, cells, roots)?.rename_all(alloc, cells)
}

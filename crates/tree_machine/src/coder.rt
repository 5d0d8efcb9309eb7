//! A coder: it numbers the nodes and the records that parts name, and writes the parts.
ghost use Rattle.std.specs.Prelude.{◌≡◌, ◌<◌, ◌≤◌, ◌+◌, ◌++◌, ◌∷◌, [], Some};
ghost use Rattle.std.specs.Prelude.{length, map, slice_get, take, drop, IfOk, IfSome, OnOk};
ghost use Rattle.std.specs.List.{All, flat_map};
ghost use Rattle.tree_machine.specs.Cells.{met_all};
ghost use Rattle.tree_machine.specs.Coding.{name_code, newly, IsOwn, IsVisited};
ghost use Rattle.tree_machine.specs.Graphs.{numbers_from};
ghost use Rattle.tree_machine.specs.Parts.{IsPartBelow};
ghost use Rattle.tree_machine.specs.declared.numbering.TheConstants.{CELLS_BELOW};

use crate::fixed::put_byte;
use crate::numbering::Numbering;
use crate::output::{Output, put_front};
use sched_program::OutOfMemory;
use std::alloc::Global;
use std::marker::Model;

/// The number of what is named, or 0 for none. What has no number gets the next one, and goes into the queue, where its
/// own number is raised by `first`. A cell that the queue can't name is refused with `OutOfMemory`.
#[inline(always)]
fn number_of(
    numbering: &mut Numbering,
    queue: &mut Vec<u8>,
    first: usize,
    name: Option<u16>,
) -> Result<u8, OutOfMemory>
    requires known { IfSome name (λ x. x < length numbering.old.numbers.items) }
    requires fits { first < CELLS_BELOW }
    ensures order { OnOk result (numbering.new.order.items ≡ met_all numbering.old.order.items (name ∷ [])) }
    ensures cells { length numbering.new.numbers.items ≡ length numbering.old.numbers.items }
    ensures queue { OnOk result (queue.new.items
        ≡ queue.old.items ++ map (λ x. first + x) (newly numbering.old.order.items (name ∷ []))) }
    ensures number { IfOk result (λ number. number ∷ [] ≡ name_code numbering.new.order.items name) }
{
    match name {
        Some(cell) => {
            let cell = usize::from(cell);
            if !numbering.has(cell) {
                let Ok(queued) = u8::try_from(first + cell) else {
                    return Err(OutOfMemory);
                };
                queue.push(queued)?;
                numbering.assign(cell);
            }
            Ok(numbering.number(cell))
        }
        None => Ok(0),
    }
}

/// Writes the numbers of names one behind the other, and returns the place behind them.
#[inline(always)]
fn put_names(
    numbering: &mut Numbering,
    queue: &mut Vec<u8>,
    first: usize,
    bytes: &mut [u8],
    start: usize,
    names: &[Option<u16>],
) -> Result<usize, OutOfMemory>
    requires known { All (λ r. IfSome r (λ x. x < length numbering.old.numbers.items)) names.now }
    requires fits { first < CELLS_BELOW }
    requires room { start + length names.now ≤ length bytes.old }
    ensures order { OnOk result (numbering.new.order.items ≡ met_all numbering.old.order.items names.now) }
    ensures cells { length numbering.new.numbers.items ≡ length numbering.old.numbers.items }
    ensures queue { OnOk result (queue.new.items
        ≡ queue.old.items ++ map (λ x. first + x) (newly numbering.old.order.items names.now)) }
    ensures place { IfOk result (λ end. end ≡ start + length names.now) }
    ensures written { IfOk result (λ end. take end bytes.new ≡ take start bytes.old
        ++ flat_map (λ r. name_code numbering.new.order.items r) names.now) }
    ensures length { length bytes.new ≡ length bytes.old }
{
    let mut at = start;
    for name in names {
        let number = number_of(numbering, queue, first, *name)?;
        at = put_byte(bytes, at, number);
    }
    Ok(at)
}

/// Writes the numbers of a stack, as `put_names` writes those of names that may be none.
#[inline(always)]
fn put_stack(
    numbering: &mut Numbering,
    queue: &mut Vec<u8>,
    first: usize,
    bytes: &mut [u8],
    start: usize,
    stack: &[u16],
) -> Result<usize, OutOfMemory>
    requires known { All (λ x. x < length numbering.old.numbers.items) stack.now }
    requires fits { first < CELLS_BELOW }
    requires room { start + length stack.now ≤ length bytes.old }
    ensures order { OnOk result (numbering.new.order.items ≡ met_all numbering.old.order.items (map Some stack.now)) }
    ensures cells { length numbering.new.numbers.items ≡ length numbering.old.numbers.items }
    ensures queue { OnOk result (queue.new.items
        ≡ queue.old.items ++ map (λ x. first + x) (newly numbering.old.order.items (map Some stack.now))) }
    ensures place { IfOk result (λ end. end ≡ start + length stack.now) }
    ensures written { IfOk result (λ end. take end bytes.new ≡ take start bytes.old
        ++ flat_map (λ r. name_code numbering.new.order.items r) (map Some stack.now)) }
    ensures length { length bytes.new ≡ length bytes.old }
{
    let mut at = start;
    for index in stack {
        let number = number_of(numbering, queue, first, Some(*index))?;
        at = put_byte(bytes, at, number);
    }
    Ok(at)
}

/// Appends the numbers below `count`.
#[inline(always)]
#[tactic(auto, using(crate::proofs::Codings::numbered_in_row))]
fn put_first(queue: &mut Vec<u8>, count: usize) -> Result<(), OutOfMemory>
    requires { count < CELLS_BELOW }
    ensures { OnOk result (queue.new.items ≡ queue.old.items ++ numbers_from 0 count) }
{
    for number in 0..count {
        queue.push(number as u8)?;
    }
    Ok(())
}

/// What parts are written by. A node or a record gets its number when a part first names it, and goes into the queue of
/// those to be visited.
#[derive(Drop)]
pub struct Coder {
    nodes: Numbering,
    records: Numbering,
    queue: Vec<u8>,
}

impl Model for Coder {
    ghost use Rattle.std.specs.Prelude.{length};
    ghost use Rattle.tree_machine.specs.Coding.{Coding};

    ghost Value = { Coding };

    ghost view = { λ c. record {
      nodes_below = length c.nodes.numbers.items;
      records_below = length c.records.numbers.items;
      nodes = c.nodes.order.items;
      records = c.records.order.items;
      queue = c.queue.items;
    } };
}

impl Coder {
    /// A coder of nothing. It allocates nothing.
    pub(crate) fn none(alloc: Global) -> Coder
        ensures { result ≡ record {
          nodes_below = 0;
          records_below = 0;
          nodes = [];
          records = [];
          queue = [];
        } }
    {
        Coder {
            nodes: Numbering::none(alloc),
            records: Numbering::none(alloc),
            queue: Vec::new(alloc),
        }
    }

    /// Begins anew, with the first nodes and the first records, each by its own number. More nodes or records than
    /// bytes can name are refused with `OutOfMemory`.
    #[inline(always)]
    pub(crate) fn restart(
        &mut self,
        front_nodes: usize,
        front_records: usize,
        nodes: usize,
        records: usize,
    ) -> Result<(), OutOfMemory>
        requires nodes { front_nodes ≤ nodes }
        requires records { front_records ≤ records }
        ensures { OnOk result (self.new ≡ record {
          nodes_below = nodes;
          records_below = records;
          nodes = numbers_from 0 front_nodes;
          records = numbers_from 0 front_records;
          queue = [];
        }) }
    {
        self.queue.clear();
        self.nodes.restart(nodes)?;
        self.nodes.assign_range(0, front_nodes);
        self.records.restart(records)?;
        self.records.assign_range(0, front_records);
        Ok(())
    }

    /// Forgets all nodes and records.
    #[cold]
    pub(crate) fn clear(&mut self)
        ensures { self.new ≡ record self.old { nodes_below = 0; records_below = 0; nodes = []; records = [] } }
    {
        self.nodes.clear();
        self.records.clear();
    }

    /// Numbers all nodes and records by their own numbers, if it has not that many yet. More than bytes can name are
    /// refused with `OutOfMemory`.
    #[inline(always)]
    pub(crate) fn number_all(&mut self, nodes: usize, records: usize) -> Result<(), OutOfMemory>
        requires { IsOwn 0 0 self.old }
        ensures own { IsOwn 0 0 self.new }
        ensures many { OnOk result (IsOwn nodes records self.new) }
    {
        let (own_nodes, own_records) = self.bounds();
        if nodes <= own_nodes && records <= own_records {
            return Ok(());
        }
        let restarted = self.restart(nodes, records, nodes, records);
        if restarted.is_err() {
            self.clear();
        }
        restarted
    }

    /// Appends the nodes below `count` to the queue.
    #[inline(always)]
    pub(crate) fn enqueue_first(&mut self, count: usize) -> Result<(), OutOfMemory>
        requires { count ≤ self.old.nodes_below }
        ensures { OnOk result (self.new ≡ record self.old { queue = self.old.queue ++ numbers_from 0 count }) }
    {
        put_first(&mut self.queue, count)
    }

    /// How many nodes have numbers.
    #[inline(always)]
    pub(crate) fn node_count(&self) -> usize
        ensures result { result ≡ length self.now.nodes }
        ensures small { result < 255 }
    {
        self.nodes.len()
    }

    /// How many records have numbers.
    #[inline(always)]
    pub(crate) fn record_count(&self) -> usize
        ensures result { result ≡ length self.now.records }
        ensures small { result < 255 }
    {
        self.records.len()
    }

    /// How many nodes and how many records it may number.
    #[inline(always)]
    pub(crate) fn bounds(&self) -> (usize, usize)
        ensures bounds { (result.0 ≡ self.now.nodes_below) × (result.1 ≡ self.now.records_below) }
        ensures small { (result.0 < 255) × (result.1 < 255) }
    {
        (self.nodes.cells(), self.records.cells())
    }

    /// The cell at this place of the queue. `None` if the queue is not that long.
    #[inline(always)]
    pub(crate) fn cell_at(&self, place: usize) -> Option<usize>
        ensures { result ≡ slice_get self.now.queue place }
    {
        let cell = self.queue.get(place)?;
        Some(usize::from(*cell))
    }

    /// Visits the part of these facts and nodes, of these records, and of those of a stack behind them: what it names
    /// gets numbers, and it is written. Where a growth is refused, some of it may then be written.
    #[inline(always)]
    pub fn visit(
        &mut self,
        out: &mut Output,
        facts: &[u8],
        nodes: &[Option<u16>],
        records: &[Option<u16>],
        stack: &[u16],
    ) -> Result<(), OutOfMemory>
        requires { IsPartBelow self.old.nodes_below self.old.records_below
            (record { facts = facts.now; nodes = nodes.now; records = records.now ++ map Some stack.now }) }
        ensures { OnOk result (IsVisited
            (record { facts = facts.now; nodes = nodes.now; records = records.now ++ map Some stack.now })
            self.old out.old self.new out.new) }
    {
        let named = nodes.len() + records.len() + stack.len();
        let start = put_front(&mut out.bytes, out.at, nodes.len(), named, facts)?;
        let first = self.nodes.cells();
        let bytes = out.bytes.as_mut_slice();
        let nodes_end = put_names(&mut self.nodes, &mut self.queue, 0, bytes, start, nodes)?;
        let records_end = put_names(
            &mut self.records,
            &mut self.queue,
            first,
            bytes,
            nodes_end,
            records,
        )?;
        out.at = put_stack(
            &mut self.records,
            &mut self.queue,
            first,
            bytes,
            records_end,
            stack,
        )?;
        Ok(())
    }

    /// Empties the queue.
    #[inline(always)]
    pub(crate) fn clear_queue(&mut self)
        ensures { self.new ≡ record self.old { queue = [] } }
    {
        self.queue.clear();
    }
}

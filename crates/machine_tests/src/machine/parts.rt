//! Nodes and records as bytes.
ghost use Rattle.std.specs.Prelude.{◌≡◌, ◌<◌, IsTrue, IfSome, OnOk};
ghost use Rattle.std.specs.List.{All};
ghost use Rattle.tree_machine.specs.Coding.{IsVisited};
ghost use Rattle.tree_machine.specs.Parts.{IsPartBelow, ArePartsInRange};

use crate::machine::ranges::{are_all_below, are_named_below};
use sched_program::OutOfMemory;
use std::alloc::Global;
use std::marker::Model;
use tree_machine::{
    Bytes, Coder, EncodeBuffer, Naming, Output, Parts, Visit, form_parts, write_parts,
};

/// A part that is there already. The records of the stack come behind the other ones.
#[derive(Drop)]
pub struct Row {
    pub facts: &'static [u8],
    pub nodes: &'static [Option<u16>],
    pub records: &'static [Option<u16>],
    pub stack: &'static [u16],
}

impl Model for Row {
    ghost use Rattle.std.specs.Prelude.{◌++◌, Some, map};
    ghost use Rattle.tree_machine.specs.Parts.{Part as Contents};

    ghost Value = { Contents };

    ghost view = { λ r. record {
      facts = r.facts.now;
      nodes = r.nodes.now;
      records = r.records.now ++ map Some r.stack.now;
    } };
}

/// A row of these, with no stack.
pub fn row_of(
    facts: &'static [u8],
    nodes: &'static [Option<u16>],
    records: &'static [Option<u16>],
) -> Row {
    Row {
        facts,
        nodes,
        records,
        stack: &[],
    }
}

impl Row {
    /// Lets a coder visit it.
    fn show(&self, coder: &mut Coder, out: &mut Output) -> Visit
        requires { IsPartBelow coder.old.nodes_below coder.old.records_below self.now }
        ensures { OnOk result (IsVisited self.now coder.old out.old coder.new out.new) }
    {
        coder.visit(out, self.facts, self.nodes, self.records, self.stack)
    }

    /// Whether it names nodes and records below these bounds.
    fn is_below(&self, nodes: usize, records: usize) -> bool
        ensures { IsTrue result → IsPartBelow nodes records self.now }
    {
        if !are_named_below(self.nodes, nodes) || !are_named_below(self.records, records) {
            return false;
        }
        are_all_below(self.stack, records)
    }
}

/// Rows for nodes, for records and for threads. The first `fixed` nodes are fixed.
#[derive(Clone, Copy)]
pub struct Tables<'a> {
    pub fixed: usize,
    pub nodes: &'a [Row],
    pub records: &'a [Row],
    pub held: &'a [Row],
}

impl Parts for Tables<'_> {
    ghost parts = { λ t. record { nodes = t.nodes.now; records = t.records.now; held = t.held.now } };

    fn node_count(&self) -> usize {
        self.nodes.len()
    }

    fn record_count(&self) -> usize {
        self.records.len()
    }

    fn held_count(&self) -> usize {
        self.held.len()
    }

    fn visit_node(&self, index: usize, coder: &mut Coder, out: &mut Output) -> Visit {
        self.nodes[index].show(coder, out)
    }

    fn visit_record(&self, index: usize, coder: &mut Coder, out: &mut Output) -> Visit {
        match self.records.get(index) {
            Some(row) => row.show(coder, out),
            None => coder.visit(out, &[], &[], &[], &[]),
        }
    }

    fn visit_held(&self, index: usize, coder: &mut Coder, out: &mut Output) -> Visit {
        self.held[index].show(coder, out)
    }
}

/// Whether each row names nodes and records below these bounds.
fn rows_below(rows: &[Row], nodes: usize, records: usize) -> bool
    ensures { IsTrue result → All (IsPartBelow nodes records) rows.now }
{
    rows.iter().all(|row| row.is_below(nodes, records))
}

/// Whether the first nodes are there, and each row names nodes and records that are there.
fn are_in_range(fixed: usize, tables: &Tables) -> bool
    ensures { IsTrue result → ArePartsInRange fixed
        (record { nodes = tables.now.nodes.now; records = tables.now.records.now; held = tables.now.held.now }) }
{
    let nodes = tables.nodes.len();
    let records = tables.records.len();
    if fixed > nodes || !rows_below(tables.nodes, nodes, records) {
        return false;
    }
    if !rows_below(tables.records, nodes, records) {
        return false;
    }
    rows_below(tables.held, nodes, records)
}

/// What is written of tables.
#[derive(Clone, Copy)]
pub enum Written {
    /// The form.
    Form,
    /// The code.
    Code(Naming),
}

/// The code of the tables.
fn code_of(alloc: Global, tables: &Tables, naming: Naming) -> Result<Bytes, OutOfMemory>
    requires { ArePartsInRange tables.now.fixed
        (record { nodes = tables.now.nodes.now; records = tables.now.records.now; held = tables.now.held.now }) }
{
    let mut buffer = EncodeBuffer::new(alloc);
    write_parts(naming, tables.fixed, tables, &mut buffer)?;
    Ok(Bytes::from_vec(Vec::from_slice(alloc, buffer.as_slice())?))
}

/// The bytes of tables; nothing where a number is out of range.
pub fn bytes_of(alloc: Global, tables: &Tables, written: Written) -> Result<Bytes, OutOfMemory> {
    if !are_in_range(tables.fixed, tables) {
        return Ok(Bytes::from_vec(Vec::new(alloc)));
    }
    match written {
        Written::Form => form_parts(alloc, tables.fixed, tables),
        Written::Code(naming) => code_of(alloc, tables, naming),
    }
}

//! A memory with what the threads hold, shown to a coder as parts.
ghost use Rattle.std.specs.Prelude.{◌≡◌, OnOk};
ghost use Rattle.tree_machine.specs.Alike.{places_of};
ghost use Rattle.tree_machine.specs.Coding.{IsVisited};
ghost use Rattle.tree_machine.specs.Parts.{IsPartBelow};
ghost use Rattle.ellen.specs.Parts.{node_part, record_part, search_part, place_part};

use crate::memory::{EllenMem, Node, Record, UpdateWord};
use crate::numbers::{above_parts, base_number, help_parts, word_parts};
use crate::place::{Above, EllenLoc, SearchLoc};
use tree_machine::{Coder, Output, Parts, Thread, Visit};

/// Visits a node.
#[inline(always)]
fn visit_node(node: Node, coder: &mut Coder, out: &mut Output) -> Visit
    requires { IsPartBelow coder.old.nodes_below coder.old.records_below (node_part node) }
    ensures { OnOk result (IsVisited (node_part node) coder.old out.old coder.new out.new) }
{
    match node {
        Node::Leaf { key } => coder.visit(out, &[key], &[], &[], &[]),
        Node::Internal {
            key,
            update,
            left,
            right,
        } => {
            let (kind, named) = word_parts(update);
            coder.visit(out, &[key, kind], &[Some(left), Some(right)], &[named], &[])
        }
    }
}

/// Visits a record.
fn visit_record(kept: Record, coder: &mut Coder, out: &mut Output) -> Visit
    requires { IsPartBelow coder.old.nodes_below coder.old.records_below (record_part kept) }
    ensures { OnOk result (IsVisited (record_part kept) coder.old out.old coder.new out.new) }
{
    match kept {
        Record::Ins(insert) => coder.visit(
            out,
            &[],
            &[Some(insert.parent), Some(insert.leaf), Some(insert.new)],
            &[],
            &[],
        ),
        Record::Del(delete) => {
            let (kind, named) = word_parts(delete.parent_update);
            let nodes = [
                Some(delete.grandparent),
                Some(delete.parent),
                Some(delete.leaf),
            ];
            coder.visit(out, &[kind], &nodes, &[named], &[])
        }
    }
}

/// Visits the place at which a delete flags the grandparent.
fn visit_delete_flag(
    above: Above,
    parent: u16,
    update: UpdateWord,
    leaf: u16,
    coder: &mut Coder,
    out: &mut Output,
) -> Visit
    requires { IsPartBelow coder.old.nodes_below coder.old.records_below
        (search_part (SearchLoc.DFlag above parent update leaf)) }
    ensures { OnOk result (IsVisited (search_part (SearchLoc.DFlag above parent update leaf))
        coder.old out.old coder.new out.new) }
{
    let (kind, named) = word_parts(above.update);
    let (last, other) = word_parts(update);
    let nodes = [Some(above.node), Some(parent), Some(leaf)];
    coder.visit(out, &[4, kind, last], &nodes, &[named, other], &[])
}

/// Visits a place of a search.
#[inline(always)]
fn visit_search(at: SearchLoc, coder: &mut Coder, out: &mut Output) -> Visit
    requires { IsPartBelow coder.old.nodes_below coder.old.records_below (search_part at) }
    ensures { OnOk result (IsVisited (search_part at) coder.old out.old coder.new out.new) }
{
    match at {
        SearchLoc::Update { above, parent } => {
            let (kind, node, named) = above_parts(above);
            coder.visit(out, &[0, kind], &[node, Some(parent)], &[named], &[])
        }
        SearchLoc::Child {
            above,
            parent,
            update,
        } => {
            let (kind, node, named) = above_parts(above);
            let (last, other) = word_parts(update);
            coder.visit(
                out,
                &[1, kind, last],
                &[node, Some(parent)],
                &[named, other],
                &[],
            )
        }
        SearchLoc::IFlag {
            parent,
            update,
            leaf,
        } => {
            let (kind, named) = word_parts(update);
            coder.visit(out, &[2, kind], &[Some(parent), Some(leaf)], &[named], &[])
        }
        SearchLoc::InsOnly { parent, leaf } => {
            coder.visit(out, &[3], &[Some(parent), Some(leaf)], &[], &[])
        }
        SearchLoc::DFlag {
            above,
            parent,
            update,
            leaf,
        } => visit_delete_flag(above, parent, update, leaf, coder, out),
    }
}

/// Visits a place.
#[inline(always)]
fn visit_place(place: &EllenLoc, coder: &mut Coder, out: &mut Output) -> Visit
    requires { IsPartBelow coder.old.nodes_below coder.old.records_below (place_part place.now) }
    ensures { OnOk result (IsVisited (place_part place.now) coder.old out.old coder.new out.new) }
{
    match place {
        EllenLoc::Search(at) => visit_search(*at, coder, out),
        EllenLoc::Help(at, resume) => {
            let (kind, side, other, record) = help_parts(*at);
            let facts = [5, kind, side, base_number(resume.base)];
            coder.visit(
                out,
                &facts,
                &[other],
                &[Some(record)],
                resume.stack.as_slice(),
            )
        }
    }
}

/// Shows a memory and what the threads hold to a coder, as parts.
#[derive(Drop)]
pub(crate) struct MemoryView<'a> {
    pub(crate) memory: &'a EllenMem,
    pub(crate) threads: &'a [Thread<EllenLoc>],
}

impl Parts for MemoryView<'_> {
    ghost use Rattle.ellen.specs.Parts.{ellen_parts};

    ghost parts = { λ s. ellen_parts s.memory.now (places_of s.threads.now) };

    fn node_count(&self) -> usize {
        self.memory.nodes.len()
    }

    fn record_count(&self) -> usize {
        self.memory.records.len()
    }

    fn held_count(&self) -> usize {
        self.threads.len()
    }

    #[inline(always)]
    fn visit_node(&self, index: usize, coder: &mut Coder, out: &mut Output) -> Visit {
        visit_node(self.memory.nodes.as_slice()[index], coder, out)
    }

    #[inline(always)]
    fn visit_record(&self, index: usize, coder: &mut Coder, out: &mut Output) -> Visit {
        match self.memory.records.get(index) {
            Some(kept) => visit_record(*kept, coder, out),
            None => coder.visit(out, &[], &[], &[], &[]),
        }
    }

    #[inline(always)]
    fn visit_held(&self, index: usize, coder: &mut Coder, out: &mut Output) -> Visit {
        match &self.threads[index].place {
            Some(place) => visit_place(place, coder, out),
            None => coder.visit(out, &[], &[], &[], &[]),
        }
    }
}

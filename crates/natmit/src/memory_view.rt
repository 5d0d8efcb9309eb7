//! Shows a memory, and what the threads hold, to a coder as parts, with the numbers of nodes apart from all else.
ghost use Rattle.std.specs.Prelude.{◌≡◌, ◌<◌, ◌∷◌, [], Some, OnOk};
ghost use Rattle.tree_machine.specs.Alike.{places_of};
ghost use Rattle.tree_machine.specs.Coding.{IsVisited};
ghost use Rattle.tree_machine.specs.Parts.{IsPartBelow};
ghost use Rattle.natmit.specs.Parts.{mark_number, side_number, owned, node_part, path_part, place_part, natmit_parts};

use crate::memory::{NatMitMem, Node, Word};
use crate::place::{Mode, NatMitLoc, Path};
use tree_machine::{Coder, Output, Parts, Side, Thread, Visit};

/// The number of a side.
fn side_number(side: Side) -> u8
    ensures number { result ≡ side_number side }
    ensures small { result < 2 }
{
    match side {
        Side::Left => 0,
        Side::Right => 1,
    }
}

/// A reference to the leaf that the delete flagged, or none.
fn owned(mode: Mode) -> Option<u16>
    ensures { result ≡ owned mode }
{
    match mode {
        Mode::Plain => None,
        Mode::Owner(leaf) => Some(leaf),
    }
}

/// The flag and the tag of a child word as one number.
fn mark_number(word: Word) -> u8
    ensures number { result ≡ mark_number word }
    ensures small { result < 4 }
{
    u8::from(word.flag) + 2 * u8::from(word.tag)
}

/// Lets a coder visit a node: its key, and of an internal one its children with their flags and tags.
#[inline(always)]
fn visit_node(node: Node, coder: &mut Coder, out: &mut Output) -> Visit
    requires { IsPartBelow coder.old.nodes_below coder.old.records_below (node_part node) }
    ensures { OnOk result (IsVisited (node_part node) coder.old out.old coder.new out.new) }
{
    match node {
        Node::Leaf { key } => coder.visit(out, &[key], &[], &[], &[]),
        Node::Internal { key, left, right } => coder.visit(
            out,
            &[key, mark_number(left) + 4 * mark_number(right)],
            &[Some(left.node), Some(right.node)],
            &[],
            &[],
        ),
    }
}

/// Lets a coder visit a place that holds a path and one more reference, with these facts.
#[inline(always)]
fn visit_path(
    facts: &[u8],
    path: Path,
    last: Option<u16>,
    coder: &mut Coder,
    out: &mut Output,
) -> Visit
    requires { IsPartBelow coder.old.nodes_below coder.old.records_below
        (path_part facts.now path (last ∷ [])) }
    ensures { OnOk result (IsVisited (path_part facts.now path (last ∷ [])) coder.old out.old coder.new out.new) }
{
    let nodes = [
        Some(path.ancestor),
        Some(path.successor),
        Some(path.parent),
        last,
    ];
    coder.visit(out, facts, &nodes, &[], &[])
}

/// Lets a coder visit a place: which one it is, and its locals.
#[inline(always)]
fn visit_place(place: NatMitLoc, coder: &mut Coder, out: &mut Output) -> Visit
    requires { IsPartBelow coder.old.nodes_below coder.old.records_below (place_part place) }
    ensures { OnOk result (IsVisited (place_part place) coder.old out.old coder.new out.new) }
{
    match place {
        NatMitLoc::Begin { mode } => coder.visit(out, &[1], &[owned(mode)], &[], &[]),
        NatMitLoc::Down {
            path,
            leaf,
            tag,
            mode,
        } => coder.visit(
            out,
            &[2, u8::from(tag)],
            &[
                Some(path.ancestor),
                Some(path.successor),
                Some(path.parent),
                Some(leaf),
                owned(mode),
            ],
            &[],
            &[],
        ),
        NatMitLoc::Put { path, leaf } => visit_path(&[3], path, Some(leaf), coder, out),
        NatMitLoc::Flag { path, leaf } => visit_path(&[4], path, Some(leaf), coder, out),
        NatMitLoc::Look { path, leaf } => visit_path(&[5], path, Some(leaf), coder, out),
        NatMitLoc::CleanRead { path, mode } => visit_path(&[6], path, owned(mode), coder, out),
        NatMitLoc::Tag { path, side, mode } => {
            visit_path(&[7, side_number(side)], path, owned(mode), coder, out)
        }
        NatMitLoc::Sibling { path, side, mode } => {
            visit_path(&[8, side_number(side)], path, owned(mode), coder, out)
        }
        NatMitLoc::Swing {
            ancestor: a,
            successor: s,
            flag,
            node,
            mode,
        } => coder.visit(
            out,
            &[9, u8::from(flag)],
            &[Some(a), Some(s), Some(node), owned(mode)],
            &[],
            &[],
        ),
    }
}

/// A memory, and the place that each thread holds.
#[derive(Clone, Copy)]
pub(crate) struct MemoryView<'a> {
    /// The memory.
    pub(crate) mem: &'a NatMitMem,
    /// The threads. One between operations holds no place.
    pub(crate) threads: &'a [Thread<NatMitLoc>],
}

impl Parts for MemoryView<'_> {
    ghost parts = { λ s. natmit_parts s.mem.now (places_of s.threads.now) };

    fn node_count(&self) -> usize {
        self.mem.nodes.len()
    }

    fn record_count(&self) -> usize {
        0
    }

    fn held_count(&self) -> usize {
        self.threads.len()
    }

    #[inline(always)]
    fn visit_node(&self, index: usize, coder: &mut Coder, out: &mut Output) -> Visit {
        visit_node(self.mem.nodes.as_slice()[index], coder, out)
    }

    #[inline(always)]
    fn visit_record(&self, _index: usize, coder: &mut Coder, out: &mut Output) -> Visit {
        coder.visit(out, &[], &[], &[], &[])
    }

    #[inline(always)]
    fn visit_held(&self, index: usize, coder: &mut Coder, out: &mut Output) -> Visit {
        match self.threads[index].place {
            Some(place) => visit_place(place, coder, out),
            None => coder.visit(out, &[], &[], &[], &[]),
        }
    }
}

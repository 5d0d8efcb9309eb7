//! The nodes of the shared memory.
ghost use Rattle.std.specs.Prelude.{◌≡◌, false, ◌++◌, IfOk, OnOk, OnErr};
ghost use Rattle.natmit.specs.Memory.{plain, is_plain, key_in, shape_in, shapes, word_on, with_word, node_at};
ghost use Rattle.natmit.specs.Memory.{set_word, internal_over, with_internal, new_internal, put_at};

use sched_program::{OutOfMemory, Sequence};
use std::alloc::Global;
use tree_machine::{Shape, Shapes, Side, copy_into, short_number_of, side_of};

/// A child word.
#[derive(Clone, Copy, PartialEq, Eq, Hash)]
pub struct Word {
    /// The child is a leaf that a delete is about to cut off, with the node that holds the word.
    pub flag: bool,
    /// The node that holds the word is about to be cut off, and the child stays.
    pub tag: bool,
    /// The number of the child.
    pub node: u16,
}

/// A node of the tree.
#[derive(Clone, Copy, PartialEq, Eq, Hash)]
pub enum Node {
    /// A leaf with its key.
    Leaf { key: u8 },
    /// An internal node: keys below its own are on the left.
    Internal { key: u8, left: Word, right: Word },
}

/// The shared memory: the nodes, by number. The root is node 0, and each search begins at node 1. It has at most 2^16
/// nodes: more are refused with `OutOfMemory`.
#[derive(Drop, PartialEq, Eq, Hash)]
pub struct NatMitMem {
    /// The nodes. Those that were cut off stay in the list.
    pub nodes: Sequence<Node>,
}

/// The word of a child without flag and tag.
pub(crate) fn plain(node: u16) -> Word
    ensures { result ≡ plain node }
{
    Word {
        flag: false,
        tag: false,
        node,
    }
}

/// The word of a child with this flag and without tag.
pub(crate) fn untagged(flag: bool, node: u16) -> Word
    ensures { result ≡ record { flag = flag; tag = false; node = node } }
{
    Word {
        flag,
        tag: false,
        node,
    }
}

/// Whether a word is that of this child without flag and tag.
pub(crate) fn is_plain(node: u16, word: Word) -> bool
    ensures { result ≡ is_plain node word }
{
    !word.flag && !word.tag && word.node == node
}

/// The key of a node.
pub(crate) fn key_in(node: Node) -> u8
    ensures { result ≡ key_in node }
{
    match node {
        Node::Leaf { key } => key,
        Node::Internal { key, .. } => key,
    }
}

/// What a search sees of a node.
fn shape_in(node: Node) -> Shape
    ensures { result ≡ shape_in node }
{
    match node {
        Node::Leaf { key } => Shape::Leaf { key },
        Node::Internal { key, left, right } => Shape::Internal {
            key,
            left: left.node,
            right: right.node,
        },
    }
}

/// The child word of a node on a side; a leaf has none.
pub(crate) fn word_on(side: Side, node: Node) -> Option<Word>
    ensures { result ≡ word_on side node }
{
    match (side, node) {
        (_, Node::Leaf { .. }) => None,
        (Side::Left, Node::Internal { left, .. }) => Some(left),
        (Side::Right, Node::Internal { right, .. }) => Some(right),
    }
}

/// A node with another child word on a side.
fn with_word(side: Side, word: Word, node: Node) -> Node
    ensures { result ≡ with_word side word node }
{
    match (side, node) {
        (_, Node::Leaf { key }) => Node::Leaf { key },
        (Side::Left, Node::Internal { key, right, .. }) => Node::Internal {
            key,
            left: word,
            right,
        },
        (Side::Right, Node::Internal { key, left, .. }) => Node::Internal {
            key,
            left,
            right: word,
        },
    }
}

/// A new internal node over the new leaf `new` of key `key` and a leaf of key `other`.
fn internal_over(key: u8, other: u8, new: u16, leaf: u16) -> Node
    ensures { result ≡ internal_over key other new leaf }
{
    if key < other {
        Node::Internal {
            key: other,
            left: plain(new),
            right: plain(leaf),
        }
    } else {
        Node::Internal {
            key,
            left: plain(leaf),
            right: plain(new),
        }
    }
}

/// Appends nodes to a list. It reuses the list's buffer where that is large enough. After a refusal the list is
/// unchanged.
fn lengthen(nodes: &mut Sequence<Node>, more: &[Node]) -> Result<(), OutOfMemory>
    ensures ok { OnOk result (nodes.new ≡ nodes.old ++ more.now) }
    ensures err { OnErr result (nodes.new ≡ nodes.old) }
{
    nodes.as_mut_vec().extend_from_slice(more)?;
    Ok(())
}

impl NatMitMem {
    /// A node by its number; a leaf of key 0 where there is no such node.
    pub fn node(&self, x: u16) -> Node
        ensures { result ≡ node_at self.now x }
    {
        match self.nodes.get(x as usize) {
            Some(node) => *node,
            None => Node::Leaf { key: 0 },
        }
    }

    /// Sets a child word of a node, if there is such a node.
    #[tactic(auto, using(crate::proofs::Past::set_past))]
    pub(crate) fn set_word(&mut self, x: u16, side: Side, word: Word)
        ensures { self.new ≡ set_word self.old x side word }
    {
        let node = with_word(side, word, self.node(x));
        if usize::from(x) < self.nodes.len() {
            self.nodes.set(x as usize, node);
        }
    }

    /// Appends a new internal node for a key at a leaf, behind its new leaf, and returns its number. After a refusal
    /// nothing is appended.
    fn add_internal(&mut self, key: u8, leaf: u16) -> Result<u16, OutOfMemory>
        ensures ok { IfOk result (λ new. self.new ≡ with_internal self.old key leaf) }
        ensures number { IfOk result (λ new. new ≡ new_internal self.old) }
        ensures err { OnErr result (self.new ≡ self.old) }
    {
        let count = self.nodes.len();
        let new_leaf = short_number_of(count)?;
        let new = short_number_of(count + 1)?;
        let other = key_in(self.node(leaf));
        let more = [
            Node::Leaf { key },
            internal_over(key, other, new_leaf, leaf),
        ];
        lengthen(&mut self.nodes, &more)?;
        Ok(new)
    }

    /// Replaces a leaf, below its parent, by a new internal node for a key. After a refusal nothing is changed.
    pub(crate) fn put_at(&mut self, key: u8, parent: u16, leaf: u16) -> Result<(), OutOfMemory>
        ensures ok { IfOk result (λ _. self.new ≡ put_at self.old key parent leaf) }
        ensures err { OnErr result (self.new ≡ self.old) }
    {
        let side = side_of(key, key_in(self.node(parent)));
        let new = self.add_internal(key, leaf)?;
        self.set_word(parent, side, plain(new));
        Ok(())
    }

    /// An equal memory.
    pub(crate) fn copy(&self, alloc: Global) -> Result<NatMitMem, OutOfMemory>
        ensures { IfOk result (λ copy. copy ≡ self.now) }
    {
        Ok(NatMitMem {
            nodes: self.nodes.copy(alloc)?,
        })
    }

    /// Makes another memory equal to this one. It reuses that one's buffer where it is large enough.
    #[inline(always)]
    pub(crate) fn copy_into(&self, copy: &mut NatMitMem) -> Result<(), OutOfMemory>
        ensures { OnOk result (copy.new ≡ self.now) }
    {
        copy_into(self.nodes.as_slice(), &mut copy.nodes)
    }
}

impl Shapes for NatMitMem {
    ghost shapes = { shapes };

    fn shape(&self, x: u16) -> Option<Shape> {
        let node = self.nodes.get(usize::from(x))?;
        Some(shape_in(*node))
    }
}

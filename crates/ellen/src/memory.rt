//! The nodes and the records of the shared memory.
ghost use Rattle.std.specs.Prelude.{◌≡◌, ◌+◌, ◌<◌, length, IfOk, OnOk, OnErr, Some};
ghost use Rattle.ellen.specs.declared.memory.Record.TheVariants.{Ins};
ghost use Rattle.tree_machine.specs.SearchOrder.{side_of};
ghost use Rattle.ellen.specs.Memory.{node_at, record_at, key_at, update_of, child_on, insert_of, delete_of};
ghost use Rattle.ellen.specs.Memory.{is_word, key_in, shape_in, shapes, with_update, with_child, set_node};
ghost use Rattle.ellen.specs.Memory.{set_update, set_child, with_internal, new_internal, internal_over, add_record};

use sched_program::{OutOfMemory, Sequence};
use std::alloc::Global;
use tree_machine::{Shape, Shapes, Side, copy_into, extended, short_number_of, side_of};

/// An update word: its state, with the number of the record that was written there last.
#[derive(Clone, Copy, PartialEq, Eq, Hash)]
pub enum UpdateWord {
    /// CLEAN, and no record was written yet.
    Untouched,
    /// CLEAN: what the record describes is over.
    Clean(u16),
    /// IFLAG: an insert below the node is under way.
    InsertFlag(u16),
    /// DFLAG: a delete of a child of the node is under way.
    DeleteFlag(u16),
    /// MARK: the node is to be spliced out, for good.
    Mark(u16),
}

/// A node of the tree; the children are node numbers.
#[derive(Clone, Copy, PartialEq, Eq, Hash)]
pub enum Node {
    /// A leaf with its key.
    Leaf {
        key: u8,
    },
    /// An internal node: keys below its own are on the left.
    Internal {
        key: u8,
        update: UpdateWord,
        left: u16,
        right: u16,
    },
}

/// What an insert is about to do: replace the leaf by the node `new`.
#[derive(Clone, Copy, PartialEq, Eq, Hash)]
pub struct InsertRecord {
    pub parent: u16,
    pub leaf: u16,
    pub new: u16,
}

/// What a delete is about to do: replace the parent by the leaf's sibling.
#[derive(Clone, Copy, PartialEq, Eq, Hash)]
pub struct DeleteRecord {
    pub grandparent: u16,
    pub parent: u16,
    pub leaf: u16,
    pub parent_update: UpdateWord,
}

/// What an operation is about to do, so that others can help it.
#[derive(Clone, Copy, PartialEq, Eq, Hash)]
pub enum Record {
    Ins(InsertRecord),
    Del(DeleteRecord),
}

/// The shared memory: nodes and records, by number. The root is node 0. It has at most 2^16 of each: more are refused
/// with `OutOfMemory`.
#[derive(Drop, PartialEq, Eq, Hash)]
pub struct EllenMem {
    pub nodes: Sequence<Node>,
    pub records: Sequence<Record>,
}

/// The key of a node.
pub fn key_in(node: Node) -> u8
    ensures { result ≡ key_in node }
{
    match node {
        Node::Leaf { key } => key,
        Node::Internal { key, .. } => key,
    }
}

/// What a search sees of a node.
fn shape_in(node: Node) -> Shape
    ensures { result ≡ shape_in node }
{
    match node {
        Node::Leaf { key } => Shape::Leaf { key },
        Node::Internal {
            key,
            left,
            right,
            ..
        } => Shape::Internal { key, left, right },
    }
}

/// The update word of a node; a leaf has none.
pub fn update_of(node: Node) -> Option<UpdateWord>
    ensures { result ≡ update_of node }
{
    match node {
        Node::Leaf { .. } => None,
        Node::Internal { update, .. } => Some(update),
    }
}

/// The child of a node on a side; a leaf has none.
pub fn child_on(side: Side, node: Node) -> Option<u16>
    ensures { result ≡ child_on side node }
{
    match (side, node) {
        (_, Node::Leaf { .. }) => None,
        (Side::Left, Node::Internal { left, .. }) => Some(left),
        (Side::Right, Node::Internal { right, .. }) => Some(right),
    }
}

/// The node with this update word; a leaf has none.
fn with_update(word: UpdateWord, node: Node) -> Node
    ensures { result ≡ with_update word node }
{
    match node {
        Node::Leaf { .. } => node,
        Node::Internal {
            key,
            left,
            right,
            ..
        } => Node::Internal {
            key,
            update: word,
            left,
            right,
        },
    }
}

/// The node with this child on a side; a leaf has none.
fn with_child(side: Side, child: u16, node: Node) -> Node
    ensures { result ≡ with_child side child node }
{
    let Node::Internal {
        key,
        update,
        left,
        right,
    } = node
    else {
        return node;
    };
    match side {
        Side::Left => Node::Internal {
            key,
            update,
            left: child,
            right,
        },
        Side::Right => Node::Internal {
            key,
            update,
            left,
            right: child,
        },
    }
}

/// Whether an update word is the one that an exchange expects, its record too.
pub fn is_word(found: UpdateWord, expected: UpdateWord) -> bool
    ensures { result ≡ is_word found expected }
{
    match (found, expected) {
        (UpdateWord::Untouched, UpdateWord::Untouched) => true,
        (UpdateWord::Clean(r), UpdateWord::Clean(s)) => r == s,
        (UpdateWord::InsertFlag(r), UpdateWord::InsertFlag(s)) => r == s,
        (UpdateWord::DeleteFlag(r), UpdateWord::DeleteFlag(s)) => r == s,
        (UpdateWord::Mark(r), UpdateWord::Mark(s)) => r == s,
        _ => false,
    }
}

/// A new internal node over the new leaf `x` of key `key` and the copy `y` of a leaf of key `other`.
fn internal_over(key: u8, other: u8, x: u16, y: u16) -> Node
    ensures { result ≡ internal_over key other x y }
{
    let update = UpdateWord::Untouched;
    if key < other {
        Node::Internal {
            key: other,
            update,
            left: x,
            right: y,
        }
    } else {
        Node::Internal {
            key,
            update,
            left: y,
            right: x,
        }
    }
}

impl EllenMem {
    /// A node by its number.
    pub(crate) fn node(&self, x: u16) -> Node
        ensures { result ≡ node_at self.now x }
    {
        match self.nodes.get(x as usize) {
            Some(node) => *node,
            None => Node::Leaf { key: 0 },
        }
    }

    /// The record of an insert by its number.
    pub(crate) fn insert_record(&self, r: u16) -> Option<InsertRecord>
        ensures { result ≡ insert_of (record_at self.now r) }
    {
        match self.records.get(r as usize) {
            Some(Record::Ins(insert)) => Some(*insert),
            _ => None,
        }
    }

    /// The record of a delete by its number.
    pub(crate) fn delete_record(&self, r: u16) -> Option<DeleteRecord>
        ensures { result ≡ delete_of (record_at self.now r) }
    {
        match self.records.get(r as usize) {
            Some(Record::Del(delete)) => Some(*delete),
            _ => None,
        }
    }

    /// Replaces a node, if there is one of this number.
    #[tactic(auto, using(crate::proofs::Past::node_past))]
    fn set_node(&mut self, x: u16, node: Node)
        ensures { self.new ≡ set_node self.old x node }
    {
        if usize::from(x) < self.nodes.len() {
            self.nodes.set(x as usize, node);
        }
    }

    /// Sets the update word of a node, if there is such a node.
    pub(crate) fn set_update(&mut self, x: u16, word: UpdateWord)
        ensures { self.new ≡ set_update self.old x word }
    {
        let node = with_update(word, self.node(x));
        self.set_node(x, node);
    }

    /// Sets a child of a node, if there is such a node.
    pub(crate) fn set_child(&mut self, x: u16, side: Side, child: u16)
        ensures { self.new ≡ set_child self.old x side child }
    {
        let node = with_child(side, child, self.node(x));
        self.set_node(x, node);
    }

    /// The nodes with a new internal node for a key at a leaf, behind its two new leaves, and that node's number.
    fn with_internal(
        &self,
        alloc: Global,
        key: u8,
        leaf: u16,
    ) -> Result<(Sequence<Node>, u16), OutOfMemory>
        ensures nodes { IfOk result (λ made. made.0 ≡ (with_internal self.now key leaf).nodes) }
        ensures number { IfOk result (λ made. made.1 ≡ new_internal self.now) }
    {
        let count = self.nodes.len();
        let first = short_number_of(count)?;
        let new = short_number_of(count + 2)?;
        let other = key_in(self.node(leaf));
        let more = [
            Node::Leaf { key },
            Node::Leaf { key: other },
            internal_over(key, other, first, new - 1),
        ];
        Ok((extended(alloc, &self.nodes, &more)?, new))
    }

    /// Appends a new internal node for a key at a leaf, and returns its number. After a refusal nothing is appended.
    pub(crate) fn add_internal(
        &mut self,
        alloc: Global,
        key: u8,
        leaf: u16,
    ) -> Result<u16, OutOfMemory>
        ensures ok { IfOk result (λ new. self.new ≡ with_internal self.old key leaf) }
        ensures number { IfOk result (λ new. new ≡ new_internal self.old) }
        ensures err { OnErr result (self.new ≡ self.old) }
    {
        let (nodes, new) = self.with_internal(alloc, key, leaf)?;
        self.nodes = nodes;
        Ok(new)
    }

    /// The key of a new internal node for a key at a leaf.
    #[tactic(auto, using(crate::proofs::Appended::key_of_leaf, crate::proofs::Appended::key_of_new))]
    fn new_key(&self, key: u8, leaf: u16) -> u8
        ensures { result ≡ key_at (with_internal self.now key leaf) (new_internal self.now) }
    {
        let other = key_in(self.node(leaf));
        if key < other { other } else { key }
    }

    /// The side of `parent` on which a new internal node for a key at a leaf goes.
    pub(crate) fn side_of_new(&self, parent: u16, key: u8, leaf: u16) -> Side
        ensures { result ≡ side_of (key_at (with_internal self.now key leaf) (new_internal self.now))
            (key_at self.now parent) }
    {
        side_of(self.new_key(key, leaf), key_in(self.node(parent)))
    }

    /// Appends a record.
    pub(crate) fn add_record(&mut self, new: Record) -> Result<(), OutOfMemory>
        ensures ok { IfOk result (λ _. self.new ≡ add_record self.old new) }
        ensures err { OnErr result (self.new ≡ self.old) }
    {
        self.records.push(new)
    }

    /// Appends a new internal node for a key at a leaf, and a record of that insert. After a refusal nothing is
    /// appended.
    pub(crate) fn add_insert(
        &mut self,
        alloc: Global,
        key: u8,
        parent: u16,
        leaf: u16,
    ) -> Result<(), OutOfMemory>
        ensures ok { IfOk result (λ _. self.new
            ≡ add_record (with_internal self.old key leaf)
            (Ins (record { parent = parent; leaf = leaf; new = new_internal self.old }))) }
        ensures err { OnErr result (self.new ≡ self.old) }
    {
        let (nodes, new) = self.with_internal(alloc, key, leaf)?;
        self.add_record(Record::Ins(InsertRecord { parent, leaf, new }))?;
        self.nodes = nodes;
        Ok(())
    }

    /// An equal memory.
    pub(crate) fn copy(&self, alloc: Global) -> Result<EllenMem, OutOfMemory>
        ensures { IfOk result (λ copy. copy ≡ self.now) }
    {
        Ok(EllenMem {
            nodes: self.nodes.copy(alloc)?,
            records: self.records.copy(alloc)?,
        })
    }

    /// Makes another memory equal to this one. It reuses that one's buffers where they are large enough.
    #[inline(always)]
    pub(crate) fn copy_into(&self, copy: &mut EllenMem) -> Result<(), OutOfMemory>
        ensures { OnOk result (copy.new ≡ self.now) }
    {
        copy_into(self.nodes.as_slice(), &mut copy.nodes)?;
        copy_into(self.records.as_slice(), &mut copy.records)
    }
}

impl Shapes for EllenMem {
    ghost shapes = { shapes };

    fn shape(&self, x: u16) -> Option<Shape> {
        let node = self.nodes.get(usize::from(x))?;
        Some(shape_in(*node))
    }
}

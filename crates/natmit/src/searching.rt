//! The rows of the table at which an operation looks for its key, and writes at the leaf where it found it.
ghost use Rattle.std.specs.Prelude.{◌≡◌, Bool, IfOk, OnErr};
ghost use Rattle.sched_program.specs.Program.{key_of};
ghost use Rattle.natmit.specs.declared.place.NatMitLoc.TheVariants as place;
ghost use Rattle.natmit.specs.Memory.{side_at};
ghost use Rattle.natmit.specs.Table.{act, arrived, path_below, went_down, looked};

use crate::machine::NatMit;
use crate::memory::{NatMitMem, Node, Word, is_plain, key_in, untagged, word_on};
use crate::place::{Mode, NatMitLoc, Path};
use sched_program::{Op, OutOfMemory};
use tree_machine::{Outcome, Side, side_of};

/// What comes of an access.
pub(crate) type Next = Outcome<NatMitLoc>;

/// What comes of an access, unless memory is refused.
pub(crate) type Access = Result<Next, OutOfMemory>;

/// The side of a node on which the operation's key is looked for.
pub(crate) fn side_at(op: Op, mem: &NatMitMem, x: u16) -> Side
    ensures { result ≡ side_at (key_of op) mem.now x }
{
    side_of(op.key(), key_in(mem.node(x)))
}

/// What a delete does at the leaf, of this key, at which its search has ended.
fn decide_delete(wanted: u8, path: Path, leaf: u16, mode: Mode, key: u8) -> Next
    ensures { (tag : Bool) → result ≡ arrived (Op.Delete wanted) path leaf tag mode (Node.Leaf key) }
{
    match mode {
        Mode::Plain => {
            if key != wanted {
                return Outcome::Replies(false);
            }
            Outcome::Goes(NatMitLoc::Flag { path, leaf })
        }
        Mode::Owner(owned) => {
            if leaf != owned {
                return Outcome::Replies(true);
            }
            Outcome::Goes(NatMitLoc::CleanRead { path, mode })
        }
    }
}

/// What an operation does at the leaf, of this key, at which its search has ended, whatever tag led there.
fn decide(op: Op, path: Path, leaf: u16, mode: Mode, key: u8) -> Next
    ensures { (tag : Bool) → result ≡ arrived op path leaf tag mode (Node.Leaf key) }
{
    match op {
        Op::Find(wanted) => Outcome::Replies(key == wanted),
        Op::Insert(wanted) if key == wanted => Outcome::Replies(false),
        Op::Insert(_) => Outcome::Goes(NatMitLoc::Put { path, leaf }),
        Op::Delete(wanted) => decide_delete(wanted, path, leaf, mode, key),
    }
}

/// Where a search goes from the node `leaf`, which it has reached.
fn arrived(op: Op, path: Path, leaf: u16, tag: bool, mode: Mode, node: Node) -> Next
    ensures { result ≡ arrived op path leaf tag mode node }
{
    match node {
        Node::Internal { .. } => Outcome::Goes(NatMitLoc::Down {
            path,
            leaf,
            tag,
            mode,
        }),
        Node::Leaf { key } => decide(op, path, leaf, mode, key),
    }
}

/// The path to a child of the node `leaf`, to which a word with this tag led.
fn path_below(path: Path, leaf: u16, tag: bool) -> Path
    ensures { result ≡ path_below path leaf tag }
{
    if tag {
        Path::of(path.ancestor, path.successor, leaf)
    } else {
        Path::of(path.parent, leaf, leaf)
    }
}

/// Where a search goes from this word of the parent.
fn went_down(op: Op, path: Path, mode: Mode, mem: &NatMitMem, word: Word) -> Next
    ensures { result ≡ went_down op path mode mem.now word }
{
    let node = mem.node(word.node);
    arrived(op, path, word.node, word.tag, mode, node)
}

/// Where an insert or delete goes after a failed exchange, from the word that it found.
fn looked(path: Path, leaf: u16, word: Word) -> Next
    ensures { result ≡ looked path leaf word }
{
    let mode = Mode::Plain;
    if word.node == leaf && (word.flag || word.tag) {
        Outcome::Goes(NatMitLoc::CleanRead { path, mode })
    } else {
        Outcome::Goes(NatMitLoc::Begin { mode })
    }
}

// ---- the rows of the table

impl NatMit {
    /// A search begins at node 1: all user keys are below its left word.
    fn begin_row(self, op: Op, mem: &NatMitMem, mode: Mode) -> Next
        ensures { act self op (place.Begin mode) mem.now ≡ (mem.now, result) }
    {
        match word_on(Side::Left, mem.node(1)) {
            Some(word) => went_down(op, Path::of(0, 1, 1), mode, mem, word),
            None => Outcome::Astray,
        }
    }

    /// A search goes down by a word of the node that it has reached.
    fn down_row(self, op: Op, mem: &NatMitMem, path: Path, leaf: u16, tag: bool, mode: Mode) -> Next
        ensures { act self op (place.Down path leaf tag mode) mem.now ≡ (mem.now, result) }
    {
        match word_on(side_at(op, mem, leaf), mem.node(leaf)) {
            Some(word) => went_down(op, path_below(path, leaf, tag), mode, mem, word),
            None => Outcome::Astray,
        }
    }

    /// An insert adds its key in the place of the leaf, if the word of the parent points to the leaf and no delete is
    /// under way.
    fn put_row(self, op: Op, mem: &mut NatMitMem, path: Path, leaf: u16) -> Access
        ensures ok { IfOk result (λ outcome. act self op (place.Put path leaf) mem.old ≡ (mem.new, outcome)) }
        ensures err { OnErr result (mem.new ≡ mem.old) }
    {
        let side = side_at(op, mem, path.parent);
        let Some(word) = word_on(side, mem.node(path.parent)) else {
            return Ok(Outcome::Astray);
        };
        if !is_plain(leaf, word) {
            return Ok(Outcome::Goes(NatMitLoc::Look { path, leaf }));
        }
        mem.put_at(op.key(), path.parent, leaf)?;
        Ok(Outcome::Replies(true))
    }

    /// A delete flags the word of its leaf: the key is gone once the leaf is cut off, by whichever operation.
    fn flag_row(self, op: Op, mem: &mut NatMitMem, path: Path, leaf: u16) -> Next
        ensures { act self op (place.Flag path leaf) mem.old ≡ (mem.new, result) }
    {
        let side = side_at(op, mem, path.parent);
        let Some(word) = word_on(side, mem.node(path.parent)) else {
            return Outcome::Astray;
        };
        if is_plain(leaf, word) {
            mem.set_word(path.parent, side, untagged(true, leaf));
            let mode = Mode::Owner(leaf);
            Outcome::Goes(NatMitLoc::CleanRead { path, mode })
        } else {
            Outcome::Goes(NatMitLoc::Look { path, leaf })
        }
    }

    /// After a failed exchange: a flagged or tagged word of the same leaf is that of another delete, which is helped.
    fn look_row(self, op: Op, mem: &NatMitMem, path: Path, leaf: u16) -> Next
        ensures { act self op (place.Look path leaf) mem.now ≡ (mem.now, result) }
    {
        match word_on(side_at(op, mem, path.parent), mem.node(path.parent)) {
            Some(word) => looked(path, leaf, word),
            None => Outcome::Astray,
        }
    }

    /// One access to the memory, by the row of its place. After a refusal the memory is unchanged.
    pub(crate) fn access(self, op: Op, loc: NatMitLoc, mem: &mut NatMitMem) -> Access
        ensures ok { IfOk result (λ outcome. act self op loc mem.old ≡ (mem.new, outcome)) }
        ensures err { OnErr result (mem.new ≡ mem.old) }
    {
        match loc {
            NatMitLoc::Begin { mode } => Ok(self.begin_row(op, mem, mode)),
            NatMitLoc::Down {
                path,
                leaf,
                tag,
                mode,
            } => Ok(self.down_row(op, mem, path, leaf, tag, mode)),
            NatMitLoc::Put { path, leaf } => self.put_row(op, mem, path, leaf),
            NatMitLoc::Flag { path, leaf } => Ok(self.flag_row(op, mem, path, leaf)),
            NatMitLoc::Look { path, leaf } => Ok(self.look_row(op, mem, path, leaf)),
            NatMitLoc::CleanRead { path, mode } => Ok(self.clean_read_row(op, mem, path, mode)),
            NatMitLoc::Tag { path, side, mode } => Ok(self.tag_row(op, mem, path, side, mode)),
            NatMitLoc::Sibling { path, side, mode } => {
                Ok(self.sibling_row(op, mem, path, side, mode))
            }
            NatMitLoc::Swing {
                ancestor,
                successor,
                flag,
                node,
                mode,
            } => {
                let sibling = untagged(flag, node);
                Ok(self.swing_row(op, mem, ancestor, successor, sibling, mode))
            }
        }
    }
}

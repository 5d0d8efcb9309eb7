//! The place of an operation: its next access to the memory, and the locals that it holds.
ghost use Rattle.std.specs.Prelude.{◌≡◌, IfOk};

use crate::memory::UpdateWord;
use sched_program::{OutOfMemory, Sequence};
use std::alloc::Global;
use tree_machine::Side;

/// A node above the one that a search has reached, with the update word that was read of it.
#[derive(Clone, Copy, PartialEq, Eq, Hash)]
pub struct Above {
    pub node: u16,
    pub update: UpdateWord,
}

/// A place of an operation that searches, or has decided what it will write first.
#[derive(Clone, Copy, PartialEq, Eq, Hash)]
pub enum SearchLoc {
    /// Reads the update word of the node that becomes the parent.
    Update {
        above: Option<Above>,
        parent: u16,
    },
    /// Reads the parent's child on the side of the key.
    Child {
        above: Option<Above>,
        parent: u16,
        update: UpdateWord,
    },
    /// Flags the parent for an insert at the leaf.
    IFlag {
        parent: u16,
        update: UpdateWord,
        leaf: u16,
    },
    /// Writes the parent's child without a flag, in the variant that has none.
    InsOnly {
        parent: u16,
        leaf: u16,
    },
    /// Flags the grandparent for a delete of the leaf.
    DFlag {
        above: Above,
        parent: u16,
        update: UpdateWord,
        leaf: u16,
    },
}

/// A place of an operation that carries out what a record says, its own or another's.
#[derive(Clone, Copy, PartialEq, Eq, Hash)]
pub enum HelpLoc {
    /// Writes the new node of an insert as a child of its parent.
    InsChild(u16),
    /// Takes the flag of an insert back.
    InsClean(u16),
    /// Marks the parent of a delete.
    Mark(u16),
    /// Reads the right child of the parent of a delete.
    Right(u16),
    /// Reads the child of that parent on the side where the leaf is not.
    Other { record: u16, side: Side },
    /// Replaces the parent by that other child.
    Splice { record: u16, other: u16 },
    /// Takes back the flag of a delete that is done.
    DelClean(u16),
    /// Takes back the flag of a delete that could not mark its parent.
    Back(u16),
}

/// What an operation does once its helping has ended.
#[derive(Clone, Copy, PartialEq, Eq, Hash)]
pub enum Base {
    /// It begins its search again.
    Again,
    /// Its own insert is done.
    Insert,
    /// Its own delete is done, or begins again.
    Delete,
}

/// The delete records whose backtrack is awaited, the last one on top, and what is done behind them.
#[derive(Drop, PartialEq, Eq, Hash)]
pub struct Resume {
    pub stack: Sequence<u16>,
    pub base: Base,
}

/// A place of the machine.
#[derive(Drop, PartialEq, Eq, Hash)]
pub enum EllenLoc {
    Search(SearchLoc),
    Help(HelpLoc, Resume),
}

impl Resume {
    /// An equal value.
    pub(crate) fn copy(&self, alloc: Global) -> Result<Resume, OutOfMemory>
        ensures { IfOk result (λ copy. copy ≡ self.now) }
    {
        Ok(Resume {
            stack: self.stack.copy(alloc)?,
            base: self.base,
        })
    }
}

impl EllenLoc {
    /// An equal place.
    pub(crate) fn copy(&self, alloc: Global) -> Result<EllenLoc, OutOfMemory>
        ensures { IfOk result (λ copy. copy ≡ self.now) }
    {
        match self {
            EllenLoc::Search(at) => Ok(EllenLoc::Search(*at)),
            EllenLoc::Help(at, resume) => Ok(EllenLoc::Help(*at, resume.copy(alloc)?)),
        }
    }
}

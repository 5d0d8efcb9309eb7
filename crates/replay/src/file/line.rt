//! A line of a book file.
ghost use Rattle.std.specs.Prelude.{◌≡◌, ◌++◌, ◌∷◌, [], IfOk, OnOk};

use sched_program::{OpId, OutOfMemory, Sequence, ShortList};
use std::alloc::Global;
use std::marker::Model;

/// The most entries of a book file.
pub const MOST_ENTRIES: usize = 2_000_000;

/// What a book file says of an entry after the first: the step that reaches it, and an order of its operations.
#[derive(Drop)]
pub struct BookLine {
    /// The number of the entry that the step is taken from. A number from `MOST_ENTRIES` on counts as that.
    pub parent: u32,
    /// The thread that takes the step.
    pub thread: u8,
    /// The names of the operations, in an order that explains the entry's history.
    pub order: Names,
}

/// The names of operations in some order. Up to seven are stored in the value itself, since a file may have two million
/// lines.
#[derive(Drop)]
pub struct Names {
    storage: Storage,
}

#[derive(Drop)]
enum Storage {
    Inline(ShortList<OpId, 7>),
    Boxed(Box<Sequence<OpId>>),
}

impl Model for Names {
    ghost use Rattle.std.specs.Prelude.{List};
    ghost use Rattle.sched_program.specs.declared.operation.OpId.{OpId as Name};
    ghost use Rattle.replay.specs.Storage.{names_of};

    ghost Value = { List Name };

    ghost view = { λ n. names_of n.storage };
}

/// Names, with one more behind them, in a list of their own.
fn boxed(alloc: Global, names: &[OpId], name: OpId) -> Result<Box<Sequence<OpId>>, OutOfMemory>
    ensures { IfOk result (λ longer. longer.value ≡ names.now ++ name ∷ []) }
{
    let mut longer = Sequence::new(alloc);
    for known in names {
        longer.push(*known)?;
    }
    longer.push(name)?;
    Ok(Box::new(alloc, longer)?)
}

impl Names {
    /// No names. It takes no memory.
    pub fn new() -> Names
        ensures { result ≡ [] }
    {
        Names {
            storage: Storage::Inline(ShortList::new()),
        }
    }

    /// Appends a name.
    pub fn push(&mut self, alloc: Global, name: OpId) -> Result<(), OutOfMemory>
        ensures { OnOk result (self.new ≡ self.old ++ name ∷ []) }
    {
        match &mut self.storage {
            Storage::Boxed(names) => names.push(name)?,
            Storage::Inline(names) => {
                if names.len() < 7 {
                    names.push(name);
                    return Ok(());
                }
                let longer = boxed(alloc, names.as_slice(), name)?;
                self.storage = Storage::Boxed(longer);
            }
        }
        Ok(())
    }

    /// The names.
    pub fn as_slice(&self) -> &[OpId]
        ensures { result.now ≡ self.now }
    {
        match &self.storage {
            Storage::Inline(names) => names.as_slice(),
            Storage::Boxed(names) => names.as_slice(),
        }
    }
}

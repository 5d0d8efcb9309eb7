//! Programs: a tree, the keys that it begins with, and what each thread calls.
ghost use Rattle.std.specs.Prelude.{◌≡◌, ◌↔◌, IsTrue, IfOk};
ghost use Rattle.sched_program.specs.Program.{IsWithinLimits, op_at, after_at};

use crate::OutOfMemory;
use crate::exact::same;
use crate::operation::{Op, OpId, Tree, Turn};
use crate::sequence::Sequence;
use std::alloc::Global;
use std::marker::Model;

/// A program that meets the limits: at most twelve distinct initial keys, one to four threads, each of one to six
/// operations, twelve operations in all, and keys from 0 to 99. An operation may wait until a thread of lower number
/// has finished at least one and at most all of its operations.
#[derive(Drop)]
pub struct Program {
    tree: Tree,
    initial: Sequence<u8>,
    threads: Sequence<Sequence<Op>>,
    turns: Sequence<Sequence<Option<Turn>>>,
}

impl Model for Program {
    ghost use Rattle.sched_program.specs.Program.{Program, IsWithinLimits};

    ghost Value = { Program };

    ghost view = { λ p. record { tree = p.tree; initial = p.initial; threads = p.threads; turns = p.turns } };

    ghost invariant = { λ p. IsWithinLimits
        (record { tree = p.tree; initial = p.initial; threads = p.threads; turns = p.turns }) };
}

/// An equal list of lists.
fn copy_lists<T: Copy + Drop>(
    alloc: Global,
    lists: &[Sequence<T>],
) -> Result<Sequence<Sequence<T>>, OutOfMemory>
    ensures { IfOk result (λ copy. copy ≡ lists.now) }
{
    let mut copy = Sequence::new(alloc);
    for list in lists {
        copy.push(list.copy(alloc)?)?;
    }
    Ok(copy)
}

impl Program {
    /// The program of these fields, which meet the limits. It takes no memory.
    pub fn new(
        tree: Tree,
        initial: Sequence<u8>,
        threads: Sequence<Sequence<Op>>,
        turns: Sequence<Sequence<Option<Turn>>>,
    ) -> Program
        requires { IsWithinLimits (record { tree = tree; initial = initial; threads = threads; turns = turns }) }
        ensures { result ≡ record { tree = tree; initial = initial; threads = threads; turns = turns } }
    {
        Program {
            tree,
            initial,
            threads,
            turns,
        }
    }

    /// An equal program.
    pub fn copy(&self, alloc: Global) -> Result<Program, OutOfMemory>
        ensures { IfOk result (λ copy. copy ≡ self.now) }
    {
        let initial = self.initial.copy(alloc)?;
        let threads = copy_lists(alloc, self.threads.as_slice())?;
        let turns = copy_lists(alloc, self.turns.as_slice())?;
        Ok(Program {
            tree: self.tree,
            initial,
            threads,
            turns,
        })
    }

    /// Whether two programs are one and the same.
    pub fn is_same(&self, other: &Program) -> bool
        ensures { IsTrue result ↔ (self.now ≡ other.now) }
    {
        same(&self.tree, &other.tree)
            && same(&self.initial, &other.initial)
            && same(&self.threads, &other.threads)
            && same(&self.turns, &other.turns)
    }

    /// The machine that the program runs on.
    pub fn tree(&self) -> Tree
        ensures { result ≡ self.now.tree }
    {
        self.tree
    }

    /// The keys that the tree begins with, in the order of their insertion.
    pub fn initial(&self) -> &[u8]
        ensures value { result.now ≡ self.now.initial }
        ensures limits { IsWithinLimits self.now }
    {
        self.initial.as_slice()
    }

    /// The operations of each thread, in order.
    pub fn threads(&self) -> &[Sequence<Op>]
        ensures value { result.now ≡ self.now.threads }
        ensures limits { IsWithinLimits self.now }
    {
        self.threads.as_slice()
    }

    /// The operation with a name, if the program has it.
    pub fn op(&self, id: OpId) -> Option<Op>
        ensures { result ≡ op_at self.now id.thread id.index }
    {
        let thread = self.threads.get(usize::from(id.thread))?;
        thread.get(usize::from(id.index)).copied()
    }

    /// What the operation with a name waits for, if it does: a thread, and how many operations that is to have
    /// finished.
    #[tactic(auto, unfolding(crate::specs::Program::after_at))]
    pub fn after(&self, id: OpId) -> Option<(u8, u8)>
        ensures { result ≡ after_at self.now id.thread id.index }
    {
        let turns = self.turns.get(usize::from(id.thread))?;
        let turn = turns.get(usize::from(id.index)).copied()??;
        Some((turn.thread as u8, turn.count as u8))
    }
}

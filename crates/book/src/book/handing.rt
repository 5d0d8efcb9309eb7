//! How the entries of a layer are taken, and then handed out one by one.
ghost use Rattle.std.specs.Prelude.{◌≡◌, ◌↔◌, ◌<◌, IfNone, IfOk, IfSome, IsTrue, Some};
ghost use Rattle.tree_machine.specs.declared.state.State.{State};
ghost use Rattle.book.specs.Books.{machine_in};
ghost use Rattle.book.specs.Entries.{Entry, At, IsTaken, TakesRange};
ghost use Rattle.book.specs.Labels.{label_by};
ghost use Rattle.book.specs.declared.entry.Mark.{Mark};

use crate::book::Book;
use crate::expanding::{EntryKey, TakenEntry};
use crate::scratch::Scratch;
use sched_program::{OutOfMemory, Program};
use tree_machine::{Bytes, Encode};

impl<M: Encode> Book<M> {
    /// Whether the book is of a machine and a program.
    pub fn is_of(&self, machine: M, program: &Program) -> bool
        ensures { IsTrue result ↔ ((self.now.machine ≡ machine) × (self.now.program ≡ program.now)) }
    {
        self.machine == machine && self.program.is_same(program)
    }

    /// Takes at once the entries that `take_layer` takes, without making their states. Their numbers are consecutive:
    /// it returns the first and the one after the last, which are equal if there is no entry to take.
    pub fn take_range(&mut self) -> (usize, usize)
        ensures taken { TakesRange (machine_in M.rules self.old).steps self.old.entries self.new.entries
            result.0 result.1 }
        ensures same { self.new ≡ record self.old { entries = self.new.entries } }
    {
        let Some(start) = self.next_open() else {
            return (0, 0);
        };
        let end = self.first_above(self.steps_to(start));
        self.table.mark_range_taken(start, end);
        (start, end)
    }

    /// A taken entry, to be expanded without the book; none if no entry of this number is taken. Its label is copied
    /// into memory of the scratch.
    pub fn taken_entry<'a>(
        &self,
        id: usize,
        program: &'a Program,
        scratch: &mut Scratch<M>,
    ) -> Result<Option<TakenEntry<'a, M>>, OutOfMemory>
        requires { program.now ≡ self.now.program }
        ensures entry { IfOk result (λ o. IfSome o (λ t. (e : Entry (State M M.Mem M.Loc M.Form))
            × At self.now.entries id e × (e.mark ≡ Mark.Taken) × (t.finding ≡ e.finding)
            × (t.key ≡ record {
              id = id;
              machine = self.now.machine;
              program = self.now.program;
              merge = self.now.merge;
              label = label_by M.own_code M.form_code (M.form_of self.now.machine) self.now.merge e.state;
            }))) }
        ensures none { IfOk result (λ o. IfNone o (IsTaken self.now.entries id → ⊥)) }
    {
        if !self.is_taken(id) {
            return Ok(None);
        }
        let alloc = self.table.allocator();
        let label = Bytes::copied_in(self.table.label(id), scratch.spare.label(alloc))?;
        let key = EntryKey {
            id,
            machine: self.machine,
            program,
            merge: self.merge,
            label,
        };
        Ok(Some(TakenEntry {
            key,
            finding: *self.table.entry(id).finding(),
        }))
    }
}

//! What is read off a book.
ghost use Rattle.std.specs.Prelude.{◌≡◌, ℕ, ◌+◌, ◌-◌, ◌<◌, ◌≤◌, ◌↔◌, List, length, IsTrue, IfOk, IfSome, IfNone, Some};
ghost use Rattle.std.specs.Prelude.{None, not, position, true, false, count_by, nat_le, slice_get};
ghost use Rattle.std.specs.Option.{option_copied, option_map};
ghost use Rattle.tree_machine.specs.declared.state.State.{State};
ghost use Rattle.book.specs.Entries.{Entry, At};
ghost use Rattle.replay.specs.Findings.{is_sound};
ghost use Rattle.book.specs.Books.{machine_in, right_in, totals_of, CountsAsOne};
ghost use Rattle.book.specs.Counts.{IsCount};
ghost use Rattle.book.specs.Layers.{IsExpandedTo, IsExpandedBelow, IsLeftTo};
ghost use Rattle.replay.specs.BookFile.Checks.{PassAs};
ghost use Rattle.book.specs.BookFile.Written.{IsFileOf};
ghost use Rattle.replay.specs.Closed.{HoldsForEvery};
ghost use Rattle.book.specs.Closed.{AreSound, IsClosed};
ghost use Rattle.replay.specs.Schedule.{after};
ghost use Rattle.book.specs.Ways.{IsWay};

use crate::book::{Book, Totals};
use crate::writing::write_entries;
use options::Merge;
use replay::Finding;
use sched_program::{OutOfMemory, Program};
use std::alloc::Global;
use tree_machine::Encode;

impl<M: Encode> Book<M> {
    /// The lowest-numbered entry that is not sound.
    pub fn first_fault(&self) -> Option<usize>
        ensures { result ≡ position (λ e. not (is_sound e.finding)) self.now.entries }
    {
        self.table.first_fault()
    }

    /// What was found of an entry's state; none if there is no such entry.
    pub fn finding_of(&self, id: usize) -> Option<&Finding>
        ensures { option_copied result ≡ option_map (λ e. e.finding) (slice_get self.now.entries id) }
    {
        match self.table.row(id) {
            Some(row) => Some(row.finding()),
            None => None,
        }
    }

    /// The threads of the recorded way from entry 0 to an entry: its origin and those before it. It is the only
    /// recorded way.
    pub fn schedule_of(&self, alloc: Global, id: usize) -> Result<Vec<u8>, OutOfMemory>
        requires { id < length self.now.entries }
        ensures leads { IfOk result (λ c. (e : Entry (State M M.Mem M.Loc M.Form)) × At self.now.entries id e
            × (after (machine_in M.rules self.now) c.items ≡ Some e.state) × (length c.items ≡ e.state.steps)) }
        ensures way { IfOk result (λ c. IsWay self.now.entries 0 c.items id) }
        ensures only { IfOk result (λ c. (d : List ℕ) → IsWay self.now.entries 0 d id → d ≡ c.items) }
    {
        let mut schedule = Vec::new(alloc);
        let mut at = id;
        while let Some(origin) = self.table.origin(at) {
            schedule.push(origin.thread)?;
            at = origin.parent;
        }
        schedule.reverse();
        Ok(schedule)
    }

    /// How many entries there are, and what became of the steps that were entered.
    pub fn totals(&self) -> Totals
        ensures totals { result ≡ totals_of self.now }
        ensures marks { result.entries ≡ result.fresh + result.taken + result.expanded }
        ensures entered { result.entries ≡ result.entered + 1 }
    {
        self.table.totals(self.met)
    }

    /// How many entries have at most `steps` steps. Once all entries of fewer steps are expanded, this is the number of
    /// states that at most `steps` steps reach. With exact merging it counts different states, and by names states no
    /// two of which are alike.
    pub fn count_to(&self, steps: u64) -> usize
        ensures value { result ≡ count_by (λ e. nat_le e.state.steps steps) self.now.entries }
        ensures within { result ≤ length self.now.entries }
        ensures count { IsExpandedBelow (machine_in M.rules self.now).steps self.now.entries steps
            → IsCount (machine_in M.rules self.now)
            (CountsAsOne (M.rules self.now.machine) self.now.merge) steps result }
    {
        self.law();
        self.first_above(steps)
    }

    /// Whether an entry of at most `steps` steps is not expanded.
    pub fn is_left_to(&self, steps: u64) -> bool
        ensures left { result ≡ true → IsLeftTo (machine_in M.rules self.now).steps self.now.entries steps }
        ensures none { result ≡ false → IsExpandedTo (machine_in M.rules self.now).steps self.now.entries steps }
    {
        match self.table.first_left() {
            None => false,
            Some(first) => self.steps_to(first) <= steps,
        }
    }

    /// Whether the book merges by names and has no entry open or taken. Then, if all its entries are sound, every
    /// schedule of any length reaches a sound state. It takes no memory.
    pub fn closed(&self) -> bool
        ensures closed { IsTrue result ↔ IsClosed self.now }
        ensures every { result ≡ true → AreSound self.now.entries
            → HoldsForEvery (machine_in M.rules self.now) (right_in M.rules self.now) }
    {
        self.law();
        match self.table.first_left() {
            Some(_) => false,
            None => self.merge == Merge::Names,
        }
    }

    /// The text of the book's file: the line of each entry has its parent, its thread and the linearization that was
    /// found of its state. None where the book is not closed, or some entry is not sound. The lines pass with the
    /// book's machine and program.
    ///
    /// # Errors
    ///
    /// A growth was refused.
    pub fn to_text(&self, alloc: Global) -> Result<Option<Vec<u8>>, OutOfMemory>
        ensures text { IfOk result (λ o. IfSome o (λ text. IsFileOf self.now.entries text.items)) }
        ensures some { IfOk result (λ o. IfSome o (λ _. IsClosed self.now × AreSound self.now.entries)) }
        ensures none { IfOk result (λ o. IfNone o (IsClosed self.now → AreSound self.now.entries → ⊥)) }
        ensures passes { IfOk result (λ o. IfSome o (λ text. PassAs M M.Form
            (M.rules self.now.machine) self.now.program text.items (length self.now.entries))) }
    {
        if !self.closed() {
            return Ok(None);
        }
        if self.first_fault().is_some() {
            return Ok(None);
        }
        self.law();
        Ok(Some(write_entries(alloc, &self.table)?))
    }

    /// The number of entries.
    pub fn len(&self) -> usize
        ensures { result ≡ length self.now.entries }
    {
        self.table.len()
    }

    /// The machine of the states.
    pub fn machine(&self) -> M
        ensures { result ≡ self.now.machine }
    {
        self.machine
    }

    /// The program of the states.
    pub fn program(&self) -> &Program
        ensures { result.now ≡ self.now.program }
    {
        &self.program
    }

    /// How many entries there may be.
    pub fn limit(&self) -> usize
        ensures { result ≡ self.now.limit }
    {
        self.limit
    }

    /// Which states count as one.
    pub fn merge(&self) -> Merge
        ensures { result ≡ self.now.merge }
    {
        self.merge
    }
}

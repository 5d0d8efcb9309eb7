//! How expansions are entered into a book.
ghost use Rattle.std.specs.Prelude.{◌≡◌, ◌↔◌, ◌⊎◌, IfOk, IfErr, IsTrue, OnErr, OnOk};
ghost use Rattle.tree_machine.specs.declared.state.State.{State};
ghost use Rattle.book.specs.Books.{machine_in, right_in, CountsAsOne};
ghost use Rattle.book.specs.Entries.{Entry, At, Enters, IsFullFor, IsOwn, IsTaken, Refuses};
ghost use Rattle.book.specs.ByLabel.{expansion_of, AreStepsOf, IsEntryOf, IsOf, RefusesEntry};
ghost use Rattle.book.specs.Labels.{label_by, steps_of};
ghost use Rattle.options.specs.declared.options.Merge.TheVariants.{Exact};

use crate::book::{Book, EnterFault, Entered};
use crate::expanding::ExpandedEntry;
use crate::expansion::Expansion;
use crate::label::Label;
use crate::recycled::Recycled;
use crate::successor::Successor;
use options::Merge;
use sched_program::OutOfMemory;
use tree_machine::{Encode, State};

impl<M: Encode> Book<M> {
    /// Whether an entry of this number is taken.
    pub(crate) fn is_taken(&self, id: usize) -> bool
        ensures { IsTrue result ↔ IsTaken self.now.entries id }
    {
        match self.table.row(id) {
            Some(row) => row.is_taken(),
            None => false,
        }
    }

    /// Whether an expansion is that of a taken entry, of the book's machine and program. By names the entry's state is
    /// made by its schedule.
    fn is_expansion_of(&self, id: usize, expansion: &Expansion<'_, M>) -> Result<bool, OutOfMemory>
        requires { IsTaken self.now.entries id }
        ensures answer { IfOk result (λ is. IsTrue is
            ↔ IsOwn self.now id expansion.now.machine expansion.now.program expansion.now.source) }
        ensures refused { IfErr result (λ _. self.now.merge ≡ Exact → ⊥) }
    {
        match self.merge {
            Merge::Exact => Ok(expansion.is_coded(
                &self.machine,
                &self.program,
                self.table.label(id),
            )),
            Merge::Names => {
                let state = self.replayed(id)?;
                Ok(expansion.is_of(&self.machine, &self.program, &state))
            }
        }
    }

    /// Whether an expansion may be entered: its entry is taken, and it is that entry's.
    fn check_expansion(&self, id: usize, expansion: &Expansion<'_, M>) -> Result<(), EnterFault>
        ensures admitted { OnOk result (IsTaken self.now.entries id
            × IsOwn self.now id expansion.now.machine expansion.now.program expansion.now.source) }
        ensures refused { IfErr result
            (Refuses (CountsAsOne (M.rules self.now.machine) self.now.merge) self.now id expansion.now) }
    {
        if !self.is_taken(id) {
            return Err(EnterFault::NotTaken);
        }
        match self.is_expansion_of(id, expansion) {
            Ok(true) => Ok(()),
            Ok(false) => Err(EnterFault::Stranger),
            Err(OutOfMemory) => Err(EnterFault::OutOfMemory),
        }
    }

    /// Whether labelled steps of the book's machine and program are of the entry of their number, by its label.
    fn is_entry_of(&self, entry: &ExpandedEntry<'_, M>) -> bool
        requires taken { IsTaken self.now.entries entry.now.key.id }
        requires of { IsOf self.now.machine self.now.program entry.now.key }
        ensures { IsTrue result ↔ IsEntryOf (label_by M.own_code M.form_code (M.form_of self.now.machine)
            self.now.merge) self.now entry.now.key }
    {
        self.merge == entry.key.merge
            && self.table.label(entry.key.id) == entry.key.label.as_slice()
    }

    /// Whether labelled steps may be entered: their entry is taken, and they are that entry's.
    fn check_entry(&self, entry: &ExpandedEntry<'_, M>) -> Result<(), EnterFault>
        requires { IsOf self.now.machine self.now.program entry.now.key }
        ensures admitted { OnOk result (IsTaken self.now.entries entry.now.key.id
            × IsEntryOf (label_by M.own_code M.form_code (M.form_of self.now.machine) self.now.merge) self.now
            entry.now.key) }
        ensures refused { IfErr result (RefusesEntry M.rules M.own_code M.form_code M.form_of self.now entry.now) }
    {
        if !self.is_taken(entry.key.id) {
            return Err(EnterFault::NotTaken);
        }
        if self.is_entry_of(entry) {
            Ok(())
        } else {
            Err(EnterFault::Stranger)
        }
    }

    /// Appends the steps of a taken entry that reach new states, and marks the entry expanded.
    #[inline(always)]
    fn enter_steps(
        &mut self,
        id: usize,
        steps: Vec<Successor<Label>>,
        recycled: &mut Recycled,
    ) -> Result<Entered, EnterFault>
        requires taken { IsTaken self.old.entries id }
        requires steps { (e : Entry (State M M.Mem M.Loc M.Form)) → At self.old.entries id e
            → AreStepsOf (machine_in M.rules self.old) (right_in M.rules self.old)
            (label_by M.own_code M.form_code (M.form_of self.old.machine) self.old.merge) e.state steps.items }
        ensures entered { IfOk result (λ r. (e : Entry (State M M.Mem M.Loc M.Form)) → At self.old.entries id e
            → Enters (CountsAsOne (M.rules self.old.machine) self.old.merge) self.old self.new id (record {
              machine = self.old.machine;
              program = self.old.program;
              source = e.state;
              successors = steps_of (machine_in M.rules self.old).step e.state steps.items;
            }) r.entered r.met) }
        ensures refused { IfErr result (λ fault. (fault ≡ EnterFault.OutOfMemory)
            ⊎ ((fault ≡ EnterFault.Full) × ((e : Entry (State M M.Mem M.Loc M.Form)) → At self.old.entries id e
            → IsFullFor (CountsAsOne (M.rules self.old.machine) self.old.merge) self.old
            (steps_of (machine_in M.rules self.old).step e.state steps.items)))) }
        ensures err { OnErr result (self.new ≡ self.old) }
    {
        let was = self.table.len();
        let count = steps.len();
        match self.table.append(self.machine, &self.program, self.limit, id, steps, recycled) {
            Err(fault) => Err(fault),
            Ok(()) => {
                let entered = self.table.len() - was;
                let met = count - entered;
                self.table.mark_expanded(id);
                self.met += met;
                Ok(Entered { entered, met })
            }
        }
    }

    /// Enters the steps of a taken entry, and marks it expanded: appends, in thread order, each state that is not in
    /// the book yet, as an open entry. After a refusal the book is unchanged.
    pub fn enter(&mut self, id: usize, expansion: Expansion<'_, M>) -> Result<Entered, EnterFault>
        ensures entered { IfOk result (λ r. Enters (CountsAsOne (M.rules self.old.machine) self.old.merge)
            self.old self.new id expansion.entry r.entered r.met) }
        ensures refused { IfErr result
            (Refuses (CountsAsOne (M.rules self.old.machine) self.old.merge) self.old id expansion.entry) }
        ensures err { OnErr result (self.new ≡ self.old) }
    {
        if let Err(fault) = self.check_expansion(id, &expansion) {
            return Err(fault);
        }
        expansion.law();
        let alloc = self.table.allocator();
        let Ok(steps) = expansion.labelled(alloc, self.merge) else {
            return Err(EnterFault::OutOfMemory);
        };
        self.enter_steps(id, steps, &mut Recycled::none(alloc))
    }

    /// Looks up the states that an entry's steps reach, as entering them does, but enters none. A caller that enters
    /// several entries prefetches all of them first, so that none has to wait for its own look-ups. It returns how many
    /// it finds, only so that the look-ups are made.
    pub fn prefetch(&self, entry: &ExpandedEntry<'_, M>) -> usize {
        self.table.prefetch(entry.steps.as_slice())
    }

    /// Enters labelled steps as `enter` enters an expansion. The entry's label and those of known states are recycled.
    /// A caller that enters many entries checks once whether the book is of their machine and program (`is_of`), and
    /// not under the lock for each of them.
    pub fn enter_expanded(
        &mut self,
        entry: ExpandedEntry<'_, M>,
        recycled: &mut Recycled,
    ) -> Result<Entered, EnterFault>
        requires { IsOf self.old.machine self.old.program entry.key }
        ensures entered { IfOk result (λ r. (e : Entry (State M M.Mem M.Loc M.Form))
            × At self.old.entries entry.entry.key.id e
            × Enters (CountsAsOne (M.rules self.old.machine) self.old.merge) self.old self.new entry.entry.key.id
            (expansion_of M.rules entry.entry e.state) r.entered r.met) }
        ensures refused { IfErr result (RefusesEntry M.rules M.own_code M.form_code M.form_of self.old entry.entry) }
        ensures err { OnErr result (self.new ≡ self.old) }
    {
        if let Err(fault) = self.check_entry(&entry) {
            return Err(fault);
        }
        self.law();
        let ExpandedEntry { key, steps } = entry;
        recycled.keep_label(key.label.into_vec());
        self.enter_steps(key.id, steps, recycled)
    }
}

//! The book of states: how it is opened, and what is taken from it.

ghost use Rattle.std.specs.Prelude.{◌≡◌, ℕ, ◌+◌, ◌-◌, ◌<◌, ◌≤◌, [], ◌∷◌};
ghost use Rattle.std.specs.Prelude.{length, IfOk, IfSome, IfNone, OnErr, Some, None, position};
ghost use Rattle.sched_program.specs.Program.{IsWithinLimits};
ghost use Rattle.tree_machine.specs.Step.{Fits, start};
ghost use Rattle.tree_machine.specs.declared.state.State.{State};
ghost use Rattle.book.specs.Entries.{Entry, At, IsNext, Takes, TakesLayer, is_open};
ghost use Rattle.replay.specs.Findings.{IsFindingOf};
ghost use Rattle.replay.specs.declared.finding.Finding.{Finding};
ghost use Rattle.book.specs.Slots.{AllStates, IsOpenFrom};
ghost use Rattle.book.specs.Labels.{label_by};
ghost use Rattle.book.specs.Books.{machine_in, right_in, CountsAsOne, IsLawfulIn};
ghost use Rattle.book.specs.Law.{FindsAlike, StandsForReached};
ghost use Rattle.replay.specs.Schedule.{IsDecided, IsMachine};

use crate::entry::Mark;
use crate::shown::Shown;
use crate::successor::label;
use crate::table::Table;
use options::Merge;
use replay::find;
use sched_program::{OutOfMemory, Program};
use std::alloc::Global;
use std::marker::Model;
use std::sync::Arc;
use tree_machine::{Encode, EncodeBuffer, State};

mod entering;
mod handing;
mod reading;
mod states;

/// How many entries a book has, and what became of the steps that were entered.
#[derive(Clone, Copy, Debug, PartialEq, Eq)]
pub struct Totals {
    /// All entries.
    pub entries: usize,
    /// The open entries.
    pub fresh: usize,
    /// The taken entries.
    pub taken: usize,
    /// The expanded entries.
    pub expanded: usize,
    /// The steps that made new entries: one for each entry but the start.
    pub entered: usize,
    /// The steps that reached known states.
    pub met: usize,
}

/// How many of an expansion's steps made new entries, and how many reached known states.
#[derive(Clone, Copy, Debug, PartialEq, Eq)]
pub struct Entered {
    pub entered: usize,
    pub met: usize,
}

/// Why an expansion was not entered.
#[derive(Clone, Copy, Debug, PartialEq, Eq)]
pub enum EnterFault {
    /// The entry's number is no entry's, or the entry is open or expanded.
    NotTaken,
    /// The expansion's machine or program is not the book's, or its source is not the entry's state.
    Stranger,
    /// The entries with the new ones would exceed the limit.
    Full,
    /// A growth was refused.
    OutOfMemory,
}

/// The states that were reached, each with the step that reached it and its finding.
#[derive(Drop)]
pub struct Book<M: Encode> {
    machine: M,
    program: Program,
    merge: Merge,
    limit: usize,
    table: Table<State<M>>,
    met: usize,
}

impl<M: Encode> Model for Book<M> {
    ghost use Rattle.tree_machine.specs.declared.state.State.{State};
    ghost use Rattle.book.specs.Entries.{Contents, contents_of};
    ghost use Rattle.std.specs.Prelude.{◌≡◌};
    ghost use Rattle.book.specs.Books.{IsBook};
    ghost use Rattle.book.specs.Labels.{AreKnownBy, label_by};

    ghost Value = { Contents M (State M M.Mem M.Loc M.Form) };

    ghost view = { λ b. contents_of b.machine b.program b.merge b.limit b.table.entries b.met };

    ghost invariant = { λ b. IsBook M.rules (label_by M.own_code M.form_code (M.form_of b.machine) b.merge)
        (contents_of b.machine b.program b.merge b.limit b.table.entries b.met)
        × AreKnownBy (label_by M.own_code M.form_code (M.form_of b.machine) b.merge) b.table };
}

/// The table with the start of a program alone, which is open.
fn first_table<M: Encode>(
    alloc: Global,
    machine: M,
    program: &Program,
    merge: Merge,
) -> Result<Table<State<M>>, OutOfMemory>
    ensures { IfOk result (λ t. (state : State M M.Mem M.Loc M.Form) × (finding : Finding)
        × (state ≡ start (M.rules machine) program.now)
        × (t.entries ≡ record { state = state; finding = finding; origin = None; mark = Mark.Open } ∷ [])
        × (t.labels ≡ label_by M.own_code M.form_code (M.form_of machine) merge state ∷ [])
        × Fits (M.rules machine) program.now state × IsFindingOf (M.rules machine) program.now state finding) }
{
    let state = State::start(alloc, machine, program)?;
    let finding = find(alloc, machine, program, &state)?;
    let mut buffer = EncodeBuffer::new(alloc);
    let label = label(
        machine,
        program,
        &state,
        merge,
        &mut buffer,
        Vec::new(alloc),
    )?;
    Ok(Table::new(alloc, label, Shown::of(&state), finding)?)
}

impl<M: Encode> Book<M> {
    /// A book with the start alone, which is open. The limit is 1 to 2,000,000 entries.
    pub fn open(
        alloc: Global,
        machine: M,
        program: Program,
        limit: usize,
        merge: Merge,
    ) -> Result<Book<M>, OutOfMemory>
        requires some { 1 ≤ limit }
        requires bounded { limit ≤ 2000000 }
        ensures start { IfOk result (λ b. (e : Entry (State M M.Mem M.Loc M.Form)) × (b.entries ≡ e ∷ [])
            × (e.state ≡ (machine_in M.rules b).start) × (e.mark ≡ Mark.Open)) }
        ensures machine { IfOk result (λ b. b.machine ≡ machine) }
        ensures program { IfOk result (λ b. b.program ≡ program) }
        ensures limit { IfOk result (λ b. b.limit ≡ limit) }
        ensures merge { IfOk result (λ b. b.merge ≡ merge) }
    {
        let table = first_table(alloc, machine, &program, merge)?;
        Ok(Book {
            machine,
            program,
            merge,
            limit,
            table,
            met: 0,
        })
    }

    /// A book is lawful at every moment, and its machine is a step machine. With exact merging, states count as one
    /// exactly if they are equal; by names, exactly if they are alike. A test decides which do. States that count as
    /// one step alike and have the same findings. Where an entry stands for a state, some entry stands for each state
    /// that this one reaches within the steps that are worked out.
    pub fn law(&self)
        ensures law { IsLawfulIn M.rules self.now }
        ensures machine { IsMachine (machine_in M.rules self.now) }
        ensures test { IsDecided (machine_in M.rules self.now)
            (CountsAsOne (M.rules self.now.machine) self.now.merge) }
        ensures findings { FindsAlike (machine_in M.rules self.now)
            (CountsAsOne (M.rules self.now.machine) self.now.merge) (right_in M.rules self.now) }
        ensures reaches { StandsForReached (machine_in M.rules self.now)
            (CountsAsOne (M.rules self.now.machine) self.now.merge) self.now.entries }
        ensures limits { IsWithinLimits self.now.program }
    {
        let _ = &self.table;
    }

    /// The number of the next entry to take.
    fn next_open(&self) -> Option<usize>
        ensures next { IfSome result (λ i. (e : Entry (State M M.Mem M.Loc M.Form))
            × IsNext (machine_in M.rules self.now).steps self.now.entries i e) }
        ensures open { IfSome result (λ i. position (λ e. is_open e.mark) self.now.entries ≡ Some i) }
        ensures above { IfSome result (IsOpenFrom self.now.entries) }
        ensures none { IfNone result ((i : ℕ) (e : Entry (State M M.Mem M.Loc M.Form))
            → IsNext (machine_in M.rules self.now).steps self.now.entries i e → ⊥) }
    {
        let first = self.table.first_left()?;
        let open = self.table.first_open()?;
        if self.steps_to(open) == self.steps_to(first) {
            Some(open)
        } else {
            None
        }
    }

    /// Takes the next entry: the lowest-numbered open one among those of the fewest steps that are not expanded.
    pub fn take(&mut self) -> Result<Option<(usize, Arc<State<M>>)>, OutOfMemory>
        ensures taken { IfOk result (λ o. IfSome o
            (λ p. Takes (machine_in M.rules self.old).steps self.old.entries self.new.entries p.0 p.1.value)) }
        ensures none { IfOk result (λ o. IfNone o ((i : ℕ) (e : Entry (State M M.Mem M.Loc M.Form))
            → IsNext (machine_in M.rules self.old).steps self.old.entries i e → ⊥)) }
        ensures unchanged { IfOk result (λ o. IfNone o (self.new ≡ self.old)) }
        ensures fits { IfOk result (λ o. IfSome o (λ p. Fits (M.rules self.old.machine) self.old.program p.1.value)) }
        ensures bounded { IfOk result (λ o. IfSome o (λ p. p.1.value.steps < self.old.limit)) }
        ensures same { self.new ≡ record self.old { entries = self.new.entries } }
        ensures err { OnErr result (self.new ≡ self.old) }
    {
        let Some(id) = self.next_open() else {
            return Ok(None);
        };
        let state = self.state_of(id)?;
        self.table.mark_taken(id);
        Ok(Some((id, state)))
    }

    /// Takes at once all entries that `take` would return one after the other: the open ones among those of the fewest
    /// steps that are not expanded. It returns the number and the state of each, in order. After a refusal none is
    /// taken.
    pub fn take_layer(&mut self) -> Result<Vec<(usize, Arc<State<M>>)>, OutOfMemory>
        ensures taken { IfOk result
            (λ layer. TakesLayer (machine_in M.rules self.old).steps self.old.entries self.new.entries layer.items) }
        ensures fits { IfOk result (λ layer. AllStates (Fits (M.rules self.old.machine) self.old.program) layer.items) }
        ensures bounded { IfOk result (λ layer. AllStates (λ state. state.steps < self.old.limit) layer.items) }
        ensures same { self.new ≡ record self.old { entries = self.new.entries } }
        ensures err { OnErr result (self.new ≡ self.old) }
    {
        let Some(start) = self.next_open() else {
            return Ok(Vec::new(self.table.allocator()));
        };
        let end = self.first_above(self.steps_to(start));
        let layer = self.states_of(start, end)?;
        self.table.mark_range_taken(start, end);
        Ok(layer)
    }

    /// How many steps reach an entry, counted back along its origin and those before it.
    fn steps_to(&self, id: usize) -> u64
        requires { id < length self.now.entries }
        ensures { (e : Entry (State M M.Mem M.Loc M.Form)) × At self.now.entries id e × (e.state.steps ≡ result) }
    {
        let mut steps = 0;
        let mut at = id;
        while let Some(origin) = self.table.origin(at) {
            steps += 1;
            at = origin.parent;
        }
        steps
    }

    /// The number of the first entry with more than `steps` steps, or the number of entries if there is none. Step
    /// counts never fall from one entry to the next.
    fn first_above(&self, steps: u64) -> usize
        ensures below { (i : ℕ) (e : Entry (State M M.Mem M.Loc M.Form)) → At self.now.entries i e → i < result
            → e.state.steps ≤ steps }
        ensures above { (i : ℕ) (e : Entry (State M M.Mem M.Loc M.Form)) → At self.now.entries i e → result ≤ i
            → steps < e.state.steps }
        ensures within { result ≤ length self.now.entries }
    {
        let mut low = 0;
        let mut high = self.table.len();
        // Where a layer is taken there is mostly no such entry: the last entry shows that, and no other has to be read.
        if high > 0 && self.steps_to(high - 1) <= steps {
            return high;
        }
        while low < high {
            let middle = low + (high - low) / 2;
            if self.steps_to(middle) <= steps {
                low = middle + 1;
            } else {
                high = middle;
            }
        }
        low
    }
}

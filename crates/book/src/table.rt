//! The entries by number and by label, and cursors to those that are looked for again and again.
ghost use Rattle.std.specs.Prelude.{◌≡◌, ℕ, ◌+◌, ◌-◌, ◌^◌, ◌<◌, ◌≤◌, ◌∷◌, ◌⊎◌, [], count_by, length, nat_lt, not};
ghost use Rattle.std.specs.Prelude.{position, true, OnOk, OnErr, IfOk, IfErr, IfSome, Some, None, IsSome, slice_get};
ghost use Rattle.std.specs.Prelude.{if◌then◌else◌};
ghost use Rattle.std.specs.List.{All, range_with_len};
ghost use Rattle.std.specs.Option.{option_copied};
ghost use Rattle.tree_machine.specs.Step.{step};
ghost use Rattle.tree_machine.specs.declared.state.State.{State};
ghost use Rattle.book.specs.Entries.{Entry, At, IsTaken, is_open, is_taken, is_expanded};
ghost use Rattle.book.specs.Entries.{with_mark, with_marks};
ghost use Rattle.replay.specs.Findings.{is_sound};
ghost use Rattle.book.specs.Labels.{same_label};
ghost use Rattle.book.specs.Slots.{entries_of, labels_of, with_steps, IsFirstLeft, IsOpenFrom};
ghost use Rattle.book.specs.Unknown.{unknown};

use crate::book::{EnterFault, Totals};
use crate::entry::{Mark, Origin, Row};
use crate::label::Label;
use crate::placing::put_steps;
use crate::recycled::Recycled;
use crate::rows::{expanded_rows, open_rows, taken_rows};
use crate::shown::Shown;
use crate::slots::put_new;
use crate::successor::Successor;
use indexmap::IndexMap;
use replay::Finding;
use sched_program::Program;
use std::alloc::{AllocError, Global};
use std::marker::Model;
use tree_machine::{Encode, State};

/// The entries of a book: a row for each label. No state is held.
#[derive(Drop)]
pub struct Table<S> {
    slots: IndexMap<Label, Row<S>>,
    next_open: usize,
    first_left: usize,
    fault: Option<usize>,
}

impl<S> Model for Table<S> {
    ghost use Rattle.book.specs.Labels.{Kept};
    ghost use Rattle.book.specs.Slots.{entries_of, labels_of, AreCursors};

    ghost Value = { Kept S };

    ghost view = { λ t. record {
      entries = entries_of t.slots.entries;
      labels = labels_of t.slots.entries;
    } };

    ghost invariant = { λ t. AreCursors (entries_of t.slots.entries) t.next_open t.first_left t.fault };
}

/// Marks the row at an index.
fn mark_at<S>(slots: &mut IndexMap<Label, Row<S>>, index: usize, mark: Mark)
    ensures entries { entries_of slots.new.entries ≡ with_mark (entries_of slots.old.entries) index mark }
    ensures labels { labels_of slots.new.entries ≡ labels_of slots.old.entries }
{
    if let Some(row) = slots.get_index_mut(index) {
        row.set_mark(mark);
    }
}

/// Marks the rows at the indices from `start` to below `end`.
fn mark_range<S>(slots: &mut IndexMap<Label, Row<S>>, start: usize, end: usize, mark: Mark)
    requires { start ≤ end }
    ensures entries { entries_of slots.new.entries
        ≡ with_marks (entries_of slots.old.entries) (range_with_len start (end - start)) mark }
    ensures labels { labels_of slots.new.entries ≡ labels_of slots.old.entries }
{
    for index in start..end {
        mark_at(slots, index, mark);
    }
}

/// The slot at an index.
fn slot_at<S>(slots: &IndexMap<Label, Row<S>>, index: usize) -> (&Label, &Row<S>)
    requires { index < length slots.now.entries }
    ensures label { slice_get (labels_of slots.now.entries) index ≡ Some result.0.now }
    ensures row { At (entries_of slots.now.entries) index result.1.now }
{
    match slots.get_index(index) {
        Some(slot) => slot,
        None => unreachable!(),
    }
}

/// An index, if there is a row at it.
#[inline(always)]
fn within<S>(slots: &IndexMap<Label, Row<S>>, index: usize) -> Option<usize>
    ensures { result ≡ (if nat_lt index (length (entries_of slots.now.entries)) then Some index else None) }
{
    if index < slots.len() {
        Some(index)
    } else {
        None
    }
}

/// The first row that is not sound, where all before `start` are.
fn first_fault_from<S>(slots: &IndexMap<Label, Row<S>>, start: usize) -> Option<usize>
    requires { (i : ℕ) (e : Entry S) → At (entries_of slots.now.entries) i e → i < start → is_sound e.finding ≡ true }
    ensures { result ≡ position (λ e. not (is_sound e.finding)) (entries_of slots.now.entries) }
{
    for index in start..slots.len() {
        if !slot_at(slots, index).1.is_sound() {
            return Some(index);
        }
    }
    None
}

/// The first row that is not expanded, where all before `start` are, or the number of rows.
fn first_left_from<S>(slots: &IndexMap<Label, Row<S>>, start: usize) -> usize
    requires before { (i : ℕ) (e : Entry S) → At (entries_of slots.now.entries) i e → i < start
        → e.mark ≡ Mark.Expanded }
    requires within { start ≤ length slots.now.entries }
    ensures { IsFirstLeft (entries_of slots.now.entries) result }
{
    for index in start..slots.len() {
        if !slot_at(slots, index).1.is_expanded() {
            return index;
        }
    }
    slots.len()
}

impl<S> Table<S> {
    /// The allocator of the entries.
    pub fn allocator(&self) -> Global {
        *self.slots.allocator()
    }

    /// The number of entries.
    pub fn len(&self) -> usize
        ensures { result ≡ length self.now.entries }
    {
        self.slots.len()
    }

    /// The row of an entry, if there is such an entry.
    pub fn row(&self, index: usize) -> Option<&Row<S>>
        ensures { option_copied result ≡ slice_get self.now.entries index }
    {
        if index < self.slots.len() {
            Some(self.entry(index))
        } else {
            None
        }
    }

    /// The row of an entry.
    pub fn entry(&self, index: usize) -> &Row<S>
        requires { index < length self.now.entries }
        ensures { At self.now.entries index result.now }
    {
        slot_at(&self.slots, index).1
    }

    /// The label of an entry.
    pub fn label(&self, index: usize) -> &[u8]
        requires { index < length self.now.entries }
        ensures { slice_get self.now.labels index ≡ Some result.now }
    {
        slot_at(&self.slots, index).0.as_slice()
    }

    /// Looks up the labels of steps one right after the other, so that what the table has of them comes into the
    /// processor's caches together. It returns how many it finds, only so that the look-ups are made.
    pub fn prefetch(&self, steps: &[Successor<Label>]) -> usize {
        let mut there = 0usize;
        for step in steps {
            if self.slots.contains_key(&step.state) {
                there = there.wrapping_add(1);
            }
        }
        there
    }

    /// The first open entry. All entries from it on are open.
    pub fn first_open(&self) -> Option<usize>
        ensures first { result ≡ position (λ e. is_open e.mark) self.now.entries }
        ensures above { IfSome result (IsOpenFrom self.now.entries) }
    {
        within(&self.slots, self.next_open)
    }

    /// The first entry that is not expanded.
    pub fn first_left(&self) -> Option<usize>
        ensures { result ≡ position (λ e. not (is_expanded e.mark)) self.now.entries }
    {
        within(&self.slots, self.first_left)
    }

    /// The first entry that is not sound.
    pub fn first_fault(&self) -> Option<usize>
        ensures { result ≡ position (λ e. not (is_sound e.finding)) self.now.entries }
    {
        self.fault
    }

    /// Marks the first open entry taken.
    pub fn mark_taken(&mut self, index: usize)
        requires first { position (λ e. is_open e.mark) self.old.entries ≡ Some index }
        requires bounded { length self.old.entries < 2 ^ 63 }
        ensures { self.new ≡ record self.old { entries = with_mark self.old.entries index Mark.Taken } }
    {
        mark_at(&mut self.slots, index, Mark::Taken);
        self.next_open = index + 1;
    }

    /// Marks the entries from the first open one, `start`, to below `end` taken.
    pub fn mark_range_taken(&mut self, start: usize, end: usize)
        requires first { position (λ e. is_open e.mark) self.old.entries ≡ Some start }
        requires some { start ≤ end }
        requires within { end ≤ length self.old.entries }
        ensures { self.new ≡ record self.old {
          entries = with_marks self.old.entries
              (range_with_len start (end - start)) Mark.Taken;
        } }
    {
        mark_range(&mut self.slots, start, end, Mark::Taken);
        self.next_open = end;
    }

    /// The parent and the thread of the step that reached an entry, if it has one.
    pub fn origin(&self, index: usize) -> Option<Origin>
        requires { index < length self.now.entries }
        ensures { (e : Entry S) × At self.now.entries index e × (e.origin ≡ result) }
    {
        self.entry(index).origin()
    }

    /// How many entries there are, and how many have each mark. `met` is the number of steps that reached known states.
    pub fn totals(&self, met: usize) -> Totals
        requires { 1 ≤ length self.now.entries }
        ensures { result ≡ record {
          entries = length self.now.entries;
          fresh = count_by (λ e. is_open e.mark) self.now.entries;
          taken = count_by (λ e. is_taken e.mark) self.now.entries;
          expanded = count_by (λ e. is_expanded e.mark) self.now.entries;
          entered = length self.now.entries - 1;
          met = met;
        } }
    {
        let entries = self.slots.len();
        Totals {
            entries,
            fresh: open_rows(&self.slots),
            taken: taken_rows(&self.slots),
            expanded: expanded_rows(&self.slots),
            entered: entries - 1,
            met,
        }
    }
}

impl<S> Table<S> {
    /// A table with one open entry, which has no parent.
    pub fn new(
        alloc: Global,
        label: Label,
        shown: Shown<S>,
        finding: Finding,
    ) -> Result<Table<S>, AllocError>
        ensures entries { IfOk result (λ t. t.entries
            ≡ record { state = shown.value; finding = finding; origin = None; mark = Mark.Open } ∷ []) }
        ensures labels { IfOk result (λ t. t.labels ≡ label ∷ []) }
    {
        let fault = if finding.is_sound() { None } else { Some(0) };
        let row = Row::open(shown, finding, None);
        let mut slots = IndexMap::new(alloc);
        put_new(&mut slots, label, row)?;
        Ok(Table {
            slots,
            next_open: 0,
            first_left: 0,
            fault,
        })
    }

    /// Marks a taken entry expanded.
    pub fn mark_expanded(&mut self, index: usize)
        requires { IsTaken self.old.entries index }
        ensures { self.new ≡ record self.old { entries = with_mark self.old.entries index Mark.Expanded } }
    {
        mark_at(&mut self.slots, index, Mark::Expanded);
        self.first_left = first_left_from(&self.slots, self.first_left);
    }
}

impl<M: Encode> Table<State<M>> {
    /// Appends, in order, open entries for the steps of an entry that reach new states. If there is no room for them,
    /// or memory is refused, it appends none.
    #[inline(always)]
    pub fn append(
        &mut self,
        machine: M,
        program: &Program,
        limit: usize,
        parent: usize,
        steps: Vec<Successor<Label>>,
        recycled: &mut Recycled,
    ) -> Result<(), EnterFault>
        requires room { length self.old.entries ≤ limit }
        requires bounded { limit ≤ 2000000 }
        requires within { parent < length self.old.entries }
        requires enabled { (e : Entry (State M M.Mem M.Loc M.Form)) → At self.old.entries parent e
            → All (λ x. IsSome (step (M.rules machine) program.now e.state x.thread)) steps.items }
        ensures put { OnOk result ((e : Entry (State M M.Mem M.Loc M.Form)) → At self.old.entries parent e
            → self.new ≡ with_steps (step (M.rules machine) program.now) e.state parent self.old steps.items) }
        ensures refused { IfErr result (λ fault. (fault ≡ EnterFault.OutOfMemory) ⊎ ((fault ≡ EnterFault.Full)
            × (limit < length self.old.entries + length (unknown same_label self.old.labels steps.items)))) }
        ensures within { OnOk result (length self.new.entries ≤ limit) }
        ensures err { OnErr result (self.new ≡ self.old) }
    {
        let was = self.slots.len();
        let source = self.entry(parent).shown().copy();
        let slots = &mut self.slots;
        let Ok(()) = put_steps(slots, machine, program, &source, parent, steps, recycled) else {
            self.slots.truncate(was);
            return Err(EnterFault::OutOfMemory);
        };
        if self.slots.len() > limit {
            self.slots.truncate(was);
            return Err(EnterFault::Full);
        }
        if self.fault.is_none() {
            self.fault = first_fault_from(&self.slots, was);
        }
        Ok(())
    }
}

//! Whether a step leads out of the states of entries.
ghost use Rattle.std.specs.Prelude.{◌≡◌, ◌+◌, ◌^◌, ◌<◌, ◌⊎◌, Contains, length, true, false, IfOk, IfErr, OnOk};
ghost use Rattle.std.specs.Prelude.{IsTrue, Some, slice_get};
ghost use Rattle.tree_machine.specs.Step.{Fits, step};
ghost use Rattle.tree_machine.specs.declared.state.State.{State};
ghost use Rattle.replay.specs.BookFile.Checks.{AreRefused, Pass};
ghost use Rattle.replay.specs.BookFile.Kept.{AreLabelsOf, AreMarkedClosed, AreStepsKnown, IsSource};
ghost use Rattle.replay.specs.BookFile.Kept.{IsStepUnknown, StandsForEntry};
ghost use Rattle.replay.specs.Labels.{named_by};
ghost use Rattle.replay.specs.declared.file.line.BookLine.{BookLine};

use crate::file::fault::CheckFault;
use crate::file::labels::Labels;
use crate::file::line::BookLine;
use crate::file::recalling::{Input, recall};
use crate::file::replayer::Replayer;
use sched_program::OutOfMemory;
use std::alloc::Global;
use std::mem::replace;
use std::snapshot::Snapshot;
use tree_machine::{Encode, StepFault};

/// Whether the step of a thread, if it is enabled, has one of the labels. The step is made in the state itself, and
/// taken back.
fn knows_step<M: Encode>(
    alloc: Global,
    input: &Input<'_, M>,
    labels: &Labels,
    thread: u8,
    replayer: &mut Replayer<M>,
) -> Result<bool, OutOfMemory>
    requires kept { AreLabelsOf {Machine = M} (M.rules input.now.machine) input.now.program.now
        (named_by M.form_code (M.form_of input.now.machine)) input.now.lines.now labels.now }
    requires source { IsSource M.front_code M.behind_code labels.now replayer.old.source replayer.old.state }
    requires fits { Fits (M.rules input.now.machine) input.now.program.now replayer.old.state }
    requires steps_fit { replayer.old.state.steps + 1 < 2 ^ 64 }
    ensures known { IfOk result (λ yes. yes ≡ true → (next : State M M.Mem M.Loc M.Form)
        → step (M.rules input.now.machine) input.now.program.now replayer.old.state thread ≡ Some next
        → Contains labels.now (named_by M.form_code (M.form_of input.now.machine) next)) }
    ensures new { IfOk result (λ yes. yes ≡ false → (next : State M M.Mem M.Loc M.Form)
        × (step (M.rules input.now.machine) input.now.program.now replayer.old.state thread ≡ Some next)
        × (Contains labels.now (named_by M.form_code (M.form_of input.now.machine) next) → ⊥)) }
    ensures state { OnOk result (replayer.new.state ≡ replayer.old.state) }
    ensures source { OnOk result (replayer.new.source ≡ replayer.old.source) }
{
    // Whoever reads a program knows that it meets the limits.
    let _ = input.program.initial();
    let source = Snapshot::of(&replayer.state);
    let undo = &mut replayer.undo;
    match replayer
        .state
        .step_here(alloc, input.machine, input.program, thread, undo)
    {
        Ok(()) => {}
        Err(StepFault::NotEnabled) => return Ok(true),
        Err(StepFault::OutOfMemory) => return Err(OutOfMemory),
    }
    let spare = replace(&mut replayer.spare, Vec::new(alloc));
    let label = replayer.label_of_step(alloc, input, labels, &source, thread, spare)?;
    replayer
        .state
        .take_back(&source, thread, &mut replayer.undo);
    let is_known = labels.contains(&label);
    replayer.spare = label.into_vec();
    Ok(is_known)
}

/// Whether the next line has the step of a thread from an entry.
fn has_step(lines: &[BookLine], next: usize, parent: usize, thread: u8) -> bool
    ensures { IsTrue result → (line : BookLine) × (slice_get lines.now next ≡ Some line) × (line.parent ≡ parent)
        × (line.thread ≡ thread) }
{
    match lines.get(next) {
        Some(line) => line.parent as usize == parent && line.thread == thread,
        None => false,
    }
}

/// Whether some step of an entry has none of the labels. The replayer's state stands in for the entry's; after a
/// refusal of memory it no longer does. A step that a line from `first` on states need not be made, since that line's
/// own entry has its label.
fn leads_out<M: Encode>(
    alloc: Global,
    input: &Input<'_, M>,
    labels: &Labels,
    index: usize,
    first: usize,
    replayer: &mut Replayer<M>,
) -> Result<bool, OutOfMemory>
    requires kept { AreLabelsOf {Machine = M} (M.rules input.now.machine) input.now.program.now
        (named_by M.form_code (M.form_of input.now.machine)) input.now.lines.now labels.now }
    requires bounded { length input.now.lines.now < 2000000 }
    requires within { index < length labels.now }
    requires source { IsSource M.front_code M.behind_code labels.now replayer.old.source replayer.old.state }
    requires stands { StandsForEntry (M.rules input.now.machine) input.now.program.now input.now.lines.now index
        replayer.old.state }
    ensures out { IfOk result (λ yes. yes ≡ true → IsStepUnknown (M.rules input.now.machine) input.now.program.now
        (named_by M.form_code (M.form_of input.now.machine)) labels.now replayer.old.state) }
    ensures none { IfOk result (λ yes. yes ≡ false → AreStepsKnown (M.rules input.now.machine) input.now.program.now
        (named_by M.form_code (M.form_of input.now.machine)) labels.now replayer.old.state) }
    ensures source { OnOk result
        (IsSource M.front_code M.behind_code labels.now replayer.new.source replayer.new.state) }
{
    let mut next = first;
    for thread in 0..input.program.threads().len() as u8 {
        if has_step(input.lines, next, index, thread) {
            next += 1;
            continue;
        }
        if !knows_step(alloc, input, labels, thread, replayer)? {
            return Ok(true);
        }
    }
    Ok(false)
}

/// Marks an entry if each of its steps has one of the labels. `first` is the index of the first line that states one of
/// them.
pub fn mark_closed<M: Encode>(
    alloc: Global,
    input: &Input<'_, M>,
    labels: &Labels,
    index: usize,
    first: usize,
    marks: &mut Vec<bool>,
    replayer: &mut Replayer<M>,
) -> Result<(), OutOfMemory>
    requires kept { AreLabelsOf {Machine = M} (M.rules input.now.machine) input.now.program.now
        (named_by M.form_code (M.form_of input.now.machine)) input.now.lines.now labels.now }
    requires bounded { length input.now.lines.now < 2000000 }
    requires within { index < length labels.now }
    requires source { IsSource M.front_code M.behind_code labels.now replayer.old.source replayer.old.state }
    requires marked { AreMarkedClosed {Machine = M} (M.rules input.now.machine) input.now.program.now
        (named_by M.form_code (M.form_of input.now.machine)) input.now.lines.now labels.now marks.old.items }
    ensures marked { OnOk result (AreMarkedClosed {Machine = M} (M.rules input.now.machine) input.now.program.now
        (named_by M.form_code (M.form_of input.now.machine)) input.now.lines.now labels.now marks.new.items) }
    ensures source { OnOk result
        (IsSource M.front_code M.behind_code labels.now replayer.new.source replayer.new.state) }
{
    // Whoever reads a program knows that it meets the limits.
    let _ = input.program.initial();
    recall(alloc, input, labels, index, replayer)?;
    if leads_out(alloc, input, labels, index, first, replayer)? {
        return Ok(());
    }
    if index < marks.len() {
        marks[index] = true;
    }
    Ok(())
}

/// Whether an entry is marked.
fn is_marked(marks: &[bool], index: usize) -> bool
    ensures { IsTrue result → slice_get marks.now index ≡ Some true }
{
    match marks.get(index) {
        Some(mark) => *mark,
        None => false,
    }
}

/// Whether each step of each entry's state reaches a state with the label of an entry. Those of a marked entry do. The
/// fault names the line of the first entry with another step; the start is on line 2.
pub fn test_closed<M: Encode>(
    alloc: Global,
    input: &Input<'_, M>,
    labels: &Labels,
    marks: &[bool],
    replayer: &mut Replayer<M>,
) -> Result<(), CheckFault>
    requires kept { AreLabelsOf {Machine = M} (M.rules input.now.machine) input.now.program.now
        (named_by M.form_code (M.form_of input.now.machine)) input.now.lines.now labels.now }
    requires bounded { length input.now.lines.now < 2000000 }
    requires source { IsSource M.front_code M.behind_code labels.now replayer.old.source replayer.old.state }
    requires marked { AreMarkedClosed {Machine = M} (M.rules input.now.machine) input.now.program.now
        (named_by M.form_code (M.form_of input.now.machine)) input.now.lines.now labels.now marks.now }
    ensures pass { IfOk result
        (λ _. Pass M M.Form (M.rules input.now.machine) input.now.program.now input.now.lines.now) }
    ensures refused { IfErr result (λ fault. (fault ≡ CheckFault.OutOfMemory)
        ⊎ AreRefused M M.Form (M.rules input.now.machine) input.now.program.now input.now.lines.now fault) }
{
    // Whoever reads a program knows that it meets the limits.
    let _ = input.program.initial();
    let none = input.lines.len();
    for i in 0..labels.len() {
        if is_marked(marks, i) {
            continue;
        }
        recall(alloc, input, labels, i, replayer)?;
        if leads_out(alloc, input, labels, i, none, replayer)? {
            return Err(CheckFault::Open(i + 2));
        }
    }
    Ok(())
}

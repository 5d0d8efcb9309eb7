//! The replay of the entries of a book file, line by line.
ghost use Rattle.std.specs.Prelude.{◌≡◌, ℕ, ◌+◌, ◌<◌, ◌≤◌, ◌⊎◌, [], List, None, Some, false, length, replicate};
ghost use Rattle.std.specs.Prelude.{slice_get, take, IfOk, IfErr, IsTrue, OnOk};
ghost use Rattle.sched_program.specs.declared.operation.OpId.{OpId};
ghost use Rattle.tree_machine.specs.Step.{start, step, Fits};
ghost use Rattle.tree_machine.specs.Undoing.{TakesBack};
ghost use Rattle.tree_machine.specs.declared.state.State.{State};
ghost use Rattle.replay.specs.BookFile.Kept.{AreLabelsOf, AreMarkedClosed, IsEntryClosed, IsSource};
ghost use Rattle.replay.specs.BookFile.Kept.{StandsForEntry};
ghost use Rattle.replay.specs.BookFile.Replays.{AreReplayed, IsAmiss, IsFirstAmiss, IsShown, IsUnshown, Tells};
ghost use Rattle.replay.specs.Labels.{named_by};

use crate::file::closing::mark_closed;
use crate::file::fault::CheckFault;
use crate::file::labels::Labels;
use crate::file::line::BookLine;
use crate::file::recalling::{Input, recall};
use crate::file::replayer::Replayer;
use crate::lending::reply_since;
use lin::check_order;
use sched_program::{OpId, OutOfMemory, Program};
use std::alloc::Global;
use std::snapshot::Snapshot;
use tree_machine::{Bytes, Encode, Naming, State, StepFault, Undo};

/// Whether an order shows that a state is correct. `number` is the line of its entry.
fn test_state<M: Encode>(
    alloc: Global,
    machine: M,
    program: &Program,
    state: &State<M>,
    order: &[OpId],
    number: usize,
) -> Result<(), CheckFault>
    requires { Fits (M.rules machine) program.now state.now }
    ensures shown { IfOk result (λ _. IsShown (M.rules machine) program.now state.now order.now) }
    ensures unshown { IfErr result (λ fault. (fault ≡ CheckFault.OutOfMemory)
        ⊎ IsUnshown (M.rules machine) program.now state.now order.now number fault) }
{
    if state.astray().is_some() {
        return Err(CheckFault::Fault(number));
    }
    if !machine.ordered(state.memory()) {
        return Err(CheckFault::Fault(number));
    }
    let history = state.history(alloc, program)?;
    if check_order(program, &history, order) {
        Ok(())
    } else {
        Err(CheckFault::History(number))
    }
}

/// The order that shows an entry's state: its line has it, and that of the start is empty.
fn order_of_entry<'a, M: Encode>(input: &'a Input<'_, M>, index: usize) -> &'a [OpId]
    requires { index ≤ length input.now.lines.now }
    ensures { (states : List (State M M.Mem M.Loc M.Form)) (state : State M M.Mem M.Loc M.Form)
        → AreReplayed (M.rules input.now.machine) input.now.program.now input.now.lines.now states
        → slice_get states index ≡ Some state
        → IsShown (M.rules input.now.machine) input.now.program.now state result.now }
{
    if index == 0 {
        return &[];
    }
    input.lines[index - 1].order.as_slice()
}

/// Whether what shows the state before a step shows the state after it, too: nothing is at fault there, and the step
/// ended no operation.
fn is_still_shown<M: Encode>(
    machine: M,
    program: &Program,
    source: &Snapshot<State<M>>,
    thread: u8,
    undo: &Undo<M>,
    next: &State<M>,
) -> bool
    requires step { step (M.rules machine) program.now source.now.value thread ≡ Some next.now }
    requires back { TakesBack source.now.value thread undo.now.thread undo.now.reads undo.now.memory next.now }
    requires fits { Fits (M.rules machine) program.now next.now }
    ensures { IsTrue result → (order : List OpId) → IsShown (M.rules machine) program.now source.now.value order
        → IsShown (M.rules machine) program.now next.now order }
{
    // Proofs alone read these.
    let _ = source;
    let _ = program;
    if next.astray().is_some() {
        return false;
    }
    if !undo.reads() && !machine.ordered(next.memory()) {
        return false;
    }
    match reply_since(undo.thread(), next, thread) {
        Some(_) => false,
        None => true,
    }
}

/// Whether a line's order shows the state that its step reached in the replayer. `number` is the line of its entry. The
/// order of the parent is tested no second time where the step ended no operation.
fn test_step<M: Encode>(
    alloc: Global,
    input: &Input<'_, M>,
    line: &BookLine,
    source: &Snapshot<State<M>>,
    replayer: &Replayer<M>,
    number: usize,
) -> Result<(), CheckFault>
    requires stands { StandsForEntry (M.rules input.now.machine) input.now.program.now input.now.lines.now
        line.now.parent source.now.value }
    requires kept { (states : List (State M M.Mem M.Loc M.Form))
        × AreReplayed (M.rules input.now.machine) input.now.program.now input.now.lines.now states }
    requires step { step (M.rules input.now.machine) input.now.program.now source.now.value line.now.thread
        ≡ Some replayer.now.state }
    requires back { TakesBack source.now.value line.now.thread replayer.now.undo.thread replayer.now.undo.reads
        replayer.now.undo.memory replayer.now.state }
    requires fits { Fits (M.rules input.now.machine) input.now.program.now replayer.now.state }
    ensures shown { IfOk result
        (λ _. IsShown (M.rules input.now.machine) input.now.program.now replayer.now.state line.now.order) }
    ensures unshown { IfErr result (λ fault. (fault ≡ CheckFault.OutOfMemory)
        ⊎ IsUnshown (M.rules input.now.machine) input.now.program.now replayer.now.state line.now.order number fault) }
{
    // Whoever reads a program knows that it meets the limits.
    let _ = input.program.initial();
    let (machine, program) = (input.machine, input.program);
    let order = line.order.as_slice();
    let undo = &replayer.undo;
    if order == order_of_entry(input, line.parent as usize)
        && is_still_shown(machine, program, source, line.thread, undo, &replayer.state)
    {
        return Ok(());
    }
    test_state(alloc, machine, program, &replayer.state, order, number)
}

/// The label of the entry after these, by its line: its parent's state is recalled, and the step is made there, and
/// taken back.
fn label_of_line<M: Encode>(
    alloc: Global,
    input: &Input<'_, M>,
    before: &Labels,
    line: &BookLine,
    replayer: &mut Replayer<M>,
) -> Result<Bytes, CheckFault>
    requires kept { AreLabelsOf {Machine = M} (M.rules input.now.machine) input.now.program.now
        (named_by M.form_code (M.form_of input.now.machine)) input.now.lines.now before.now }
    requires bounded { length before.now < 2000000 }
    requires source { IsSource M.front_code M.behind_code before.now replayer.old.source replayer.old.state }
    ensures source { OnOk result
        (IsSource M.front_code M.behind_code before.now replayer.new.source replayer.new.state) }
    ensures tells { IfOk result (λ label. (states : List (State M M.Mem M.Loc M.Form))
        → AreReplayed (M.rules input.now.machine) input.now.program.now input.now.lines.now states
        → (state : State M M.Mem M.Loc M.Form)
        × Tells (M.rules input.now.machine) input.now.program.now states line.now state
        × (label ≡ named_by M.form_code (M.form_of input.now.machine) state)) }
    ensures amiss { IfErr result (λ fault. (fault ≡ CheckFault.OutOfMemory)
        ⊎ ((states : List (State M M.Mem M.Loc M.Form))
        → AreReplayed (M.rules input.now.machine) input.now.program.now input.now.lines.now states
        → IsAmiss (M.rules input.now.machine) input.now.program.now states line.now fault)) }
{
    // Whoever reads a program knows that it meets the limits.
    let _ = input.program.initial();
    let number = before.len() + 2;
    let parent = line.parent as usize;
    if parent >= before.len() {
        return Err(CheckFault::Parent(number));
    }
    recall(alloc, input, before, parent, replayer)?;
    let thread = line.thread;
    let source = Snapshot::of(&replayer.state);
    let undo = &mut replayer.undo;
    match replayer
        .state
        .step_here(alloc, input.machine, input.program, thread, undo)
    {
        Ok(()) => {}
        Err(StepFault::NotEnabled) => return Err(CheckFault::Step(number)),
        Err(StepFault::OutOfMemory) => return Err(CheckFault::OutOfMemory),
    }
    test_step(alloc, input, line, &source, replayer, number)?;
    let spare = Vec::new(alloc);
    let label = replayer.label_of_step(alloc, input, before, &source, thread, spare)?;
    replayer
        .state
        .take_back(&source, thread, &mut replayer.undo);
    Ok(label)
}

/// The label of the start, which a replayer has.
fn label_of_start<M: Encode>(
    alloc: Global,
    input: &Input<'_, M>,
    replayer: &mut Replayer<M>,
) -> Result<Bytes, CheckFault>
    requires start { replayer.old.state ≡ start (M.rules input.now.machine) input.now.program.now }
    requires fits { Fits (M.rules input.now.machine) input.now.program.now replayer.old.state }
    ensures shown { IfOk result
        (λ _. IsShown (M.rules input.now.machine) input.now.program.now replayer.old.state []) }
    ensures label { IfOk result (λ label. label
        ≡ named_by M.form_code (M.form_of input.now.machine) replayer.old.state) }
    ensures unshown { IfErr result (λ fault. (fault ≡ CheckFault.OutOfMemory)
        ⊎ IsUnshown (M.rules input.now.machine) input.now.program.now replayer.old.state [] 2 fault) }
    ensures source { OnOk result (replayer.new.source ≡ replayer.old.source) }
{
    // Whoever reads a program knows that it meets the limits.
    let _ = input.program.initial();
    let state = &replayer.state;
    test_state(alloc, input.machine, input.program, state, &[], 2)?;
    let buffer = &mut replayer.buffer;
    Ok(state.label(
        alloc,
        input.machine,
        Naming::Canonical,
        buffer,
        Vec::new(alloc),
    )?)
}

/// Replays the line with this index, and adds the label of its entry to those before. Returns the number of its parent.
fn replay_line<M: Encode>(
    alloc: Global,
    input: &Input<'_, M>,
    index: usize,
    labels: &mut Labels,
    replayer: &mut Replayer<M>,
) -> Result<usize, CheckFault>
    requires bounded { length input.now.lines.now < 2000000 }
    requires within { index < length input.now.lines.now }
    requires kept { AreLabelsOf {Machine = M} (M.rules input.now.machine) input.now.program.now
        (named_by M.form_code (M.form_of input.now.machine)) (take index input.now.lines.now) labels.old }
    requires source { IsSource M.front_code M.behind_code labels.old replayer.old.source replayer.old.state }
    ensures kept { OnOk result (AreLabelsOf {Machine = M} (M.rules input.now.machine) input.now.program.now
        (named_by M.form_code (M.form_of input.now.machine)) (take (index + 1) input.now.lines.now) labels.new) }
    ensures parent { IfOk result (λ parent. parent < length labels.new) }
    ensures closed { OnOk result ((entry : ℕ) → IsEntryClosed {Machine = M} (M.rules input.now.machine)
        input.now.program.now (named_by M.form_code (M.form_of input.now.machine)) (take index input.now.lines.now)
        labels.old entry → IsEntryClosed {Machine = M} (M.rules input.now.machine) input.now.program.now
        (named_by M.form_code (M.form_of input.now.machine)) (take (index + 1) input.now.lines.now) labels.new entry) }
    ensures source { OnOk result
        (IsSource M.front_code M.behind_code labels.new replayer.new.source replayer.new.state) }
    ensures amiss { IfErr result (λ fault. (fault ≡ CheckFault.OutOfMemory)
        ⊎ IsFirstAmiss M M.Form (M.rules input.now.machine) input.now.program.now input.now.lines.now fault) }
{
    let line = &input.lines[index];
    let earlier = input.up_to(index);
    let label = label_of_line(alloc, &earlier, labels, line, replayer)?;
    labels.push(label)?;
    Ok(line.parent as usize)
}

/// Whether the line with this index states a step of an entry.
fn has_parent(lines: &[BookLine], index: usize, parent: usize) -> bool {
    match lines.get(index) {
        Some(line) => line.parent as usize == parent,
        None => false,
    }
}

/// Marks for so many entries, none of which is marked.
fn no_marks(alloc: Global, count: usize) -> Result<Vec<bool>, OutOfMemory>
    ensures { IfOk result (λ marks. marks.items ≡ replicate count false) }
{
    let mut marks = Vec::new(alloc);
    marks.resize(count, false)?;
    Ok(marks)
}

/// The labels of the entries, the start's first, replayed one after the other; and marks of entries each of whose steps
/// has one of them. That is tested behind the last of the lines that state steps of one entry, while the replayer has
/// its state. The replayer has the start's state first.
pub fn replay_lines<M: Encode>(
    alloc: Global,
    input: &Input<'_, M>,
    replayer: &mut Replayer<M>,
) -> Result<(Labels, Vec<bool>), CheckFault>
    requires bounded { length input.now.lines.now < 2000000 }
    requires start { replayer.old.state ≡ start (M.rules input.now.machine) input.now.program.now }
    requires fits { Fits (M.rules input.now.machine) input.now.program.now replayer.old.state }
    requires source { replayer.old.source ≡ None }
    ensures kept { IfOk result (λ (labels, marks). AreLabelsOf {Machine = M} (M.rules input.now.machine)
        input.now.program.now (named_by M.form_code (M.form_of input.now.machine)) input.now.lines.now labels) }
    ensures marked { IfOk result (λ (labels, marks). AreMarkedClosed {Machine = M} (M.rules input.now.machine)
        input.now.program.now (named_by M.form_code (M.form_of input.now.machine)) input.now.lines.now labels
        marks.items) }
    ensures source { IfOk result (λ (labels, marks). IsSource M.front_code M.behind_code labels replayer.new.source
        replayer.new.state) }
    ensures amiss { IfErr result (λ fault. (fault ≡ CheckFault.OutOfMemory)
        ⊎ IsFirstAmiss M M.Form (M.rules input.now.machine) input.now.program.now input.now.lines.now fault) }
{
    let start = label_of_start(alloc, input, replayer)?;
    let mut labels = Labels::new(alloc);
    labels.push(start)?;
    let mut marks = no_marks(alloc, input.lines.len())?;
    let mut first = 0;
    for i in 0..input.lines.len() {
        let parent = replay_line(alloc, input, i, &mut labels, replayer)?;
        let next = i + 1;
        if has_parent(input.lines, next, parent) {
            continue;
        }
        let so_far = input.up_to(next);
        mark_closed(alloc, &so_far, &labels, parent, first, &mut marks, replayer)?;
        first = next;
    }
    Ok((labels, marks))
}

//! Orders that a state lends to its steps.
ghost use Rattle.std.specs.Prelude.{◌≡◌, ◌≤◌, ◌↔◌, All, IsTrue, length, IfOk, IfSome, IfNone, MatchOption, Some};
ghost use Rattle.std.specs.Prelude.{None, slice_get, slice_index};
ghost use Rattle.sched_program.specs.Program.{Program};
ghost use Rattle.tree_machine.specs.Step.{Fits, step};
ghost use Rattle.tree_machine.specs.Undoing.{TakesBack};
ghost use Rattle.tree_machine.specs.declared.state.State.{State};
ghost use Rattle.tree_machine.specs.declared.state.Thread.{Thread as Standing};
ghost use Rattle.replay.specs.declared.finding.Finding.TheVariants.{Sound};
ghost use Rattle.replay.specs.Findings.{IsFindingOf};

use crate::finding::{Finding, fault_in, judged};
use lin::{Order, order_with_reply};
use sched_program::{OpId, OutOfMemory, Program};
use std::alloc::Global;
use tree_machine::{Encode, ShortNote, State, StepOrigin, Thread};

/// The operation that a thread has ended since `was`, with its reply, if it ended one.
pub(crate) fn reply_since<M: Encode>(
    was: &Thread<M::Loc>,
    next: &State<M>,
    thread: u8,
) -> Option<(OpId, bool)>
    ensures { MatchOption result
        ((b : Standing M.Loc) → slice_get next.now.threads thread ≡ Some b
        → slice_get b.replies (length was.now.replies) ≡ None)
        (λ p. (b : Standing M.Loc) × (slice_get next.now.threads thread ≡ Some b)
        × (p.0.thread ≡ thread) × (p.0.index ≡ length was.now.replies)
        × (slice_get b.replies (length was.now.replies) ≡ Some p.1)) }
{
    let now = next.threads.get(usize::from(thread))?;
    let count = was.replies.len();
    let reply = now.replies.get(count)?;
    let name = OpId {
        thread,
        index: count as u8,
    };
    Some((name, reply))
}

/// Whether no note counts the operation among those that had finished.
fn is_in_no_note(notes: &[ShortNote], name: OpId) -> bool
    ensures { IsTrue result ↔ All (λ note. slice_index note name.thread ≤ name.index) notes.now }
{
    for note in notes {
        if note.count_of(name.thread) > name.index {
            return false;
        }
    }
    true
}

/// Whether no operation of a state began after this one ended.
fn is_last<M: Encode>(state: &State<M>, name: OpId) -> bool
    ensures { IsTrue result
        ↔ All (λ thread. All (λ note. slice_index note name.thread ≤ name.index) thread.notes) state.now.threads }
{
    for thread in state.threads.as_slice() {
        if !is_in_no_note(thread.notes.as_slice(), name) {
            return false;
        }
    }
    true
}

/// The fault that a step shows apart from its history, if it shows one. If `reads`, the step left
/// the memory as it was, which still keeps search order.
fn fault_here<M: Encode>(machine: M, next: &State<M>, reads: bool) -> Option<Finding>
    requires range { (M.rules machine).IsInRange next.now.memory }
    requires ordered { IsTrue reads → (M.rules machine).IsOrdered next.now.memory }
    ensures some { IfSome result (λ fault. (program : Program)
        → IsFindingOf (M.rules machine) program next.now fault) }
    ensures none { IfNone result ((next.now.astray ≡ None) × (M.rules machine).IsOrdered next.now.memory) }
{
    if !reads {
        return fault_in(machine, next);
    }
    if next.astray().is_some() {
        return Some(Finding::Astray);
    }
    None
}

/// The finding of a step that was made in the place of a sound source, which lends its order. None
/// if the step ended no operation, so that the order holds as it is. If it ended one, the order is
/// reused with that operation in it, where the operation replied what it replies there. Only
/// otherwise is the history built and judged from scratch.
#[inline(always)]
pub fn find_here<M: Encode>(
    alloc: Global,
    machine: M,
    program: &Program,
    from: &StepOrigin<'_, M>,
    next: &State<M>,
    order: &Order,
) -> Result<Option<Finding>, OutOfMemory>
    requires fits { Fits (M.rules machine) program.now next.now }
    requires step { step (M.rules machine) program.now from.now.state.now.value from.now.thread ≡ Some next.now }
    requires back { TakesBack from.now.state.now.value from.now.thread from.now.undo.now.thread
        from.now.undo.now.reads from.now.undo.now.memory next.now }
    requires sound { IsFindingOf (M.rules machine) program.now from.now.state.now.value (Sound order.now) }
    ensures some { IfOk result (λ found. IfSome found (IsFindingOf (M.rules machine) program.now next.now)) }
    ensures none { IfOk result
        (λ found. IfNone found (IsFindingOf (M.rules machine) program.now next.now (Sound order.now))) }
{
    if let Some(fault) = fault_here(machine, next, from.undo.reads()) {
        return Ok(Some(fault));
    }
    let Some((name, reply)) = reply_since(from.undo.thread(), next, from.thread) else {
        return Ok(None);
    };
    if is_last(next, name)
        && let Some(longer) = order_with_reply(program, order, name, reply)
    {
        return Ok(Some(Finding::Sound(longer)));
    }
    let finding = judged(alloc, machine, program, next)?;
    Ok(Some(finding))
}

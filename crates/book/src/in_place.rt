//! All enabled steps of a sound state, each made in one place and taken back.
ghost use Rattle.std.specs.Prelude.{◌≡◌, ◌+◌, ◌≤◌, ◌<◌, IfOk, OnOk, vec_len, vec_capacity};
ghost use Rattle.book.specs.Decoding.{IsSource};
ghost use Rattle.book.specs.ByLabel.{IsExpandedOf, PutsStepOf};

use crate::expanding::TakenEntry;
use crate::label::Label;
use crate::scratch::Scratch;
use crate::successor::{Successor, naming};
use lin::Order;
use replay::{Finding, find_here};
use sched_program::OutOfMemory;
use std::alloc::Global;
use std::snapshot::Snapshot;
use tree_machine::{CodeOffsets, Encode, State, StepFault, StepOrigin};

/// Appends the step of a thread to a list, if the thread is enabled, with its finding and its label. The step is made
/// in a state decoded from a sound entry's label, and taken back. The appended step is right for each state that has
/// this label.
#[inline(always)]
fn put_step_here<M: Encode>(
    from: &TakenEntry<'_, M>,
    offsets: CodeOffsets,
    order: &Order,
    state: &mut State<M>,
    thread: u8,
    scratch: &mut Scratch<M>,
    steps: &mut Vec<Successor<Label>>,
) -> Result<(), OutOfMemory>
    requires source { IsSource M.front_code M.behind_code M.rules M.own_code M.form_code M.form_of from.now.key
        offsets order.now state.old }
    requires place { vec_len steps.old < vec_capacity steps.old }
    ensures state { OnOk result (state.new ≡ state.old) }
    ensures put { OnOk result (PutsStepOf M.rules M.own_code M.form_code M.form_of from.now.key thread
        steps.old.items steps.new.items) }
    ensures len { vec_len steps.new ≤ vec_len steps.old + 1 }
    ensures capacity { vec_capacity steps.new ≡ vec_capacity steps.old }
{
    let alloc = *steps.allocator();
    // Whoever reads a program knows that it meets the limits.
    let _ = from.key.program.initial();
    let source = Snapshot::of(&*state);
    match state.step_here(
        alloc,
        from.key.machine,
        from.key.program,
        thread,
        &mut scratch.undo,
    ) {
        Ok(()) => {}
        Err(StepFault::NotEnabled) => return Ok(()),
        Err(StepFault::OutOfMemory) => return Err(OutOfMemory),
    }
    let spare = scratch.spare.label(alloc);
    let origin = StepOrigin {
        label: from.key.label.as_slice(),
        offsets,
        state: &source,
        thread,
        undo: &scratch.undo,
    };
    let found = find_here(
        alloc,
        from.key.machine,
        from.key.program,
        &origin,
        &*state,
        order,
    )?;
    let naming = naming(from.key.merge);
    let buffer = &mut scratch.buffer;
    let label = state.label_after(alloc, from.key.machine, naming, &origin, buffer, spare)?;
    state.take_back(&source, thread, &mut scratch.undo);
    steps.push_reserved(Successor {
        thread,
        state: Label::new(label),
        finding: found.unwrap_or(Finding::Sound(*order)),
    });
    Ok(())
}

/// The enabled steps of a sound entry's state, in the order of the threads, each with its finding and with a label of
/// the entry's merge. They are the steps of each state that has the entry's label. They are made in a state decoded
/// from that label, and taken back. After a refusal that state may only be decoded into again.
pub(crate) fn steps_here<M: Encode>(
    alloc: Global,
    from: &TakenEntry<'_, M>,
    offsets: CodeOffsets,
    order: &Order,
    state: &mut State<M>,
    scratch: &mut Scratch<M>,
) -> Result<Vec<Successor<Label>>, OutOfMemory>
    requires { IsSource M.front_code M.behind_code M.rules M.own_code M.form_code M.form_of from.now.key offsets
        order.now state.old }
    ensures state { OnOk result (state.new ≡ state.old) }
    ensures steps { IfOk result (λ steps. IsExpandedOf M.rules M.own_code M.form_code M.form_of
        (record { key = from.now.key; steps = steps.items })) }
{
    let threads = from.key.program.threads().len();
    let mut steps = scratch.spare.list(alloc, threads)?;
    for thread in 0..threads as u8 {
        put_step_here(from, offsets, order, state, thread, scratch, &mut steps)?;
    }
    Ok(steps)
}

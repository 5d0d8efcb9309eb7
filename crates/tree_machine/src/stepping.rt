//! Steps of states.
ghost use Rattle.std.specs.Prelude.{◌≡◌, ℕ, ◌+◌, ◌^◌, ◌<◌, ◌≤◌, ◌↔◌, List, length, slice_get, IfSome};
ghost use Rattle.std.specs.Prelude.{IsSomeAnd, Some, None, IfOk, OnOk, IsErrOf};
ghost use Rattle.sched_program.specs.Program.{Program, IsWithinLimits};
ghost use Rattle.tree_machine.specs.Alike.{AreStatesAlike};
ghost use Rattle.tree_machine.specs.declared.state.State.{State};
ghost use Rattle.tree_machine.specs.declared.state.Thread.{Thread as Standing};
ghost use Rattle.tree_machine.specs.Step.{IsEnabled, ready, step, stepped, notes_at_step, after_outcome, astray_by};
ghost use Rattle.tree_machine.specs.Step.{finished_counts, with_note, Fits};

use crate::machine::{Machine, Outcome};
use crate::short_note::ShortNote;
use crate::state::{State, StepFault, Thread, finished_counts, place_or};
use sched_program::{Op, OutOfMemory, Program};
use std::alloc::Global;

/// The note of the operation that a thread begins by its access, if it is in none: how many
/// operations each thread has finished.
#[inline(always)]
fn note_at_step<L>(held: &Option<L>, threads: &[Thread<L>]) -> Option<ShortNote>
    requires { length threads.now ≤ 4 }
    ensures note { (notes : List (List ℕ))
        → with_note notes result ≡ notes_at_step held.now notes (finished_counts threads.now) }
    ensures begun { IfSome result (λ _. held.now ≡ None) }
{
    match held {
        Some(_) => None,
        None => Some(finished_counts(threads)),
    }
}

/// Advances a thread in place by what came of its access at a place, and adds the note if its
/// operation began with that access. Returns the thread if it went astray; only then the place is
/// copied.
#[inline(always)]
fn advance<M: Machine>(
    alloc: Global,
    machine: M,
    note: Option<ShortNote>,
    t: u8,
    place: &M::Loc,
    outcome: Outcome<M::Loc>,
    thread: &mut Thread<M::Loc>,
) -> Result<Option<u8>, OutOfMemory>
    requires reply_room { length thread.old.replies < 6 }
    requires note_room { IfSome note (λ _. length thread.old.notes < 6) }
    ensures thread { OnOk result (thread.new ≡ after_outcome (record {
      replies = thread.old.replies;
      place = Some place.now;
      notes = with_note thread.old.notes note;
    }) outcome) }
    ensures astray { IfOk result (λ astray. astray ≡ astray_by t outcome) }
{
    if let Some(note) = note {
        thread.notes.push(note);
    }
    match outcome {
        Outcome::Goes(goal) => {
            thread.place = Some(goal);
            Ok(None)
        }
        Outcome::Replies(reply) => {
            thread.place = None;
            thread.replies.push(reply);
            Ok(None)
        }
        Outcome::Astray => {
            thread.place = Some(machine.copy_loc(alloc, place)?);
            Ok(Some(t))
        }
    }
}

impl<M: Machine> State<M> {
    /// Makes the step of a thread that is ready for an operation, in place. `was` becomes the thread as it was before:
    /// its place is moved there, and not copied.
    #[inline(always)]
    #[tactic(auto, using(crate::proofs::States::step_ready))]
    pub(crate) fn make_step(
        &mut self,
        alloc: Global,
        machine: M,
        t: u8,
        op: Op,
        was: &mut Thread<M::Loc>,
    ) -> Result<(), OutOfMemory>
        requires ready { (program : Program) × (thread : Standing M.Loc) × (IsWithinLimits program
            × (Fits (M.rules machine) program self.old × (ready program self.old t ≡ Some (thread, op)))) }
        requires steps_fit { self.old.steps + 1 < 2 ^ 64 }
        ensures was { OnOk result (slice_get self.old.threads t ≡ Some was.new) }
        ensures step { OnOk result (self.new ≡ stepped (M.rules machine) self.old t op was.new) }
    {
        let first = machine.begin(op);
        let at = usize::from(t);
        let threads = self.threads.as_slice();
        let note = note_at_step(&threads[at].place, threads);
        let threads = self.threads.as_mut_vec();
        let moved = &mut threads[at];
        was.replies = moved.replies;
        was.notes = moved.notes;
        was.place = moved.place.take();
        let place = place_or(&was.place, &first);
        let outcome = machine.act(alloc, op, place, &mut self.memory)?;
        self.astray = advance(alloc, machine, note, t, place, outcome, moved)?;
        self.steps = self.steps + 1;
        Ok(())
    }

    /// The state after a step of a thread, which begins its next operation if it is in none. This
    /// state is unchanged. `NotEnabled` exactly where the thread has no step.
    pub fn step(
        &self,
        alloc: Global,
        machine: M,
        program: &Program,
        t: u8,
    ) -> Result<State<M>, StepFault>
        requires fits { Fits (M.rules machine) program.now self.now }
        requires steps_fit { self.now.steps + 1 < 2 ^ 64 }
        ensures step { IfOk result (λ next. step (M.rules machine) program.now self.now t ≡ Some next) }
        ensures fits { IfOk result (Fits (M.rules machine) program.now) }
        ensures not_enabled { IsErrOf result StepFault.NotEnabled ↔ ¬ IsEnabled program.now self.now t }
        ensures no_step { IsErrOf result StepFault.NotEnabled ↔ (step (M.rules machine) program.now self.now t ≡ None) }
        ensures alike { IfOk result (λ next. (twin : State M M.Mem M.Loc M.Form)
            → AreStatesAlike (M.rules machine) self.now twin
            → IsSomeAnd (step (M.rules machine) program.now twin t) (AreStatesAlike (M.rules machine) next)) }
    {
        match self.ready(program, t) {
            None => Err(StepFault::NotEnabled),
            Some((_, op)) => {
                let mut next = self.copy(alloc, machine)?;
                next.make_step(alloc, machine, t, op, &mut Thread::idle())?;
                Ok(next)
            }
        }
    }
}

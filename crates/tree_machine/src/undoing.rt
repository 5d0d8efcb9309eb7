//! Steps that are made in place and taken back.
ghost use Rattle.std.specs.Prelude.{◌≡◌, ◌+◌, ◌^◌, ◌<◌, ◌↔◌, true, false, Some, None, IsErrOf, IfNone, IfSome};
ghost use Rattle.std.specs.Prelude.{OnOk, length, slice_set};
ghost use Rattle.sched_program.specs.Program.{IsWithinLimits, Program};
ghost use Rattle.tree_machine.specs.declared.state.State.{State};
ghost use Rattle.tree_machine.specs.declared.state.Thread.{Thread as Standing};
ghost use Rattle.tree_machine.specs.Step.{place_or, ready, step, Fits};
ghost use Rattle.tree_machine.specs.Undoing.{TakesBack};

use crate::encode::Encode;
use crate::state::{State, StepFault, Thread, place_or};
use sched_program::{Op, OutOfMemory, Program};
use std::alloc::Global;
use std::mem::swap;
use std::snapshot::Snapshot;

/// What takes back a step that was made in place: the thread as it was, and the memory as it was if
/// the step may have written. It is reused for each step, and allocates only until it has a memory
/// of its own.
#[derive(Drop)]
pub struct Undo<M: Encode> {
    pub(crate) thread: Thread<M::Loc>,
    pub(crate) reads: bool,
    pub(crate) memory: Option<M::Mem>,
}

impl<M: Encode> Undo<M> {
    /// Takes nothing back yet. It allocates nothing.
    pub fn new() -> Undo<M> {
        Undo {
            thread: Thread::idle(),
            reads: true,
            memory: None,
        }
    }

    /// The thread as it was before its step.
    pub fn thread(&self) -> &Thread<M::Loc>
        ensures { result.now ≡ self.now.thread }
    {
        &self.thread
    }

    /// Whether the step is known to have left the memory as it was.
    pub fn reads(&self) -> bool
        ensures { result ≡ self.now.reads }
    {
        self.reads
    }
}

/// Keeps a copy of the memory unless the access only reads, in the buffers of the copy that was kept before, if there
/// is one.
#[inline(always)]
fn keep_memory<M: Encode>(
    alloc: Global,
    machine: M,
    reads: bool,
    memory: &M::Mem,
    kept: &mut Option<M::Mem>,
) -> Result<(), OutOfMemory>
    ensures { OnOk result (reads ≡ false → kept.new ≡ Some memory.now) }
{
    if reads {
        return Ok(());
    }
    match kept {
        Some(copy) => machine.copy_mem_into(memory, copy),
        None => {
            *kept = Some(machine.copy_mem(alloc, memory)?);
            Ok(())
        }
    }
}

/// Whether a step left the memory as it was: it only read, or its exchange failed.
#[inline(always)]
fn left_memory<M: Encode>(reads: bool, kept: &Option<M::Mem>, memory: &M::Mem) -> bool
    ensures same { result ≡ true → reads ≡ false → kept.now ≡ Some memory.now }
    ensures other { result ≡ false → reads ≡ false }
{
    match kept {
        Some(kept) => reads || *kept == *memory,
        None => reads,
    }
}

impl<M: Encode> State<M> {
    /// The operation that a thread has a step for, and whether the access of that step only reads.
    #[inline(always)]
    fn next_access(&self, machine: M, program: &Program, t: u8) -> Option<(Op, bool)>
        ensures some { IfSome result (λ (op, reads). (thread : Standing M.Loc)
            × (ready program.now self.now t ≡ Some (thread, op)) × (reads ≡ true
            → ((M.rules machine).act op (place_or thread.place ((M.rules machine).first op)) self.now.memory).0
            ≡ self.now.memory)) }
        ensures limits { IfSome result (λ _. IsWithinLimits program.now) }
        ensures none { IfNone result (ready program.now self.now t ≡ None) }
    {
        let (thread, op) = self.ready(program, t)?;
        let first = machine.begin(op);
        Some((op, machine.only_reads(place_or(&thread.place, &first))))
    }

    /// Makes the step of a thread in place, and keeps what undoes it. Fails with `NotEnabled`
    /// exactly if the thread has no step; then this state is unchanged. After a refusal of memory
    /// this state is unspecified.
    #[inline(always)]
    pub fn step_here(
        &mut self,
        alloc: Global,
        machine: M,
        program: &Program,
        t: u8,
        undo: &mut Undo<M>,
    ) -> Result<(), StepFault>
        requires fits { Fits (M.rules machine) program.now self.old }
        requires steps_fit { self.old.steps + 1 < 2 ^ 64 }
        ensures step { OnOk result (step (M.rules machine) program.now self.old t ≡ Some self.new) }
        ensures fits { OnOk result (Fits (M.rules machine) program.now self.new) }
        ensures no_step { IsErrOf result StepFault.NotEnabled ↔ (step (M.rules machine) program.now self.old t ≡ None) }
        ensures kept { IsErrOf result StepFault.NotEnabled → self.new ≡ self.old }
        ensures back { OnOk result
            (TakesBack self.old t undo.new.thread undo.new.reads undo.new.memory self.new) }
    {
        let Some((op, reads)) = self.next_access(machine, program, t) else {
            return Err(StepFault::NotEnabled);
        };
        keep_memory(alloc, machine, reads, &self.memory, &mut undo.memory)?;
        self.make_step(alloc, machine, t, op, &mut undo.thread)?;
        undo.reads = left_memory::<M>(reads, &undo.memory, &self.memory);
        Ok(())
    }

    /// Takes back the step of a thread by what `step_here` kept: this state becomes what it was
    /// before. What was kept is then used up.
    #[inline(always)]
    pub fn take_back(&mut self, source: &Snapshot<State<M>>, t: u8, undo: &mut Undo<M>)
        requires step { (machine : M) × (program : Program)
            × (step (M.rules machine) program source.now.value t ≡ Some self.old) }
        requires back { TakesBack source.now.value t undo.old.thread undo.old.reads undo.old.memory self.old }
        ensures { self.new ≡ source.now.value }
    {
        // Proofs alone read what the state was.
        let _ = source;
        let threads = self.threads.as_mut_vec();
        swap(&mut threads[usize::from(t)], &mut undo.thread);
        self.astray = None;
        self.steps = self.steps - 1;
        if !undo.reads {
            if let Some(memory) = &mut undo.memory {
                swap(&mut self.memory, memory);
            }
        }
    }
}

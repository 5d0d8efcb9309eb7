//! Labels: the codes by which a book knows states.
ghost use Rattle.std.specs.Prelude.{◌≡◌, ◌≤◌, ◌-◌, ◌++◌, ℕ, List, [], Some, true, if◌then◌else◌, length, IfOk, IsTrue};
ghost use Rattle.std.specs.Prelude.{OnOk, drop, slice_get, take};
ghost use Rattle.sched_program.specs.Program.{Program, IsWithinLimits};
ghost use Rattle.tree_machine.specs.Alike.{places_of};
ghost use Rattle.tree_machine.specs.FormCode.{label_code};
ghost use Rattle.tree_machine.specs.InRange.{AreNumbersInRange};
ghost use Rattle.tree_machine.specs.Naming.{code_by};
ghost use Rattle.tree_machine.specs.Offsets.{AreOffsetsOf, op_log_of};
ghost use Rattle.tree_machine.specs.Step.{Fits, step};
ghost use Rattle.tree_machine.specs.Undoing.{TakesBack};
ghost use Rattle.tree_machine.specs.declared.state.State.{State};

use crate::bytes::Bytes;
use crate::code_offsets::CodeOffsets;
use crate::encode::Encode;
use crate::encode_buffer::EncodeBuffer;
use crate::naming::Naming;
use crate::state::{State, Thread};
use crate::undoing::Undo;
use sched_program::OutOfMemory;
use std::alloc::Global;
use std::snapshot::Snapshot;

/// The state that a step was made from, for the label of the step.
#[derive(Drop)]
pub struct StepOrigin<'a, M: Encode> {
    /// Its label.
    pub label: &'a [u8],
    /// Where the parts of the label begin.
    pub offsets: CodeOffsets,
    /// The state, for proofs alone.
    pub state: &'a Snapshot<State<M>>,
    /// The thread that made the step.
    pub thread: u8,
    /// What takes the step back.
    pub undo: &'a Undo<M>,
}

/// Whether two threads have equally many replies and equally many notes.
#[inline(always)]
fn did_as_many<L>(here: &Thread<L>, there: &Thread<L>) -> bool
    ensures replies { IsTrue result → length here.now.replies ≡ length there.now.replies }
    ensures notes { IsTrue result → length here.now.notes ≡ length there.now.notes }
{
    here.replies.len() == there.replies.len() && here.notes.len() == there.notes.len()
}

/// Appends the bytes between two places of others.
#[inline(always)]
fn put_piece(
    bytes: &[u8],
    start: usize,
    end: usize,
    buffer: &mut EncodeBuffer,
) -> Result<(), OutOfMemory>
    requires order { start ≤ end }
    requires within { end ≤ length bytes.now }
    ensures { OnOk result (buffer.new ≡ buffer.old ++ take (end - start) (drop start bytes.now)) }
{
    buffer.put(&bytes[start..end])
}

impl<M: Encode> State<M> {
    /// The number of steps that a label has: canonical labels leave it out.
    #[inline(always)]
    fn label_steps(&self, naming: Naming) -> u64
        ensures { result ≡ code_by naming self.now.steps 0 }
    {
        match naming {
            Naming::Own => self.steps,
            Naming::Canonical => 0,
        }
    }

    /// The label of a state of a program: by own numbers its whole code, and else that of its form, in the layout of
    /// the code of a whole state of no steps. It is written in a buffer that is reused for each state, and copied into
    /// `spare`. If `spare` is too short, it allocates no more than the length of the label.
    #[tactic(auto, using(crate::proofs::Labels::label_pieces))]
    pub fn label(
        &self,
        alloc: Global,
        machine: M,
        naming: Naming,
        buffer: &mut EncodeBuffer,
        spare: Vec<u8>,
    ) -> Result<Bytes, OutOfMemory>
        requires { (program : Program) × IsWithinLimits program × Fits (M.rules machine) program self.now }
        ensures { IfOk result (λ bytes. bytes
            ≡ label_code naming M.own_code M.form_code (M.form_of machine) self.now) }
    {
        let threads = self.threads.as_slice();
        buffer.clear();
        buffer.put_number(self.label_steps(naming))?;
        buffer.put_op_log(threads, self.astray)?;
        machine.write_code(alloc, naming, &self.memory, threads, buffer)?;
        Ok(Bytes::copied_in(buffer.as_slice(), spare)?)
    }

    /// Whether a thread, by its step from another state to this one, got no reply and no note, and did not go astray.
    #[inline(always)]
    #[tactic(auto, using(crate::proofs::OpLog::same_op_log))]
    fn did_no_more(&self, source: &Snapshot<State<M>>, was: &Thread<M::Loc>, thread: u8) -> bool
        requires step { (machine : M) × (program : Program)
            × (step (M.rules machine) program source.now.value thread ≡ Some self.now) }
        requires was { slice_get source.now.value.threads thread ≡ Some was.now }
        ensures { IsTrue result → op_log_of self.now ≡ op_log_of source.now.value }
    {
        // Proofs alone read what the state was.
        let _ = source;
        match (self.thread_at(thread), self.astray) {
            (Some(here), None) => did_as_many(here, was),
            _ => false,
        }
    }

    /// Appends what the threads did. If the step left the memory as it was, it also appends what comes in front in the
    /// memory's code.
    #[inline(always)]
    #[tactic(auto, using(crate::proofs::Labels::offsets_in_order))]
    fn put_front(
        &self,
        origin: &StepOrigin<'_, M>,
        buffer: &mut EncodeBuffer,
    ) -> Result<(), OutOfMemory>
        requires bounded { length self.now.threads ≤ 4 }
        requires step { (machine : M) × (program : Program)
            × (step (M.rules machine) program origin.now.state.now.value origin.now.thread ≡ Some self.now) }
        requires back { TakesBack origin.now.state.now.value origin.now.thread origin.now.undo.now.thread
            origin.now.undo.now.reads origin.now.undo.now.memory self.now }
        requires offsets { AreOffsetsOf M.front_code M.behind_code origin.now.label.now origin.now.offsets
            origin.now.state.now.value }
        ensures { OnOk result (buffer.new ≡ buffer.old ++ (op_log_of self.now
            ++ (if origin.now.undo.now.reads then M.front_code origin.now.offsets.front self.now.memory else []))) }
    {
        let offsets = origin.offsets;
        let end = offsets.end(origin.undo.reads());
        if self.did_no_more(origin.state, origin.undo.thread(), origin.thread) {
            return put_piece(origin.label, offsets.op_log, end, buffer);
        }
        buffer.put_op_log(self.threads.as_slice(), self.astray)?;
        put_piece(origin.label, offsets.memory, end, buffer)
    }

    /// Appends what comes behind that: the rest of the memory's code, or all of it if the step wrote.
    #[inline(always)]
    #[tactic(auto, using(crate::proofs::Forms::held_in_range))]
    fn put_rest(
        &self,
        alloc: Global,
        machine: M,
        naming: Naming,
        origin: &StepOrigin<'_, M>,
        buffer: &mut EncodeBuffer,
    ) -> Result<(), OutOfMemory>
        requires fits { (program : Program) × IsWithinLimits program × Fits (M.rules machine) program self.now }
        requires memory { origin.now.undo.now.reads ≡ true → self.now.memory ≡ origin.now.state.now.value.memory }
        requires offsets { AreOffsetsOf M.front_code M.behind_code origin.now.label.now origin.now.offsets
            origin.now.state.now.value }
        requires coded { (state : State M M.Mem M.Loc M.Form) × AreNumbersInRange (M.rules machine) state
            × (origin.now.label.now ≡ label_code naming M.own_code M.form_code (M.form_of machine) state) }
        ensures { OnOk result ((before : List ℕ) → buffer.old ≡ before
            ++ (if origin.now.undo.now.reads then M.front_code origin.now.offsets.front self.now.memory else [])
            → buffer.new ≡ before ++ code_by naming (M.own_code self.now.memory (places_of self.now.threads))
            (M.form_code (M.form_of machine self.now.memory (places_of self.now.threads)))) }
    {
        let threads = self.threads.as_slice();
        if origin.undo.reads() {
            let front = origin.offsets.front;
            machine.write_behind(alloc, naming, front, &self.memory, threads, buffer)
        } else {
            machine.write_code(alloc, naming, &self.memory, threads, buffer)
        }
    }

    /// The label that `label` returns, where this state is the step of a thread from another one whose label is known:
    /// what the step left as it was is copied from that.
    #[inline(always)]
    pub fn label_after(
        &self,
        alloc: Global,
        machine: M,
        naming: Naming,
        origin: &StepOrigin<'_, M>,
        buffer: &mut EncodeBuffer,
        spare: Vec<u8>,
    ) -> Result<Bytes, OutOfMemory>
        requires fits { (program : Program) × IsWithinLimits program × Fits (M.rules machine) program self.now }
        requires step { (program : Program)
            × (step (M.rules machine) program origin.now.state.now.value origin.now.thread ≡ Some self.now) }
        requires back { TakesBack origin.now.state.now.value origin.now.thread origin.now.undo.now.thread
            origin.now.undo.now.reads origin.now.undo.now.memory self.now }
        requires offsets { AreOffsetsOf M.front_code M.behind_code origin.now.label.now origin.now.offsets
            origin.now.state.now.value }
        requires coded { (state : State M M.Mem M.Loc M.Form) × AreNumbersInRange (M.rules machine) state
            × (origin.now.label.now ≡ label_code naming M.own_code M.form_code (M.form_of machine) state) }
        ensures { IfOk result (λ bytes. bytes
            ≡ label_code naming M.own_code M.form_code (M.form_of machine) self.now) }
    {
        buffer.clear();
        buffer.put_number(self.label_steps(naming))?;
        self.put_front(origin, buffer)?;
        self.put_rest(alloc, machine, naming, origin, buffer)?;
        Ok(Bytes::copied_in(buffer.as_slice(), spare)?)
    }
}

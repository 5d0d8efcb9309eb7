//! What lines are replayed in.
ghost use Rattle.std.specs.Prelude.{◌≡◌, None, true, false, IfOk, OnOk};
ghost use Rattle.tree_machine.specs.Step.{start, step, Fits};
ghost use Rattle.tree_machine.specs.Undoing.{TakesBack};
ghost use Rattle.replay.specs.BookFile.Kept.{AreLabelsOf, IsSource, IsSourceAt};
ghost use Rattle.replay.specs.Labels.{named_by};

use crate::file::labels::Labels;
use crate::file::recalling::Input;
use sched_program::{OutOfMemory, Program};
use std::alloc::Global;
use std::snapshot::Snapshot;
use tree_machine::{Bytes, CodeOffsets, Encode, EncodeBuffer, Naming, State, StepOrigin, Undo};

/// The label that a state was decoded from.
#[derive(Clone, Copy)]
pub struct Source {
    /// The number of an entry that has it.
    pub index: usize,
    /// Where its parts begin.
    pub offsets: CodeOffsets,
}

/// What the lines of a book file are replayed in, reused from one line to the next: a state, the label that it was
/// decoded from, what takes its steps back, a buffer for labels, and the list of the label that was looked up last.
#[derive(Drop)]
pub struct Replayer<M: Encode> {
    pub(crate) state: State<M>,
    pub(crate) source: Option<Source>,
    pub(crate) undo: Undo<M>,
    pub(crate) buffer: EncodeBuffer,
    pub(crate) spare: Vec<u8>,
}

impl<M: Encode> Replayer<M> {
    /// The start of a program.
    pub fn new(alloc: Global, machine: M, program: &Program) -> Result<Replayer<M>, OutOfMemory>
        ensures start { IfOk result (λ r. r.state ≡ start (M.rules machine) program.now) }
        ensures fits { IfOk result (λ r. Fits (M.rules machine) program.now r.state) }
        ensures source { IfOk result (λ r. r.source ≡ None) }
    {
        Ok(Replayer {
            state: State::start(alloc, machine, program)?,
            source: None,
            undo: Undo::new(),
            buffer: EncodeBuffer::new(alloc),
            spare: Vec::new(alloc),
        })
    }

    /// Decodes the label of an entry, unless the state was decoded from it last. What comes in front in the label is
    /// decoded only if it differs from that of the label before. Returns whether the state was decoded.
    pub fn decode(
        &mut self,
        alloc: Global,
        machine: M,
        labels: &Labels,
        index: usize,
    ) -> Result<bool, OutOfMemory>
        requires { IsSource M.front_code M.behind_code labels.now self.old.source self.old.state }
        ensures source { OnOk result (IsSource M.front_code M.behind_code labels.now self.new.source self.new.state) }
        ensures decoded { IfOk result (λ yes. yes ≡ true → IsSourceAt index self.new.source) }
        ensures failed { IfOk result (λ yes. yes ≡ false → self.new.source ≡ None) }
    {
        let last = self.source.take();
        if let Some(source) = last
            && source.index == index
        {
            self.source = last;
            return Ok(true);
        }
        let known = labels.code_of(last);
        let Some(label) = labels.get(index) else {
            return Ok(false);
        };
        let Some(offsets) = self.state.decode(alloc, machine, label, known)? else {
            return Ok(false);
        };
        self.source = Some(Source { index, offsets });
        Ok(true)
    }

    /// The label by names of the state, which a step of a thread reached from the state `was`. What the step left as it
    /// was is copied from the label that `was` was decoded from, if it was decoded from one.
    pub fn label_of_step(
        &mut self,
        alloc: Global,
        input: &Input<'_, M>,
        labels: &Labels,
        was: &Snapshot<State<M>>,
        thread: u8,
        spare: Vec<u8>,
    ) -> Result<Bytes, OutOfMemory>
        requires kept { AreLabelsOf {Machine = M} (M.rules input.now.machine) input.now.program.now
            (named_by M.form_code (M.form_of input.now.machine)) input.now.lines.now labels.now }
        requires fits { Fits (M.rules input.now.machine) input.now.program.now self.old.state }
        requires step { step (M.rules input.now.machine) input.now.program.now was.now.value thread
            ≡ Some self.old.state }
        requires back { TakesBack was.now.value thread self.old.undo.thread self.old.undo.reads self.old.undo.memory
            self.old.state }
        requires source { IsSource M.front_code M.behind_code labels.now self.old.source was.now.value }
        ensures label { IfOk result (λ label. label
            ≡ named_by M.form_code (M.form_of input.now.machine) self.old.state) }
        ensures state { self.new.state ≡ self.old.state }
        ensures undo { self.new.undo ≡ self.old.undo }
        ensures source { self.new.source ≡ self.old.source }
    {
        // Whoever reads a program knows that it meets the limits.
        let _ = input.program.initial();
        let machine = input.machine;
        let Some((label, offsets)) = labels.code_of(self.source) else {
            let buffer = &mut self.buffer;
            return self
                .state
                .label(alloc, machine, Naming::Canonical, buffer, spare);
        };
        let origin = StepOrigin {
            label,
            offsets,
            state: was,
            thread,
            undo: &self.undo,
        };
        let buffer = &mut self.buffer;
        self.state
            .label_after(alloc, machine, Naming::Canonical, &origin, buffer, spare)
    }
}

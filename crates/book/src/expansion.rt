//! All enabled steps of a state, for whichever book.
ghost use Rattle.std.specs.Prelude.{◌≡◌, ◌+◌, ◌^◌, ◌<◌, ◌≤◌, ◌↔◌, length, map, IsTrue, IfOk, OnOk};
ghost use Rattle.std.specs.Prelude.{vec_len, vec_capacity};
ghost use Rattle.tree_machine.specs.FormCode.{state_code};
ghost use Rattle.tree_machine.specs.Step.{Fits};
ghost use Rattle.book.specs.Books.{HoldsSteps};
ghost use Rattle.book.specs.Expanding.{PutsStep};
ghost use Rattle.replay.specs.Findings.{machine_of, IsFindingOf};
ghost use Rattle.book.specs.Labels.{label_by, labelled};

use crate::label::Label;
use crate::successor::{Successor, label};
use options::Merge;
use replay::find;
use sched_program::{OutOfMemory, Program, same};
use std::alloc::Global;
use std::marker::Model;
use tree_machine::{Bytes, Encode, EncodeBuffer, Naming, State, StepFault};

/// A state with the step of each enabled thread, in the order of the threads, each with its
/// finding. It also holds the bytes of the state: by them a book that merges exactly knows whose
/// expansion it is without allocating.
#[derive(Drop)]
pub struct Expansion<'a, M: Encode> {
    machine: M,
    program: &'a Program,
    source: &'a State<M>,
    code: Bytes,
    successors: Vec<Successor<State<M>>>,
}

impl<'a, M: Encode> Model for Expansion<'a, M> {
    ghost use Rattle.std.specs.Prelude.{◌≡◌};
    ghost use Rattle.book.specs.Books.{HoldsSteps};
    ghost use Rattle.book.specs.Entries.{Steps};
    ghost use Rattle.tree_machine.specs.FormCode.{state_code};
    ghost use Rattle.tree_machine.specs.declared.state.State.{State};

    ghost Value = { Steps M (State M M.Mem M.Loc M.Form) };

    ghost view = { λ x. record {
      machine = x.machine;
      program = x.program.now;
      source = x.source.now;
      successors = x.successors.items;
    } };

    ghost invariant = { λ x. HoldsSteps M.rules (record {
      machine = x.machine;
      program = x.program.now;
      source = x.source.now;
      successors = x.successors.items;
    })
        × (x.code ≡ state_code M.own_code x.source.now) };
}

/// Appends the step of a thread to a list, if the thread is enabled. The step is judged from
/// scratch.
fn put_step<M: Encode>(
    alloc: Global,
    machine: M,
    program: &Program,
    source: &State<M>,
    thread: u8,
    steps: &mut Vec<Successor<State<M>>>,
) -> Result<(), OutOfMemory>
    requires fits { Fits (M.rules machine) program.now source.now }
    requires steps_fit { source.now.steps + 1 < 2 ^ 64 }
    requires place { vec_len steps.old < vec_capacity steps.old }
    ensures put { OnOk result (PutsStep (machine_of (M.rules machine) program.now)
        (IsFindingOf (M.rules machine) program.now) (λ s. s) source.now thread steps.old.items steps.new.items) }
    ensures len { vec_len steps.new ≤ vec_len steps.old + 1 }
    ensures capacity { vec_capacity steps.new ≡ vec_capacity steps.old }
{
    let next = match source.step(alloc, machine, program, thread) {
        Ok(next) => next,
        Err(StepFault::NotEnabled) => return Ok(()),
        Err(StepFault::OutOfMemory) => return Err(OutOfMemory),
    };
    let finding = find(alloc, machine, program, &next)?;
    steps.push_reserved(Successor {
        thread,
        state: next,
        finding,
    });
    Ok(())
}

impl<'a, M: Encode> Expansion<'a, M> {
    /// Takes each enabled step of a state, and judges the state that it reaches from scratch. A
    /// book labels the steps when it enters the expansion.
    pub fn of(
        alloc: Global,
        machine: M,
        program: &'a Program,
        state: &'a State<M>,
    ) -> Result<Expansion<'a, M>, OutOfMemory>
        requires fits { Fits (M.rules machine) program.now state.now }
        requires steps_fit { state.now.steps + 1 < 2 ^ 64 }
        ensures machine { IfOk result (λ x. x.machine ≡ machine) }
        ensures program { IfOk result (λ x. x.program ≡ program.now) }
        ensures source { IfOk result (λ x. x.source ≡ state.now) }
    {
        let threads = program.threads().len();
        let mut successors = Vec::with_capacity(alloc, threads)?;
        for thread in 0..threads as u8 {
            put_step(alloc, machine, program, state, thread, &mut successors)?;
        }
        let mut buffer = EncodeBuffer::new(alloc);
        let code = state.label(alloc, machine, Naming::Own, &mut buffer, Vec::new(alloc))?;
        Ok(Expansion {
            machine,
            program,
            source: state,
            code,
            successors,
        })
    }

    /// Whether it is of this machine and program.
    fn is_with(&self, machine: &M, program: &Program) -> bool
        ensures { IsTrue result ↔ ((self.now.machine ≡ machine.now) × (self.now.program ≡ program.now)) }
    {
        self.machine == *machine && self.program.is_same(program)
    }

    /// Whether it is the expansion of this state of this machine and program.
    pub(crate) fn is_of(&self, machine: &M, program: &Program, state: &State<M>) -> bool
        ensures { IsTrue result
            ↔ ((self.now.machine ≡ machine.now) × (self.now.program ≡ program.now) × (self.now.source ≡ state.now)) }
    {
        self.is_with(machine, program) && same(self.source, state)
    }

    /// Whether it is the expansion of the state of these bytes, of this machine and program.
    pub(crate) fn is_coded(&self, machine: &M, program: &Program, code: &[u8]) -> bool
        ensures { IsTrue result
            ↔ ((self.now.machine ≡ machine.now) × (self.now.program ≡ program.now)
            × (state_code M.own_code self.now.source ≡ code.now)) }
    {
        self.is_with(machine, program) && self.code.as_slice() == code
    }

    /// Its steps, each with the label of the state that it reaches, for a book with this merge.
    pub(crate) fn labelled(
        &self,
        alloc: Global,
        merge: Merge,
    ) -> Result<Vec<Successor<Label>>, OutOfMemory>
        ensures { IfOk result (λ steps. steps.items
            ≡ map (labelled (label_by M.own_code M.form_code (M.form_of self.now.machine) merge))
            self.now.successors) }
    {
        let mut steps = Vec::with_capacity(alloc, self.successors.len())?;
        let mut buffer = EncodeBuffer::new(alloc);
        for one in &self.successors {
            let spare = Vec::new(alloc);
            let label = label(
                self.machine,
                self.program,
                &one.state,
                merge,
                &mut buffer,
                spare,
            )?;
            steps.push_reserved(Successor {
                thread: one.thread,
                state: label,
                finding: one.finding,
            });
        }
        Ok(steps)
    }

    /// The number of its steps.
    pub fn len(&self) -> usize
        ensures { result ≡ length self.now.successors }
    {
        self.successors.len()
    }

    /// It holds all enabled steps of its state, each with its right finding.
    pub fn law(&self)
        ensures { HoldsSteps M.rules self.now }
    {
        let _ = &self.successors;
    }
}

//! Forms of states: a state without the numbers of its nodes and records, and without its number of
//! steps.
ghost use Rattle.std.specs.Prelude.{◌≡◌, ◌≤◌, ◌++◌, ◌↔◌, IfOk, OnOk, length};
ghost use Rattle.std.proofs.Common.{ap};
ghost use Rattle.std.specs.Cmp.{partial_equiv_from_equiv};
ghost use Rattle.sched_program.specs.Program.{Program};
ghost use Rattle.tree_machine.specs.Step.{Fits};
ghost use Rattle.tree_machine.specs.Alike.{FormContent, state_form, AreStatesAlike};
ghost use Rattle.tree_machine.specs.InRange.{AreNumbersInRange};
ghost use Rattle.tree_machine.specs.FormCode.{content_code, cut_code, named_code, state_code};
ghost use Rattle.tree_machine.specs.StateEq.{state_form_eq};
ghost use Rattle.tree_machine.specs.Laws.StateExact.{state_form_equiv, state_form_exact};
ghost use Rattle.tree_machine.specs.declared.front.Front.{Front};
ghost use Rattle.tree_machine.specs.declared.state.State.{State};

use crate::bytes::Bytes;
use crate::encode::Encode;
use crate::encode_buffer::EncodeBuffer;
use crate::naming::Naming;
use crate::state::State;
use sched_program::OutOfMemory;
use std::alloc::Global;
use std::hash::{Hash, Hasher};
use std::marker::Model;
use std::snapshot::Snapshot;

/// The form of a state. Two states have equal forms if they differ only in the numbers of their nodes and records, in
/// how many steps they took, and in what neither the root nor a thread reaches.
///
/// It is stored as one list of bytes. Contracts see what these stand for: the machine's form of the
/// memory with the places that the threads hold, the replies of each thread, the notes of each
/// thread's operations, and the thread by which the run went astray.
#[derive(Drop)]
pub struct StateForm<M: Encode> {
    bytes: Bytes,
    machine: Snapshot<M>,
    state: Snapshot<State<M>>,
}

impl<M: Encode> Model for StateForm<M> {
    ghost use Rattle.std.specs.Prelude.{◌≡◌};
    ghost use Rattle.tree_machine.specs.Alike.{FormContent, state_form};
    ghost use Rattle.tree_machine.specs.FormCode.{content_code, named_code, state_code};

    ghost Value = { FormContent M.Form };

    ghost view = { λ f. state_form (M.form_of f.machine.value) f.state.value };

    ghost invariant = { λ f. f.bytes
        ≡ content_code M.form_code (state_form (M.form_of f.machine.value) f.state.value) };
}

impl<M: Encode> State<M> {
    /// The machine's form of the state, with the replies, the notes and the thread by which it went
    /// astray, and without the number of steps. Two states have equal forms exactly if they are
    /// alike. A form has at most four threads, as a program has.
    pub fn form(&self, alloc: Global, machine: M) -> Result<StateForm<M>, OutOfMemory>
        requires numbers { AreNumbersInRange (M.rules machine) self.now }
        requires threads { length self.now.threads ≤ 4 }
        ensures form { IfOk result (λ form. form ≡ state_form (M.form_of machine) self.now) }
        ensures exact { IfOk result (λ form. (other : State M M.Mem M.Loc M.Form)
            → AreNumbersInRange (M.rules machine) other
            → (form ≡ state_form (M.form_of machine) other) ↔ AreStatesAlike (M.rules machine) self.now other) }
    {
        let mut buffer = EncodeBuffer::new(alloc);
        self.put_form(alloc, machine, &mut buffer)?;
        Ok(StateForm {
            bytes: buffer.into_bytes(),
            machine: Snapshot::of(&machine),
            state: Snapshot::of(self),
        })
    }

    /// Appends the bytes of the form.
    fn put_form(
        &self,
        alloc: Global,
        machine: M,
        buffer: &mut EncodeBuffer,
    ) -> Result<(), OutOfMemory>
        requires numbers { AreNumbersInRange (M.rules machine) self.now }
        requires threads { length self.now.threads ≤ 4 }
        ensures { OnOk result (buffer.new
            ≡ buffer.old ++ content_code M.form_code (state_form (M.form_of machine) self.now)) }
    {
        let threads = self.threads.as_slice();
        buffer.put_op_log(threads, self.astray)?;
        machine.write_code(alloc, Naming::Canonical, &self.memory, threads, buffer)
    }

    /// What this state is, by its code. If the code, cut at any front, is the own code of a state, this is that
    /// state. If it is the code by names of a state, this state is alike to that one, fits every program that that one
    /// fits, and has no steps.
    pub fn decoded_law(&self, machine: M)
        ensures own { (front : Front) (s : State M M.Mem M.Loc M.Form)
            → state_code (cut_code M.front_code M.behind_code front) self.now ≡ state_code M.own_code s
            → self.now ≡ s }
        ensures named { (front : Front) (s : State M M.Mem M.Loc M.Form) → AreNumbersInRange (M.rules machine) s
            → state_code (cut_code M.front_code M.behind_code front) self.now
            ≡ named_code M.form_code (M.form_of machine) s
            → AreStatesAlike (M.rules machine) s self.now
            × ((program : Program) → Fits (M.rules machine) program s → Fits (M.rules machine) program self.now)
            × (self.now.steps ≡ 0) }
    {
        let _ = machine;
    }
}

impl<M: Encode> PartialEq for StateForm<M> {
    ghost eq = { state_form_eq M.Form.eq };

    ghost laws = { partial_equiv_from_equiv (state_form_equiv M.Form.eq M.form_exact M.Form.Eq.laws) };

    fn eq(&self, other: &StateForm<M>) -> bool {
        self.bytes == other.bytes
    }
}

impl<M: Encode> Eq for StateForm<M> {
    ghost laws = { state_form_equiv M.Form.eq M.form_exact M.Form.Eq.laws };
}

impl<M: Encode> Hash for StateForm<M> {
    ghost use Rattle.tree_machine.specs.ByteLists.{bytes_input};

    ghost hash_input = { λ f. bytes_input (content_code M.form_code f) };

    ghost respects_eq = { λ a b same. ap (λ f. bytes_input (content_code M.form_code f))
        (state_form_exact M.Form.eq M.form_exact a b same) };

    fn hash<H: Hasher>(&self, state: &mut H) {
        self.bytes.hash(state);
    }
}

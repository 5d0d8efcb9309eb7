//! What is found of a state.
ghost use Rattle.std.specs.Prelude.{◌≡◌, IfOk, IfSome, IfNone, None};
ghost use Rattle.sched_program.specs.Program.{Program};
ghost use Rattle.lin.specs.Linearization.{IsLinearization, IsLinearizable};
ghost use Rattle.tree_machine.specs.History.{history_of};
ghost use Rattle.tree_machine.specs.Step.{Fits};
ghost use Rattle.replay.specs.Findings.{is_sound, IsFindingOf};

use lin::{Order, judge_order};
use sched_program::{OutOfMemory, Program};
use std::alloc::Global;
use tree_machine::{Encode, State};

/// What was found of a state: the first of these that applies. All but `Sound` are faults.
#[derive(Clone, Copy)]
pub enum Finding {
    /// A thread met what the machine's tables do not have.
    Astray,
    /// The memory does not keep search order.
    Order,
    /// The history has no linearization.
    History,
    /// No fault: a linearization of the history (Herlihy and Wing, TOPLAS 1990).
    Sound(Order),
}

impl Finding {
    /// Whether it is no fault.
    pub fn is_sound(&self) -> bool
        ensures { result ≡ is_sound self.now }
    {
        matches!(self, Finding::Sound(_))
    }
}

/// The fault that a state shows apart from its history, if it shows one.
pub fn fault_in<M: Encode>(machine: M, state: &State<M>) -> Option<Finding>
    requires { (M.rules machine).IsInRange state.now.memory }
    ensures some { IfSome result (λ fault. (program : Program)
        → IsFindingOf (M.rules machine) program state.now fault) }
    ensures none { IfNone result ((state.now.astray ≡ None) × (M.rules machine).IsOrdered state.now.memory) }
{
    if state.astray().is_some() {
        return Some(Finding::Astray);
    }
    if !machine.ordered(state.memory()) {
        return Some(Finding::Order);
    }
    None
}

/// A linearization of the history of a state, if there is one.
fn judge_anew<M: Encode>(
    alloc: Global,
    program: &Program,
    state: &State<M>,
) -> Result<Option<Order>, OutOfMemory>
    requires { (machine : M) × Fits (M.rules machine) program.now state.now }
    ensures found { IfOk result
        (λ answer. IfSome answer (λ order. IsLinearization program.now (history_of state.now) order)) }
    ensures none { IfOk result (λ answer. IfNone answer (IsLinearizable program.now (history_of state.now) → ⊥)) }
{
    let history = state.history(alloc, program)?;
    judge_order(alloc, program, &history)
}

/// The finding of a state that shows no fault apart from its history. The history is judged from
/// scratch.
pub fn judged<M: Encode>(
    alloc: Global,
    machine: M,
    program: &Program,
    state: &State<M>,
) -> Result<Finding, OutOfMemory>
    requires fits { Fits (M.rules machine) program.now state.now }
    requires shown { (state.now.astray ≡ None) × (M.rules machine).IsOrdered state.now.memory }
    ensures { IfOk result (IsFindingOf (M.rules machine) program.now state.now) }
{
    // Only contracts use the machine.
    let _ = machine;
    match judge_anew(alloc, program, state)? {
        None => Ok(Finding::History),
        Some(order) => Ok(Finding::Sound(order)),
    }
}

/// The finding of a state, judged from scratch.
pub fn find<M: Encode>(
    alloc: Global,
    machine: M,
    program: &Program,
    state: &State<M>,
) -> Result<Finding, OutOfMemory>
    requires { Fits (M.rules machine) program.now state.now }
    ensures { IfOk result (IsFindingOf (M.rules machine) program.now state.now) }
{
    if let Some(fault) = fault_in(machine, state) {
        return Ok(fault);
    }
    judged(alloc, machine, program, state)
}

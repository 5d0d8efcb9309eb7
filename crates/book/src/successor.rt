//! Steps, and the labels by which a book looks up the states that they reach.
ghost use Rattle.std.specs.Prelude.{◌≡◌, IfOk};
ghost use Rattle.tree_machine.specs.Step.{Fits};
ghost use Rattle.book.specs.Labels.{label_by, naming_of};

use crate::label::Label;
use options::Merge;
use replay::Finding;
use sched_program::{OutOfMemory, Program};
use tree_machine::{Encode, EncodeBuffer, Naming, State};

/// The step of a thread: the state that it reaches, or the label of that state, and its finding.
#[derive(Drop)]
pub struct Successor<T> {
    /// The number of the thread.
    pub thread: u8,
    /// The state that the step reaches, or its label.
    pub state: T,
    /// The finding of that state.
    pub finding: Finding,
}

/// The numbers by which labels name nodes and records.
pub(crate) fn naming(merge: Merge) -> Naming
    ensures { result ≡ naming_of merge }
{
    match merge {
        Merge::Exact => Naming::Own,
        Merge::Names => Naming::Canonical,
    }
}

/// The label of a state of a program, for a book with this merge. It is encoded in `buffer` and
/// copied into `spare`.
pub(crate) fn label<M: Encode>(
    machine: M,
    program: &Program,
    state: &State<M>,
    merge: Merge,
    buffer: &mut EncodeBuffer,
    spare: Vec<u8>,
) -> Result<Label, OutOfMemory>
    requires { Fits (M.rules machine) program.now state.now }
    ensures { IfOk result
        (λ label. label ≡ label_by M.own_code M.form_code (M.form_of machine) merge state.now) }
{
    // Whoever reads a program knows that it meets the limits.
    let _ = program.initial();
    let alloc = *spare.allocator();
    let bytes = state.label(alloc, machine, naming(merge), buffer, spare)?;
    Ok(Label::new(bytes))
}

//! Labels of states: they are read back, and those of steps are compared with those that are copied in part.
ghost use Rattle.std.specs.Prelude.{◌≡◌, IfOk, IfSome, OnOk};
ghost use Rattle.tree_machine.specs.FormCode.{label_code};
ghost use Rattle.tree_machine.specs.Offsets.{AreOffsetsOf};
ghost use Rattle.tree_machine.specs.Step.{Fits};
ghost use Rattle.tree_machine.specs.declared.state.State.{State};

use sched_program::{OutOfMemory, Program};
use std::alloc::Global;
use std::snapshot::Snapshot;
use tree_machine::{
    Bytes, CodeOffsets, Encode, EncodeBuffer, Naming, State, StepFault, StepOrigin, Undo,
};

/// Both namings.
pub const NAMINGS: [Naming; 2] = [Naming::Own, Naming::Canonical];

/// A program of a machine, and how its states are labelled.
#[derive(Clone, Copy)]
pub struct Labelling<'a, M: Encode> {
    pub machine: M,
    pub program: &'a Program,
    pub naming: Naming,
}

/// Which steps were made, by what they did to the memory.
#[derive(Clone, Copy, Debug, PartialEq, Eq)]
pub struct StepKinds {
    /// Steps that changed it.
    pub wrote: bool,
    /// Steps that might have, and left it as it was: an exchange failed.
    pub failed: bool,
    /// Steps that only read.
    pub read: bool,
}

impl StepKinds {
    /// No step.
    pub fn none() -> StepKinds {
        StepKinds {
            wrote: false,
            failed: false,
            read: false,
        }
    }

    /// Steps of all kinds.
    pub fn all() -> StepKinds {
        StepKinds {
            wrote: true,
            failed: true,
            read: true,
        }
    }

    /// Steps of these kinds and of those.
    pub fn or(self, others: StepKinds) -> StepKinds {
        StepKinds {
            wrote: self.wrote || others.wrote,
            failed: self.failed || others.failed,
            read: self.read || others.read,
        }
    }
}

/// What is reused from one state to the next: the state that is read, the buffer in which labels are written, what
/// takes a step back, and the kinds of the steps that were made.
#[derive(Drop)]
pub struct Scratch<M: Encode> {
    pub shell: State<M>,
    pub buffer: EncodeBuffer,
    pub undo: Undo<M>,
    pub kinds: StepKinds,
}

impl<M: Encode> Scratch<M> {
    /// What is reused, with this state to be read into.
    pub fn with(alloc: Global, shell: State<M>) -> Scratch<M> {
        Scratch {
            shell,
            buffer: EncodeBuffer::new(alloc),
            undo: Undo::new(),
            kinds: StepKinds::none(),
        }
    }
}

/// The label of a state of a program.
pub fn label_of<M: Encode>(
    alloc: Global,
    how: &Labelling<'_, M>,
    state: &State<M>,
    buffer: &mut EncodeBuffer,
) -> Result<Bytes, OutOfMemory>
    requires { Fits (M.rules how.now.machine) how.now.program.now state.now }
    ensures { IfOk result (λ label. label
        ≡ label_code how.now.naming M.own_code M.form_code (M.form_of how.now.machine) state.now) }
{
    // Whoever reads a program knows that it meets the limits.
    let _ = how.program.initial();
    state.label(alloc, how.machine, how.naming, buffer, Vec::new(alloc))
}

/// Reads the label of a state of a program in the place of another state. What it reads is one of that program too.
fn read_label<M: Encode>(
    alloc: Global,
    how: &Labelling<'_, M>,
    label: &[u8],
    last: Option<(&[u8], CodeOffsets)>,
    shell: &mut State<M>,
) -> Result<Option<CodeOffsets>, OutOfMemory>
    requires labelled { (state : State M M.Mem M.Loc M.Form) × Fits (M.rules how.now.machine) how.now.program.now state
        × (label.now ≡ label_code how.now.naming M.own_code M.form_code (M.form_of how.now.machine) state) }
    requires last { IfSome last
        (λ (own, offsets). AreOffsetsOf M.front_code M.behind_code own.now offsets shell.old) }
    ensures offsets { IfOk result (λ read. IfSome read
        (λ offsets. AreOffsetsOf M.front_code M.behind_code label.now offsets shell.new)) }
    ensures fits { IfOk result (λ read. IfSome read (λ _. Fits (M.rules how.now.machine) how.now.program.now shell.new)) }
{
    let read = shell.decode(alloc, how.machine, label, last)?;
    shell.decoded_law(how.machine);
    Ok(read)
}

/// Whether what was read from the label of a state has that label. By own numbers it is that state too, and otherwise
/// it has no steps.
fn is_labelled<M: Encode>(
    alloc: Global,
    how: &Labelling<'_, M>,
    state: &State<M>,
    label: &Bytes,
    scratch: &mut Scratch<M>,
) -> Result<bool, OutOfMemory>
    requires { Fits (M.rules how.now.machine) how.now.program.now scratch.old.shell }
{
    let naming = how.naming;
    let again = label_of(alloc, how, &scratch.shell, &mut scratch.buffer)?;
    let is_read = match naming {
        Naming::Own => scratch.shell == *state,
        Naming::Canonical => scratch.shell.steps() == 0,
    };
    Ok(is_read && again == *label)
}

/// Whether a state is read back from its label.
pub fn is_read_back<M: Encode>(
    alloc: Global,
    how: &Labelling<'_, M>,
    state: &State<M>,
    scratch: &mut Scratch<M>,
) -> Result<bool, OutOfMemory>
    requires { Fits (M.rules how.now.machine) how.now.program.now state.now }
{
    let label = label_of(alloc, how, state, &mut scratch.buffer)?;
    match read_label(alloc, how, label.as_slice(), None, &mut scratch.shell)? {
        Some(_) => is_labelled(alloc, how, state, &label, scratch),
        None => Ok(false),
    }
}

/// Whether a state is read back from its label in the place of one that was read before. Of that one's label it is
/// known where the parts begin.
pub fn is_read_after<M: Encode>(
    alloc: Global,
    how: &Labelling<'_, M>,
    before: &State<M>,
    state: &State<M>,
    scratch: &mut Scratch<M>,
) -> Result<bool, OutOfMemory>
    requires before { Fits (M.rules how.now.machine) how.now.program.now before.now }
    requires state { Fits (M.rules how.now.machine) how.now.program.now state.now }
{
    let last = label_of(alloc, how, before, &mut scratch.buffer)?;
    let label = label_of(alloc, how, state, &mut scratch.buffer)?;
    let last = last.as_slice();
    let Some(offsets) = read_label(alloc, how, last, None, &mut scratch.shell)? else {
        return Ok(false);
    };
    let known = Some((last, offsets));
    match read_label(alloc, how, label.as_slice(), known, &mut scratch.shell)? {
        Some(_) => is_labelled(alloc, how, state, &label, scratch),
        None => Ok(false),
    }
}

/// From how many proper prefixes of the bytes a state is read.
pub fn beginnings_read<M: Encode>(
    alloc: Global,
    machine: M,
    bytes: &[u8],
    shell: &mut State<M>,
) -> Result<usize, OutOfMemory> {
    let mut count: usize = 0;
    for len in 0..bytes.len() {
        let read = shell.decode(alloc, machine, &bytes[..len], None)?;
        if read.is_some() {
            count = count.saturating_add(1);
        }
    }
    Ok(count)
}

/// From how many proper prefixes of a label a state is read at most. Only a canonical label has such a prefix: the
/// label without all that only threads reach. It is read as a state whose threads hold what is not there.
pub fn most_beginnings(naming: Naming) -> usize {
    match naming {
        Naming::Own => 0,
        Naming::Canonical => 1,
    }
}

/// Adds the kind of the step that `undo` takes back.
fn add_kind<M: Encode>(machine: M, undo: &Undo<M>, kinds: &mut StepKinds) {
    let may_write = match &undo.thread().place {
        Some(place) => !machine.only_reads(place),
        None => false,
    };
    match (undo.reads(), may_write) {
        (false, _) => kinds.wrote = true,
        (true, true) => kinds.failed = true,
        (true, false) => kinds.read = true,
    }
}

/// The label of a step of the state that was read from a label, copied in part from that. The step is taken back.
fn label_of_step<M: Encode>(
    alloc: Global,
    how: &Labelling<'_, M>,
    label: &[u8],
    offsets: CodeOffsets,
    thread: u8,
    scratch: &mut Scratch<M>,
) -> Result<Bytes, StepFault>
    requires labelled { (state : State M M.Mem M.Loc M.Form) × Fits (M.rules how.now.machine) how.now.program.now state
        × (label.now ≡ label_code how.now.naming M.own_code M.form_code (M.form_of how.now.machine) state) }
    requires offsets { AreOffsetsOf M.front_code M.behind_code label.now offsets scratch.old.shell }
    requires fits { Fits (M.rules how.now.machine) how.now.program.now scratch.old.shell }
    ensures { OnOk result (scratch.new.shell ≡ scratch.old.shell) }
{
    if scratch.shell.steps() >= 1000 {
        return Err(StepFault::NotEnabled);
    }
    // Whoever reads a program knows that it meets the limits.
    let _ = how.program.initial();
    let source = Snapshot::of(&scratch.shell);
    scratch
        .shell
        .step_here(alloc, how.machine, how.program, thread, &mut scratch.undo)?;
    add_kind(how.machine, &scratch.undo, &mut scratch.kinds);
    let origin = StepOrigin {
        label,
        offsets,
        state: &source,
        thread,
        undo: &scratch.undo,
    };
    let spare = Vec::new(alloc);
    let next = scratch.shell.label_after(
        alloc,
        how.machine,
        how.naming,
        &origin,
        &mut scratch.buffer,
        spare,
    )?;
    scratch.shell.take_back(&source, thread, &mut scratch.undo);
    Ok(next)
}

/// Whether the label of a step, copied in part from that of the state before it, equals the one written in full. The
/// step is made in a state read from that label before it, which has that label again once the step is taken back.
pub fn is_step_labelled<M: Encode>(
    alloc: Global,
    how: &Labelling<'_, M>,
    state: &State<M>,
    thread: u8,
    scratch: &mut Scratch<M>,
) -> Result<bool, StepFault>
    requires { Fits (M.rules how.now.machine) how.now.program.now state.now }
{
    if state.steps() >= 1000 {
        return Err(StepFault::NotEnabled);
    }
    let next = state.step(alloc, how.machine, how.program, thread)?;
    let anew = label_of(alloc, how, &next, &mut scratch.buffer)?;
    let label = label_of(alloc, how, state, &mut scratch.buffer)?;
    let bytes = label.as_slice();
    let Some(offsets) = read_label(alloc, how, bytes, None, &mut scratch.shell)? else {
        return Ok(false);
    };
    let copied = label_of_step(alloc, how, bytes, offsets, thread, scratch)?;
    Ok(copied == anew && is_labelled(alloc, how, state, &label, scratch)?)
}

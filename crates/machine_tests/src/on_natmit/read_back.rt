//! States written as bytes and read back from them.
ghost use Rattle.tree_machine.specs.Step.{Fits};
ghost use Rattle.natmit.specs.NatMitRules.{natmit_rules};

use crate::machine::labels::{
    Labelling, NAMINGS, Scratch, StepKinds, beginnings_read, is_read_after, is_read_back,
    is_step_labelled, label_of, most_beginnings,
};
use crate::on_natmit::follow::{Broken, WHOLE, advance, program_of};
use natmit::{NatMit, NatMitLoc, NatMitMem};
use sched_program::{Program, Sequence, ShortList};
use std::alloc::Global;
use std::test::Fail;
use tree_machine::{Encode, Front, Naming, Replies, State, Thread};

/// Over the key 10, T0 deletes it and T1 inserts 5: each kind of place is met.
const DELETE_AND_INSERT: &str =
    r#"{"version":1,"tree":"nm","initial":[10],"threads":[[{"op":"delete","key":10}],[{"op":"insert","key":5}]]}"#;

/// One thread over more keys: a state of it has other threads and another memory.
const LONE_FIND: &str =
    r#"{"version":1,"tree":"nm","initial":[40,20,30],"threads":[[{"op":"find","key":30}]]}"#;

/// How many steps each schedule has at most.
const STEPS: usize = 13;

/// The number of schedules that two threads have in `STEPS` steps.
const SCHEDULES: u32 = 8192;

/// A schedule by which T1 helps to cut off the leaf that T0 flagged, and inserts its key.
const HELPED: [u8; 16] = [0, 0, 0, 1, 1, 1, 1, 1, 1, 1, 1, 1, 1, 0, 0, 0];

/// A leaf, which is the only node, and a thread between operations.
const LEAF_AND_IDLE: [u8; 5] = [1, 0, 1, 7, 0];

/// An internal node over two leaves, and a thread that is about to begin its search.
const THREE_AND_BEGUN: [u8; 14] = [3, 0, 72, 9, 0, 2, 3, 1, 5, 1, 9, 36, 1, 0];

/// The only node in front is a leaf. The thread holds only a leaf of its own, which nothing else reaches: that leaf
/// comes behind the thread.
const CUT_OFF: [u8; 11] = [1, 0, 1, 7, 36, 1, 2, 1, 0, 1, 9];

/// A schedule by which T0 cuts its leaf off while T1 holds it and the node above it, which only T1 reaches then.
const OVERTAKEN: [u8; 17] = [0, 1, 1, 0, 0, 0, 0, 0, 0, 1, 1, 1, 1, 1, 1, 1, 1];

/// All kinds of places.
const ALL_KINDS: u32 = 511;

/// The kind of a place, as one bit.
fn kind_of(place: NatMitLoc) -> u32 {
    match place {
        NatMitLoc::Begin { .. } => 1,
        NatMitLoc::Down { .. } => 2,
        NatMitLoc::Put { .. } => 4,
        NatMitLoc::Flag { .. } => 8,
        NatMitLoc::Look { .. } => 16,
        NatMitLoc::CleanRead { .. } => 32,
        NatMitLoc::Tag { .. } => 64,
        NatMitLoc::Sibling { .. } => 128,
        NatMitLoc::Swing { .. } => 256,
    }
}

/// The kinds of the places that the threads of a state hold.
fn kinds_in(state: &State<NatMit>) -> u32 {
    let mut kinds = 0;
    for thread in state.threads.as_slice() {
        kinds |= match thread.place {
            Some(place) => kind_of(place),
            None => 0,
        };
    }
    kinds
}

/// What is reused, with a state of another program, and the kinds of places met so far.
#[derive(Drop)]
struct Kinds {
    scratch: Scratch<NatMit>,
    kinds: u32,
}

/// What is reused, with a state of another program.
fn scratch_of(alloc: Global) -> Result<Scratch<NatMit>, Broken> {
    let other = program_of(alloc, LONE_FIND)?;
    Ok(Scratch::with(alloc, State::start(alloc, WHOLE, &other)?))
}

/// Reads each state along a schedule, until a thread has no step. Each bit of the schedule is a thread.
fn read_along(
    alloc: Global,
    machine: NatMit,
    program: &Program,
    schedule: u32,
    met: &mut Kinds,
) -> Result<(), Broken> {
    let how = Labelling {
        machine,
        program,
        naming: Naming::Own,
    };
    let mut state = State::start(alloc, machine, program)?;
    let mut left = schedule;
    for step in 0..STEPS {
        if !is_read_back(alloc, &how, &state, &mut met.scratch)? {
            return Err(Broken::Row(step));
        }
        met.kinds |= kinds_in(&met.scratch.shell);
        let thread = (left % 2) as u8;
        left /= 2;
        if !state.enabled(program, thread) {
            return Ok(());
        }
        state = advance(alloc, machine, program, state, thread, 1)?;
    }
    Ok(())
}

/// Reads all states of a program that have fewer steps than a schedule, and returns the kinds of places met.
fn read_all(alloc: Global, text: &str) -> Result<u32, Broken> {
    let program = program_of(alloc, text)?;
    let mut met = Kinds {
        scratch: scratch_of(alloc)?,
        kinds: 0,
    };
    for schedule in 0..SCHEDULES {
        read_along(alloc, WHOLE, &program, schedule, &mut met)?;
    }
    Ok(met.kinds)
}

/// Whether a state is read from its label with one byte more, or from more beginnings of it than may be read.
fn is_read_cut(
    alloc: Global,
    how: &Labelling<'_, NatMit>,
    state: &State<NatMit>,
    scratch: &mut Scratch<NatMit>,
) -> Result<bool, Broken>
    requires { Fits (natmit_rules how.now.machine) how.now.program.now state.now }
{
    let label = label_of(alloc, how, state, &mut scratch.buffer)?;
    let whole = label.as_slice();
    if beginnings_read(alloc, how.machine, whole, &mut scratch.shell)?
        > most_beginnings(how.naming)
    {
        return Ok(true);
    }
    let mut longer = Vec::from_slice(alloc, whole)?;
    longer.extend_from_slice(&[0])?;
    let read = scratch
        .shell
        .decode(alloc, how.machine, longer.as_slice(), None)?;
    Ok(read.is_some())
}

/// What is looked at of each state along a schedule.
#[derive(Clone, Copy)]
enum Look {
    /// It is read from its label, into the one that was read before.
    Read,
    /// It is read from no bytes that are not all of its label, or too many.
    ReadCut,
    /// The next one is read in its place.
    ReadAfter,
    /// The labels of its steps are copied from its own.
    Steps,
}

/// Whether the labels of the steps of both threads, as far as they have one, are copied from that of the state.
fn are_steps_labelled(
    alloc: Global,
    how: &Labelling<'_, NatMit>,
    state: &State<NatMit>,
    scratch: &mut Scratch<NatMit>,
) -> Result<bool, Broken>
    requires { Fits (natmit_rules how.now.machine) how.now.program.now state.now }
{
    for thread in 0..2 {
        if state.enabled(how.program, thread) {
            if !is_step_labelled(alloc, how, state, thread, scratch)? {
                return Ok(false);
            }
        }
    }
    Ok(true)
}

/// Whether a state is right, and the next one.
fn is_right(
    alloc: Global,
    how: &Labelling<'_, NatMit>,
    look: Look,
    state: &State<NatMit>,
    next: &State<NatMit>,
    scratch: &mut Scratch<NatMit>,
) -> Result<bool, Broken>
    requires state { Fits (natmit_rules how.now.machine) how.now.program.now state.now }
    requires next { Fits (natmit_rules how.now.machine) how.now.program.now next.now }
{
    match look {
        Look::Read => Ok(is_read_back(alloc, how, next, scratch)?),
        Look::ReadCut => Ok(!is_read_cut(alloc, how, next, scratch)?),
        Look::ReadAfter => Ok(is_read_after(alloc, how, state, next, scratch)?),
        Look::Steps => are_steps_labelled(alloc, how, state, scratch),
    }
}

/// Looks at each state along a schedule, and returns the kinds of the steps that were labelled.
fn look_along(
    alloc: Global,
    how: &Labelling<'_, NatMit>,
    look: Look,
    schedule: &[u8],
) -> Result<StepKinds, Broken> {
    let mut scratch = scratch_of(alloc)?;
    let mut state = State::start(alloc, how.machine, how.program)?;
    for (step, thread) in schedule.iter().enumerate() {
        let copy = state.copy(alloc, how.machine)?;
        let next = advance(alloc, how.machine, how.program, copy, *thread, 1)?;
        if !is_right(alloc, how, look, &state, &next, &mut scratch)? {
            return Err(Broken::Row(step));
        }
        state = next;
    }
    Ok(scratch.kinds)
}

/// Looks at each state along a schedule of the program of a text. It tries again where memory was refused, which
/// happens once at most.
fn looked(
    alloc: Global,
    naming: Naming,
    look: Look,
    text: &str,
    schedule: &[u8],
) -> Result<StepKinds, Broken> {
    let program = match program_of(alloc, text) {
        Err(Broken::OutOfMemory) => program_of(alloc, text)?,
        program => program?,
    };
    let how = Labelling {
        machine: WHOLE,
        program: &program,
        naming,
    };
    match look_along(alloc, &how, look, schedule) {
        Err(Broken::OutOfMemory) => look_along(alloc, &how, look, schedule),
        kinds => kinds,
    }
}

/// How many bytes come in front of what one thread holds, and the front, if all bytes are read. What comes behind is
/// then read once more, alone.
fn front_of(alloc: Global, bytes: &[u8]) -> Result<Option<(usize, Front)>, Broken> {
    let mut mem = NatMitMem {
        nodes: Sequence::new(alloc),
    };
    let mut threads = [Thread {
        replies: Replies::new(),
        place: None,
        notes: ShortList::new(),
    }];
    let Some((front, rest)) = WHOLE.read_front(bytes, &mut mem)? else {
        return Ok(None);
    };
    if !WHOLE.read_behind(alloc, rest, front, &mut mem, &mut threads)? {
        return Ok(None);
    }
    let place = threads[0].place.take();
    let nodes = Vec::from_slice(alloc, mem.nodes.as_slice())?;
    let is_read = WHOLE.read_behind(alloc, rest, front, &mut mem, &mut threads)?;
    if is_read && threads[0].place == place && mem.nodes.as_slice() == nodes.as_slice() {
        Ok(Some((bytes.len() - rest.len(), front)))
    } else {
        Ok(None)
    }
}

/// Calls `front_of`, and once more where a growth was refused, which happens once at most.
fn front_at_last(alloc: Global, bytes: &[u8]) -> Result<Option<(usize, Front)>, Broken> {
    match front_of(alloc, bytes) {
        Err(Broken::OutOfMemory) => front_of(alloc, bytes),
        front => front,
    }
}

/// A front of `nodes` nodes and no record.
fn nodes_in_front(nodes: u16) -> Front {
    Front { nodes, records: 0 }
}

#[test]
fn the_bytes_in_front_are_counted(rt: HostRuntime) -> Result<(), Fail> {
    let leaf = front_at_last(rt.alloc(), &LEAF_AND_IDLE);
    assert!(rt; leaf == Ok(Some((4, nodes_in_front(1)))));
    let three = front_at_last(rt.alloc(), &THREE_AND_BEGUN);
    assert!(rt; three == Ok(Some((11, nodes_in_front(3)))));
    let cut_off = front_at_last(rt.alloc(), &CUT_OFF);
    assert!(rt; cut_off == Ok(Some((4, nodes_in_front(1)))));
    assert!(rt; front_at_last(rt.alloc(), &LEAF_AND_IDLE[..4]) == Ok(None));
    assert!(rt; front_at_last(rt.alloc(), &CUT_OFF[..10]) == Ok(None));
    Ok(())
}

#[test]
fn each_state_is_read_back(rt: HostRuntime) -> Result<(), Fail> {
    // Once more where a growth was refused: that happens once at most.
    let kinds = match read_all(rt.alloc(), DELETE_AND_INSERT) {
        Err(Broken::OutOfMemory) => read_all(rt.alloc(), DELETE_AND_INSERT),
        kinds => kinds,
    };
    assert!(rt; kinds == Ok(ALL_KINDS));
    Ok(())
}

#[test]
fn no_state_is_read_from_other_bytes(rt: HostRuntime) -> Result<(), Fail> {
    for naming in NAMINGS {
        let end = looked(
            rt.alloc(),
            naming,
            Look::ReadCut,
            DELETE_AND_INSERT,
            &HELPED,
        );
        assert!(rt; end == Ok(StepKinds::none()));
    }
    Ok(())
}

#[test]
fn states_are_read_one_after_the_other(rt: HostRuntime) -> Result<(), Fail> {
    for naming in NAMINGS {
        let end = looked(
            rt.alloc(),
            naming,
            Look::ReadAfter,
            DELETE_AND_INSERT,
            &HELPED,
        );
        assert!(rt; end == Ok(StepKinds::none()));
        let end = looked(
            rt.alloc(),
            naming,
            Look::ReadAfter,
            DELETE_AND_INSERT,
            &OVERTAKEN,
        );
        assert!(rt; end == Ok(StepKinds::none()));
    }
    Ok(())
}

#[test]
fn states_are_read_from_their_labels(rt: HostRuntime) -> Result<(), Fail> {
    for naming in NAMINGS {
        let end = looked(rt.alloc(), naming, Look::Read, DELETE_AND_INSERT, &HELPED);
        assert!(rt; end == Ok(StepKinds::none()));
        let end = looked(
            rt.alloc(),
            naming,
            Look::Read,
            DELETE_AND_INSERT,
            &OVERTAKEN,
        );
        assert!(rt; end == Ok(StepKinds::none()));
    }
    Ok(())
}

#[test]
fn labels_of_steps_are_copied(rt: HostRuntime) -> Result<(), Fail> {
    for naming in NAMINGS {
        let kinds = looked(rt.alloc(), naming, Look::Steps, DELETE_AND_INSERT, &HELPED);
        assert!(rt; kinds == Ok(StepKinds::all()));
        let kinds = looked(
            rt.alloc(),
            naming,
            Look::Steps,
            DELETE_AND_INSERT,
            &OVERTAKEN,
        );
        assert!(rt; kinds == Ok(StepKinds::all()));
    }
    Ok(())
}

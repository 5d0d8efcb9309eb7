//! Forms of states after schedules.
ghost use Rattle.std.specs.Prelude.{IfOk};
ghost use Rattle.tree_machine.specs.Step.{Fits};
ghost use Rattle.natmit.specs.NatMitRules.{natmit_rules};

use crate::machine::labels::{Labelling, label_of};
use crate::on_natmit::follow::{Broken, WHOLE, advance, program_of};
use natmit::{NatMit, NatMitLoc};
use sched_program::Program;
use std::alloc::Global;
use std::test::Fail;
use tree_machine::{Bytes, EncodeBuffer, Naming, State, StateForm, StepFault};

/// Over 10 and 20, T0 inserts 5 and T1 inserts 25.
const TWO_INSERTS: &str =
    r#"{"version":1,"tree":"nm","initial":[10,20],"threads":[[{"op":"insert","key":5}],[{"op":"insert","key":25}]]}"#;

/// `TWO_INSERTS` with the threads the other way round.
const TWO_INSERTS_TURNED: &str =
    r#"{"version":1,"tree":"nm","initial":[10,20],"threads":[[{"op":"insert","key":25}],[{"op":"insert","key":5}]]}"#;

/// The state after the steps of a schedule, from the start of a program.
fn after(
    alloc: Global,
    machine: NatMit,
    program: &Program,
    schedule: &[u8],
) -> Result<State<NatMit>, StepFault>
    ensures { IfOk result (Fits (natmit_rules machine) program.now) }
{
    let mut state = State::start(alloc, machine, program)?;
    for thread in schedule {
        state = advance(alloc, machine, program, state, *thread, 1)?;
    }
    Ok(state)
}

/// Where a run of a program ends.
#[derive(Drop)]
struct End {
    state: State<NatMit>,
    form: StateForm<NatMit>,
}

/// Where the program of a text ends by a schedule. Whoever holds it drops one value, and not each of its lists.
fn end_of(alloc: Global, (text, schedule): (&str, &[u8])) -> Result<Box<End>, Broken> {
    let program = program_of(alloc, text)?;
    let state = after(alloc, WHOLE, &program, schedule)?;
    let form = state.form(alloc, WHOLE)?;
    match Box::new(alloc, End { state, form }) {
        Ok(end) => Ok(end),
        Err(_) => Err(Broken::OutOfMemory),
    }
}

/// The label of the state where the program of a text ends by a schedule.
fn label_at_end(
    alloc: Global,
    (text, schedule): (&str, &[u8]),
    naming: Naming,
) -> Result<Bytes, Broken> {
    let program = program_of(alloc, text)?;
    let state = after(alloc, WHOLE, &program, schedule)?;
    let how = Labelling {
        machine: WHOLE,
        program: &program,
        naming,
    };
    Ok(label_of(alloc, &how, &state, &mut EncodeBuffer::new(alloc))?)
}

/// Whether the labels of the states after two schedules of two programs differ.
fn labels_differ(
    alloc: Global,
    run: (&str, &[u8]),
    other: (&str, &[u8]),
    naming: Naming,
) -> Result<bool, Broken> {
    let label = label_at_end(alloc, run, naming)?;
    let other = label_at_end(alloc, other, naming)?;
    Ok(label != other)
}

/// Whether the states themselves differ, and whether their forms do.
fn ends_differ(
    alloc: Global,
    run: (&str, &[u8]),
    other: (&str, &[u8]),
) -> Result<(bool, bool), Broken> {
    let end = end_of(alloc, run)?;
    let other = end_of(alloc, other)?;
    Ok((end.state != other.state, end.form != other.form))
}

/// What differs of two states.
#[derive(Clone, Copy, Debug, PartialEq, Eq)]
struct Differing {
    states: bool,
    forms: bool,
    own_labels: bool,
    canonical_labels: bool,
}

/// What differs of the states after two schedules of two programs.
fn differ_once(
    alloc: Global,
    run: (&str, &[u8]),
    other: (&str, &[u8]),
) -> Result<Differing, Broken> {
    let (states, forms) = ends_differ(alloc, run, other)?;
    Ok(Differing {
        states,
        forms,
        own_labels: labels_differ(alloc, run, other, Naming::Own)?,
        canonical_labels: labels_differ(alloc, run, other, Naming::Canonical)?,
    })
}

/// Calls `differ_once`, and once more where memory was refused, which happens once at most.
fn differ(alloc: Global, run: (&str, &[u8]), other: (&str, &[u8])) -> Result<Differing, Broken> {
    match differ_once(alloc, run, other) {
        Err(Broken::OutOfMemory) => differ_once(alloc, run, other),
        found => found,
    }
}

// In one of the runs T1 inserts nodes 9 and 10 first, in the other T0.
#[test]
fn the_order_of_two_inserts_changes_numbers_alone(rt: HostRuntime) -> Result<(), Fail> {
    let last_by_one = differ(
        rt.alloc(),
        (TWO_INSERTS, &[0, 0, 0, 1, 1, 1, 0, 1]),
        (TWO_INSERTS, &[0, 0, 0, 1, 1, 1, 1, 0]),
    );
    let numbers_alone = Differing {
        states: true,
        forms: false,
        own_labels: true,
        canonical_labels: false,
    };
    assert!(rt; last_by_one == Ok(numbers_alone));
    Ok(())
}

// T0 is at Put with leaf 5 in the one and with leaf 7 in the other, in equal memories.
#[test]
fn other_nodes_held_by_threads_make_other_forms(rt: HostRuntime) -> Result<(), Fail> {
    let other_leaf = differ(
        rt.alloc(),
        (TWO_INSERTS, &[0, 0, 0]),
        (TWO_INSERTS_TURNED, &[0, 0, 0]),
    );
    let all = Differing {
        states: true,
        forms: true,
        own_labels: true,
        canonical_labels: true,
    };
    assert!(rt; other_leaf == Ok(all));
    Ok(())
}

/// Over 10, T0 deletes 10.
const DELETE: &str =
    r#"{"version":1,"tree":"nm","initial":[10],"threads":[[{"op":"delete","key":10}]]}"#;

/// After its first step T0 is at Down, with ancestor 0, successor and parent 1, and leaf 6.
///
/// The walk begins with nodes 0 and 1. It meets node 2 at node 0, nodes 6 and 4 at node 1, and nodes 5 and 3 at node 6.
/// So the canonical numbers from 1 on are those of nodes 0, 1, 2, 6, 4, 5, 3, and all nodes come before the thread.
const CODE: [u8; 41] = [
    0, // no steps
    1, 1, // one thread, without replies
    1, 1, 16, 0, // one thread, with one note of one count, 0
    0, // none astray
    7, 0, // seven nodes and no record
    72, 102, 0, 2, 3, // node 0: of key 102, over nodes 1 and 2, with no flag or tag
    72, 101, 0, 4, 5, // node 1
    1, 102, // node 2
    72, 100, 0, 6, 7, // node 6
    1, 101, // node 4
    1, 10, // node 5
    1, 100, // node 3
    177, 2, 0, 1, 2, 2, 4, 0, // the thread, without a tag or a leaf of its own
];

/// Whether this is the label of the state where the program of a text ends by a schedule.
fn is_label(
    alloc: Global,
    run: (&str, &[u8]),
    naming: Naming,
    expected: &[u8],
) -> Result<bool, Broken> {
    let label = label_at_end(alloc, run, naming)?;
    Ok(label.as_slice() == expected)
}

/// Calls `is_label`, and once more where memory was refused, which happens once at most.
fn has_label(
    alloc: Global,
    run: (&str, &[u8]),
    naming: Naming,
    expected: &[u8],
) -> Result<bool, Broken> {
    match is_label(alloc, run, naming, expected) {
        Err(Broken::OutOfMemory) => is_label(alloc, run, naming, expected),
        answer => answer,
    }
}

#[test]
fn a_canonical_label_has_nodes_in_the_order_met(rt: HostRuntime) -> Result<(), Fail> {
    let answer = has_label(rt.alloc(), (DELETE, &[0]), Naming::Canonical, &CODE);
    assert!(rt; answer == Ok(true));
    Ok(())
}

/// Over 10, T0 deletes 10, and T1 looks for it.
const DELETE_AND_FIND: &str =
    r#"{"version":1,"tree":"nm","initial":[10],"threads":[[{"op":"delete","key":10}],[{"op":"find","key":10}]]}"#;

/// T1 has come to node 6 when T0 cuts that off with its leaf, node 5: T0 has flagged node 5 and tagged node 3 in node
/// 6, and put node 3 below node 1.
const CUT_OFF: [u8; 8] = [1, 0, 0, 0, 0, 0, 0, 0];

/// The walk from nodes 0 and 1 meets node 2 at node 0, and nodes 3 and 4 at node 1. Behind these nodes comes what the
/// threads hold, and behind that come nodes 6 and 5, which only T1 reaches. So the canonical numbers from 1 on are
/// those of nodes 0, 1, 2, 3, 4, 6, 5.
const HELD_ALONE: [u8; 48] = [
    0, // no steps
    2, 3, 1, // two threads, with the reply yes and with none
    2, 1, 32, 0, 1, 32, 0, // two threads, each with one note of two counts, 0 and 0
    0, // none astray
    5, 0, // five nodes and no record
    72, 102, 0, 2, 3, // node 0: of key 102, over nodes 1 and 2, with no flag or tag
    72, 101, 0, 4, 5, // node 1: over nodes 3 and 4
    1, 102, // node 2
    1, 100, // node 3
    1, 101, // node 4
    0, // T0, which holds nothing
    177, 2, 0, 1, 2, 2, 6, 0, // T1, at Down, with ancestor 0, successor and parent 1, and leaf 6
    2, 0, // two nodes more and no record
    72, 100, 9, 7, 4, // node 6: over nodes 5, flagged, and 3, tagged
    1, 10, // node 5
];

#[test]
fn nodes_that_a_thread_alone_leads_to_stand_last(rt: HostRuntime) -> Result<(), Fail> {
    let run = (DELETE_AND_FIND, CUT_OFF.as_slice());
    let answer = has_label(rt.alloc(), run, Naming::Canonical, &HELD_ALONE);
    assert!(rt; answer == Ok(true));
    Ok(())
}

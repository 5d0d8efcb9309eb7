//! Forms of states that differ in the numbers of nodes and records alone, and of states that differ in more.
ghost use Rattle.std.specs.Prelude.{IfOk};
ghost use Rattle.tree_machine.specs.Step.{Fits};
ghost use Rattle.ellen.specs.EllenRules.{ellen_rules};

use crate::machine::labels::{Labelling, label_of};
use crate::on_ellen::states::{next, program_of, start};
use ellen::{Ellen, EllenLoc, SearchLoc};
use sched_program::{OutOfMemory, Program};
use std::alloc::Global;
use std::test::Fail;
use tree_machine::{Bytes, EncodeBuffer, Naming, State, StateForm, StepFault, Thread};

const WHOLE: Ellen = Ellen {
    mark: true,
    iflag: true,
};

/// Two inserts below different parents.
const INSERTS: &str =
    r#"{"version":1,"tree":"ellen","initial":[20,10,30],"threads":[[{"op":"insert","key":5}],[{"op":"insert","key":40}]]}"#;

/// A key is deleted, inserted again and deleted again while it is looked for.
const DELETES: &str =
    r#"{"version":1,"tree":"ellen","initial":[10],"threads":[[{"op":"delete","key":10},{"op":"insert","key":10},{"op":"delete","key":10}],[{"op":"find","key":10}]]}"#;

/// Stretches of steps, each of one thread: both inserts have searched, and then flag their parents.
const FLAG_IN_ORDER: [(u8, u64); 4] = [(0, 6), (1, 8), (0, 1), (1, 1)];

/// `FLAG_IN_ORDER` with the flags in the other order.
const FLAG_IN_TURN: [(u8, u64); 4] = [(0, 6), (1, 8), (1, 1), (0, 1)];

/// The find has come to the node that the first delete has spliced out since.
const AT_FIRST: [(u8, u64); 2] = [(1, 2), (0, 15)];

/// The find has come to the node that the insert has put in its place.
const AT_SECOND: [(u8, u64); 3] = [(1, 1), (0, 15), (1, 1)];

/// Like `AT_FIRST`, and the second delete has spliced out the node of the insert.
const BEHIND_FIRST: [(u8, u64); 2] = [(1, 2), (0, 25)];

/// Like `AT_SECOND`, and the second delete has spliced out that node.
const BEHIND_SECOND: [(u8, u64); 4] = [(1, 1), (0, 15), (1, 1), (0, 10)];

/// The state after `count` more steps of a thread.
fn more_steps(
    alloc: Global,
    machine: Ellen,
    program: &Program,
    state: Box<State<Ellen>>,
    thread: u8,
    count: u64,
) -> Result<Box<State<Ellen>>, StepFault>
    requires { Fits (ellen_rules machine) program.now state.value }
    ensures { IfOk result (λ state. Fits (ellen_rules machine) program.now state.value) }
{
    let mut state = state;
    for _step in 0..count {
        state = next(alloc, machine, program, &state, thread)?;
    }
    Ok(state)
}

/// The state after stretches of steps from the start, each of one thread.
fn after(
    alloc: Global,
    machine: Ellen,
    program: &Program,
    stretches: &[(u8, u64)],
) -> Result<Box<State<Ellen>>, StepFault>
    ensures { IfOk result (λ state. Fits (ellen_rules machine) program.now state.value) }
{
    let mut state = start(alloc, machine, program)?;
    for (thread, count) in stretches {
        state = more_steps(alloc, machine, program, state, *thread, *count)?;
    }
    Ok(state)
}

/// The state that the program of a text reaches by a schedule.
fn state_of(
    alloc: Global,
    text: &str,
    stretches: &[(u8, u64)],
) -> Result<Box<State<Ellen>>, StepFault> {
    let program = program_of(alloc, text)?;
    after(alloc, WHOLE, &program, stretches)
}

/// The form of a state.
fn form_of(
    alloc: Global,
    machine: Ellen,
    program: &Program,
    state: &State<Ellen>,
) -> Result<Box<StateForm<Ellen>>, OutOfMemory>
    requires { Fits (ellen_rules machine) program.now state.now }
{
    // Whoever reads a program knows that it meets the limits.
    let _ = program.initial();
    Ok(Box::new(alloc, state.form(alloc, machine)?)?)
}

/// The form of the state that the program of a text reaches by a schedule.
fn form_after(
    alloc: Global,
    text: &str,
    stretches: &[(u8, u64)],
) -> Result<Box<StateForm<Ellen>>, StepFault> {
    let program = program_of(alloc, text)?;
    let state = after(alloc, WHOLE, &program, stretches)?;
    Ok(form_of(alloc, WHOLE, &program, &state)?)
}

/// Whether two schedules reach equal states.
fn are_equal(
    alloc: Global,
    text: &str,
    stretches: &[(u8, u64)],
    others: &[(u8, u64)],
) -> Result<bool, StepFault> {
    let left = state_of(alloc, text, stretches)?;
    let right = state_of(alloc, text, others)?;
    Ok(*left == *right)
}

/// Whether two schedules reach states of equal forms.
fn have_equal_forms(
    alloc: Global,
    text: &str,
    stretches: &[(u8, u64)],
    others: &[(u8, u64)],
) -> Result<bool, StepFault> {
    let left = form_after(alloc, text, stretches)?;
    let right = form_after(alloc, text, others)?;
    Ok(*left == *right)
}

/// The label of the state that the program of a text reaches by a schedule.
fn label_at_end(
    alloc: Global,
    text: &str,
    stretches: &[(u8, u64)],
    naming: Naming,
) -> Result<Bytes, StepFault> {
    let program = program_of(alloc, text)?;
    let state = after(alloc, WHOLE, &program, stretches)?;
    let how = Labelling {
        machine: WHOLE,
        program: &program,
        naming,
    };
    Ok(label_of(alloc, &how, &state, &mut EncodeBuffer::new(alloc))?)
}

/// Whether two schedules reach states of equal labels.
fn have_equal_labels(
    alloc: Global,
    text: &str,
    stretches: &[(u8, u64)],
    others: &[(u8, u64)],
    naming: Naming,
) -> Result<bool, StepFault> {
    let left = label_at_end(alloc, text, stretches, naming)?;
    let right = label_at_end(alloc, text, others, naming)?;
    Ok(left == right)
}

/// The parent at which a thread looks for its key, if it does.
fn parent_at(thread: &Thread<EllenLoc>) -> Option<u16> {
    match &thread.place {
        Some(EllenLoc::Search(SearchLoc::Update { parent, .. })) => Some(*parent),
        _ => None,
    }
}

/// The parent at which thread 1 looks for its key after a schedule.
fn parent_of_find(
    alloc: Global,
    text: &str,
    stretches: &[(u8, u64)],
) -> Result<Option<u16>, StepFault> {
    let state = state_of(alloc, text, stretches)?;
    match state.threads.get(1) {
        Some(thread) => Ok(parent_at(thread)),
        None => Ok(None),
    }
}

/// Two schedules of a program, each with the parent at which thread 1 looks for its key then, and whether the states
/// that they reach are equal, with their labels by own numbers, and their forms, with their canonical labels.
struct Pair {
    name: &'static str,
    text: &'static str,
    first: (&'static [(u8, u64)], Option<u16>),
    second: (&'static [(u8, u64)], Option<u16>),
    states: bool,
    forms: bool,
}

static PAIRS: [Pair; 3] = [
    Pair {
        name: "two orders of new nodes and records",
        text: INSERTS,
        first: (&FLAG_IN_ORDER, None),
        second: (&FLAG_IN_TURN, None),
        states: false,
        forms: true,
    },
    Pair {
        name: "a node that is spliced out and still held, and a node of the tree",
        text: DELETES,
        first: (&AT_FIRST, Some(5)),
        second: (&AT_SECOND, Some(8)),
        states: false,
        forms: false,
    },
    // Their records differ: the root's update word has the record of one.
    Pair {
        name: "two nodes that are spliced out, marked by different records",
        text: DELETES,
        first: (&BEHIND_FIRST, Some(5)),
        second: (&BEHIND_SECOND, Some(8)),
        states: false,
        forms: false,
    },
];

/// Whether the states, forms and labels of a pair are as it says.
fn is_right(alloc: Global, pair: &Pair) -> Result<bool, StepFault> {
    let (first, first_parent) = pair.first;
    let (second, second_parent) = pair.second;
    let is_there = parent_of_find(alloc, pair.text, first)? == first_parent;
    let is_there_too = parent_of_find(alloc, pair.text, second)? == second_parent;
    let states = are_equal(alloc, pair.text, first, second)?;
    let forms = have_equal_forms(alloc, pair.text, first, second)?;
    let own = have_equal_labels(alloc, pair.text, first, second, Naming::Own)?;
    let canonical = have_equal_labels(alloc, pair.text, first, second, Naming::Canonical)?;
    let are_states_so = states == pair.states && own == pair.states;
    let are_forms_so = forms == pair.forms && canonical == pair.forms;
    Ok(is_there && is_there_too && are_states_so && are_forms_so)
}

#[test]
fn forms(rt: HostRuntime) -> Result<(), Fail> {
    let alloc = rt.alloc();
    for pair in PAIRS.as_slice() {
        let name = pair.name;
        // One request for memory may be refused.
        let mut answer = is_right(alloc, pair);
        if answer.is_err() {
            answer = is_right(alloc, pair);
        }
        assert!(rt; answer?, "{name}");
    }
    Ok(())
}

/// Over 10, T0 looks for 10.
const FIND: &str =
    r#"{"version":1,"tree":"ellen","initial":[10],"threads":[[{"op":"find","key":10}]]}"#;

/// After its first step T0 is about to read a child of the root, with no node above.
///
/// The walk begins with the root. It meets nodes 5 and 2 there, and nodes 3 and 4 at node 5; nothing reaches node 1.
/// So the canonical numbers from 1 on are those of nodes 0, 5, 2, 3, 4, and all of these come before the thread.
const CODE: [u8; 36] = [
    0, // no steps
    1, 1, // one thread, without replies
    1, 1, 16, 0, // one thread, with one note of one count, 0
    0, // none astray
    5, 0, // five nodes and no record
    102, 102, 0, 2, 3, 0, // node 0: of key 102, over nodes 5 and 2, untouched
    102, 101, 0, 4, 5, 0, // node 5
    1, 102, // node 2
    1, 10, // node 3
    1, 101, // node 4
    133, 1, 0, 0, 0, 1, 0, 0, // the thread
];

/// Whether this is the label of the state that the program of a text reaches by a schedule.
fn is_label(
    alloc: Global,
    text: &str,
    stretches: &[(u8, u64)],
    naming: Naming,
    expected: &[u8],
) -> Result<bool, StepFault> {
    let label = label_at_end(alloc, text, stretches, naming)?;
    Ok(label.as_slice() == expected)
}

#[test]
fn a_canonical_label_has_nodes_in_the_order_met(rt: HostRuntime) -> Result<(), Fail> {
    let naming = Naming::Canonical;
    // One request for memory may be refused.
    let mut answer = is_label(rt.alloc(), FIND, &[(0, 1)], naming, &CODE);
    if answer.is_err() {
        answer = is_label(rt.alloc(), FIND, &[(0, 1)], naming, &CODE);
    }
    assert!(rt; answer?);
    Ok(())
}

/// Over no key, T0 inserts 5.
const INSERT: &str =
    r#"{"version":1,"tree":"ellen","initial":[],"threads":[[{"op":"insert","key":5}]]}"#;

/// After its third step T0 is about to put node 5 below the root, which it has flagged with record 0. Node 5 is of key
/// 101, over the new leaves 3, of key 5, and 4, of key 101. Nodes and records are numbered apart.
const OWN: [u8; 41] = [
    3, // three steps
    1, 1, // one thread, without replies
    1, 1, 16, 0, // one thread, with one note of one count, 0
    0, // none astray
    6, 1, // six nodes and one record
    102, 102, 2, 2, 3, 1, // node 0: of key 102, over nodes 1 and 2, flagged with record 0
    1, 101, // node 1
    1, 102, // node 2
    1, 5, // node 3
    1, 101, // node 4
    102, 101, 0, 4, 5, 0, // node 5: over nodes 3 and 4, untouched
    105, 1, 2, 6, // record 0: of parent 0, leaf 1 and new node 5
    69, 5, 0, 0, 1, 0, 1, // the thread, which carries out record 0 and then is done
];

/// The walk begins with the root. It meets nodes 1 and 2 and the record there, node 5 at the record, and nodes 3 and 4
/// at node 5. So the canonical numbers are, from 1 on, those of nodes 0, 1, 2, 5, 3, 4, and 1 is that of the record
/// too.
const CANONICAL: [u8; 41] = [
    0, // no steps
    1, 1, // one thread, without replies
    1, 1, 16, 0, // one thread, with one note of one count, 0
    0, // none astray
    6, 1, // six nodes and one record
    102, 102, 2, 2, 3, 1, // node 0
    1, 101, // node 1
    1, 102, // node 2
    102, 101, 0, 5, 6, 0, // node 5
    1, 5, // node 3
    1, 101, // node 4
    105, 1, 2, 4, // the record
    69, 5, 0, 0, 1, 0, 1, // the thread
];

/// Whether these are its labels.
fn are_labels(alloc: Global) -> Result<bool, StepFault> {
    let is_own = is_label(alloc, INSERT, &[(0, 3)], Naming::Own, &OWN)?;
    let is_canonical = is_label(alloc, INSERT, &[(0, 3)], Naming::Canonical, &CANONICAL)?;
    Ok(is_own && is_canonical)
}

#[test]
fn nodes_and_records_are_numbered_apart(rt: HostRuntime) -> Result<(), Fail> {
    // One request for memory may be refused.
    let mut answer = are_labels(rt.alloc());
    if answer.is_err() {
        answer = are_labels(rt.alloc());
    }
    assert!(rt; answer?);
    Ok(())
}

//! Parts with stacks and with long lists, and parts that a walk meets level by level.

use crate::machine::broken::{Broken, Case, ensure};
use crate::machine::parts::{Row, Tables, Written, bytes_of, row_of};
use sched_program::OutOfMemory;
use std::alloc::Global;
use tree_machine::{Bytes, Naming};

/// A thread that holds four facts, no node where it has a place for one, record 1, and behind it these records of a
/// stack; with its form, and its code by own numbers.
struct Stack {
    case: Case,
    stack: &'static [u16],
    form: &'static [u8],
    own: &'static [u8],
}

/// The most records of a stack for which the part begins with one byte, and one more. Only the thread reaches the
/// records: in the form they come behind it, with how many nodes and records these are. The thread names record 1
/// first, so record 1 comes before record 0 there, and has number 1. By own numbers record 0 has number 1.
const STACKS: &[Stack] = &[
    Stack {
        case: Case::NoStack,
        stack: &[],
        form: &[1, 0, 36, 9, 0, 69, 1, 2, 3, 4, 0, 1, 0, 1, 36, 8, 1],
        own: &[1, 2, 36, 9, 0, 1, 7, 36, 8, 1, 69, 1, 2, 3, 4, 0, 2],
    },
    Stack {
        case: Case::AStackOfFive,
        stack: &[0, 1, 0, 1, 0],
        form: &[
            1, 0, 36, 9, 0, 219, 1, 2, 3, 4, 0, 1, 2, 1, 2, 1, 2, 0, 2, 36, 8, 1, 1, 7,
        ],
        own: &[
            1, 2, 36, 9, 0, 1, 7, 36, 8, 1, 219, 1, 2, 3, 4, 0, 2, 1, 2, 1, 2, 1,
        ],
    },
    Stack {
        case: Case::AStackOfSix,
        stack: &[0, 1, 0, 1, 0, 1],
        form: &[
            1, 0, 36, 9, 0, 255, 5, 8, 1, 1, 2, 3, 4, 0, 1, 2, 1, 2, 1, 2, 1, 0, 2, 36, 8, 1, 1, 7,
        ],
        own: &[
            1, 2, 36, 9, 0, 1, 7, 36, 8, 1, 255, 5, 8, 1, 1, 2, 3, 4, 0, 2, 1, 2, 1, 2, 1, 2,
        ],
    },
];

/// The bytes of a root, of two records and of a thread with a stack.
fn stack_of(alloc: Global, stack: &'static [u16], written: Written) -> Result<Bytes, OutOfMemory> {
    let held = [Row {
        facts: &[1, 2, 3, 4],
        nodes: &[None],
        records: &[Some(1)],
        stack,
    }];
    bytes_of(
        alloc,
        &Tables {
            fixed: 1,
            nodes: &[row_of(&[9], &[None], &[])],
            records: &[row_of(&[7], &[], &[]), row_of(&[8], &[Some(0)], &[])],
            held: &held,
        },
        written,
    )
}

/// A thread with a stack has the bytes that it is to have.
fn has_bytes(alloc: Global, stack: &Stack) -> Result<(), Broken> {
    let form = stack_of(alloc, stack.stack, Written::Form)?;
    ensure(form.as_slice() == stack.form, stack.case)?;
    let own = stack_of(alloc, stack.stack, Written::Code(Naming::Own))?;
    ensure(own.as_slice() == stack.own, stack.case)
}

fn stacks(alloc: Global) -> Result<(), Broken> {
    for stack in STACKS {
        has_bytes(alloc, stack)?;
    }
    Ok(())
}

#[test]
fn a_stack_stands_behind_the_other_records(rt: HostRuntime) -> Result<(), Broken> {
    match stacks(rt.alloc()) {
        Ok(()) => Ok(()),
        Err(_) => stacks(rt.alloc()),
    }
}

/// Together with the count of nodes that the part names, these are 255 facts.
static FACTS: [u8; 254] = [7; 254];

/// 255 names of record 0.
static STACK: [u16; 255] = [0; 255];

/// What comes before the facts: one node and no record, the root, and the front of a long part: a 255, twice the number
/// 255, which takes two bytes, and no node.
const FRONT: [u8; 9] = [1, 0, 0, 255, 255, 0, 255, 0, 0];

/// What comes behind the names: no node and one record, and that record.
const LEFT: [u8; 4] = [0, 1, 1, 6];

/// The form of a root, and of a thread with the facts and the names above.
fn long_form(alloc: Global) -> Result<Bytes, OutOfMemory> {
    let held = [Row {
        facts: FACTS.as_slice(),
        nodes: &[],
        records: &[],
        stack: STACK.as_slice(),
    }];
    bytes_of(
        alloc,
        &Tables {
            fixed: 1,
            nodes: &[row_of(&[], &[], &[])],
            records: &[row_of(&[6], &[], &[])],
            held: &held,
        },
        Written::Form,
    )
}

/// Whether these are `count` bytes that all equal this one.
fn are_all(bytes: &[u8], byte: u8, count: usize) -> bool {
    bytes.len() == count && bytes.iter().all(|other| *other == byte)
}

/// Whether these are the facts and the names, of the first record.
fn is_long(bytes: &[u8]) -> bool {
    match (bytes.get(..254), bytes.get(254..)) {
        (Some(facts), Some(names)) => are_all(facts, 7, 254) && are_all(names, 1, 255),
        _ => false,
    }
}

fn is_long_form(alloc: Global) -> Result<(), Broken> {
    let form = long_form(alloc)?;
    let is_right = match form.as_slice().strip_prefix(&FRONT) {
        Some(rest) => match rest.strip_suffix(&LEFT) {
            Some(part) => is_long(part),
            None => false,
        },
        None => false,
    };
    ensure(is_right, Case::LongLists)
}

#[test]
fn lists_of_255_are_counted_in_two_bytes(rt: HostRuntime) -> Result<(), Broken> {
    match is_long_form(rt.alloc()) {
        Ok(()) => Ok(()),
        Err(_) => is_long_form(rt.alloc()),
    }
}

/// The form of two threads over five nodes and three records.
///
/// The walk begins with the root. It meets nodes 2 and 1 there, node 3 at node 2, and record 0 at node 1. Then it goes
/// on with the threads. It meets node 4 and record 1 at the first, and none at the second; then record 2 at record 1.
fn level_form(alloc: Global) -> Result<Bytes, OutOfMemory> {
    let nodes = [
        row_of(&[10], &[Some(2), Some(1)], &[]),
        row_of(&[11], &[], &[Some(0)]),
        row_of(&[12], &[Some(3)], &[]),
        row_of(&[13], &[], &[]),
        row_of(&[14], &[Some(0)], &[]),
    ];
    let records = [
        row_of(&[20], &[], &[]),
        row_of(&[21], &[], &[Some(2)]),
        row_of(&[22], &[], &[]),
    ];
    let held = [
        row_of(&[30], &[Some(4)], &[Some(1)]),
        row_of(&[31], &[Some(1)], &[None]),
    ];
    bytes_of(
        alloc,
        &Tables {
            fixed: 1,
            nodes: &nodes,
            records: &records,
            held: &held,
        },
        Written::Form,
    )
}

/// Names: 1 to 5 nodes 0, 2, 1, 3 and 4; 1 to 3 records 0, 1 and 2.
const LEVELS: [u8; 34] = [
    4, 1, // four nodes and one record, to which the root leads
    71, 10, 2, 3, // node 0
    36, 12, 4, // node 2
    31, 11, 1, // node 1
    1, 13, // node 3
    1, 20, // record 0
    66, 30, 5, 2, // the first thread
    66, 31, 3, 0, // the second
    1, 2, // one node and two records, to which the threads alone lead
    36, 14, 1, // node 4
    31, 21, 3, // record 1
    1, 22, // record 2
];

fn is_level_form(alloc: Global) -> Result<(), Broken> {
    let form = level_form(alloc)?;
    ensure(form.as_slice() == LEVELS.as_slice(), Case::Levels)
}

#[test]
fn a_walk_meets_level_by_level(rt: HostRuntime) -> Result<(), Broken> {
    match is_level_form(rt.alloc()) {
        Ok(()) => Ok(()),
        Err(_) => is_level_form(rt.alloc()),
    }
}

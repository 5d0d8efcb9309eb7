//! Nodes and records that only threads reach.

use crate::machine::broken::{Broken, Case, ensure};
use crate::machine::parts::{Tables, Written, bytes_of, row_of};
use sched_program::OutOfMemory;
use std::alloc::Global;
use tree_machine::{Bytes, Naming};

/// A root that names no node, and a thread that holds node 1. Node 1 names node 2, which names the root, and record 1,
/// which names node 2. Nothing reaches node 3 and record 0.
fn held_alone(alloc: Global, written: Written) -> Result<Bytes, OutOfMemory> {
    let nodes = [
        row_of(&[7], &[None], &[]),
        row_of(&[8], &[Some(2)], &[Some(1)]),
        row_of(&[9], &[Some(0)], &[]),
        row_of(&[4], &[Some(1)], &[Some(0)]),
    ];
    let records = [
        row_of(&[3], &[Some(3)], &[Some(1)]),
        row_of(&[], &[Some(2)], &[None]),
    ];
    let held = [row_of(&[2], &[Some(1)], &[])];
    let tables = Tables {
        fixed: 1,
        nodes: &nodes,
        records: &records,
        held: &held,
    };
    bytes_of(alloc, &tables, written)
}

/// Writes the parts of `held_alone` under other numbers, without the node and the record that nothing reaches.
fn turned(alloc: Global, written: Written) -> Result<Bytes, OutOfMemory> {
    let nodes = [
        row_of(&[7], &[None], &[]),
        row_of(&[9], &[Some(0)], &[]),
        row_of(&[8], &[Some(1)], &[Some(0)]),
    ];
    let records = [row_of(&[], &[Some(1)], &[None])];
    let held = [row_of(&[2], &[Some(2)], &[])];
    let tables = Tables {
        fixed: 1,
        nodes: &nodes,
        records: &records,
        held: &held,
    };
    bytes_of(alloc, &tables, written)
}

/// The canonical code of both. Only the root is in front. Behind what the thread holds come the nodes and the record
/// that it reaches, with how many of each there are. They are numbered after those in front: 1 the node of fact 8, 2
/// that of fact 9, and 0 the record.
const CANONICAL: [u8; 20] = [
    1, 0, // one node and no record
    36, 7, 0, // the root
    36, 2, 2, // what the thread holds
    2, 1, // two nodes and one record
    66, 8, 3, 1, // the node that the thread holds
    36, 9, 1, // the other node
    65, 3, 0, // the record
];

/// The code of `turned` by own numbers: all nodes and records are in front.
const OWN: [u8; 18] = [
    3, 1, // three nodes and one record
    36, 7, 0, // the root
    36, 9, 1, // the node of fact 9
    66, 8, 2, 1, // the node that the thread holds
    65, 2, 0, // the record
    36, 2, 3, // what the thread holds
];

/// The codes are the ones above.
fn are_written(alloc: Global) -> Result<(), Broken> {
    let own = turned(alloc, Written::Code(Naming::Own))?;
    ensure(own.as_slice() == OWN.as_slice(), Case::HeldAloneTurned)?;
    for written in [Written::Code(Naming::Canonical), Written::Form] {
        let code = held_alone(alloc, written)?;
        ensure(code.as_slice() == CANONICAL.as_slice(), Case::HeldAlone)?;
        let code = turned(alloc, written)?;
        ensure(
            code.as_slice() == CANONICAL.as_slice(),
            Case::HeldAloneTurned,
        )?;
    }
    Ok(())
}

#[test]
fn what_threads_alone_lead_to_stands_behind_them(rt: HostRuntime) -> Result<(), Broken> {
    match are_written(rt.alloc()) {
        Ok(()) => Ok(()),
        Err(_) => are_written(rt.alloc()),
    }
}

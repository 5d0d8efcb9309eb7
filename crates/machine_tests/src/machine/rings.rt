//! Forms of a few nodes and records.

use crate::machine::broken::{Broken, Case, ensure};
use crate::machine::parts::{Tables, Written, bytes_of, row_of};
use sched_program::OutOfMemory;
use std::alloc::Global;
use tree_machine::{Bytes, Naming};

/// A root of these facts above a ring of a node and a record, which a thread holds. The record of the ring names this
/// record, and the thread this node.
#[derive(Clone, Copy)]
struct Ring {
    case: Case,
    facts: &'static [u8],
    named_record: &'static [Option<u16>],
    named_node: &'static [Option<u16>],
}

const RING: &Ring = &Ring {
    case: Case::TheRing,
    facts: &[255],
    named_record: &[None],
    named_node: &[Some(1)],
};

/// The bytes of a ring, and of a node and a record that nothing names.
fn ring_of(alloc: Global, ring: &Ring, written: Written) -> Result<Bytes, OutOfMemory> {
    let nodes = [
        row_of(ring.facts, &[Some(1), None], &[]),
        row_of(&[254], &[Some(0)], &[Some(0)]),
        row_of(&[255], &[Some(2)], &[Some(1)]),
    ];
    let records = [
        row_of(&[], &[Some(1)], ring.named_record),
        row_of(&[4, 5], &[], &[Some(0)]),
    ];
    let held = [
        row_of(&[2], ring.named_node, &[Some(0)]),
        row_of(&[], &[], &[]),
    ];
    bytes_of(
        alloc,
        &Tables {
            fixed: 1,
            nodes: &nodes,
            records: &records,
            held: &held,
        },
        written,
    )
}

/// The form of `RING`, where its nodes and records come the other way round.
fn turned_ring(alloc: Global) -> Result<Bytes, OutOfMemory> {
    let nodes = [
        row_of(&[255], &[Some(2), None], &[]),
        row_of(&[255], &[Some(1)], &[Some(0)]),
        row_of(&[254], &[Some(0)], &[Some(1)]),
    ];
    let records = [
        row_of(&[4, 5], &[], &[Some(1)]),
        row_of(&[], &[Some(2)], &[None]),
    ];
    let held = [row_of(&[2], &[Some(2)], &[Some(1)]), row_of(&[], &[], &[])];
    bytes_of(
        alloc,
        &Tables {
            fixed: 1,
            nodes: &nodes,
            records: &records,
            held: &held,
        },
        Written::Form,
    )
}

/// The form of both: how many nodes and records are met, and then the nodes, the records and what the threads hold.
///
/// Each part: a byte of how many facts it has, how many nodes it names (times 5), and how many nodes and records (times
/// 30); its facts, where 255 takes the bytes 255 and 0; each node or record as its number and one, or 0 for none.
/// Nodes and records are numbered apart: 0 the root, 1 the node, and 0 the record.
const FORM: [u8; 19] = [
    2, 1, // two nodes and a record
    71, 255, 0, 2, 0, // the root, of fact 255
    66, 254, 1, 1, // the node, of fact 254
    65, 2, 0, // the record
    66, 2, 2, 1, // what the first thread holds
    0, // what the second holds
];

/// All of the same ring, each part with the numbers of what it names and one.
const WHOLE: [u8; 28] = [
    3, 2, // three nodes and two records
    71, 255, 0, 2, 0, // the root
    66, 254, 1, 1, // the node
    66, 255, 0, 3, 2, // the node that nothing names
    65, 2, 0, // the record
    32, 4, 5, 1, // the record that nothing names
    66, 2, 2, 1, // what the first thread holds
    0, // what the second holds
];

/// All of the ring is written as it is here.
fn is_ring_whole(alloc: Global) -> Result<(), Broken> {
    let whole = ring_of(alloc, RING, Written::Code(Naming::Own))?;
    ensure(whole.as_slice() == WHOLE.as_slice(), RING.case)
}

#[test]
fn all_of_the_parts_is_written_by_number(rt: HostRuntime) -> Result<(), Broken> {
    match is_ring_whole(rt.alloc()) {
        Ok(()) => Ok(()),
        Err(_) => is_ring_whole(rt.alloc()),
    }
}

/// The form of a ring is `FORM`, or another one, as is expected.
fn has_form(alloc: Global, ring: &Ring, expected: bool) -> Result<(), Broken> {
    let form = ring_of(alloc, ring, Written::Form)?;
    let is_form = form.as_slice() == FORM.as_slice();
    ensure(form.as_slice().len() > 0 && is_form == expected, ring.case)
}

/// The ring has the same form where its numbers are others.
fn turned_has_form(alloc: Global) -> Result<(), Broken> {
    let form = turned_ring(alloc)?;
    ensure(form.as_slice() == FORM.as_slice(), Case::TheRingTurned)
}

/// The canonical code of the ring is its form.
fn is_code_form(alloc: Global) -> Result<(), Broken> {
    let code = ring_of(alloc, RING, Written::Code(Naming::Canonical))?;
    ensure(code.as_slice() == FORM.as_slice(), RING.case)
}

fn is_ring_one(alloc: Global) -> Result<(), Broken> {
    has_form(alloc, RING, true)?;
    is_code_form(alloc)?;
    turned_has_form(alloc)
}

#[test]
fn names_up_to_numbers_are_equal(rt: HostRuntime) -> Result<(), Broken> {
    match is_ring_one(rt.alloc()) {
        Ok(()) => Ok(()),
        Err(_) => is_ring_one(rt.alloc()),
    }
}

/// Facts in one byte and in two, and more or fewer of them.
const OTHER_FACTS: &[(Case, &[u8])] = &[
    (Case::Fact0, &[0]),
    (Case::Fact1, &[1]),
    (Case::Fact253, &[253]),
    (Case::Fact254, &[254]),
    (Case::Facts255And0, &[255, 0]),
    (Case::Facts255Twice, &[255, 255]),
    (Case::NoFact, &[]),
];

/// A ring of these facts has another form than `RING`.
fn is_another(alloc: Global, case: Case, facts: &'static [u8]) -> Result<(), Broken> {
    let ring = Ring {
        case,
        facts,
        named_record: &[None],
        named_node: &[Some(1)],
    };
    has_form(alloc, &ring, false)
}

fn other_facts(alloc: Global) -> Result<(), Broken> {
    has_form(alloc, RING, true)?;
    for (case, facts) in OTHER_FACTS {
        is_another(alloc, *case, facts)?;
    }
    Ok(())
}

#[test]
fn rings_of_other_facts_have_other_forms(rt: HostRuntime) -> Result<(), Broken> {
    match other_facts(rt.alloc()) {
        Ok(()) => Ok(()),
        Err(_) => other_facts(rt.alloc()),
    }
}

/// One side has a reference, and the other has none or another one.
const OTHER_REFERENCES: &[Ring] = &[
    Ring {
        case: Case::ARecordNamedByTheRecord,
        facts: &[255],
        named_record: &[Some(0)],
        named_node: &[Some(1)],
    },
    Ring {
        case: Case::NoNodeNamedByTheThread,
        facts: &[255],
        named_record: &[None],
        named_node: &[None],
    },
    Ring {
        case: Case::TheRootNamedByTheThread,
        facts: &[255],
        named_record: &[None],
        named_node: &[Some(0)],
    },
];

fn other_references(alloc: Global) -> Result<(), Broken> {
    has_form(alloc, RING, true)?;
    for ring in OTHER_REFERENCES {
        has_form(alloc, ring, false)?;
    }
    Ok(())
}

#[test]
fn rings_of_other_references_have_other_forms(rt: HostRuntime) -> Result<(), Broken> {
    match other_references(rt.alloc()) {
        Ok(()) => Ok(()),
        Err(_) => other_references(rt.alloc()),
    }
}

/// A root with no node or record where it has places for them, and its form.
struct Root {
    case: Case,
    facts: &'static [u8],
    nodes: &'static [Option<u16>],
    records: &'static [Option<u16>],
    bytes: &'static [u8],
}

/// The most for which a part begins with one byte, and one more of each. Behind a byte of 255 come numbers: how many
/// facts, the first of which is how many nodes it names, and how many nodes and records. In front of it all are the
/// counts of one node and no record.
const ROOTS: &[Root] = &[
    Root {
        case: Case::NoFact,
        facts: &[],
        nodes: &[],
        records: &[],
        bytes: &[1, 0, 0],
    },
    Root {
        case: Case::FourFacts,
        facts: &[1, 2, 3, 4],
        nodes: &[None],
        records: &[],
        bytes: &[1, 0, 39, 1, 2, 3, 4, 0],
    },
    Root {
        case: Case::FiveFacts,
        facts: &[1, 2, 3, 4, 5],
        nodes: &[None],
        records: &[],
        bytes: &[1, 0, 255, 6, 1, 1, 1, 2, 3, 4, 5, 0],
    },
    Root {
        case: Case::FiveLargeFacts,
        facts: &[255, 0, 254, 255, 1],
        nodes: &[None],
        records: &[],
        bytes: &[1, 0, 255, 6, 1, 1, 255, 0, 0, 254, 255, 0, 1, 0],
    },
    Root {
        case: Case::FiveNodes,
        facts: &[9],
        nodes: &[None, None, None, None, None],
        records: &[],
        bytes: &[1, 0, 176, 9, 0, 0, 0, 0, 0],
    },
    Root {
        case: Case::SixNodes,
        facts: &[9],
        nodes: &[None, None, None, None, None, None],
        records: &[],
        bytes: &[1, 0, 255, 2, 6, 6, 9, 0, 0, 0, 0, 0, 0],
    },
    Root {
        case: Case::ThreeNodesAndFourRecords,
        facts: &[],
        nodes: &[None, None, None],
        records: &[None, None, None, None],
        bytes: &[1, 0, 225, 0, 0, 0, 0, 0, 0, 0],
    },
    Root {
        case: Case::ThreeNodesAndFiveRecords,
        facts: &[],
        nodes: &[None, None, None],
        records: &[None, None, None, None, None],
        bytes: &[1, 0, 255, 1, 8, 3, 0, 0, 0, 0, 0, 0, 0, 0],
    },
    Root {
        case: Case::FourLargeFacts,
        facts: &[255, 255, 255, 255],
        nodes: &[None, None, None],
        records: &[None, None, None, None],
        bytes: &[
            1, 0, 229, 255, 0, 255, 0, 255, 0, 255, 0, 0, 0, 0, 0, 0, 0, 0,
        ],
    },
];

/// A root has the form that it is to have.
fn has_bytes(alloc: Global, root: &Root) -> Result<(), Broken> {
    let form = bytes_of(
        alloc,
        &Tables {
            fixed: 1,
            nodes: &[row_of(root.facts, root.nodes, root.records)],
            records: &[],
            held: &[],
        },
        Written::Form,
    )?;
    ensure(form.as_slice() == root.bytes, root.case)
}

fn roots(alloc: Global) -> Result<(), Broken> {
    for root in ROOTS {
        has_bytes(alloc, root)?;
    }
    Ok(())
}

#[test]
fn a_small_part_begins_with_one_byte(rt: HostRuntime) -> Result<(), Broken> {
    match roots(rt.alloc()) {
        Ok(()) => Ok(()),
        Err(_) => roots(rt.alloc()),
    }
}

//! Memories of as many nodes, records and threads as bytes can name, and of more.

use crate::machine::broken::{Broken, Case, ensure};
use crate::machine::parts::{Row, Tables, Written, bytes_of, row_of};
use sched_program::OutOfMemory;
use std::alloc::Global;
use tree_machine::{Bytes, Naming};

/// How many nodes there are, all of them fixed, how many records, which nothing reaches, and how many threads. If they
/// are not refused, the counts of nodes and of records in front of their code by own numbers, and of their form.
struct Crowd {
    case: Case,
    nodes: usize,
    records: usize,
    threads: usize,
    own: Option<(u8, u8)>,
    form: Option<(u8, u8)>,
}

/// Own numbers count nodes and records separately. A walk numbers nodes, records and threads together.
const CROWDS: &[Crowd] = &[
    Crowd {
        case: Case::Nodes253,
        nodes: 253,
        records: 0,
        threads: 0,
        own: Some((253, 0)),
        form: Some((253, 0)),
    },
    Crowd {
        case: Case::Nodes254,
        nodes: 254,
        records: 0,
        threads: 0,
        own: None,
        form: None,
    },
    Crowd {
        case: Case::Nodes300,
        nodes: 300,
        records: 0,
        threads: 0,
        own: None,
        form: None,
    },
    Crowd {
        case: Case::Records53,
        nodes: 200,
        records: 53,
        threads: 0,
        own: Some((200, 53)),
        form: Some((200, 0)),
    },
    Crowd {
        case: Case::Records54,
        nodes: 200,
        records: 54,
        threads: 0,
        own: Some((200, 54)),
        form: None,
    },
    Crowd {
        case: Case::Records253,
        nodes: 2,
        records: 253,
        threads: 1,
        own: Some((2, 253)),
        form: None,
    },
    Crowd {
        case: Case::Records254,
        nodes: 2,
        records: 254,
        threads: 1,
        own: None,
        form: None,
    },
    Crowd {
        case: Case::Threads4,
        nodes: 240,
        records: 9,
        threads: 4,
        own: Some((240, 9)),
        form: Some((240, 0)),
    },
    Crowd {
        case: Case::OneMoreThanWithThreads,
        nodes: 240,
        records: 10,
        threads: 4,
        own: Some((240, 10)),
        form: None,
    },
];

/// The first `count` of these parts, or all of them if there are fewer.
fn first_of(leaves: &[Row], count: usize) -> &[Row] {
    match leaves.get(..count) {
        Some(rows) => rows,
        None => leaves,
    }
}

/// The bytes of a crowd, or none where they are refused.
fn bytes_unless_refused(
    alloc: Global,
    leaves: &[Row],
    crowd: &Crowd,
    written: Written,
) -> Option<Bytes> {
    let tables = Tables {
        fixed: crowd.nodes,
        nodes: first_of(leaves, crowd.nodes),
        records: first_of(leaves, crowd.records),
        held: first_of(leaves, crowd.threads),
    };
    match bytes_of(alloc, &tables, written) {
        Ok(bytes) => Some(bytes),
        Err(OutOfMemory) => None,
    }
}

/// Whether bytes begin with these two numbers, with two bytes behind them for each node, each record and each of these
/// threads.
fn is_counted(bytes: &[u8], (nodes, records): (u8, u8), threads: usize) -> bool {
    let count = nodes as usize + records as usize;
    threads <= 4 && bytes.len() == 2 + 2 * (count + threads) && bytes.starts_with(&[nodes, records])
}

/// A crowd has bytes with these two numbers in front, or is refused, as is expected.
fn is_written(
    alloc: Global,
    leaves: &[Row],
    crowd: &Crowd,
    written: Written,
    expected: Option<(u8, u8)>,
) -> Result<(), Broken> {
    let is_right = match (
        bytes_unless_refused(alloc, leaves, crowd, written),
        expected,
    ) {
        (Some(bytes), Some(counts)) => is_counted(bytes.as_slice(), counts, crowd.threads),
        (None, None) => true,
        _ => false,
    };
    ensure(is_right, crowd.case)
}

/// 300 parts of one fact each: no crowd has more of a kind.
fn leaves_of(alloc: Global) -> Result<Vec<Row>, OutOfMemory> {
    let mut leaves = Vec::new(alloc);
    for _leaf in 0..300 {
        leaves.push(row_of(&[7], &[], &[]))?;
    }
    Ok(leaves)
}

fn crowds(alloc: Global) -> Result<(), Broken> {
    let leaves = leaves_of(alloc)?;
    for crowd in CROWDS {
        let own = Written::Code(Naming::Own);
        let canonical = Written::Code(Naming::Canonical);
        is_written(alloc, &leaves, crowd, own, crowd.own)?;
        is_written(alloc, &leaves, crowd, canonical, crowd.form)?;
        is_written(alloc, &leaves, crowd, Written::Form, crowd.form)?;
    }
    Ok(())
}

#[test]
fn more_than_bytes_can_name_is_refused(rt: HostRuntime) -> Result<(), Broken> {
    match crowds(rt.alloc()) {
        Ok(()) => Ok(()),
        Err(_) => crowds(rt.alloc()),
    }
}

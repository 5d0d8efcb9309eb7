//! Where the bytes in front end among those of a memory with what a thread holds.
ghost use Rattle.std.specs.Prelude.{◌≡◌};

use crate::on_ellen::small_tree::small_tree;
use ellen::{Ellen, EllenLoc, Node, SearchLoc};
use sched_program::{OutOfMemory, ShortList};
use std::alloc::Global;
use std::process::Abort;
use std::test::Fail;
use tree_machine::{Encode, EncodeBuffer, Front, Machine, Naming, Replies, Thread};

const WHOLE: Ellen = Ellen {
    mark: true,
    iflag: true,
};

/// The root over two leaves, of the keys 101 and 102, and a thread that begins its search.
static BYTES: [u8; 18] = [
    3, 0, 102, 102, 0, 2, 3, 0, 1, 101, 1, 102, 102, 0, 0, 0, 1, 0,
];

/// The memory of `BYTES`, and a thread that has come to an internal node of key 50 over leaves of keys 10 and 50. The
/// root does not reach these three, so they come behind the thread.
static CUT_OFF: [u8; 30] = [
    3, 0, 102, 102, 0, 2, 3, 0, 1, 101, 1, 102, 102, 0, 0, 0, 4, 0, 3, 0, 102, 50, 0, 5, 6, 0, 1,
    10, 1, 50,
];

/// A thread that holds this place and has done nothing.
fn holding(place: Option<EllenLoc>) -> Thread<EllenLoc>
    ensures { result.place ≡ place }
{
    Thread {
        replies: Replies::new(),
        place,
        notes: ShortList::new(),
    }
}

/// A front with these numbers of nodes and records.
fn front_of(nodes: u16, records: u16) -> Front
    ensures nodes { result.nodes ≡ nodes }
    ensures records { result.records ≡ records }
{
    Front { nodes, records }
}

/// How many bytes come in front of what the thread holds, and the front, if all bytes are read.
fn front_in(alloc: Global, bytes: &[u8]) -> Result<Option<(usize, Front)>, OutOfMemory> {
    let mut memory = WHOLE.build(alloc, &[10])?;
    let Some((front, rest)) = WHOLE.read_front(bytes, &mut memory)? else {
        return Ok(None);
    };
    let mut threads = [holding(None)];
    if WHOLE.read_behind(alloc, rest, front, &mut memory, &mut threads)? {
        Ok(Some((bytes.len() - rest.len(), front)))
    } else {
        Ok(None)
    }
}

/// Whether the other bytes alone are written for what the thread holds, behind those in front.
fn is_rest_written(alloc: Global) -> Result<bool, OutOfMemory> {
    let memory = small_tree(alloc, 1, 101)?;
    let begun = SearchLoc::Update {
        above: None,
        parent: 0,
    };
    let threads = [holding(Some(EllenLoc::Search(begun)))];
    let mut buffer = EncodeBuffer::new(alloc);
    let front = front_of(3, 1);
    WHOLE.write_behind(alloc, Naming::Own, front, &memory, &threads, &mut buffer)?;
    Ok(buffer.as_slice() == &BYTES[12..])
}

/// Whether what the thread holds is read from these alone, and from no others.
fn is_rest_read(alloc: Global) -> Result<bool, OutOfMemory> {
    let mut memory = small_tree(alloc, 1, 101)?;
    let begun = SearchLoc::Update {
        above: None,
        parent: 0,
    };
    let mut threads = [holding(None)];
    let front = front_of(3, 1);
    let is_read = WHOLE.read_behind(alloc, &BYTES[12..], front, &mut memory, &mut threads)?;
    let is_placed = threads[0].place == Some(EllenLoc::Search(begun));
    let is_kept = memory == small_tree(alloc, 1, 101)?;
    let is_cut = WHOLE.read_behind(alloc, &BYTES[12..17], front, &mut memory, &mut threads)?;
    Ok(is_read && is_placed && is_kept && !is_cut)
}

/// Whether the nodes behind the thread are read in the place of the record that is not in front.
fn is_left_read(alloc: Global) -> Result<bool, OutOfMemory> {
    let mut memory = small_tree(alloc, 1, 101)?;
    let mut threads = [holding(None)];
    let front = front_of(3, 0);
    let is_read = WHOLE.read_behind(alloc, &CUT_OFF[12..], front, &mut memory, &mut threads)?;
    let is_left = memory.nodes.len() == 6 && memory.records.len() == 0;
    let is_leaf = memory.nodes.get(4) == Some(&Node::Leaf { key: 10 });
    Ok(is_read && is_left && is_leaf)
}

/// Runs all of the cases above.
fn all(rt: &impl Abort, alloc: Global) -> Result<(), OutOfMemory> {
    assert!(rt; front_in(alloc, BYTES.as_slice())? == Some((12, front_of(3, 0))));
    assert!(rt; front_in(alloc, CUT_OFF.as_slice())? == Some((12, front_of(3, 0))));
    assert!(rt; is_rest_written(alloc)?);
    assert!(rt; is_rest_read(alloc)?);
    assert!(rt; is_left_read(alloc)?);
    Ok(())
}

#[test]
fn the_bytes_of_a_memory_stand_first(rt: HostRuntime) -> Result<(), Fail> {
    // One request for memory may be refused.
    if all(&rt, rt.alloc()).is_err() {
        all(&rt, rt.alloc())?;
    }
    Ok(())
}

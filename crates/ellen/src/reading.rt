//! A memory and the places that threads hold, read back from their code where each number is one byte.
ghost use Rattle.std.specs.Prelude.{◌≡◌, ◌++◌, take, IfOk, IfSome, IsTrue};
ghost use Rattle.tree_machine.specs.Alike.{places_of, replies_of, notes_of};
ghost use Rattle.ellen.specs.Parts.{ellen_behind_code, ellen_front_code};

mod graph;
mod held;
mod help;
mod search;
mod words;

use crate::memory::EllenMem;
use crate::place::EllenLoc;
use crate::reading::graph::{read_graph, read_left};
use crate::reading::held::read_each;
use sched_program::{OutOfMemory, Sequence};
use std::alloc::Global;
use tree_machine::{Front, Thread};

/// Drops all but the first values of a list.
#[inline(always)]
fn keep_first<T: Drop>(list: &mut Sequence<T>, count: usize)
    ensures { list.new ≡ take count list.old }
{
    list.as_mut_vec().truncate(count);
}

/// Reads the place that each thread holds, and what is left of the memory behind a front, which stays.
pub(crate) fn read_behind(
    alloc: Global,
    bytes: &[u8],
    front: Front,
    memory: &mut EllenMem,
    threads: &mut [Thread<EllenLoc>],
) -> Result<bool, OutOfMemory>
    ensures read { IfOk result (λ read. IsTrue read
        → bytes.now ≡ ellen_behind_code front memory.new (places_of threads.new)) }
    ensures front { IfOk result (λ read. IsTrue read
        → ellen_front_code front memory.new ≡ ellen_front_code front memory.old) }
    ensures replies { replies_of threads.new ≡ replies_of threads.old }
    ensures notes { notes_of threads.new ≡ notes_of threads.old }
{
    let Some(rest) = read_each(alloc, bytes, threads)? else {
        return Ok(false);
    };
    let nodes = usize::from(front.nodes);
    let records = usize::from(front.records);
    if memory.nodes.len() < nodes || memory.records.len() < records {
        return Ok(false);
    }
    keep_first(&mut memory.nodes, nodes);
    keep_first(&mut memory.records, records);
    read_left(rest, memory)
}

/// Reads what comes in front in the code of a memory, into this one, and reuses its buffers where they are large
/// enough. It returns the front, and the bytes behind it.
pub(crate) fn read_front<'a>(
    bytes: &'a [u8],
    memory: &mut EllenMem,
) -> Result<Option<(Front, &'a [u8])>, OutOfMemory>
    ensures { IfOk result (λ read. IfSome read
        (λ (front, rest). bytes.now ≡ ellen_front_code front memory.new ++ rest.now)) }
{
    keep_first(&mut memory.nodes, 0);
    keep_first(&mut memory.records, 0);
    read_graph(bytes, memory)
}

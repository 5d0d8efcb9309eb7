//! The initial memory.
ghost use Rattle.std.specs.Prelude.{◌≡◌, IfOk, OnErr};
ghost use Rattle.ellen.specs.Initial.{empty_tree, put_in, initial_memory};

use crate::memory::{EllenMem, Node, UpdateWord, key_in};
use sched_program::{OutOfMemory, Sequence};
use std::alloc::Global;
use tree_machine::{search_end, side_of};

/// The root, over the two greatest sentinels.
fn empty_tree(alloc: Global) -> Result<EllenMem, OutOfMemory>
    ensures { IfOk result (λ memory. memory ≡ empty_tree) }
{
    let root = Node::Internal {
        key: 102,
        update: UpdateWord::Untouched,
        left: 1,
        right: 2,
    };
    let nodes = vec![in alloc; root, Node::Leaf { key: 101 }, Node::Leaf { key: 102 }]?;
    Ok(EllenMem {
        nodes: Sequence::from_vec(nodes),
        records: Sequence::new(alloc),
    })
}

/// Inserts a key: a new internal node takes the place of the leaf that a search for the key
/// reaches.
fn put_in(alloc: Global, memory: &mut EllenMem, key: u8) -> Result<(), OutOfMemory>
    ensures ok { IfOk result (λ _. memory.new ≡ put_in memory.old key) }
    ensures err { OnErr result (memory.new ≡ memory.old) }
{
    let end = search_end(memory, key, memory.nodes.len());
    let side = side_of(key, key_in(memory.node(end.parent)));
    let new = memory.add_internal(alloc, key, end.leaf)?;
    memory.set_child(end.parent, side, new);
    Ok(())
}

/// The memory with these keys, inserted in this order.
pub fn build(alloc: Global, initial: &[u8]) -> Result<EllenMem, OutOfMemory>
    ensures { IfOk result (λ memory. memory ≡ initial_memory initial.now) }
{
    let mut memory = empty_tree(alloc)?;
    for key in initial {
        put_in(alloc, &mut memory, *key)?;
    }
    Ok(memory)
}

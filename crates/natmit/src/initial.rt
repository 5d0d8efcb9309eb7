//! The initial memory.
ghost use Rattle.std.specs.Prelude.{◌≡◌, IfOk};
ghost use Rattle.natmit.specs.Initial.{empty_tree, put_in, initial_memory};

use crate::memory::{NatMitMem, Node, plain};
use sched_program::{OutOfMemory, Sequence};
use std::alloc::Global;
use tree_machine::search_end;

/// The root, node 1, and three leaves of keys above all that programs name.
fn empty_tree(alloc: Global) -> Result<NatMitMem, OutOfMemory>
    ensures { IfOk result (λ memory. memory ≡ empty_tree) }
{
    let nodes = vec![in alloc;
        Node::Internal {
            key: 102,
            left: plain(1),
            right: plain(2),
        },
        Node::Internal {
            key: 101,
            left: plain(3),
            right: plain(4),
        },
        Node::Leaf { key: 102 },
        Node::Leaf { key: 100 },
        Node::Leaf { key: 101 },
    ]?;
    Ok(NatMitMem {
        nodes: Sequence::from_vec(nodes),
    })
}

/// Inserts a key at the leaf that a search for it reaches.
fn put_in(mem: &mut NatMitMem, key: u8) -> Result<(), OutOfMemory>
    ensures { IfOk result (λ _. mem.new ≡ put_in mem.old key) }
{
    let end = search_end(mem, key, mem.nodes.len());
    mem.put_at(key, end.parent, end.leaf)
}

/// The memory with these keys, inserted in this order.
pub(crate) fn build(alloc: Global, initial: &[u8]) -> Result<NatMitMem, OutOfMemory>
    ensures { IfOk result (λ memory. memory ≡ initial_memory initial.now) }
{
    let mut mem = empty_tree(alloc)?;
    for key in initial {
        put_in(&mut mem, *key)?;
    }
    Ok(mem)
}

//! A memory of three nodes and one record.
ghost use Rattle.std.specs.Prelude.{◌≡◌, ◌<◌, length, IfOk};
ghost use Rattle.ellen.specs.Range.{IsInRange};

use ellen::{DeleteRecord, EllenMem, Node, Record, UpdateWord};
use sched_program::{OutOfMemory, Sequence};
use std::alloc::Global;

/// The root over a left child and the greatest sentinel, a leaf of this key, and the record of a delete of that leaf
/// for which the root is parent and grandparent.
pub fn small_tree(alloc: Global, left: u16, key: u8) -> Result<EllenMem, OutOfMemory>
    requires { left < 3 }
    ensures in_range { IfOk result IsInRange }
    ensures nodes { IfOk result (λ memory. length memory.nodes ≡ 3) }
    ensures records { IfOk result (λ memory. length memory.records ≡ 1) }
{
    let root = Node::Internal {
        key: 102,
        update: UpdateWord::Untouched,
        left,
        right: 2,
    };
    let nodes = vec![in alloc; root, Node::Leaf { key }, Node::Leaf { key: 102 }]?;
    let record = Record::Del(DeleteRecord {
        grandparent: 0,
        parent: 0,
        leaf: 1,
        parent_update: UpdateWord::Untouched,
    });
    let records = vec![in alloc; record]?;
    Ok(EllenMem {
        nodes: Sequence::from_vec(nodes),
        records: Sequence::from_vec(records),
    })
}

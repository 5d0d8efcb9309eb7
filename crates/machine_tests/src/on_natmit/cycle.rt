//! A memory of two nodes.
ghost use Rattle.std.specs.Prelude.{◌≡◌, ◌∷◌, [], IfOk};
ghost use Rattle.natmit.specs.Memory.{plain};
ghost use Rattle.natmit.specs.declared.memory.Node.TheVariants as node;

use natmit::{NatMitMem, Node, Word};
use sched_program::{OutOfMemory, Sequence};
use std::alloc::Global;

/// The word of a child without flag and tag.
fn plain(node: u16) -> Word
    ensures { result ≡ plain node }
{
    Word {
        flag: false,
        tag: false,
        node,
    }
}

/// A memory whose two nodes are each other's children.
pub fn cycle(alloc: Global) -> Result<NatMitMem, OutOfMemory>
    ensures { IfOk result (λ memory. memory.nodes ≡ node.Internal 50 (plain 1) (plain 1) ∷ node.Internal 40 (plain 0) (plain 0) ∷ []) }
{
    let nodes = vec![in alloc;
        Node::Internal {
            key: 50,
            left: plain(1),
            right: plain(1),
        },
        Node::Internal {
            key: 40,
            left: plain(0),
            right: plain(0),
        },
    ]?;
    Ok(NatMitMem {
        nodes: Sequence::from_vec(nodes),
    })
}

//! The machine at memories of its own and at memories that no run reaches.
ghost use Rattle.std.specs.Prelude.{◌<◌, length};
ghost use Rattle.ellen.specs.Range.{IsInRange, IsPlaceIn};
ghost use Rattle.ellen.specs.declared.place.EllenLoc.TheVariants.{Search};

use crate::on_ellen::small_tree::small_tree;
use ellen::{Base, Ellen, EllenLoc, EllenMem, HelpLoc, Node, Resume, SearchLoc, UpdateWord};
use sched_program::{Op, OutOfMemory, Sequence};
use std::alloc::Global;
use std::process::Abort;
use std::test::Fail;
use tree_machine::{Machine, Outcome};

const WHOLE: Ellen = Ellen {
    mark: true,
    iflag: true,
};

/// Whether a small tree keeps search order.
fn is_ordered(alloc: Global, left: u16, key: u8) -> Result<bool, OutOfMemory>
    requires { left < 3 }
{
    let memory = small_tree(alloc, left, key)?;
    Ok(WHOLE.ordered(&memory))
}

/// Search order where the root is its own child, where two leaves have one key, and where it is kept.
fn orders(rt: &impl Abort, alloc: Global) -> Result<(), OutOfMemory> {
    assert!(rt; !is_ordered(alloc, 0, 101)?);
    assert!(rt; !is_ordered(alloc, 1, 102)?);
    assert!(rt; !is_ordered(alloc, 2, 101)?);
    assert!(rt; is_ordered(alloc, 1, 101)?);
    Ok(())
}

/// The nodes of a tree with the initial key 10.
static OVER_ONE_KEY: [Node; 6] = [
    Node::Internal {
        key: 102,
        update: UpdateWord::Untouched,
        left: 5,
        right: 2,
    },
    Node::Leaf { key: 101 },
    Node::Leaf { key: 102 },
    Node::Leaf { key: 10 },
    Node::Leaf { key: 101 },
    Node::Internal {
        key: 101,
        update: UpdateWord::Untouched,
        left: 3,
        right: 4,
    },
];

/// Whether these are the nodes over one key, and no record.
fn is_over_one_key(memory: &EllenMem) -> bool {
    memory.nodes.as_slice() == OVER_ONE_KEY.as_slice() && memory.records.len() == 0
}

/// The memory with one initial key.
fn one_key(rt: &impl Abort, alloc: Global) -> Result<(), OutOfMemory> {
    let memory = WHOLE.build(alloc, &[10])?;
    assert!(rt; is_over_one_key(&memory));
    assert!(rt; WHOLE.ordered(&memory));
    Ok(())
}

/// What comes of an access, without the place at which the operation goes on.
fn outcome_of(
    alloc: Global,
    op: Op,
    place: &EllenLoc,
    memory: &mut EllenMem,
) -> Result<Outcome<()>, OutOfMemory>
    requires memory_in_range { IsInRange memory.old }
    requires place_in_range { IsPlaceIn (length memory.old.nodes) (length memory.old.records) place.now }
{
    match WHOLE.act(alloc, op, place, memory)? {
        Outcome::Goes(_) => Ok(Outcome::Goes(())),
        Outcome::Replies(reply) => Ok(Outcome::Replies(reply)),
        Outcome::Astray => Ok(Outcome::Astray),
    }
}

/// Whether a memory is the small tree over the key 10.
fn is_small_tree(alloc: Global, memory: &EllenMem) -> Result<bool, OutOfMemory> {
    let expected = small_tree(alloc, 1, 10)?;
    Ok(*memory == expected)
}

/// Whether an access goes astray and leaves the memory as it was.
fn goes_astray(alloc: Global, op: Op, place: &EllenLoc) -> Result<bool, OutOfMemory>
    requires { IsPlaceIn 3 1 place.now }
{
    let mut memory = small_tree(alloc, 1, 10)?;
    match outcome_of(alloc, op, place, &mut memory)? {
        Outcome::Astray => is_small_tree(alloc, &memory),
        _ => Ok(false),
    }
}

/// Whether an access at a place of a search goes astray and leaves the memory as it was.
fn search_goes_astray(alloc: Global, op: Op, at: SearchLoc) -> Result<bool, OutOfMemory>
    requires { IsPlaceIn 3 1 (Search at) }
{
    goes_astray(alloc, op, &EllenLoc::Search(at))
}

/// A delete with no grandparent, and nodes that are leaves.
fn strays(rt: &impl Abort, alloc: Global) -> Result<(), OutOfMemory> {
    let update = UpdateWord::Untouched;
    let above = None;
    let child = SearchLoc::Child {
        above,
        parent: 0,
        update,
    };
    assert!(rt; search_goes_astray(alloc, Op::Delete(10), child)?);
    let leaf_update = SearchLoc::Update { above, parent: 1 };
    assert!(rt; search_goes_astray(alloc, Op::Delete(10), leaf_update)?);
    let leaf_flag = SearchLoc::IFlag {
        parent: 1,
        update,
        leaf: 2,
    };
    assert!(rt; search_goes_astray(alloc, Op::Insert(5), leaf_flag)?);
    Ok(())
}

/// A record of another kind.
fn strays_in_help(rt: &impl Abort, alloc: Global) -> Result<(), OutOfMemory> {
    let resume = Resume {
        stack: Sequence::new(alloc),
        base: Base::Insert,
    };
    let help = EllenLoc::Help(HelpLoc::InsChild(0), resume);
    assert!(rt; goes_astray(alloc, Op::Insert(5), &help)?);
    Ok(())
}

/// The new internal node that has the key of its leaf.
const OVER_EQUAL_KEYS: Node = Node::Internal {
    key: 10,
    update: UpdateWord::Untouched,
    left: 4,
    right: 3,
};

/// Inserts the key of the leaf of a small tree. Whether the reply is that it was inserted, and the new node is
/// `OVER_EQUAL_KEYS`.
fn puts_equal_key(alloc: Global) -> Result<bool, OutOfMemory> {
    let mut memory = small_tree(alloc, 1, 10)?;
    let place = EllenLoc::Search(SearchLoc::InsOnly { parent: 0, leaf: 1 });
    let outcome = outcome_of(alloc, Op::Insert(10), &place, &mut memory)?;
    Ok(match (outcome, memory.nodes.get(5)) {
        (Outcome::Replies(true), Some(new)) => *new == OVER_EQUAL_KEYS,
        _ => false,
    })
}

/// A new internal node for the key of its leaf.
fn equal_keys(rt: &impl Abort, alloc: Global) -> Result<(), OutOfMemory> {
    assert!(rt; puts_equal_key(alloc)?);
    Ok(())
}

/// Runs all of the cases above.
fn all(rt: &impl Abort, alloc: Global) -> Result<(), OutOfMemory> {
    orders(rt, alloc)?;
    one_key(rt, alloc)?;
    strays(rt, alloc)?;
    strays_in_help(rt, alloc)?;
    equal_keys(rt, alloc)
}

#[test]
fn memories(rt: HostRuntime) -> Result<(), Fail> {
    // One request for memory may be refused.
    if all(&rt, rt.alloc()).is_err() {
        all(&rt, rt.alloc())?;
    }
    Ok(())
}

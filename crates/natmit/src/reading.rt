//! Decodes memories, and the places that threads hold, where the nodes are so few that each number is one byte. Where a
//! reader returns a value, the bytes it got are those of that value, with the bytes it returns behind them.
ghost use Rattle.std.specs.Prelude.{◌≡◌, ◌<◌, ◌++◌, ◌∷◌, [], List, map, length, IsTrue, IfSome, IfOk};
ghost use Rattle.tree_machine.specs.Alike.{places_of, replies_of, notes_of};
ghost use Rattle.tree_machine.specs.Flat.{cell_code, graph_code, left_code, part_content};
ghost use Rattle.natmit.specs.Parts.{mark_number, node_part, natmit_behind_code, natmit_front_code};
ghost use Rattle.natmit.specs.declared.memory.Node.{Node};

mod bytes;
mod place;

use crate::memory::{NatMitMem, Node, Word};
use crate::place::NatMitLoc;
use crate::reading::bytes::name_of;
use crate::reading::place::read_places;
use sched_program::OutOfMemory;
use tree_machine::{CodedPart, Front, Thread, read_values};

/// The child word of a flag and a tag that are one number, and of a node.
#[inline(always)]
fn word_of(marks: u64, node: u16) -> Word
    requires { marks < 4 }
    ensures marks { mark_number result ≡ marks }
    ensures node { result.node ≡ node }
{
    Word {
        flag: marks % 2 == 1,
        tag: marks >= 2,
        node,
    }
}

/// The internal node of these bytes behind its first one, if there is one.
#[inline(always)]
fn internal_of(key: u8, marks: u8, left: u8, right: u8) -> Option<Node>
    ensures { IfSome result (λ node. cell_code (part_content (node_part node))
        ≡ 72 ∷ key ∷ marks ∷ left ∷ right ∷ []) }
{
    let left = name_of(left)?;
    let right = name_of(right)?;
    let marks = u64::from(marks);
    if key < 255 && marks < 16 {
        let left = word_of(marks % 4, left);
        let right = word_of(marks / 4, right);
        Some(Node::Internal { key, left, right })
    } else {
        None
    }
}

impl CodedPart for Node {
    ghost part = { node_part };

    #[inline(always)]
    fn read(bytes: &[u8]) -> Option<(Node, &[u8])> {
        match bytes {
            [1, key, rest @ ..] if *key < 255 => Some((Node::Leaf { key: *key }, rest)),
            [72, key, marks, left, right, rest @ ..] => {
                let node = internal_of(*key, *marks, *left, *right)?;
                Some((node, rest))
            }
            _ => None,
        }
    }
}

/// Reads how many nodes there are, that there is no record, and the nodes, which it appends to a list. It returns the
/// bytes behind them, and the number of nodes.
fn read_graph<'a>(
    bytes: &'a [u8],
    nodes: &mut Vec<Node>,
) -> Result<Option<(&'a [u8], u8)>, OutOfMemory>
    ensures { IfOk result (λ read. IfSome read (λ (rest, count). (more : List Node)
        × (nodes.new.items ≡ nodes.old.items ++ more) × (length more ≡ count)
        × (bytes.now ≡ graph_code (map node_part more) [] ++ rest.now))) }
{
    match bytes {
        [count, 0, rest @ ..] if *count < 255 => match read_values(rest, *count, nodes)? {
            Some(behind) => Ok(Some((behind, *count))),
            None => Ok(None),
        },
        _ => Ok(None),
    }
}

/// Reads what is left of the nodes behind what the threads hold, if some are left. It returns whether all bytes were
/// read.
fn read_left(bytes: &[u8], nodes: &mut Vec<Node>) -> Result<bool, OutOfMemory>
    ensures { IfOk result (λ read. IsTrue read → (more : List Node)
        × (nodes.new.items ≡ nodes.old.items ++ more) × (bytes.now ≡ left_code (map node_part more) [])) }
{
    if bytes.is_empty() {
        return Ok(true);
    }
    match read_graph(bytes, nodes)? {
        Some((rest, count)) if count > 0 => Ok(rest.is_empty()),
        _ => Ok(false),
    }
}

/// Reads what each thread holds, and what is left of the memory behind the nodes of the front, which stay.
pub(crate) fn read_behind(
    bytes: &[u8],
    front: Front,
    mem: &mut NatMitMem,
    threads: &mut [Thread<NatMitLoc>],
) -> Result<bool, OutOfMemory>
    ensures read { IfOk result (λ read. IsTrue read
        → bytes.now ≡ natmit_behind_code front mem.new (places_of threads.new)) }
    ensures front { IfOk result (λ read. IsTrue read
        → natmit_front_code front mem.new ≡ natmit_front_code front mem.old) }
    ensures replies { replies_of threads.new ≡ replies_of threads.old }
    ensures notes { notes_of threads.new ≡ notes_of threads.old }
{
    let Some(rest) = read_places(bytes, threads) else {
        return Ok(false);
    };
    let nodes = mem.nodes.as_mut_vec();
    if nodes.len() < usize::from(front.nodes) {
        return Ok(false);
    }
    nodes.truncate(usize::from(front.nodes));
    read_left(rest, nodes)
}

/// Reads what comes in front in the code of a memory, into this one, and reuses its buffer where it is large enough. It
/// returns the front, and the bytes behind it.
pub(crate) fn read_front<'a>(
    bytes: &'a [u8],
    mem: &mut NatMitMem,
) -> Result<Option<(Front, &'a [u8])>, OutOfMemory>
    ensures { IfOk result (λ read. IfSome read
        (λ (front, rest). bytes.now ≡ natmit_front_code front mem.new ++ rest.now)) }
{
    let nodes = mem.nodes.as_mut_vec();
    nodes.clear();
    let Some((rest, count)) = read_graph(bytes, nodes)? else {
        return Ok(None);
    };
    let front = Front {
        nodes: u16::from(count),
        records: 0,
    };
    Ok(Some((front, rest)))
}

//! The nodes and the records of a memory read back from their bytes, where each number is one byte.
ghost use Rattle.std.specs.Prelude.{◌≡◌, ◌++◌, ◌∷◌, [], List, length, map, IsTrue, IfSome, IfOk};
ghost use Rattle.tree_machine.specs.Flat.{cell_code, graph_code, left_code, part_codes, part_content};
ghost use Rattle.ellen.specs.Parts.{node_part, record_part};
ghost use Rattle.ellen.specs.declared.memory.Node.{Node};
ghost use Rattle.ellen.specs.declared.memory.Record.{Record};

use crate::memory::{DeleteRecord, EllenMem, InsertRecord, Node, Record};
use crate::reading::words::{name_of, word_of};
use sched_program::{OutOfMemory, Sequence};
use tree_machine::{CodedPart, Front, read_values};

/// The internal node of these bytes behind its first one, if there is one.
#[inline(always)]
fn internal_of(key: u8, kind: u8, left: u8, right: u8, named: u8) -> Option<Node>
    ensures { IfSome result (λ node. cell_code (part_content (node_part node))
        ≡ 102 ∷ key ∷ kind ∷ left ∷ right ∷ named ∷ []) }
{
    let update = word_of(kind, named)?;
    let left = name_of(left)?;
    let right = name_of(right)?;
    if key < 255 {
        Some(Node::Internal {
            key,
            update,
            left,
            right,
        })
    } else {
        None
    }
}

impl CodedPart for Node {
    ghost part = { node_part };

    #[inline(always)]
    fn read(bytes: &[u8]) -> Option<(Node, &[u8])> {
        match bytes {
            [1, key, rest @ ..] if *key < 255 => Some((Node::Leaf { key: *key }, rest)),
            [102, key, kind, left, right, named, rest @ ..] => {
                let node = internal_of(*key, *kind, *left, *right, *named)?;
                Some((node, rest))
            }
            _ => None,
        }
    }
}

/// The record of an insert that these bytes name behind its first one, if they name one.
#[inline(always)]
fn insert_named(parent: u8, leaf: u8, new: u8) -> Option<Record>
    ensures { IfSome result (λ kept. cell_code (part_content (record_part kept))
        ≡ 105 ∷ parent ∷ leaf ∷ new ∷ []) }
{
    let parent = name_of(parent)?;
    let leaf = name_of(leaf)?;
    let new = name_of(new)?;
    Some(Record::Ins(InsertRecord { parent, leaf, new }))
}

/// The record of a delete that these bytes name behind its first one, if they name one.
#[inline(always)]
fn delete_named(kind: u8, grandparent: u8, parent: u8, leaf: u8, named: u8) -> Option<Record>
    ensures { IfSome result (λ kept. cell_code (part_content (record_part kept))
        ≡ 136 ∷ kind ∷ grandparent ∷ parent ∷ leaf ∷ named ∷ []) }
{
    let parent_update = word_of(kind, named)?;
    let grandparent = name_of(grandparent)?;
    let parent = name_of(parent)?;
    let leaf = name_of(leaf)?;
    Some(Record::Del(DeleteRecord {
        grandparent,
        parent,
        leaf,
        parent_update,
    }))
}

impl CodedPart for Record {
    ghost part = { record_part };

    #[inline(always)]
    fn read(bytes: &[u8]) -> Option<(Record, &[u8])> {
        match bytes {
            [105, parent, leaf, new, rest @ ..] => {
                let kept = insert_named(*parent, *leaf, *new)?;
                Some((kept, rest))
            }
            [136, kind, grandparent, parent, leaf, named, rest @ ..] => {
                let kept = delete_named(*kind, *grandparent, *parent, *leaf, *named)?;
                Some((kept, rest))
            }
            _ => None,
        }
    }
}

/// Reads values, appends them to a list, and returns the bytes behind them.
#[inline(always)]
fn read_more<'a, V: CodedPart>(
    bytes: &'a [u8],
    count: u8,
    list: &mut Sequence<V>,
) -> Result<Option<&'a [u8]>, OutOfMemory>
    ensures { IfOk result (λ read. IfSome read (λ rest. (more : List V)
        × (list.new ≡ list.old ++ more) × (length more ≡ count)
        × (bytes.now ≡ part_codes (map V.part more) ++ rest.now))) }
{
    read_values(bytes, count, list.as_mut_vec())
}

/// Reads how many nodes and records there are, and all of them, which it appends to those of a memory. It returns the
/// two counts, and the bytes behind.
pub(crate) fn read_graph<'a>(
    bytes: &'a [u8],
    memory: &mut EllenMem,
) -> Result<Option<(Front, &'a [u8])>, OutOfMemory>
    ensures { IfOk result (λ read. IfSome read (λ (front, rest).
        (more : List Node) × (others : List Record)
        × (memory.new.nodes ≡ memory.old.nodes ++ more) × (length more ≡ front.nodes)
        × (memory.new.records ≡ memory.old.records ++ others) × (length others ≡ front.records)
        × (bytes.now ≡ graph_code (map node_part more) (map record_part others) ++ rest.now))) }
{
    let [node_count @ 0..=254, record_count @ 0..=254, rest @ ..] = bytes else {
        return Ok(None);
    };
    let front = Front {
        nodes: u16::from(*node_count),
        records: u16::from(*record_count),
    };
    let Some(behind) = read_more(rest, *node_count, &mut memory.nodes)? else {
        return Ok(None);
    };
    match read_more(behind, *record_count, &mut memory.records)? {
        Some(rest) => Ok(Some((front, rest))),
        None => Ok(None),
    }
}

/// Reads what is left of the nodes and the records behind what the threads hold, if some are left. It returns whether
/// all bytes were read.
pub(crate) fn read_left(bytes: &[u8], memory: &mut EllenMem) -> Result<bool, OutOfMemory>
    ensures { IfOk result (λ read. IsTrue read → (more : List Node) × (others : List Record)
        × (memory.new.nodes ≡ memory.old.nodes ++ more) × (memory.new.records ≡ memory.old.records ++ others)
        × (bytes.now ≡ left_code (map node_part more) (map record_part others))) }
{
    if bytes.is_empty() {
        return Ok(true);
    }
    match read_graph(bytes, memory)? {
        Some((front, rest)) => Ok((front.nodes > 0 || front.records > 0) && rest.is_empty()),
        None => Ok(false),
    }
}

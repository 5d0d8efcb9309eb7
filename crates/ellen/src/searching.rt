//! The rows of the table at which an operation searches, and those of its first write.
ghost use Rattle.std.specs.Prelude.{◌≡◌, IfOk, OnErr, Some};
ghost use Rattle.sched_program.specs.Program.{key_of};
ghost use Rattle.sched_program.specs.declared.operation.Op.TheVariants as op_of;
ghost use Rattle.ellen.specs.declared.place.SearchLoc.TheVariants as place;
ghost use Rattle.ellen.specs.Memory.{is_clean};
ghost use Rattle.ellen.specs.Table.{search_act, flagging, decide};

use crate::helping::{Access, first_place, help_first, marking, with_base};
use crate::machine::Ellen;
use crate::memory::{
    DeleteRecord, EllenMem, Node, Record, UpdateWord, child_on, is_word, key_in, update_of,
};
use crate::place::{Above, Base, EllenLoc, HelpLoc, SearchLoc};
use sched_program::{Op, OutOfMemory};
use std::alloc::Global;
use tree_machine::{Outcome, short_number_of, side_of};

/// The place that flags the parent of an insert, or the one that writes without a flag.
fn flagging(machine: Ellen, parent: Above, leaf: u16) -> SearchLoc
    ensures { result ≡ flagging machine parent leaf }
{
    if machine.iflag {
        SearchLoc::IFlag {
            parent: parent.node,
            update: parent.update,
            leaf,
        }
    } else {
        SearchLoc::InsOnly {
            parent: parent.node,
            leaf,
        }
    }
}

fn is_clean(word: UpdateWord) -> bool
    ensures { result ≡ is_clean word }
{
    match word {
        UpdateWord::Untouched | UpdateWord::Clean(_) => true,
        _ => false,
    }
}

/// What a delete does at a leaf with its key, below a parent that has one above it.
fn decide_delete(
    alloc: Global,
    machine: Ellen,
    above: Above,
    parent: Above,
    leaf: u16,
    key: u8,
) -> Access
    ensures { IfOk result (λ outcome. outcome ≡ decide machine (op_of.Delete key) (Some above) parent leaf key) }
{
    if !is_clean(above.update) {
        return help_first(alloc, machine, above.update);
    }
    if !is_clean(parent.update) {
        return help_first(alloc, machine, parent.update);
    }
    Ok(Outcome::Goes(EllenLoc::Search(SearchLoc::DFlag {
        above,
        parent: parent.node,
        update: parent.update,
        leaf,
    })))
}

/// What an operation does at a leaf.
fn decide(
    alloc: Global,
    machine: Ellen,
    op: Op,
    above: Option<Above>,
    parent: Above,
    leaf: u16,
    key: u8,
) -> Access
    ensures { IfOk result (λ outcome. outcome ≡ decide machine op above parent leaf key) }
{
    match op {
        Op::Find(wanted) => Ok(Outcome::Replies(key == wanted)),
        Op::Insert(wanted) => {
            if key == wanted {
                Ok(Outcome::Replies(false))
            } else if is_clean(parent.update) {
                let at = flagging(machine, parent, leaf);
                Ok(Outcome::Goes(EllenLoc::Search(at)))
            } else {
                help_first(alloc, machine, parent.update)
            }
        }
        Op::Delete(wanted) => {
            if key != wanted {
                return Ok(Outcome::Replies(false));
            }
            match above {
                Some(above) => decide_delete(alloc, machine, above, parent, leaf, key),
                None => Ok(Outcome::Astray),
            }
        }
    }
}

fn update_row(
    machine: Ellen,
    op: Op,
    mem: &EllenMem,
    above: Option<Above>,
    parent: u16,
) -> Outcome<EllenLoc>
    ensures { search_act machine op (place.Update above parent) mem.now ≡ (mem.now, result) }
{
    match update_of(mem.node(parent)) {
        Some(update) => Outcome::Goes(EllenLoc::Search(SearchLoc::Child {
            above,
            parent,
            update,
        })),
        None => Outcome::Astray,
    }
}

fn child_row(
    alloc: Global,
    machine: Ellen,
    op: Op,
    mem: &EllenMem,
    above: Option<Above>,
    parent: Above,
) -> Access
    ensures { IfOk result (λ outcome. search_act machine op (place.Child above parent.node parent.update) mem.now
        ≡ (mem.now, outcome)) }
{
    let node = mem.node(parent.node);
    let Some(child) = child_on(side_of(op.key(), key_in(node)), node) else {
        return Ok(Outcome::Astray);
    };
    match mem.node(child) {
        Node::Internal { .. } => Ok(Outcome::Goes(EllenLoc::Search(SearchLoc::Update {
            above: Some(parent),
            parent: child,
        }))),
        Node::Leaf { key } => decide(alloc, machine, op, above, parent, child, key),
    }
}

fn insert_flag_row(
    alloc: Global,
    machine: Ellen,
    op: Op,
    mem: &mut EllenMem,
    parent: u16,
    update: UpdateWord,
    leaf: u16,
) -> Access
    ensures ok { IfOk result (λ outcome. search_act machine op (place.IFlag parent update leaf) mem.old
        ≡ (mem.new, outcome)) }
    ensures err { OnErr result (mem.new ≡ mem.old) }
{
    let Some(found) = update_of(mem.node(parent)) else {
        return Ok(Outcome::Astray);
    };
    if !is_word(found, update) {
        return help_first(alloc, machine, found);
    }
    let record = short_number_of(mem.records.len())?;
    mem.add_insert(alloc, op.key(), parent, leaf)?;
    mem.set_update(parent, UpdateWord::InsertFlag(record));
    let resume = with_base(alloc, Base::Insert);
    Ok(Outcome::Goes(EllenLoc::Help(HelpLoc::InsChild(record), resume)))
}

fn insert_only_row(
    alloc: Global,
    machine: Ellen,
    op: Op,
    mem: &mut EllenMem,
    parent: u16,
    leaf: u16,
) -> Access
    ensures ok { IfOk result (λ outcome. search_act machine op (place.InsOnly parent leaf) mem.old
        ≡ (mem.new, outcome)) }
    ensures err { OnErr result (mem.new ≡ mem.old) }
{
    let key = op.key();
    let side = mem.side_of_new(parent, key, leaf);
    let Some(child) = child_on(side, mem.node(parent)) else {
        return Ok(Outcome::Astray);
    };
    if child != leaf {
        return Ok(Outcome::Goes(first_place()));
    }
    let new = mem.add_internal(alloc, key, leaf)?;
    mem.set_child(parent, side, new);
    Ok(Outcome::Replies(true))
}

fn delete_flag_row(
    alloc: Global,
    machine: Ellen,
    op: Op,
    mem: &mut EllenMem,
    above: Above,
    parent: Above,
    leaf: u16,
) -> Access
    ensures ok { IfOk result (λ outcome.
        search_act machine op (place.DFlag above parent.node parent.update leaf) mem.old ≡ (mem.new, outcome)) }
    ensures err { OnErr result (mem.new ≡ mem.old) }
{
    let Some(found) = update_of(mem.node(above.node)) else {
        return Ok(Outcome::Astray);
    };
    if !is_word(found, above.update) {
        return help_first(alloc, machine, found);
    }
    let record = short_number_of(mem.records.len())?;
    mem.add_record(Record::Del(DeleteRecord {
        grandparent: above.node,
        parent: parent.node,
        leaf,
        parent_update: parent.update,
    }))?;
    mem.set_update(above.node, UpdateWord::DeleteFlag(record));
    let resume = with_base(alloc, Base::Delete);
    Ok(Outcome::Goes(EllenLoc::Help(marking(machine, record), resume)))
}

/// One access at a place that searches, or of an operation's first write.
pub fn search_act(
    alloc: Global,
    machine: Ellen,
    op: Op,
    at: SearchLoc,
    mem: &mut EllenMem,
) -> Access
    ensures ok { IfOk result (λ outcome. search_act machine op at mem.old ≡ (mem.new, outcome)) }
    ensures err { OnErr result (mem.new ≡ mem.old) }
{
    match at {
        SearchLoc::Update { above, parent } => Ok(update_row(machine, op, mem, above, parent)),
        SearchLoc::Child {
            above,
            parent,
            update,
        } => {
            let parent = Above {
                node: parent,
                update,
            };
            child_row(alloc, machine, op, mem, above, parent)
        }
        SearchLoc::IFlag {
            parent,
            update,
            leaf,
        } => insert_flag_row(alloc, machine, op, mem, parent, update, leaf),
        SearchLoc::InsOnly { parent, leaf } => insert_only_row(
            alloc, machine, op, mem, parent, leaf,
        ),
        SearchLoc::DFlag {
            above,
            parent,
            update,
            leaf,
        } => {
            let parent = Above {
                node: parent,
                update,
            };
            delete_flag_row(alloc, machine, op, mem, above, parent, leaf)
        }
    }
}

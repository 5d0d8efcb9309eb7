//! The searcher that builds orders place by place. It calls nothing of `lin`.

use sched_program::{History, Op, OpId, OutOfMemory, Program};
use std::alloc::Global;

/// The first linearization in the order of lists, or None where there is none.
pub fn judge_pruned(
    alloc: Global,
    program: &Program,
    history: &History,
) -> Result<Option<Vec<OpId>>, OutOfMemory> {
    let mut order = Vec::new(alloc);
    if complete(program, history, &mut order, history.begun().len())? {
        Ok(Some(order))
    } else {
        Ok(None)
    }
}

/// Completes the list to a linearization by at most `left` operations, if that is possible.
fn complete(
    program: &Program,
    history: &History,
    order: &mut Vec<OpId>,
    left: usize,
) -> Result<bool, OutOfMemory> {
    if lists_every_finished(history, order) {
        return Ok(true);
    }
    if left == 0 {
        return Ok(false);
    }
    for (name, _) in history.begun() {
        if may_stand_next(program, history, order, *name) {
            order.push(*name)?;
            if complete(program, history, order, left - 1)? {
                return Ok(true);
            }
            order.pop();
        }
    }
    Ok(false)
}

fn lists_every_finished(history: &History, order: &[OpId]) -> bool {
    for (name, _) in history.finished() {
        if !order.contains(name) {
            return false;
        }
    }
    true
}

/// Whether an operation that began may come after those of the list.
fn may_stand_next(program: &Program, history: &History, order: &[OpId], name: OpId) -> bool {
    !order.contains(&name)
        && !ended_before(history, name, name)
        && !is_late(history, order, name)
        && !is_early(history, order, name)
        && is_explained(program, history, order, name)
}

/// Whether it ended before an operation of the list began.
fn is_late(history: &History, order: &[OpId], name: OpId) -> bool {
    for earlier in order {
        if ended_before(history, name, *earlier) {
            return true;
        }
    }
    false
}

/// Whether a finished operation that is missing from the list ended before it began.
fn is_early(history: &History, order: &[OpId], name: OpId) -> bool {
    for (other, _) in history.finished() {
        if !order.contains(other) && ended_before(history, *other, name) {
            return true;
        }
    }
    false
}

/// Whether the note of the second counts the first.
fn ended_before(history: &History, first: OpId, second: OpId) -> bool {
    for (name, note) in history.begun() {
        if *name == second {
            let count = note.get(usize::from(first.thread)).unwrap_or(0);
            return first.index < count;
        }
    }
    false
}

/// Whether it is pending, or replied what the operations of the list leave it to reply.
fn is_explained(program: &Program, history: &History, order: &[OpId], name: OpId) -> bool {
    for (finished, reply) in history.finished() {
        if *finished == name {
            return *reply == reply_after(program, order, name);
        }
    }
    true
}

/// What an operation replies after those of the list.
fn reply_after(program: &Program, order: &[OpId], name: OpId) -> bool {
    match program.op(name) {
        Some(Op::Insert(key)) => !is_present(program, order, key),
        Some(Op::Delete(key) | Op::Find(key)) => is_present(program, order, key),
        None => false,
    }
}

/// Whether a key is in the tree after the operations of the list.
fn is_present(program: &Program, order: &[OpId], key: u8) -> bool {
    let mut present = program.initial().contains(&key);
    for name in order {
        match program.op(*name) {
            Some(Op::Insert(other)) if other == key => present = true,
            Some(Op::Delete(other)) if other == key => present = false,
            _ => {}
        }
    }
    present
}

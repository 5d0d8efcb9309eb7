//! The searcher that tries every list of begun operations.

use lin::check_order;
use sched_program::{History, OpId, OutOfMemory, Program};
use std::alloc::Global;

/// The first linearization in the order of lists, or None where there is none.
pub fn judge_plain(
    alloc: Global,
    program: &Program,
    history: &History,
) -> Result<Option<Vec<OpId>>, OutOfMemory> {
    let mut order = Vec::new(alloc);
    if extend(program, history, &mut order, history.begun().len())? {
        Ok(Some(order))
    } else {
        Ok(None)
    }
}

/// Extends the list to a linearization by at most `left` operations, if one begins with it.
fn extend(
    program: &Program,
    history: &History,
    order: &mut Vec<OpId>,
    left: usize,
) -> Result<bool, OutOfMemory> {
    if check_order(program, history, order) {
        return Ok(true);
    }
    if left == 0 {
        return Ok(false);
    }
    for (name, _) in history.begun() {
        if !order.contains(name) {
            order.push(*name)?;
            if extend(program, history, order, left - 1)? {
                return Ok(true);
            }
            order.pop();
        }
    }
    Ok(false)
}

//! The search for a linearization.
//!
//! It builds an order place by place (Wing and Gong, "Testing and verifying concurrent objects", 1993) and keeps the
//! configurations from which it failed (Lowe, "Testing for linearizability", 2017).

ghost use Rattle.std.specs.Prelude.{◌≡◌, ◌++◌, List, MatchBool, All, OnOk, IfOk, IfSome, IfNone};
ghost use Rattle.sched_program.specs.Program.{IsWithinLimits};
ghost use Rattle.lin.specs.KeySet.{keys_in};
ghost use Rattle.lin.specs.OpSet.{operations_in};
ghost use Rattle.lin.specs.Progress.{AreBarred};
ghost use Rattle.lin.specs.Configuration.{IsHopelessAt};
ghost use Rattle.lin.specs.Linearization.{IsLinearization, IsLinearizable};
ghost use Rattle.lin.specs.Completion.{listed_in, Completes, IsHopeless};

use crate::key_set::KeySet;
use crate::op_set::OpSet;
use crate::progress::{Configuration, Progress, step};
use crate::timeline::Timeline;
use sched_program::{History, OpId, OutOfMemory, Program};
use std::alloc::Global;
use std::collections::HashSet;

/// A linearization of the history, or None.
///
/// Where there are several it is the first in the order of lists: names are compared place by place, by thread and then
/// by index, and a list that ends comes before those that go on. The only error is that memory was refused.
pub fn judge(
    alloc: Global,
    program: &Program,
    history: &History,
) -> Result<Option<Vec<OpId>>, OutOfMemory>
    ensures found { IfOk result
        (λ answer. IfSome answer (λ order. IsLinearization program.now history.now order.items)) }
    ensures none { IfOk result (λ answer. IfNone answer (¬ IsLinearizable program.now history.now)) }
{
    let (answer, _) = judge_counted(alloc, program, history)?;
    Ok(answer)
}

/// The answer of `judge`, and how many times continuations of a configuration were sought.
pub fn judge_counted(
    alloc: Global,
    program: &Program,
    history: &History,
) -> Result<(Option<Vec<OpId>>, u64), OutOfMemory>
    ensures found { IfOk result (λ r. IfSome r.0 (λ order. IsLinearization program.now history.now order.items)) }
    ensures none { IfOk result (λ r. IfNone r.0 (¬ IsLinearizable program.now history.now)) }
{
    let timeline = Timeline::new(history);
    let start = Progress {
        at: Configuration {
            listed: OpSet::empty(),
            keys: KeySet::of(program.initial()),
        },
        barred: OpSet::empty(),
    };
    let mut order = Vec::with_capacity(alloc, history.begun().len())?;
    let mut failed = HashSet::new(alloc);
    let mut sought = 0;
    if complete(
        program,
        &timeline,
        start,
        &mut order,
        &mut failed,
        &mut sought,
    )? {
        Ok((Some(order), sought))
    } else {
        Ok((None, sought))
    }
}

/// Completes the list, with which the search has come so far, to a linearization, if that is possible.
fn complete(
    program: &Program,
    timeline: &Timeline,
    from: Progress,
    order: &mut Vec<OpId>,
    failed: &mut HashSet<Configuration>,
    sought: &mut u64,
) -> Result<bool, OutOfMemory>
    requires limits { IsWithinLimits program.now }
    requires listed { operations_in from.at.listed ≡ listed_in order.old.items }
    requires barred { AreBarred timeline.now (operations_in from.at.listed) (operations_in from.barred) }
    requires failed { All (IsHopelessAt program.now timeline.now) failed.old.keys }
    ensures answer { IfOk result (λ found. MatchBool found
        ((rest : List OpId) × (order.new.items ≡ order.old.items ++ rest)
        × Completes program.now timeline.now (listed_in order.old.items) (keys_in from.at.keys) rest)
        ((order.new.items ≡ order.old.items)
        × IsHopeless program.now timeline.now (listed_in order.old.items) (keys_in from.at.keys))) }
    ensures failed { OnOk result (All (IsHopelessAt program.now timeline.now) failed.new.keys) }
{
    if timeline.finished().is_within(from.at.listed) {
        return Ok(true);
    }
    if failed.contains(&from.at) {
        return Ok(false);
    }
    *sought = sought.saturating_add(1);
    for (name, _) in timeline.begun() {
        if let Some(next) = step(program, timeline, from, *name) {
            order.push(*name)?;
            if complete(program, timeline, next, order, failed, sought)? {
                return Ok(true);
            }
            order.pop();
        }
    }
    failed.insert(from.at)?;
    Ok(false)
}

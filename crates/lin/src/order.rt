//! The definition of a linearization, decided for a given list.

ghost use Rattle.std.specs.Prelude.{◌≡◌, ◌↔◌, IsTrue, true, All, MatchBool, MatchOption};
ghost use Rattle.sched_program.specs.Program.{IsWithinLimits};
ghost use Rattle.lin.specs.Keys.{Keys};
ghost use Rattle.lin.specs.KeySet.{keys_in};
ghost use Rattle.sched_program.specs.History.{EndedBefore};
ghost use Rattle.lin.specs.Linearization.{IsLinearization};
ghost use Rattle.lin.specs.Completion.{listed_in, with_name, StandsNext};

use crate::history::ended_before;
use crate::key_set::KeySet;
use sched_program::{History, OpId, Program, value_of};

/// Whether the list is a linearization of the history. It takes no memory, and any list may be asked about.
pub fn check_order(program: &Program, history: &History, order: &[OpId]) -> bool
    ensures { IsTrue result ↔ IsLinearization program.now history.now order.now }
{
    let mut keys = KeySet::of(program.initial());
    for (i, name) in order.iter().enumerate() {
        match keys_after_next(program, history, &order[..i], keys, *name) {
            Some(next) => keys = next,
            None => return false,
        }
    }
    lists_every_finished(history, order)
}

/// The keys after this operation, if it may come next.
fn keys_after_next(
    program: &Program,
    history: &History,
    listed: &[OpId],
    keys: KeySet,
    name: OpId,
) -> Option<KeySet>
    requires { IsWithinLimits program.now }
    ensures { MatchOption result
        ((next : Keys) → StandsNext program.now history.now (listed_in listed.now) (keys_in keys) name next → ⊥)
        (λ next. StandsNext program.now history.now (listed_in listed.now) (keys_in keys) name (keys_in next)) }
{
    if value_of(history.begun(), name).is_none()
        || lists(listed, name)
        || ended_before_any(history, name, listed)
    {
        return None;
    }
    let operation = program.op(name)?;
    let stated = keys.reply_to(operation);
    match value_of(history.finished(), name) {
        Some(reply) if reply != stated => None,
        _ => Some(keys.after(operation)),
    }
}

/// Whether the operation ended before itself or one that is listed began.
fn ended_before_any(history: &History, name: OpId, listed: &[OpId]) -> bool
    ensures { MatchBool result
        ((b : OpId) × (with_name (listed_in listed.now) name b ≡ true) × EndedBefore history.now name b)
        ((b : OpId) → with_name (listed_in listed.now) name b ≡ true → EndedBefore history.now name b → ⊥) }
{
    if ended_before(history, name, name) {
        return true;
    }
    for other in listed {
        if ended_before(history, name, *other) {
            return true;
        }
    }
    false
}

/// Whether an operation is listed.
fn lists(listed: &[OpId], name: OpId) -> bool
    ensures { result ≡ listed_in listed.now name }
{
    listed.contains(&name)
}

/// Whether every finished operation is listed.
fn lists_every_finished(history: &History, listed: &[OpId]) -> bool
    ensures { IsTrue result ↔ All (λ e. listed_in listed.now e.0 ≡ true) history.now.finished }
{
    history
        .finished()
        .iter()
        .all(|(name, _)| lists(listed, *name))
}

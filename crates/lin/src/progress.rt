//! How far a search for a linearization has come.

ghost use Rattle.std.specs.Prelude.{◌≡◌, ◌∷◌, ◌↔◌, List, MatchBool, MatchOption, IfSome, false, true};
ghost use Rattle.sched_program.specs.declared.operation.OpId.{OpId as Name};
ghost use Rattle.sched_program.specs.Program.{Program as Programs, IsWithinLimits};
ghost use Rattle.sched_program.specs.History.{IsBegun, EndedBefore};
ghost use Rattle.lin.specs.Keys.{Keys};
ghost use Rattle.lin.specs.KeySet.{keys_in};
ghost use Rattle.lin.specs.OpSet.{operations_in};
ghost use Rattle.lin.specs.Timeline.{HasPlace};
ghost use Rattle.lin.specs.Completion.{with_name, StandsNext, Completes};
ghost use Rattle.lin.specs.Progress.{AreBarred};

use crate::key_set::KeySet;
use crate::op_set::OpSet;
use crate::timeline::Timeline;
use sched_program::{OpId, Program};

/// The operations listed, and the keys after them.
#[derive(Clone, Copy, PartialEq, Eq, Hash)]
pub struct Configuration {
    pub listed: OpSet,
    pub keys: KeySet,
}

/// What a search has come to: a configuration, and the operations that ended before a listed one began.
#[derive(Clone, Copy)]
pub struct Progress {
    pub at: Configuration,
    pub barred: OpSet,
}

/// Whether an operation may come next, as far as time goes: it is not listed, it ended neither before itself nor before
/// a listed one began, and no finished operation that is missing ended before it began.
fn is_due(timeline: &Timeline, from: Progress, name: OpId, before: OpSet) -> bool
    requires barred { AreBarred timeline.now (operations_in from.at.listed) (operations_in from.barred) }
    requires before { (a : Name) → HasPlace a → (operations_in before a ≡ true) ↔ EndedBefore timeline.now a name }
    requires place { HasPlace name }
    ensures { MatchBool result
        ((operations_in from.at.listed name ≡ false)
        × ((b : Name) → with_name (operations_in from.at.listed) name b ≡ true → EndedBefore timeline.now name b → ⊥))
        ((program : Programs) (keys : Keys) (rest : List Name)
        → Completes program timeline.now (operations_in from.at.listed) keys (name ∷ rest) → ⊥) }
{
    !from
        .at
        .listed
        .union(from.barred)
        .union(before)
        .contains(name)
        && before
            .intersection(timeline.finished())
            .is_within(from.at.listed)
}

/// The progress after this operation, or None if no linearization goes on with it.
pub fn step(program: &Program, timeline: &Timeline, from: Progress, name: OpId) -> Option<Progress>
    requires limits { IsWithinLimits program.now }
    requires begun { IsBegun timeline.now name }
    requires place { HasPlace name }
    requires barred { AreBarred timeline.now (operations_in from.at.listed) (operations_in from.barred) }
    ensures stands { MatchOption result
        ((rest : List Name)
        → Completes program.now timeline.now (operations_in from.at.listed) (keys_in from.at.keys) (name ∷ rest) → ⊥)
        (λ next. StandsNext program.now timeline.now (operations_in from.at.listed) (keys_in from.at.keys) name
        (keys_in next.at.keys)) }
    ensures listed { IfSome result (λ next. operations_in next.at.listed
        ≡ with_name (operations_in from.at.listed) name) }
    ensures barred { IfSome result
        (λ next. AreBarred timeline.now (operations_in next.at.listed) (operations_in next.barred)) }
{
    let before = timeline.before(name);
    if !is_due(timeline, from, name, before) {
        return None;
    }
    let operation = program.op(name)?;
    let stated = from.at.keys.reply_to(operation);
    match timeline.reply(name) {
        Some(reply) if reply != stated => None,
        _ => Some(Progress {
            at: Configuration {
                listed: from.at.listed.with(name),
                keys: from.at.keys.after(operation),
            },
            barred: from.barred.union(before),
        }),
    }
}

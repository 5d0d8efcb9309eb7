//! What the operations of a text wait for.
ghost use Rattle.std.specs.Prelude.{IfNone, IfOk, IfSome, List, MatchBool, Option, All};
ghost use Rattle.serde_json.specs.View.{view};
ghost use Rattle.sched_program.specs.Faults.{HasTurnsWithin};
ghost use Rattle.sched_program.specs.Program.{IsTurnWithin, AreTurnsWithin};
ghost use Rattle.sched_program.specs.Text.{HasThreads, HasTurn, HasTurns, HasVersion, IsTurn};
ghost use Rattle.sched_program.specs.declared.operation.Turn.{Turn};
ghost use Rattle.sched_program.specs.declared.version.Version.TheVariants as version;

use crate::OutOfMemory;
use crate::operation::{Op, Turn};
use crate::reader::{ListOf, Reader};
use crate::sequence::Sequence;
use crate::version::Version;
use serde_json::Value;
use std::alloc::Global;

/// What the operations of each thread wait for.
type Turns = Sequence<Sequence<Option<Turn>>>;

/// The turn that a value is.
#[tactic(auto, using(crate::proofs::Waiting::two_numbers))]
fn turn_of(value: &Value) -> Option<Turn>
    ensures found { IfSome result (IsTurn (view value.now)) }
    ensures none { IfNone result ((turn : Turn) → ¬ IsTurn (view value.now) turn) }
{
    match value.as_array()?.as_slice() {
        [thread, count] => Some(Turn {
            thread: thread.as_u64()?,
            count: count.as_u64()?,
        }),
        _ => None,
    }
}

/// Reads what an operation of the second version waits for.
#[derive(Clone, Copy)]
struct TurnReader;

impl Reader for TurnReader {
    type Thing = Option<Turn>;

    ghost stands_for = { HasTurn version.Second };

    fn read(&self, _alloc: Global, value: &Value) -> Result<Option<Option<Turn>>, OutOfMemory> {
        match value.get("after") {
            None => Ok(Some(None)),
            Some(member) => match turn_of(member) {
                Some(turn) => Ok(Some(Some(turn))),
                None => Ok(None),
            },
        }
    }
}

/// Reads an operation of the first version, in which none waits.
#[derive(Clone, Copy)]
struct NoTurnReader;

impl Reader for NoTurnReader {
    type Thing = Option<Turn>;

    ghost stands_for = { HasTurn version.First };

    fn read(&self, _alloc: Global, _value: &Value) -> Result<Option<Option<Turn>>, OutOfMemory> {
        Ok(Some(None))
    }
}

/// What the operations of a value of this version wait for, if that is written in its form.
fn turns_of(alloc: Global, value: &Value, version: Version) -> Result<Option<Turns>, OutOfMemory>
    ensures found { IfOk result (λ found. IfSome found (HasTurns version (view value.now))) }
    ensures none { IfOk result (λ found. IfNone found ((turns : List (List (Option Turn)))
        → ¬ HasTurns version (view value.now) turns)) }
{
    let Some(threads) = value.get("threads") else {
        return Ok(None);
    };
    match version {
        Version::First => ListOf(ListOf(NoTurnReader)).read(alloc, threads),
        Version::Second => ListOf(ListOf(TurnReader)).read(alloc, threads),
    }
}

/// Whether an operation of a thread may wait for this turn.
fn is_turn_within(threads: &[Sequence<Op>], thread: usize, turn: Turn) -> bool
    ensures { MatchBool result (IsTurnWithin threads.now thread turn) (¬ IsTurnWithin threads.now thread turn) }
{
    match threads.get(turn.thread as usize) {
        Some(ops) => {
            turn.thread < thread as u64 && turn.count >= 1 && turn.count <= ops.len() as u64
        }
        None => false,
    }
}

/// Whether all operations of a thread that wait may do so.
fn may_wait(threads: &[Sequence<Op>], thread: usize, turns: &[Option<Turn>]) -> bool
    ensures { MatchBool result
        (All (λ turn. IfSome turn (IsTurnWithin threads.now thread)) turns.now)
        (¬ All (λ turn. IfSome turn (IsTurnWithin threads.now thread)) turns.now) }
{
    for turn in turns {
        if let Some(turn) = turn {
            if !is_turn_within(threads, thread, *turn) {
                return false;
            }
        }
    }
    true
}

/// Whether all operations that wait may do so.
#[tactic(auto, using(crate::proofs::Waiting::row_at))]
fn are_turns_within(threads: &[Sequence<Op>], turns: &[Sequence<Option<Turn>>]) -> bool
    ensures { MatchBool result (AreTurnsWithin threads.now turns.now) (¬ AreTurnsWithin threads.now turns.now) }
{
    for thread in 0..turns.len() {
        if !may_wait(threads, thread, turns[thread].as_slice()) {
            return false;
        }
    }
    true
}

/// What the operations of a value of this version and with these threads wait for, if they may.
pub fn turns_within(
    alloc: Global,
    value: &Value,
    version: Version,
    threads: &[Sequence<Op>],
) -> Result<Option<Turns>, OutOfMemory>
    requires version { HasVersion (view value.now) version }
    requires threads { HasThreads (view value.now) threads.now }
    ensures found { IfOk result (λ found. IfSome found (λ turns. HasTurns version (view value.now) turns
        × AreTurnsWithin threads.now turns)) }
    ensures none { IfOk result (λ found. IfNone found (¬ HasTurnsWithin (view value.now))) }
{
    let Some(turns) = turns_of(alloc, value, version)? else {
        return Ok(None);
    };
    if !are_turns_within(threads, turns.as_slice()) {
        return Ok(None);
    }
    Ok(Some(turns))
}

//! Histories: which operations began, with which notes, and what the finished ones replied.
ghost use Rattle.std.specs.Prelude.{◌≡◌, ◌↔◌, IsTrue, IsSome, All, length, IfSome, IfNone};
ghost use Rattle.sched_program.specs.Name.{IsBefore, Ascend, value_at};
ghost use Rattle.sched_program.specs.History.{IsHistory, IsHistoryOf};
ghost use Rattle.sched_program.specs.Program.{op_at, IsWithinLimits};

use crate::operation::OpId;
use crate::program::Program;
use crate::short_list::ShortList;
use std::marker::Model;

/// The note of an operation: for every thread, how many operations that thread had finished when this one began.
pub type Note = ShortList<u8, 4>;

/// The operations that began, each with its note, and those that finished, each with its reply, both in the order
/// of their names. From it follows which operation ended before another began (Herlihy and Wing, TOPLAS 1990).
#[derive(Drop)]
pub struct History {
    begun: Vec<(OpId, Note)>,
    finished: Vec<(OpId, bool)>,
}

impl Model for History {
    ghost use Rattle.sched_program.specs.History.{History, IsHistory};

    ghost Value = { History };

    ghost view = { λ h. record { begun = h.begun.items; finished = h.finished.items } };

    ghost invariant = { λ h. IsHistory (record { begun = h.begun.items; finished = h.finished.items }) };
}

/// Whether the first name comes before the second: by thread, and then by index.
fn is_before(a: OpId, b: OpId) -> bool
    ensures { IsTrue result ↔ IsBefore a b }
{
    a.thread < b.thread || (a.thread == b.thread && a.index < b.index)
}

/// Whether the names ascend strictly.
fn names_ascend<V>(entries: &[(OpId, V)]) -> bool
    ensures { IsTrue result ↔ Ascend entries.now }
{
    for i in 1..entries.len() {
        if !is_before(entries[i - 1].0, entries[i].0) {
            return false;
        }
    }
    true
}

/// The value beside a name, if there is one.
pub fn value_of<V: Copy>(entries: &[(OpId, V)], name: OpId) -> Option<V>
    ensures { result ≡ value_at entries.now name }
{
    for (other, value) in entries {
        if *other == name {
            return Some(*value);
        }
    }
    None
}

/// Whether all names are the program's.
fn are_of(program: &Program, begun: &[(OpId, Note)]) -> bool
    ensures { IsTrue result ↔ All (λ e. IsSome (op_at program.now e.0.thread e.0.index)) begun.now }
{
    begun.iter().all(|(name, _)| program.op(*name).is_some())
}

/// Whether each note has `count` counts.
fn notes_have(count: usize, begun: &[(OpId, Note)]) -> bool
    ensures { IsTrue result ↔ All (λ e. length e.1 ≡ count) begun.now }
{
    begun.iter().all(|(_, note)| note.len() == count)
}

/// Whether each finished operation is begun.
fn are_begun(begun: &[(OpId, Note)], finished: &[(OpId, bool)]) -> bool
    ensures { IsTrue result ↔ All (λ e. IsSome (value_at begun.now e.0)) finished.now }
{
    finished
        .iter()
        .all(|(name, _)| value_of(begun, *name).is_some())
}

/// Whether the lists are a history of the program.
fn is_history_of(program: &Program, begun: &[(OpId, Note)], finished: &[(OpId, bool)]) -> bool
    ensures history_of { IsTrue result
        ↔ IsHistoryOf program.now (record { begun = begun.now; finished = finished.now }) }
    ensures limits { IsWithinLimits program.now }
{
    let thread_count = program.threads().len();
    are_of(program, begun)
        && notes_have(thread_count, begun)
        && names_ascend(begun)
        && are_begun(begun, finished)
        && names_ascend(finished)
}

impl History {
    /// The history of these lists, if it is one of the program: all names are the program's, both lists ascend
    /// strictly by thread and then index, each note has one count for each thread, and every finished operation is
    /// begun. It takes no memory.
    #[tactic(auto, using(crate::proofs::Histories::is_history))]
    pub fn new(
        program: &Program,
        begun: Vec<(OpId, Note)>,
        finished: Vec<(OpId, bool)>,
    ) -> Option<History>
        ensures some { IfSome result (λ h. (h ≡ record { begun = begun.items; finished = finished.items })
            × IsHistoryOf program.now h) }
        ensures none { IfNone result
            (IsHistoryOf program.now (record { begun = begun.items; finished = finished.items }) → ⊥) }
    {
        if is_history_of(program, &begun, &finished) {
            Some(History { begun, finished })
        } else {
            None
        }
    }

    /// The operations that began, each with its note, in the order of their names.
    pub fn begun(&self) -> &[(OpId, Note)]
        ensures value { result.now ≡ self.now.begun }
        ensures events { IsHistory self.now }
    {
        &self.begun
    }

    /// The operations that finished, each with its reply, in the order of their names.
    pub fn finished(&self) -> &[(OpId, bool)]
        ensures value { result.now ≡ self.now.finished }
        ensures events { IsHistory self.now }
    {
        &self.finished
    }
}

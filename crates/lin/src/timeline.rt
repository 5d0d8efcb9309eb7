//! A table of what a history says of each operation.

ghost use Rattle.std.specs.Prelude.{◌≡◌, ◌≤◌, ◌<◌, ◌↔◌, true, length, All};
ghost use Rattle.sched_program.specs.declared.operation.OpId.{OpId as Name};
ghost use Rattle.sched_program.specs.History.{IsHistory, IsBegun, reply, EndedBefore};
ghost use Rattle.lin.specs.OpSet.{operations_in};
ghost use Rattle.lin.specs.Timeline.{HasPlace, place_of, counted, AreSetsBefore, AreReplies, finished_in};

use crate::op_set::OpSet;
use sched_program::{History, Note, OpId};
use std::marker::Model;

/// A history, with a table for look-ups by name: a place for each of eight operations of four threads.
#[derive(Drop)]
pub struct Timeline<'a> {
    history: &'a History,
    before: [OpSet; 32],
    replies: [Option<bool>; 32],
    finished: OpSet,
}

impl<'a> Model for Timeline<'a> {
    ghost use Rattle.sched_program.specs.History.{History};

    ghost Value = { History };

    ghost use Rattle.lin.specs.Timeline.{IsTable};

    ghost view = { λ t. t.history.now };

    ghost invariant = { λ t. IsTable t.history.now t.before t.replies t.finished };
}

impl<'a> Timeline<'a> {
    /// The table of a history. It takes no memory.
    pub fn new(history: &'a History) -> Timeline<'a>
        ensures { result ≡ history.now }
    {
        Timeline {
            history,
            before: sets_before(history),
            replies: replies_of(history),
            finished: finished_of(history),
        }
    }

    /// The operations that began, with their notes.
    pub fn begun(&self) -> &[(OpId, Note)]
        ensures value { result.now ≡ self.now.begun }
        ensures events { IsHistory self.now }
    {
        self.history.begun()
    }

    /// The operations that ended before this one began.
    pub fn before(&self, name: OpId) -> OpSet
        requires begun { IsBegun self.now name }
        requires place { HasPlace name }
        ensures { (a : Name) → HasPlace a → (operations_in result a ≡ true) ↔ EndedBefore self.now a name }
    {
        self.before[place_of(name)]
    }

    /// The reply of an operation, if it is finished.
    pub fn reply(&self, name: OpId) -> Option<bool>
        requires { HasPlace name }
        ensures { result ≡ reply self.now name }
    {
        self.replies[place_of(name)]
    }

    /// The finished operations.
    pub fn finished(&self) -> OpSet
        ensures value { operations_in result ≡ finished_in self.now.finished }
        ensures events { IsHistory self.now }
    {
        self.finished
    }
}

/// The index of an operation in the table.
fn place_of(name: OpId) -> usize
    requires { HasPlace name }
    ensures value { result ≡ place_of name }
    ensures fits { result < 32 }
{
    8 * name.thread as usize + name.index as usize
}

/// The operations that a note counts.
fn counted(note: &Note) -> OpSet
    requires { length note.now ≤ 4 }
    ensures { operations_in result ≡ counted note.now }
{
    let mut set = OpSet::empty();
    for (thread, count) in note.as_slice().iter().enumerate() {
        set = set.union(OpSet::first(thread as u8, *count));
    }
    set
}

/// For each operation that began, those that ended before.
///
/// It goes backwards, so that an earlier entry would overwrite a later one of the same name: look-ups by name take the
/// first, and nothing here has to know that names differ.
fn sets_before(history: &History) -> [OpSet; 32]
    ensures sets { AreSetsBefore history.now.begun result }
    ensures events { IsHistory history.now }
{
    let begun = history.begun();
    let mut sets = [OpSet::empty(); 32];
    for i in (0..begun.len()).rev() {
        let (name, note) = begun[i];
        sets[place_of(name)] = counted(&note);
    }
    sets
}

/// For each operation its reply, if it is finished. It goes backwards, as `sets_before` does.
fn replies_of(history: &History) -> [Option<bool>; 32]
    ensures { AreReplies history.now.finished result }
{
    let finished = history.finished();
    let mut replies = [None; 32];
    for i in (0..finished.len()).rev() {
        let (name, reply) = finished[i];
        replies[place_of(name)] = Some(reply);
    }
    replies
}

/// The finished operations.
fn finished_of(history: &History) -> OpSet
    ensures { operations_in result ≡ finished_in history.now.finished }
{
    let mut set = OpSet::empty();
    for (name, _) in history.finished() {
        set = set.with(*name);
    }
    set
}

//! Readers of JSON values, and the reader of a list of what another reads.
ghost use Rattle.std.specs.Prelude.{◌≡◌, ◌≢◌, ℕ, codes, IfOk, IfSome, IfNone};
ghost use Rattle.serde_json.specs.View.{view, items_view};
ghost use Rattle.sched_program.specs.Text.{Each, IsListOf, IsKey, HasKey, HasWord, IsOp, word_text, op_of};
ghost use Rattle.sched_program.specs.declared.reader.OpWord.{OpWord};
ghost use Rattle.sched_program.specs.Faults.{IsListOfCount};

use crate::OutOfMemory;
use crate::operation::Op;
use crate::sequence::Sequence;
use serde_json::Value;
use std::alloc::Global;

/// What an operation asks, without its key.
#[derive(Clone, Copy, Debug, PartialEq, Eq)]
pub enum OpWord {
    Insert,
    Delete,
    Find,
}

impl OpWord {
    /// The operation with this word and a key.
    fn with_key(self, key: u8) -> Op
        ensures { result ≡ op_of self key }
    {
        match self {
            OpWord::Insert => Op::Insert(key),
            OpWord::Delete => Op::Delete(key),
            OpWord::Find => Op::Find(key),
        }
    }
}

/// The key that a value is.
fn key_of(value: &Value) -> Option<u8>
    ensures found { IfSome result (IsKey (view value.now)) }
    ensures none { IfNone result ((key : ℕ) → ¬ IsKey (view value.now) key) }
{
    match value.as_u64() {
        Some(n) if n < 100 => Some(n as u8),
        _ => None,
    }
}

/// The key that an operation's value gives.
fn op_key(value: &Value) -> Option<u8>
    ensures found { IfSome result (HasKey (view value.now)) }
    ensures none { IfNone result ((key : ℕ) → ¬ HasKey (view value.now) key) }
{
    key_of(value.get("key")?)
}

/// The word with this text.
fn word_named(text: &str) -> Option<OpWord>
    ensures found { IfSome result (λ word. text.now ≡ word_text word) }
    ensures none { IfNone result ((word : OpWord) → text.now ≢ word_text word) }
{
    match text {
        "insert" => Some(OpWord::Insert),
        "delete" => Some(OpWord::Delete),
        "find" => Some(OpWord::Find),
        _ => None,
    }
}

/// The word that an operation's value gives.
fn op_word(value: &Value) -> Option<OpWord>
    ensures found { IfSome result (HasWord (view value.now)) }
    ensures none { IfNone result ((word : OpWord) → ¬ HasWord (view value.now) word) }
{
    word_named(value.get("op")?.as_str()?)
}

/// What reads a value as a thing, if it stands for one.
pub trait Reader {
    type Thing: Drop;

    ghost use Rattle.serde_json.specs.Data.{Data};

    /// The value stands for the thing.
    ghost stands_for: { Data → Self.Thing → Type 0 };

    /// The thing that a value stands for, if there is one. Takes memory for lists alone.
    fn read(&self, alloc: Global, value: &Value) -> Result<Option<Self::Thing>, OutOfMemory>
        ensures found { IfOk result (λ found. IfSome found (stands_for (view value.now))) }
        ensures none { IfOk result (λ found. IfNone found ((thing : Self.Thing)
            → ¬ stands_for (view value.now) thing)) };
}

/// Reads a list of what another reader reads.
#[derive(Clone, Copy)]
pub struct ListOf<R>(pub R);

fn read_all<R: Reader>(
    alloc: Global,
    reader: &R,
    values: &[Value],
) -> Result<Option<Sequence<R::Thing>>, OutOfMemory>
    ensures found { IfOk result (λ found. IfSome found (Each R.stands_for (items_view values.now))) }
    ensures none { IfOk result (λ found. IfNone found ((things : _)
        → ¬ Each R.stands_for (items_view values.now) things)) }
{
    let mut things = Sequence::new(alloc);
    for value in values {
        match reader.read(alloc, value)? {
            Some(thing) => things.push(thing)?,
            None => return Ok(None),
        }
    }
    Ok(Some(things))
}

impl<R: Reader> Reader for ListOf<R> {
    type Thing = Sequence<R::Thing>;

    ghost stands_for = { IsListOf R.stands_for };

    fn read(
        &self,
        alloc: Global,
        value: &Value,
    ) -> Result<Option<Sequence<R::Thing>>, OutOfMemory> {
        match value.as_array() {
            Some(list) => read_all(alloc, &self.0, list.as_slice()),
            None => Ok(None),
        }
    }
}

/// Reads a list as the number of its items.
#[derive(Clone, Copy)]
pub struct CountReader;

impl Reader for CountReader {
    type Thing = usize;

    ghost stands_for = { IsListOfCount };

    fn read(&self, _alloc: Global, value: &Value) -> Result<Option<usize>, OutOfMemory> {
        Ok(list_len(value))
    }
}

/// The number of items of a list.
#[tactic(auto, using(crate::proofs::Values::items_view_count))]
pub fn list_len(value: &Value) -> Option<usize>
    ensures found { IfSome result (IsListOfCount (view value.now)) }
    ensures none { IfNone result ((count : ℕ) → ¬ IsListOfCount (view value.now) count) }
{
    Some(value.as_array()?.len())
}

/// Reads a key.
#[derive(Clone, Copy)]
pub struct KeyReader;

impl Reader for KeyReader {
    type Thing = u8;

    ghost stands_for = { IsKey };

    fn read(&self, _alloc: Global, value: &Value) -> Result<Option<u8>, OutOfMemory> {
        Ok(key_of(value))
    }
}

/// Reads the word of an operation.
#[derive(Clone, Copy)]
pub struct WordReader;

impl Reader for WordReader {
    type Thing = OpWord;

    ghost stands_for = { HasWord };

    fn read(&self, _alloc: Global, value: &Value) -> Result<Option<OpWord>, OutOfMemory> {
        Ok(op_word(value))
    }
}

/// Reads an operation.
#[derive(Clone, Copy)]
pub struct OpReader;

impl Reader for OpReader {
    type Thing = Op;

    ghost stands_for = { IsOp };

    fn read(&self, _alloc: Global, value: &Value) -> Result<Option<Op>, OutOfMemory> {
        let Some(word) = op_word(value) else {
            return Ok(None);
        };
        match op_key(value) {
            Some(key) => Ok(Some(word.with_key(key))),
            None => Ok(None),
        }
    }
}

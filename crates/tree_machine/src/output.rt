//! Bytes that parts are written to, one behind the other.
ghost use Rattle.std.specs.Prelude.{◌≡◌, ◌<◌, ◌≤◌, ◌+◌, ◌*◌, ◌++◌, ◌∷◌, [], length, take, drop};
ghost use Rattle.std.specs.Prelude.{IfOk, IfSome, OnOk, OnErr};
ghost use Rattle.std.specs.List.{flat_map};
ghost use Rattle.tree_machine.specs.Flat.{number_code, short_head, long_code, facts_code};

use crate::fixed::{put_byte, put_number_byte};
use crate::number::{put_large, put_number};
use sched_program::OutOfMemory;
use std::alloc::Global;
use std::marker::Model;

/// The most bytes that are written at once. What the threads did takes at most 1 + 4 for the replies, 1 + 4 * 13 for
/// the notes, and 2 for who went astray; a part with a head of one byte takes at most 16.
const ROOM: usize = 60;

/// The zeros that `lengthen` appends.
static ZEROS: [u8; 256] = [0; 256];

/// Lengthens bytes.
#[cold]
#[inline(never)]
fn lengthen(bytes: &mut Vec<u8>, at: usize) -> Result<(), OutOfMemory>
    requires { at ≤ length bytes.old.items }
    ensures room { OnOk result (at + ROOM ≤ length bytes.new.items) }
    ensures kept { take at bytes.new.items ≡ take at bytes.old.items }
    ensures longer { length bytes.old.items ≤ length bytes.new.items }
{
    bytes.extend_from_slice(&ZEROS)?;
    Ok(())
}

/// Makes the bytes long enough to write a part with a head of one byte, or what the threads did, at a place.
#[inline(always)]
pub(crate) fn make_room(bytes: &mut Vec<u8>, at: usize) -> Result<(), OutOfMemory>
    requires { at ≤ length bytes.old.items }
    ensures room { OnOk result (at + ROOM ≤ length bytes.new.items) }
    ensures kept { take at bytes.new.items ≡ take at bytes.old.items }
    ensures longer { length bytes.old.items ≤ length bytes.new.items }
{
    if bytes.len() - at < ROOM {
        lengthen(bytes, at)
    } else {
        Ok(())
    }
}

/// What one byte says of a part: how many nodes it names, how many facts it has, and how many nodes and records it
/// names. None where they are more than that.
#[inline(always)]
fn short_head(nodes: usize, facts: usize, named: usize) -> Option<u8>
    ensures head { result ≡ short_head nodes facts named }
    ensures bounded { IfSome result (λ _. (facts < 5) × (named < 8)) }
{
    if nodes < 6 && facts < 5 && named < 8 {
        Some((facts + 5 * nodes + 30 * named) as u8)
    } else {
        None
    }
}

/// Writes facts into a slice, and returns the place behind them.
#[inline(always)]
fn put_facts(bytes: &mut [u8], start: usize, facts: &[u8]) -> usize
    requires { start + 2 * length facts.now ≤ length bytes.old }
    ensures place { result ≤ start + 2 * length facts.now }
    ensures written { take result bytes.new ≡ take start bytes.old ++ flat_map number_code facts.now }
    ensures length { length bytes.new ≡ length bytes.old }
{
    let mut at = start;
    for fact in facts {
        at = put_number_byte(bytes, at, *fact);
    }
    at
}

/// Writes what comes in front of a part's names where one byte can't hold it. Makes room for the names, and returns the
/// place behind the facts.
#[cold]
#[inline(never)]
fn put_long_front(
    bytes: &mut Vec<u8>,
    start: usize,
    nodes: usize,
    named: usize,
    facts: &[u8],
) -> Result<usize, OutOfMemory>
    requires { start ≤ length bytes.old.items }
    ensures written { IfOk result (λ end. take end bytes.new.items
        ≡ take start bytes.old.items ++ long_code (nodes ∷ facts.now) named) }
    ensures room { IfOk result (λ end. end + named ≤ length bytes.new.items) }
    ensures longer { start ≤ length bytes.new.items }
{
    bytes.truncate(start);
    bytes.push(255)?;
    put_number(bytes, facts.len() as u64 + 1)?;
    put_number(bytes, named as u64)?;
    put_number(bytes, nodes as u64)?;
    for fact in facts {
        put_number(bytes, u64::from(*fact))?;
    }
    let end = bytes.len();
    let room = end.checked_add(named).ok_or(OutOfMemory)?;
    bytes.resize(room, 0)?;
    Ok(end)
}

/// Writes what comes in front of a part's names: how many nodes it names, how many nodes and records it names, and its
/// facts. Makes room for the names, and returns the place behind the facts.
#[inline(always)]
pub(crate) fn put_front(
    bytes: &mut Vec<u8>,
    start: usize,
    nodes: usize,
    named: usize,
    facts: &[u8],
) -> Result<usize, OutOfMemory>
    requires { start ≤ length bytes.old.items }
    ensures written { IfOk result (λ end. take end bytes.new.items
        ≡ take start bytes.old.items ++ facts_code (nodes ∷ facts.now) named) }
    ensures room { IfOk result (λ end. end + named ≤ length bytes.new.items) }
    ensures longer { start ≤ length bytes.new.items }
{
    match short_head(nodes, facts.len(), named) {
        Some(head) => {
            make_room(bytes, start)?;
            let slice = bytes.as_mut_slice();
            let at = put_byte(slice, start, head);
            Ok(put_facts(slice, at, facts))
        }
        None => put_long_front(bytes, start, nodes, named, facts),
    }
}

/// What parts are written to. Contracts see the bytes written so far. What is written ends at a place in the bytes.
/// Behind it there are spare bytes, so that most parts find room.
#[derive(Drop)]
pub struct Output {
    pub(crate) bytes: Vec<u8>,
    pub(crate) at: usize,
    ghost within: { at ≤ length bytes.items },
}

impl Model for Output {
    ghost use Rattle.std.specs.Prelude.{List, ℕ, take};

    ghost Value = { List ℕ };

    ghost view = { λ o. take o.at o.bytes.items };
}

impl Output {
    /// No bytes. It allocates nothing.
    pub(crate) fn none(alloc: Global) -> Output
        ensures { result ≡ [] }
    {
        Output {
            bytes: Vec::new(alloc),
            at: 0,
        }
    }

    /// Removes the bytes.
    #[inline(always)]
    pub(crate) fn clear(&mut self)
        ensures { self.new ≡ [] }
    {
        self.at = 0;
    }

    /// The bytes.
    #[inline(always)]
    pub(crate) fn as_slice(&self) -> &[u8]
        ensures { result.now ≡ self.now }
    {
        &self.bytes.as_slice()[..self.at]
    }

    /// The bytes, in memory of their own.
    pub(crate) fn into_vec(self) -> Vec<u8>
        ensures { result.items ≡ self }
    {
        let Output { mut bytes, at } = self;
        bytes.truncate(at);
        bytes
    }

    /// Appends a byte.
    #[inline(always)]
    pub(crate) fn put_byte(&mut self, byte: u8) -> Result<(), OutOfMemory>
        ensures { OnOk result (self.new ≡ self.old ++ byte ∷ []) }
    {
        make_room(&mut self.bytes, self.at)?;
        self.at = put_byte(self.bytes.as_mut_slice(), self.at, byte);
        Ok(())
    }

    /// Appends a number. Nearly all are small.
    #[inline(always)]
    pub(crate) fn put_number(&mut self, number: u64) -> Result<(), OutOfMemory>
        ensures { OnOk result (self.new ≡ self.old ++ number_code number) }
    {
        if number < 255 {
            return self.put_byte(number as u8);
        }
        self.bytes.truncate(self.at);
        put_large(&mut self.bytes, number)?;
        self.at = self.bytes.len();
        Ok(())
    }

    /// Appends bytes. After a refusal the bytes are unchanged.
    #[inline(always)]
    pub(crate) fn put(&mut self, bytes: &[u8]) -> Result<(), OutOfMemory>
        ensures ok { OnOk result (self.new ≡ self.old ++ bytes.now) }
        ensures err { OnErr result (self.new ≡ self.old) }
    {
        let end = self.at.checked_add(bytes.len()).ok_or(OutOfMemory)?;
        if self.bytes.len() < end {
            self.bytes.resize(end, 0)?;
        }
        self.bytes.as_mut_slice()[self.at..end].copy_from_slice(bytes);
        self.at = end;
        Ok(())
    }

    /// Appends a count of nodes and one of records, and returns their place.
    #[inline(always)]
    pub(crate) fn put_counts(&mut self, nodes: u8, records: u8) -> Result<usize, OutOfMemory>
        ensures bytes { OnOk result (self.new ≡ self.old ++ (nodes ∷ records ∷ [])) }
        ensures place { IfOk result (λ place. place ≡ length self.old) }
    {
        let place = self.at;
        self.put_byte(nodes)?;
        self.put_byte(records)?;
        Ok(place)
    }

    /// Replaces the two bytes at a place by a count of nodes and one of records.
    #[inline(always)]
    pub(crate) fn set_counts(&mut self, place: usize, nodes: u8, records: u8)
        requires within { place + 2 ≤ length self.old }
        ensures { self.new ≡ take place self.old ++ (nodes ∷ records ∷ drop (place + 2) self.old) }
    {
        let slice = self.bytes.as_mut_slice();
        slice[place] = nodes;
        slice[place + 1] = records;
    }
}

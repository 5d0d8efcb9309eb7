//! The expansion of entries outside a book: what a worker takes under the lock of a book, works on
//! without it, and enters under it again.
ghost use Rattle.std.specs.Prelude.{◌≡◌, IfOk, IfSome, length};

use crate::in_place::steps_here;
use crate::label::Label;
use crate::scratch::Scratch;
use crate::successor::Successor;
use options::Merge;
use replay::Finding;
use sched_program::{OutOfMemory, Program};
use std::alloc::Global;
use std::marker::Model;
use tree_machine::{Bytes, Encode};

/// An entry by its number and its label, with the machine, the program and the merge of its book.
#[derive(Drop)]
pub(crate) struct EntryKey<'a, M> {
    pub(crate) id: usize,
    pub(crate) machine: M,
    pub(crate) program: &'a Program,
    pub(crate) merge: Merge,
    pub(crate) label: Bytes,
}

/// A taken entry of a book, by its label, with what was found of its state.
#[derive(Drop)]
pub struct TakenEntry<'a, M: Encode> {
    pub(crate) key: EntryKey<'a, M>,
    pub(crate) finding: Finding,
}

impl<'a, M: Encode> Model for TakenEntry<'a, M> {
    ghost use Rattle.book.specs.ByLabel.{IsTakenOf, TakenView, key_of};

    ghost Value = { TakenView M };

    ghost view = { λ t. record { key = key_of t.key; finding = t.finding } };

    ghost invariant = { λ t. IsTakenOf M.rules M.own_code M.form_code M.form_of
        (record { key = key_of t.key; finding = t.finding }) };
}

/// An entry with all enabled steps of its state, in the order of the threads. Each has the label
/// and the finding of the state that it reaches.
#[derive(Drop)]
pub struct ExpandedEntry<'a, M: Encode> {
    pub(crate) key: EntryKey<'a, M>,
    pub(crate) steps: Vec<Successor<Label>>,
}

impl<'a, M: Encode> Model for ExpandedEntry<'a, M> {
    ghost use Rattle.book.specs.ByLabel.{ExpandedView, IsExpandedOf, key_of};

    ghost Value = { ExpandedView M };

    ghost view = { λ x. record { key = key_of x.key; steps = x.steps.items } };

    ghost invariant = { λ x. IsExpandedOf M.rules M.own_code M.form_code M.form_of
        (record { key = key_of x.key; steps = x.steps.items }) };
}

impl<'a, M: Encode> TakenEntry<'a, M> {
    /// Makes the steps of the entry's state in a state decoded from its label. None if the entry is
    /// not sound, or its label can't be decoded.
    #[inline(always)]
    pub fn expand(
        self,
        alloc: Global,
        scratch: &mut Scratch<M>,
    ) -> Result<Option<ExpandedEntry<'a, M>>, OutOfMemory>
        ensures { IfOk result (λ o. IfSome o (λ x. x.key ≡ self.entry.key)) }
    {
        // Whoever reads a program knows that it meets the limits.
        let _ = self.key.program.initial();
        let Finding::Sound(order) = &self.finding else {
            return Ok(None);
        };
        let label = self.key.label.as_slice();
        let Some(mut decoded) = scratch.decode(alloc, self.key.machine, self.key.program, label)?
        else {
            return Ok(None);
        };
        let offsets = decoded.offsets;
        let steps = steps_here(alloc, &self, offsets, order, &mut *decoded.state, scratch)?;
        scratch.last = Some(decoded);
        let TakenEntry { key, .. } = self;
        Ok(Some(ExpandedEntry { key, steps }))
    }
}

impl<'a, M: Encode> ExpandedEntry<'a, M> {
    /// The number of the entry.
    pub fn id(&self) -> usize
        ensures { result ≡ self.now.key.id }
    {
        self.key.id
    }

    /// How many steps it has.
    pub fn len(&self) -> usize
        ensures { result ≡ length self.now.steps }
    {
        self.steps.len()
    }
}

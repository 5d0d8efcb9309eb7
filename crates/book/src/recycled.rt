//! Memory that is reused.
ghost use Rattle.std.specs.Prelude.{◌≡◌, ◌≤◌, [], IfOk, vec_capacity};

use crate::label::Label;
use crate::successor::Successor;
use sched_program::OutOfMemory;
use std::alloc::Global;

/// Lists to reuse: those that held the labels of known states, and those that held steps. Under the
/// lock of a book only the book allocates, and nothing is freed but lists that have no room here,
/// which are dropped.
#[derive(Drop)]
pub struct Recycled {
    /// Lists that held labels.
    labels: Vec<Vec<u8>>,
    /// Lists that held steps. Only their memory is reused.
    lists: Vec<Vec<Successor<Label>>>,
}

impl Recycled {
    /// Nothing, with no room. It takes no memory.
    pub fn none(alloc: Global) -> Recycled {
        Recycled {
            labels: Vec::new(alloc),
            lists: Vec::new(alloc),
        }
    }

    /// Reserves room for `labels` more labels and `lists` more lists.
    pub(crate) fn reserve(&mut self, labels: usize, lists: usize) -> Result<(), OutOfMemory> {
        self.labels.reserve(labels)?;
        self.lists.reserve(lists)?;
        Ok(())
    }

    /// Keeps the list of a label where there is room, and else drops it.
    #[inline(always)]
    pub(crate) fn keep_label(&mut self, label: Vec<u8>) {
        if self.labels.len() < self.labels.capacity() {
            self.labels.push_reserved(label);
        }
    }

    /// Keeps a list where there is room, and else drops it.
    #[inline(always)]
    pub(crate) fn keep_list(&mut self, list: Vec<Successor<Label>>) {
        if self.lists.len() < self.lists.capacity() {
            self.lists.push_reserved(list);
        }
    }

    /// A list for a label: one that it keeps, or else a new one.
    #[inline(always)]
    pub(crate) fn label(&mut self, alloc: Global) -> Vec<u8> {
        match self.labels.pop() {
            Some(label) => label,
            None => Vec::new(alloc),
        }
    }

    /// An empty list with room for `steps` steps: one that it keeps, or else a new one.
    #[inline(always)]
    pub(crate) fn list(
        &mut self,
        alloc: Global,
        steps: usize,
    ) -> Result<Vec<Successor<Label>>, OutOfMemory>
        ensures list { IfOk result (λ list. list.items ≡ []) }
        ensures room { IfOk result (λ list. steps ≤ vec_capacity list) }
    {
        if let Some(mut list) = self.lists.pop() {
            list.clear();
            list.reserve(steps)?;
            return Ok(list);
        }
        Ok(Vec::with_capacity(alloc, steps)?)
    }
}

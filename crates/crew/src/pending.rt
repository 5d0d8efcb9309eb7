//! What a worker has expanded and not entered.
ghost use Rattle.std.specs.Prelude.{◌≡◌, [], All, OnOk};
ghost use Rattle.book.specs.ByLabel.{IsOf};

use crate::worker::Stop;
use book::{Book, ExpandedEntry, Recycled};
use reports::Share;
use sched_program::Program;
use std::alloc::Global;
use tree_machine::Encode;

/// Expanded entries that are not entered.
#[derive(Drop)]
pub struct Pending<'a, M: Encode> {
    pub entries: Vec<ExpandedEntry<'a, M>>,
    /// How many of them, from the first, were prefetched.
    prefetched: usize,
}

impl<'a, M: Encode> Pending<'a, M> {
    /// No entry. It takes no memory.
    pub fn new(alloc: Global) -> Pending<'a, M>
        ensures { result.entries.items ≡ [] }
    {
        Pending {
            entries: Vec::new(alloc),
            prefetched: 0,
        }
    }

    /// How many steps all of them have.
    pub fn count_steps(&self) -> usize {
        let mut steps = 0usize;
        for entry in &self.entries {
            steps = steps.saturating_add(entry.len());
        }
        steps
    }

    /// Prefetches the entries that were not prefetched yet. What the book has of their steps is
    /// mostly not in the processor's caches. Looked up one right after the other, the steps are not
    /// waited for one by one. The sum that it returns has no use.
    pub fn prefetch(&mut self, book: &Book<M>) -> usize
        ensures { self.new.entries ≡ self.old.entries }
    {
        let mut seen = 0usize;
        if let Some(others) = self.entries.get(self.prefetched..) {
            for entry in others {
                seen = seen.wrapping_add(book.prefetch(entry));
            }
        }
        self.prefetched = self.entries.len();
        seen
    }

    /// Enters all of them into the book of their machine and program, and counts them in the
    /// worker's share. The labels of known states are recycled, so that they are not freed under
    /// the lock.
    pub fn enter_all(
        &mut self,
        machine: M,
        program: &Program,
        book: &mut Book<M>,
        share: &mut Share,
        recycled: &mut Recycled,
    ) -> Result<(), Stop>
        requires { All (λ x. IsOf machine program.now x.key) self.old.entries.items }
        ensures { OnOk result (self.new.entries.items ≡ []) }
    {
        if !book.is_of(machine, program) {
            return Err(Stop::Refused);
        }
        self.prefetched = 0;
        for entry in self.entries.drain(..) {
            let id = entry.id();
            match book.enter_expanded(entry, recycled) {
                Ok(counts) => share.add(counts),
                Err(fault) => return Err(Stop::of(fault, id)),
            }
        }
        self.entries.clear();
        Ok(())
    }
}

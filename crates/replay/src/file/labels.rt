//! The labels of the entries of a book file.
ghost use Rattle.std.specs.Prelude.{◌≡◌, ◌<◌, ◌↔◌, [], ◌∷◌, ◌++◌, length, Contains, IfSome, IsTrue, OnOk, Some};
ghost use Rattle.std.specs.Prelude.{slice_get};
ghost use Rattle.replay.specs.BookFile.Kept.{HasCode};

use crate::file::replayer::Source;
use indexmap::IndexSet;
use sched_program::OutOfMemory;
use std::alloc::Global;
use std::marker::Model;
use tree_machine::{Bytes, CodeOffsets};

/// The labels of entries, in the order of the entries. Equal labels are stored once.
#[derive(Drop)]
pub struct Labels {
    distinct: IndexSet<Bytes>,
    /// For each entry the index of its label in the set.
    places: Vec<u32>,
}

impl Model for Labels {
    ghost use Rattle.std.specs.Prelude.{List, ℕ};
    ghost use Rattle.replay.specs.BookFile.Places.{labels_at, ArePlaced};

    ghost Value = { List (List ℕ) };

    ghost view = { λ l. labels_at l.distinct.keys l.places.items };

    ghost invariant = { λ l. ArePlaced l.distinct.keys l.places.items };
}

impl Labels {
    /// No labels. It takes no memory.
    pub fn new(alloc: Global) -> Labels
        ensures { result ≡ [] }
    {
        Labels {
            distinct: IndexSet::new(alloc),
            places: Vec::new(alloc),
        }
    }

    /// Adds the label of the next entry.
    pub fn push(&mut self, label: Bytes) -> Result<(), OutOfMemory>
        requires { length self.old < 2000000 }
        ensures { OnOk result (self.new ≡ self.old ++ label ∷ []) }
    {
        self.places.reserve(1)?;
        let (place, _) = self.distinct.insert_full(label)?;
        self.places.push_reserved(place as u32);
        Ok(())
    }

    /// The label of an entry.
    pub fn get(&self, index: usize) -> Option<&[u8]>
        ensures { IfSome result (λ label. slice_get self.now index ≡ Some label.now) }
    {
        let place = self.places.get(index)?;
        let label = self.distinct.get_index(*place as usize)?;
        Some(label.as_slice())
    }

    /// The label that a state was decoded from, if it was decoded from one, with where its parts begin.
    pub fn code_of(&self, source: Option<Source>) -> Option<(&[u8], CodeOffsets)>
        ensures { IfSome result (λ (label, offsets). HasCode self.now source label.now offsets) }
    {
        let source = source?;
        let label = self.get(source.index)?;
        Some((label, source.offsets))
    }

    /// Whether an entry has this label.
    pub fn contains(&self, label: &Bytes) -> bool
        ensures { IsTrue result ↔ Contains self.now label.now }
    {
        self.distinct.contains(label)
    }

    /// The number of entries.
    pub fn len(&self) -> usize
        ensures { result ≡ length self.now }
    {
        self.places.len()
    }
}

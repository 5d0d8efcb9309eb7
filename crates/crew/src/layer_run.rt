//! A layer of entries, and how a worker gets some of them.
ghost use Rattle.std.specs.Prelude.{◌≡◌, ◌+◌, ◌<◌, ◌^◌, All, IfOk};
ghost use Rattle.claims.specs.Seats.{IsSeatOf};
ghost use Rattle.book.specs.ByLabel.{IsOf};

use crate::gate::Gate;
use crate::waiting::{read_soon, write_soon};
use crate::worker::Stop;
use book::{Book, Scratch, TakenEntry};
use claims::{Claims, Seat};
use sched_program::{OutOfMemory, Program};
use std::alloc::Global;
use std::marker::Model;
use std::sync::{Mutex, RwLock, RwLockReadGuard, RwLockWriteGuard, Wait};
use tree_machine::Encode;

/// How many places a worker draws in one round at most.
const ROUND: usize = 256;

/// How many places a worker draws in one round: several, so that it waits for the lock less often
/// than once for each entry, but few beside its portion of the layer, so that all workers come to
/// the layer's end at about the same time.
pub fn round_of(places: usize, workers: usize) -> usize
    requires some { 0 < workers }
    requires bounded { workers < 2 ^ 8 }
{
    (places / (8 * workers)).clamp(1, ROUND)
}

/// Draws the places of one round, fewer where no more are left.
fn places_of(
    alloc: Global,
    claims: &Claims,
    round: usize,
    seat: &mut Seat,
) -> Result<Vec<usize>, OutOfMemory>
    requires seat { IsSeatOf claims.now seat.old }
    ensures seat { IsSeatOf claims.now seat.new }
    ensures within { IfOk result (λ places. All (λ place. place < claims.now.size.len) places.items) }
{
    let mut places = Vec::with_capacity(alloc, round)?;
    for _each in 0..round {
        let Some(place) = claims.claim(seat) else {
            return Ok(places);
        };
        places.push(place)?;
    }
    Ok(places)
}

/// What all layers of an exploration have in common.
#[derive(Drop)]
pub struct Exploration<'a, M: Encode, G: Gate, R: Wait> {
    pub rt: &'a R,
    pub alloc: Global,
    pub machine: M,
    pub program: &'a Program,
    pub gate: &'a G,
    pub book: &'a RwLock<Book<M>>,
    /// What workers left of their scratches at the end of a layer, for those of the next.
    pub scratches: &'a Mutex<Vec<Scratch<M>>>,
}

/// What the workers of a layer share. Contracts see the counter of the places.
#[derive(Drop)]
pub struct LayerRun<'a, M: Encode, G: Gate, R: Wait> {
    pub exploration: Exploration<'a, M, G, R>,
    /// How many steps the layer's states have.
    pub number: u16,
    /// The number of its first entry. The others have the numbers after it.
    pub start: usize,
    /// The number after its last entry.
    pub end: usize,
    pub claims: Claims,
    /// How many places a worker draws in one round.
    pub round: usize,
    /// How many entries a worker expands between two tests of the lock.
    pub stride: usize,
    pub ghost places: { start + claims.size.len ≡ end },
    pub ghost bounded: { end < 2 ^ 64 },
    pub ghost some: { 0 < stride },
}

impl<'a, M: Encode, G: Gate, R: Wait> LayerRun<'a, M, G, R> {
    /// The book to read. Unless `waits`, it is none while another worker has the book to write.
    pub fn read(&self, waits: bool) -> Option<RwLockReadGuard<'_, Book<M>>> {
        if waits {
            Some(read_soon(self.exploration.rt, self.exploration.book))
        } else {
            self.exploration.book.try_read()
        }
    }

    /// The book to write. Unless `waits`, it is none while another worker has the book.
    pub fn write(&self, waits: bool) -> Option<RwLockWriteGuard<'_, Book<M>>> {
        if waits {
            Some(write_soon(self.exploration.rt, self.exploration.book))
        } else {
            self.exploration.book.try_write()
        }
    }

    /// The taken entry at a place, from a book of the exploration's machine and program.
    fn entry_at(
        &self,
        book: &Book<M>,
        place: usize,
        scratch: &mut Scratch<M>,
    ) -> Result<TakenEntry<'a, M>, Stop>
        requires within { place < self.now.claims.size.len }
        requires machine { book.now.machine ≡ self.now.exploration.machine }
        requires program { book.now.program ≡ self.now.exploration.program.now }
        ensures { IfOk result (λ x. IsOf self.now.exploration.machine self.now.exploration.program.now
            x.key) }
    {
        match book.taken_entry(self.start + place, self.exploration.program, scratch)? {
            Some(entry) => Ok(entry),
            None => Err(Stop::Refused),
        }
    }

    /// The taken entries at some places, each beside its place.
    fn entries_at(
        &self,
        book: &Book<M>,
        places: &[usize],
        scratch: &mut Scratch<M>,
    ) -> Result<Vec<(usize, TakenEntry<'a, M>)>, Stop>
        requires { All (λ place. place < self.now.claims.size.len) places.now }
        ensures { IfOk result (λ drawn. All (λ d. IsOf self.now.exploration.machine
            self.now.exploration.program.now d.1.key) drawn.items) }
    {
        let Exploration {
            alloc,
            machine,
            program,
            ..
        } = &self.exploration;
        if !book.is_of(*machine, program) {
            return Err(Stop::Refused);
        }
        let mut entries = Vec::with_capacity(*alloc, places.len())?;
        for place in places {
            let entry = self.entry_at(book, *place, scratch)?;
            entries.push((*place, entry))?;
        }
        Ok(entries)
    }

    /// Draws the places of one round, and copies the entries there while it holds the lock once.
    pub fn draw(
        &self,
        seat: &mut Seat,
        scratch: &mut Scratch<M>,
    ) -> Result<Vec<(usize, TakenEntry<'a, M>)>, Stop>
        requires seat { IsSeatOf self.now.claims seat.old }
        ensures seat { IsSeatOf self.now.claims seat.new }
        ensures drawn { IfOk result (λ drawn. All (λ d. IsOf self.now.exploration.machine
            self.now.exploration.program.now d.1.key) drawn.items) }
    {
        let alloc = self.exploration.alloc;
        let places = places_of(alloc, &self.claims, self.round, seat)?;
        if places.is_empty() {
            return Ok(Vec::new(alloc));
        }
        let book = read_soon(self.exploration.rt, self.exploration.book);
        self.entries_at(&*book, places.as_slice(), scratch)
    }
}

//! The work of all workers, layer by layer.
ghost use Rattle.std.specs.Prelude.{◌≡◌, ◌^◌, ◌<◌, ◌≤◌, All, IfOk, IfSome, length};
ghost use Rattle.claims.specs.Seats.{IsSeatOf};

use crate::gate::Gate;
use crate::layer_run::{Exploration, LayerRun, round_of};
use crate::starting::call_at_once;
use crate::worker::{Worker, have_stopped, seat_all};
use claims::Claims;
use sched_program::OutOfMemory;
use std::sync::Wait;
use std::thread::Threads;
use tree_machine::Encode;

/// How many entries a worker expands between two tests of the lock, where others wait for it.
const STRIDE: usize = 8;

/// How many where none does: the steps of more entries are prefetched at once.
const LONG_STRIDE: usize = 16;

/// How many entries each of `workers` workers expands between two tests of the lock.
fn stride_of(workers: usize) -> usize
    ensures { 0 < result }
{
    if workers == 1 { LONG_STRIDE } else { STRIDE }
}

/// Lets each worker work in a thread of its own, and returns once all are done.
fn work_at_once<M: Encode, G: Gate, R: Threads + Wait + Sync>(
    rt: &R,
    run: &LayerRun<'_, M, G, R>,
    workers: &mut [Worker],
)
    requires { All (λ w. IfSome w.seat (IsSeatOf run.now.claims)) workers.old }
    ensures { length workers.new ≡ length workers.old }
{
    // What it did is in its share, and its clause says nothing of that.
    let work = |worker: &mut Worker|
        requires { IfSome worker.old.seat (IsSeatOf run.now.claims) }
        ensures { Unit {0} }
    { run.work(worker) };
    call_at_once(rt, &work, workers);
}

impl<'a, M: Encode, G: Gate, R: Threads + Wait + Sync> Exploration<'a, M, G, R> {
    /// A copy of the exploration, for a layer to own.
    fn again(&self) -> Exploration<'a, M, G, R> {
        Exploration {
            rt: self.rt,
            alloc: self.alloc,
            machine: self.machine,
            program: self.program,
            gate: self.gate,
            book: self.book,
            scratches: self.scratches,
        }
    }

    /// Expands the taken entries from `start` to below `end`.
    fn expand_taken(
        &self,
        number: u16,
        start: usize,
        end: usize,
        workers: &mut [Worker],
    ) -> Result<(), OutOfMemory>
        requires some { 0 < length workers.old }
        requires bounded { length workers.old < 2 ^ 8 }
        requires row { start ≤ end }
        requires small { end ≤ 2000000 }
        ensures { length workers.new ≡ length workers.old }
    {
        let places = end - start;
        let (claims, seats) = Claims::new(self.alloc, places, workers.len())?;
        seat_all(&claims, workers, seats);
        let run = LayerRun {
            exploration: self.again(),
            number,
            start,
            end,
            claims,
            round: round_of(places, workers.len()),
            stride: stride_of(workers.len()),
        };
        work_at_once(self.rt, &run, workers);
        Ok(())
    }

    /// Takes the entries of the next layer: those from the first number returned to below the second. There is none
    /// where the book has an entry that is not sound.
    fn take_next(&self) -> Option<(usize, usize)>
        ensures { IfSome result (λ (start, end). (start ≤ end) × (end ≤ 2000000)) }
    {
        let mut book = self.book.write(self.rt);
        let book = &mut *book;
        if book.first_fault().is_some() {
            return None;
        }
        book.law();
        let (start, end) = book.take_range();
        if start == end {
            return None;
        }
        Some((start, end))
    }

    /// Expands the layers below a number of steps, until there is none to take or a worker had to stop.
    pub fn expand_layers(&self, steps: u16, workers: &mut [Worker]) -> Result<(), OutOfMemory>
        requires some { 0 < length workers.old }
        requires bounded { length workers.old < 2 ^ 8 }
        ensures { length workers.new ≡ length workers.old }
    {
        for number in 0..steps {
            let Some((start, end)) = self.take_next() else {
                return Ok(());
            };
            self.expand_taken(number, start, end, workers)?;
            if have_stopped(workers)? {
                return Ok(());
            }
        }
        Ok(())
    }
}

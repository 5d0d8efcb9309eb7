//! The workers: what each did, and why it stopped.
ghost use Rattle.std.specs.Prelude.{◌≡◌, All, IfOk, IfSome, length, vec_len};
ghost use Rattle.claims.specs.Seats.{IsSeatOf};

use book::EnterFault;
use claims::{Claims, Seat};
use reports::Share;
use sched_program::OutOfMemory;
use std::alloc::{AllocFailed, Global};

/// Why a worker draws no more.
#[derive(Clone, Copy, Debug, PartialEq, Eq)]
pub enum Stop {
    /// The book had no room for the steps of this entry.
    Full(usize),
    /// A growth was refused.
    OutOfMemory,
    /// An entry could not be expanded by its label, or the book refused its steps.
    Refused,
}

impl From<OutOfMemory> for Stop {
    fn from(_refused: OutOfMemory) -> Stop {
        Stop::OutOfMemory
    }
}

impl<T: Drop> From<AllocFailed<T>> for Stop {
    fn from(_refused: AllocFailed<T>) -> Stop {
        Stop::OutOfMemory
    }
}

impl Stop {
    /// Why a worker draws no more, where the book did not enter the steps of this entry.
    pub fn of(fault: EnterFault, id: usize) -> Stop {
        match fault {
            EnterFault::Full => Stop::Full(id),
            EnterFault::OutOfMemory => Stop::OutOfMemory,
            EnterFault::NotTaken | EnterFault::Stranger => Stop::Refused,
        }
    }
}

/// A worker, between two layers or in one.
#[derive(Drop)]
pub struct Worker {
    /// Its number, from 1.
    pub number: u8,
    /// What it did in all layers.
    pub share: Share,
    /// The seat with which it draws places of the layer.
    pub seat: Option<Seat>,
    /// Why it draws no more, if so.
    pub stop: Option<Stop>,
}

/// `count` workers, numbered from 1, which did nothing yet.
pub fn workers_of(alloc: Global, count: u8) -> Result<Vec<Worker>, OutOfMemory>
    ensures { IfOk result (λ v. vec_len v ≡ count) }
{
    let mut workers = Vec::with_capacity(alloc, usize::from(count))?;
    for before in 0..count {
        workers.push_reserved(Worker {
            number: before + 1,
            share: Share::none(),
            seat: None,
            stop: None,
        });
    }
    Ok(workers)
}

/// Gives each worker a seat.
pub fn seat_all(claims: &Claims, workers: &mut [Worker], mut seats: Vec<Seat>)
    requires { All (λ s. IsSeatOf claims.now s) seats.items }
    ensures seated { All (λ w. IfSome w.seat (IsSeatOf claims.now)) workers.new }
    ensures len { length workers.new ≡ length workers.old }
{
    for worker in workers.iter_mut() {
        worker.seat = seats.pop();
    }
}

/// Whether a worker had to stop. A refused growth is reported before all else.
pub fn have_stopped(workers: &[Worker]) -> Result<bool, OutOfMemory> {
    let mut stopped = false;
    for worker in workers {
        match worker.stop {
            Some(Stop::OutOfMemory) => return Err(OutOfMemory),
            Some(Stop::Full(_) | Stop::Refused) => stopped = true,
            None => {}
        }
    }
    Ok(stopped)
}

/// The entry for whose steps the first of the workers that name one found no room.
pub fn cut_of(workers: &[Worker]) -> Option<usize> {
    for worker in workers {
        if let Some(Stop::Full(id)) = worker.stop {
            return Some(id);
        }
    }
    None
}

/// The workers' shares, in their order.
pub fn shares_of(alloc: Global, workers: &[Worker]) -> Result<Vec<Share>, OutOfMemory>
    ensures { IfOk result (λ v. length v.items ≡ length workers.now) }
{
    let mut shares = Vec::with_capacity(alloc, workers.len())?;
    for worker in workers {
        shares.push(worker.share)?;
    }
    Ok(shares)
}

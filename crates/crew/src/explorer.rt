//! The exploration by several workers, repeated on one thread where the book that they leave does
//! not give the answer.
ghost use Rattle.std.specs.Prelude.{◌≡◌, IfOk, IfSome, length};
ghost use Rattle.reports.specs.Reporting.{IsReport};

use crate::gate::Gate;
use crate::layer_run::Exploration;
use crate::worker::{cut_of, shares_of, workers_of};
use book::Book;
use options::Options;
use reports::{Report, Share, explore_alone, report_of};
use sched_program::{OutOfMemory, Program};
use std::alloc::Global;
use std::sync::{Mutex, RwLock, Wait};
use std::thread::Threads;
use tree_machine::Encode;

/// Lets the options' number of workers expand the layers of a book. Returns the entry for whose steps one of them found
/// no room, and what each did. Of what they leave in the book nothing is promised.
fn work_of_all<M: Encode, G: Gate, R: Threads + Wait + Sync>(
    rt: &R,
    alloc: Global,
    machine: M,
    program: &Program,
    options: Options,
    gate: &G,
    book: &RwLock<Book<M>>,
) -> Result<(Option<usize>, Vec<Share>), OutOfMemory>
    ensures { IfOk result (λ w. length w.1.items ≡ options.workers) }
{
    let scratches = Mutex::new(Vec::new(alloc));
    let exploration = Exploration {
        rt,
        alloc,
        machine,
        program,
        gate,
        book,
        scratches: &scratches,
    };
    let mut workers = workers_of(alloc, options.workers())?;
    exploration.expand_layers(options.steps(), workers.as_mut_slice())?;
    let cut = cut_of(workers.as_slice());
    Ok((cut, shares_of(alloc, workers.as_slice())?))
}

/// Explores by all workers at once. None where the book that they leave does not give the answer.
fn explore_together<M: Encode, G: Gate, R: Threads + Wait + Sync>(
    rt: &R,
    alloc: Global,
    machine: M,
    program: &Program,
    options: Options,
    gate: &G,
) -> Result<Option<Report<M>>, OutOfMemory>
    ensures { IfOk result
        (λ o. IfSome o (λ r. IsReport M.rules machine program.now options r.answer r.totals r.shares.items r.book)) }
{
    let limit = options.limit() as usize;
    let book = Book::open(alloc, machine, program.copy(alloc)?, limit, options.merge())?;
    let book = RwLock::new(book);
    let (cut, shares) = work_of_all(rt, alloc, machine, program, options, gate, &book)?;
    let book = book.into_inner();
    report_of(alloc, machine, program, options, book, cut, shares)
}

/// Explores every schedule of a program up to the options' number of steps, by the options' number
/// of workers, unless more states are reached than the book may have entries.
///
/// The answer is the due one, and true of all schedules; no answer with another verdict or other
/// numbers is due. It is read off the book of the report, whose recorded schedules reach its
/// entries' states. The workers' shares sum to the book's totals. Each worker has a thread of its
/// own and calls the gate at each entry that it expands.
///
/// A refused growth returns `OutOfMemory`, once all workers are joined. Where the answer cannot be
/// read off the book that the workers leave, or their shares do not sum to its totals, one thread
/// explores from the start again: all the work is in the first worker's share, and no gate is
/// called. The workers here cause that only on a machine whose states cannot be decoded from their
/// labels.
pub fn explore<M: Encode, G: Gate, R: Threads + Wait + Sync>(
    rt: &R,
    alloc: Global,
    machine: M,
    program: &Program,
    options: Options,
    gate: &G,
) -> Result<Report<M>, OutOfMemory>
    ensures { IfOk result
        (λ r. IsReport M.rules machine program.now options r.answer r.totals r.shares.items r.book) }
{
    match explore_together(rt, alloc, machine, program, options, gate)? {
        Some(report) => Ok(report),
        None => explore_alone(alloc, machine, program, options),
    }
}

//! The exploration on one thread.
ghost use Rattle.std.specs.Prelude.{◌≡◌, ℕ, ◌<◌, IfOk, length};
ghost use Rattle.book.specs.Books.{machine_in};
ghost use Rattle.reports.specs.Ledger.{ledger};
ghost use Rattle.reports.specs.Driving.{IsLedgerOf};
ghost use Rattle.reports.specs.Reading.{StandsAt};
ghost use Rattle.reports.specs.Reporting.{IsBookOf, IsReport};

use crate::answer::{Answer, Report, Share};
use crate::driving::drive;
use crate::reporting::{answer_with_totals, let_go};
use book::{Book, Totals};
use options::Options;
use sched_program::{OutOfMemory, Program};
use std::alloc::Global;
use tree_machine::Encode;

/// A book for these options, with the start alone.
fn opened<M: Encode>(
    alloc: Global,
    machine: M,
    program: &Program,
    options: Options,
) -> Result<Book<M>, OutOfMemory>
    ensures asked { IfOk result (IsBookOf machine program.now options) }
    ensures stands { IfOk result (λ b. StandsAt (machine_in M.rules b).steps b.entries 0) }
    ensures ledger { IfOk result (λ b. IsLedgerOf b (record { expanded = 0; entered = 0; met = 0 })) }
{
    let limit = options.limit() as usize;
    let book = Book::open(alloc, machine, program.copy(alloc)?, limit, options.merge())?;
    book.law();
    Ok(book)
}

/// The shares where the first worker did all the work.
fn shares_alone(alloc: Global, share: Share, workers: u8) -> Result<Vec<Share>, OutOfMemory>
    requires { 0 < workers }
    ensures len { IfOk result (λ v. length v.items ≡ workers) }
    ensures sums { IfOk result (λ v. ledger v.items ≡ share) }
{
    let mut shares = Vec::new(alloc);
    shares.push(share)?;
    for _other in 1..workers {
        shares.push(Share::none())?;
    }
    Ok(shares)
}

/// What one thread reports on a book with the start alone, with all the work in the first worker's
/// share.
fn answer_alone<M: Encode>(
    alloc: Global,
    machine: M,
    program: &Program,
    options: Options,
    book: &mut Book<M>,
) -> Result<(Answer, Totals, Vec<Share>), OutOfMemory>
    requires asked { IsBookOf machine program.now options book.old }
    requires stands { StandsAt (machine_in M.rules book.old).steps book.old.entries 0 }
    requires ledger { IsLedgerOf book.old (record { expanded = 0; entered = 0; met = 0 }) }
    ensures { IfOk result (λ t. IsReport M.rules machine program.now options t.0 t.1 t.2.items book.new) }
{
    let mut share = Share::none();
    let cut = drive(alloc, program, book, options.steps(), &mut share)?;
    let shares = shares_alone(alloc, share, options.workers())?;
    match answer_with_totals(
        alloc,
        machine,
        program,
        options,
        book,
        cut,
        shares.as_slice(),
    )? {
        Some((answer, totals)) => Ok((answer, totals, shares)),
        None => unreachable!(),
    }
}

/// Explores on one thread. All the work is in the first worker's share.
///
/// # Errors
/// `OutOfMemory` where a growth was refused.
pub fn explore_alone<M: Encode>(
    alloc: Global,
    machine: M,
    program: &Program,
    options: Options,
) -> Result<Report<M>, OutOfMemory>
    ensures { IfOk result (λ r. IsReport M.rules machine program.now options r.answer r.totals r.shares.items r.book) }
{
    let mut book = opened(alloc, machine, program, options)?;
    match answer_alone(alloc, machine, program, options, &mut book) {
        Ok((answer, totals, shares)) => Ok(Report {
            answer,
            totals,
            shares,
            book,
        }),
        Err(OutOfMemory) => {
            let_go(book);
            Err(OutOfMemory)
        }
    }
}

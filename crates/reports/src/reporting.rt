//! The report on a book.
ghost use Rattle.std.specs.Prelude.{◌≡◌, ℕ, ◌<◌, ◌↔◌, IsTrue, IsSome, IfOk, IfSome, IfNone, length};
ghost use Rattle.book.specs.Books.{machine_in};
ghost use Rattle.reports.specs.Driving.{IsLedgerOf};
ghost use Rattle.reports.specs.Ledger.{ledger};
ghost use Rattle.reports.specs.Reading.{IsCutIn, IsWorkedOff};
ghost use Rattle.reports.specs.Reporting.{IsBookOf, IsReport};

use crate::answer::{Answer, Report, Share};
use crate::reading::read_answer;
use book::{Book, Totals};
use options::Options;
use sched_program::{OutOfMemory, Program};
use std::alloc::Global;
use tree_machine::Encode;

/// Whether a book is the one that was asked for.
fn is_asked<M: Encode>(book: &Book<M>, machine: M, program: &Program, options: Options) -> bool
    ensures { IsTrue result ↔ IsBookOf machine program.now options book.now }
{
    book.is_of(machine, program)
        && book.limit() == options.limit() as usize
        && book.merge() == options.merge()
}

/// The answer and the totals of a book, where the answer can be read off it. None where it can't,
/// or where the book is not the one that was asked for. If `cut` names an entry, the answer is that
/// the book has no room for its steps.
pub fn answer_with_totals<M: Encode>(
    alloc: Global,
    machine: M,
    program: &Program,
    options: Options,
    book: &mut Book<M>,
    cut: Option<usize>,
    shares: &[Share],
) -> Result<Option<(Answer, Totals)>, OutOfMemory>
    requires shares { length shares.now ≡ options.workers }
    requires ledger { IsLedgerOf book.old (ledger shares.now) }
    ensures report { IfOk result
        (λ o. IfSome o (λ t. IsReport M.rules machine program.now options t.0 t.1 shares.now book.new)) }
    ensures finished { IsBookOf machine program.now options book.old → cut ≡ None
        → IsWorkedOff (machine_in M.rules book.old).steps book.old.entries options.steps
        → IfOk result (λ o. IsSome o) }
    ensures stopped { IsBookOf machine program.now options book.old → IfSome cut (λ id. (d : ℕ) → d < options.steps
        → IsCutIn M.rules book.old d id → IfOk result (λ o. IsSome o)) }
{
    if !is_asked(book, machine, program, options) {
        return Ok(None);
    }
    book.law();
    match read_answer(alloc, program, book, options, cut)? {
        Some(answer) => Ok(Some((answer, book.totals()))),
        None => Ok(None),
    }
}

/// Drops a book. A function that does so itself is proved, at each of its exits, over all that the
/// book holds.
pub fn let_go<M: Encode>(_book: Book<M>) {}

/// The sum of shares. None where a count of it is too large.
fn sum_of(shares: &[Share]) -> Option<Share>
    ensures { IfSome result (λ sum. sum ≡ ledger shares.now) }
{
    let mut sum = Share::none();
    for share in shares {
        sum = Share {
            expanded: sum.expanded.checked_add(share.expanded)?,
            entered: sum.entered.checked_add(share.entered)?,
            met: sum.met.checked_add(share.met)?,
        };
    }
    Some(sum)
}

/// Whether shares sum to the totals of a book.
fn is_ledger_of<M: Encode>(book: &Book<M>, shares: &[Share]) -> bool
    ensures { IsTrue result → IsLedgerOf book.now (ledger shares.now) }
{
    let totals = book.totals();
    match sum_of(shares) {
        Some(sum) => {
            sum.expanded == totals.expanded
                && sum.entered == totals.entered
                && sum.met == totals.met
        }
        None => false,
    }
}

/// The report on a book, where the answer can be read off it. None where it can't, where the book
/// is not the one that was asked for, or where the shares do not sum to its totals.
pub fn report_of<M: Encode>(
    alloc: Global,
    machine: M,
    program: &Program,
    options: Options,
    mut book: Book<M>,
    cut: Option<usize>,
    shares: Vec<Share>,
) -> Result<Option<Report<M>>, OutOfMemory>
    requires shares { length shares.items ≡ options.workers }
    ensures { IfOk result
        (λ o. IfSome o (λ r. IsReport M.rules machine program.now options r.answer r.totals r.shares.items r.book)) }
{
    if !is_ledger_of(&book, shares.as_slice()) {
        let_go(book);
        return Ok(None);
    }
    match answer_with_totals(
        alloc,
        machine,
        program,
        options,
        &mut book,
        cut,
        shares.as_slice(),
    ) {
        Ok(Some((answer, totals))) => Ok(Some(Report {
            answer,
            totals,
            shares,
            book,
        })),
        Ok(None) => {
            let_go(book);
            Ok(None)
        }
        Err(OutOfMemory) => {
            let_go(book);
            Err(OutOfMemory)
        }
    }
}

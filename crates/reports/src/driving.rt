//! The expansion of the layers on one thread, entry by entry.
ghost use Rattle.std.specs.Prelude.{◌≡◌, ℕ, ◌+◌, ◌<◌, ◌≤◌, IfOk, IfSome, IfNone, OnOk, None, count_by};
ghost use Rattle.book.specs.Books.{machine_in};
ghost use Rattle.book.specs.Entries.{is_expanded};
ghost use Rattle.book.specs.Layers.{IsLeftTo};
ghost use Rattle.reports.specs.Driving.{IsInLayer, IsKept, IsLedgerOf};
ghost use Rattle.reports.specs.Reading.{first_fault, IsCutIn, IsWorkedOff, StandsAt};

use crate::answer::Share;
use book::{Book, EnterFault, Expansion};
use sched_program::{OutOfMemory, Program};
use std::alloc::Global;
use tree_machine::Encode;

/// Takes the next entry of a layer, and enters its steps. Returns the entry if the book has no room
/// for them.
fn expand_next<M: Encode>(
    alloc: Global,
    program: &Program,
    book: &mut Book<M>,
    depth: u64,
    share: &mut Share,
) -> Result<Option<usize>, OutOfMemory>
    requires program { program.now ≡ book.old.program }
    requires in_layer { IsInLayer (machine_in M.rules book.old).steps book.old.entries depth }
    requires left { IsLeftTo (machine_in M.rules book.old).steps book.old.entries depth }
    requires ledger { IsLedgerOf book.old share.old }
    ensures kept { OnOk result (IsKept book.old book.new) }
    ensures ledger { OnOk result (IsLedgerOf book.new share.new) }
    ensures next { IfOk result (λ o. IfNone o (IsInLayer (machine_in M.rules book.old).steps book.new.entries depth)) }
    ensures more { IfOk result (λ o. IfNone o (count_by (λ e. is_expanded e.mark) book.new.entries
        ≡ count_by (λ e. is_expanded e.mark) book.old.entries + 1)) }
    ensures cut { IfOk result (λ o. IfSome o (IsCutIn M.rules book.new depth)) }
{
    book.law();
    let Some((id, state)) = book.take()? else {
        unreachable!();
    };
    book.law();
    let expansion = Expansion::of(alloc, book.machine(), program, &*state)?;
    expansion.law();
    match book.enter(id, expansion) {
        Ok(counts) => {
            share.add(counts);
            Ok(None)
        }
        Err(EnterFault::Full) => Ok(Some(id)),
        Err(EnterFault::OutOfMemory) => Err(OutOfMemory),
        Err(EnterFault::NotTaken) => unreachable!(),
        Err(EnterFault::Stranger) => unreachable!(),
    }
}

/// Expands a layer. Returns the entry for whose steps the book has no room, if there is one.
fn expand_layer<M: Encode>(
    alloc: Global,
    program: &Program,
    book: &mut Book<M>,
    depth: u64,
    share: &mut Share,
) -> Result<Option<usize>, OutOfMemory>
    requires program { program.now ≡ book.old.program }
    requires stands { StandsAt (machine_in M.rules book.old).steps book.old.entries depth }
    requires sound { first_fault book.old.entries ≡ None }
    requires ledger { IsLedgerOf book.old share.old }
    ensures kept { OnOk result (IsKept book.old book.new) }
    ensures ledger { OnOk result (IsLedgerOf book.new share.new) }
    ensures next { IfOk result
        (λ o. IfNone o (StandsAt (machine_in M.rules book.old).steps book.new.entries (depth + 1))) }
    ensures cut { IfOk result (λ o. IfSome o (IsCutIn M.rules book.new depth)) }
{
    'layer: while book.is_left_to(depth) {
        if let Some(id) = expand_next(alloc, program, book, depth, share)? {
            return Ok(Some(id));
        }
        book.law();
    }
    Ok(None)
}

/// Expands the layers below a number of steps, or those below the first layer with a fault. Returns
/// the entry for whose steps the book has no room, if there is one.
pub(crate) fn drive<M: Encode>(
    alloc: Global,
    program: &Program,
    book: &mut Book<M>,
    steps: u16,
    share: &mut Share,
) -> Result<Option<usize>, OutOfMemory>
    requires program { program.now ≡ book.old.program }
    requires stands { StandsAt (machine_in M.rules book.old).steps book.old.entries 0 }
    requires ledger { IsLedgerOf book.old share.old }
    ensures kept { OnOk result (IsKept book.old book.new) }
    ensures ledger { OnOk result (IsLedgerOf book.new share.new) }
    ensures done { IfOk result
        (λ o. IfNone o (IsWorkedOff (machine_in M.rules book.old).steps book.new.entries steps)) }
    ensures cut { IfOk result (λ o. IfSome o (λ i. (d : ℕ) × (d < steps) × IsCutIn M.rules book.new d i)) }
{
    'layers: for depth in 0..steps {
        if book.first_fault().is_some() || !book.is_left_to(u64::from(depth)) {
            return Ok(None);
        }
        if let Some(id) = expand_layer(alloc, program, book, u64::from(depth), share)? {
            return Ok(Some(id));
        }
    }
    Ok(None)
}

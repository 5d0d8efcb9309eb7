//! The due answer, read off a book.
ghost use Rattle.std.specs.Prelude.{◌≡◌, ℕ, ◌<◌, ◌≤◌, ◌↔◌};
ghost use Rattle.std.specs.Prelude.{IsTrue, IsSome, IfOk, IfSome, Some, None, false, true};
ghost use Rattle.book.specs.Books.{machine_in};
ghost use Rattle.tree_machine.specs.Step.{Fits};
ghost use Rattle.tree_machine.specs.declared.state.State.{State};
ghost use Rattle.book.specs.Entries.{At, Entry};
ghost use Rattle.replay.specs.Schedule.{after};
ghost use Rattle.replay.specs.Findings.{is_sound};
ghost use Rattle.book.specs.Layers.{IsExpandedBelow};
ghost use Rattle.reports.specs.Reading.{first_fault, IsAtRest, IsCutIn, IsFullIn, IsLastLayer, IsReadOff, IsWorkedOff};

use crate::answer::Answer;
use book::{Book, EnterFault, Expansion, Finding, Merge, ReplayFault, replay};
use options::Options;
use sched_program::{OutOfMemory, Program};
use std::alloc::Global;
use tree_machine::{Encode, State};

/// What was found of the first entry that is not sound.
fn fault_at<M: Encode>(book: &Book<M>, id: usize) -> Finding
    requires { first_fault book.now.entries ≡ Some id }
    ensures { (e : Entry (State M M.Mem M.Loc M.Form)) × At book.now.entries id e × (e.finding ≡ result) }
{
    match book.finding_of(id) {
        Some(finding) => *finding,
        None => unreachable!(),
    }
}

/// Whether an entry of fewer steps is not expanded.
fn is_left_below<M: Encode>(book: &Book<M>, steps: u64) -> bool
    ensures none { result ≡ false → IsExpandedBelow (machine_in M.rules book.now).steps book.now.entries steps }
    ensures left { result ≡ true → IsExpandedBelow (machine_in M.rules book.now).steps book.now.entries steps → ⊥ }
{
    match steps.checked_sub(1) {
        Some(before) => book.is_left_to(before),
        None => false,
    }
}

/// Whether every entry of fewer steps is expanded, and none has more.
fn is_last_layer<M: Encode>(book: &Book<M>, steps: u64) -> bool
    ensures { IsTrue result ↔ IsLastLayer (machine_in M.rules book.now).steps book.now.entries steps }
{
    !is_left_below(book, steps) && book.count_to(steps) == book.len()
}

/// Whether states are merged by names, and no entry has `steps` steps or more.
fn is_at_rest<M: Encode>(book: &Book<M>, steps: u64) -> bool
    ensures { IsTrue result ↔ IsAtRest (machine_in M.rules book.now).steps book.now.entries book.now.merge steps }
{
    match steps.checked_sub(1) {
        None => false,
        Some(before) => match book.merge() {
            Merge::Exact => false,
            Merge::Names => book.count_to(before) == book.len(),
        },
    }
}

/// Whether every entry of at most `steps` steps is sound.
fn is_sound_to<M: Encode>(alloc: Global, book: &Book<M>, steps: usize) -> Result<bool, OutOfMemory>
    ensures { IfOk result (λ yes. IsTrue yes ↔ ((i : ℕ) (e : Entry (State M M.Mem M.Loc M.Form))
        → At book.now.entries i e → e.state.steps ≤ steps → is_sound e.finding ≡ true)) }
{
    book.law();
    match book.first_fault() {
        None => Ok(true),
        Some(id) => Ok(book.schedule_of(alloc, id)?.len() > steps),
    }
}

/// The answer where the layers below that of a fault are expanded: its schedule. None where they
/// are not, or where the fault lies beyond the steps that are asked for.
fn read_fault<M: Encode>(
    alloc: Global,
    book: &Book<M>,
    steps: u16,
    id: usize,
) -> Result<Option<Answer>, OutOfMemory>
    requires { first_fault book.now.entries ≡ Some id }
    ensures read_off { IfOk result (λ o. IfSome o (IsReadOff M.rules book.now steps)) }
    ensures some { IsWorkedOff (machine_in M.rules book.now).steps book.now.entries steps
        → IfOk result (λ o. IsSome o) }
{
    book.law();
    let schedule = book.schedule_of(alloc, id)?;
    let length = schedule.len();
    if length > usize::from(steps) || !is_last_layer(book, length as u64) {
        return Ok(None);
    }
    let finding = fault_at(book, id);
    Ok(Some(Answer::Fault { finding, schedule }))
}

/// The answer where the layers are expanded, up to the first with a fault. None where they are not,
/// or where the last one is expanded too.
fn read_finished<M: Encode>(
    alloc: Global,
    book: &Book<M>,
    steps: u16,
) -> Result<Option<Answer>, OutOfMemory>
    ensures read_off { IfOk result (λ o. IfSome o (IsReadOff M.rules book.now steps)) }
    ensures some { IsWorkedOff (machine_in M.rules book.now).steps book.now.entries steps
        → IfOk result (λ o. IsSome o) }
{
    match book.first_fault() {
        Some(id) => read_fault(alloc, book, steps, id),
        None => {
            book.law();
            let last = u64::from(steps);
            if !is_last_layer(book, last) {
                return Ok(None);
            }
            if is_at_rest(book, last) {
                return Ok(Some(Answer::Every));
            }
            // The entries of the last layer are expanded too, which no worker here brings about.
            if book.closed() {
                return Ok(None);
            }
            Ok(Some(Answer::Holds { steps }))
        }
    }
}

/// Whether an entry, which has this state, is taken and the book has no room for its steps. The
/// steps are rebuilt, and entered if there is room; after that no answer is read off the book.
fn is_full_for<M: Encode>(
    alloc: Global,
    program: &Program,
    book: &mut Book<M>,
    id: usize,
    state: &State<M>,
) -> Result<bool, OutOfMemory>
    requires program { program.now ≡ book.old.program }
    requires own { (e : Entry (State M M.Mem M.Loc M.Form)) × At book.old.entries id e × (e.state ≡ state.now) }
    requires fits { Fits (M.rules book.old.machine) book.old.program state.now }
    ensures full { IfOk result (λ yes. yes ≡ true → IsFullIn M.rules book.old id) }
    ensures yes { IsFullIn M.rules book.old id → IfOk result (λ yes. yes ≡ true) }
    ensures same { IfOk result (λ yes. yes ≡ true → book.new ≡ book.old) }
{
    book.law();
    let expansion = Expansion::of(alloc, book.machine(), program, state)?;
    expansion.law();
    match book.enter(id, expansion) {
        Err(EnterFault::Full) => Ok(true),
        Err(EnterFault::OutOfMemory) => Err(OutOfMemory),
        Err(EnterFault::NotTaken) => Ok(false),
        Err(EnterFault::Stranger) => Ok(false),
        Ok(_) => Ok(false),
    }
}

/// Whether an entry is taken and the book has no room for its steps. The schedule reaches the
/// entry's state.
fn is_full_at<M: Encode>(
    alloc: Global,
    program: &Program,
    book: &mut Book<M>,
    id: usize,
    schedule: &[u8],
) -> Result<bool, OutOfMemory>
    requires program { program.now ≡ book.old.program }
    requires way { (e : Entry (State M M.Mem M.Loc M.Form)) × At book.old.entries id e
        × (after (machine_in M.rules book.old) schedule.now ≡ Some e.state) }
    ensures full { IfOk result (λ yes. yes ≡ true → IsFullIn M.rules book.old id) }
    ensures yes { IsFullIn M.rules book.old id → IfOk result (λ yes. yes ≡ true) }
    ensures same { IfOk result (λ yes. yes ≡ true → book.new ≡ book.old) }
{
    match replay(alloc, book.machine(), program, schedule) {
        Ok(end) => is_full_for(alloc, program, book, id, &end.state),
        Err(ReplayFault::OutOfMemory) => Err(OutOfMemory),
        Err(ReplayFault::NotEnabled(_)) => Ok(false),
    }
}

/// The answer where the book has no room for the steps of an entry. None where it has room, or
/// where that entry's layer is not due to be expanded.
fn read_stopped<M: Encode>(
    alloc: Global,
    program: &Program,
    book: &mut Book<M>,
    options: Options,
    id: usize,
) -> Result<Option<Answer>, OutOfMemory>
    requires program { program.now ≡ book.old.program }
    requires limit { book.old.limit ≡ options.limit }
    ensures read_off { IfOk result (λ o. IfSome o (IsReadOff M.rules book.old options.steps)) }
    ensures same { IfOk result (λ o. IfSome o (λ _. book.new ≡ book.old)) }
    ensures some { (d : ℕ) → d < options.steps → IsCutIn M.rules book.old d id → IfOk result (λ o. IsSome o) }
{
    if id >= book.len() {
        return Ok(None);
    }
    let schedule = book.schedule_of(alloc, id)?;
    let holds_to = schedule.len();
    if holds_to >= usize::from(options.steps()) || !is_sound_to(alloc, book, holds_to)? {
        return Ok(None);
    }
    book.law();
    if !is_full_at(alloc, program, book, id, schedule.as_slice())? {
        return Ok(None);
    }
    Ok(Some(Answer::Stopped {
        limit: options.limit(),
        holds_to: holds_to as u16,
    }))
}

/// The due answer, if it can be read off the book. If `cut` names an entry, it rests on the book
/// having no room for that entry's steps, else on the layers being expanded.
pub(crate) fn read_answer<M: Encode>(
    alloc: Global,
    program: &Program,
    book: &mut Book<M>,
    options: Options,
    cut: Option<usize>,
) -> Result<Option<Answer>, OutOfMemory>
    requires program { program.now ≡ book.old.program }
    requires limit { book.old.limit ≡ options.limit }
    ensures read_off { IfOk result (λ o. IfSome o (IsReadOff M.rules book.old options.steps)) }
    ensures same { IfOk result (λ o. IfSome o (λ _. book.new ≡ book.old)) }
    ensures finished { cut ≡ None → IsWorkedOff (machine_in M.rules book.old).steps book.old.entries options.steps
        → IfOk result (λ o. IsSome o) }
    ensures stopped { IfSome cut (λ id. (d : ℕ) → d < options.steps → IsCutIn M.rules book.old d id
        → IfOk result (λ o. IsSome o)) }
{
    match cut {
        None => read_finished(alloc, book, options.steps()),
        Some(id) => read_stopped(alloc, program, book, options, id),
    }
}

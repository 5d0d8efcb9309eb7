//! What a book enters, and what it refuses.
ghost use Rattle.std.specs.Prelude.{◌+◌, ◌^◌, ◌<◌};
ghost use Rattle.tree_machine.specs.Atomic.{atomic_rules};
ghost use Rattle.tree_machine.specs.Step.{Fits};

use crate::fixtures::{
    Broken, TWO_INSERTS, enter_under, expand_next, expanded, has_none_left, is_broken, open,
    program_of, replayed, settled, take_next, take_number,
};
use crate::picture::Picture;
use book::{Book, Expansion, Merge};
use sched_program::Program;
use std::alloc::Global;
use std::test::Fail;
use tree_machine::{Atomic, State};

/// Whether the steps of a state are refused for this under the number of an entry, and the book is
/// left as it is.
fn refuses(
    alloc: Global,
    book: &mut Book<Atomic>,
    id: usize,
    state: &State<Atomic>,
    fault: Broken,
) -> Result<bool, Broken>
    requires fits { Fits atomic_rules book.old.program state.now }
    requires steps_fit { state.now.steps + 1 < 2 ^ 64 }
{
    let before = Picture::of(alloc, book)?;
    let answer = enter_under(alloc, book, id, state);
    Ok(is_broken(answer, fault)? && before.is_of(alloc, book)?)
}

/// Enters the steps of a state, and then the same ones under the same number.
fn enters_once(
    alloc: Global,
    book: &mut Book<Atomic>,
    id: usize,
    state: &State<Atomic>,
) -> Result<bool, Broken>
    requires fits { Fits atomic_rules book.old.program state.now }
    requires steps_fit { state.now.steps + 1 < 2 ^ 64 }
{
    let first = enter_under(alloc, book, id, state)?;
    let is_again = refuses(alloc, book, id, state, Broken::NotTaken)?;
    Ok(first.entered == 2 && first.met == 0 && is_again)
}

/// Takes the start, and enters its steps once.
fn enters_the_start_once(alloc: Global, book: &mut Book<Atomic>) -> Result<bool, Broken> {
    let (id, state) = take_next(book)?;
    enters_once(alloc, book, id, &state)
}

fn is_entered_once(alloc: Global) -> Result<bool, Broken> {
    let mut book = expanded(alloc, Merge::Exact, 0)?;
    enters_the_start_once(alloc, &mut *book)
}

#[test]
fn an_entry_is_expanded_once(rt: HostRuntime) -> Result<(), Fail> {
    let alloc = rt.alloc();
    let is_once = settled!(is_entered_once(alloc))?;
    assert!(rt; is_once);
    Ok(())
}

/// Takes entry 2, and enters the steps of another state under it.
fn refuses_under_the_second(
    alloc: Global,
    book: &mut Book<Atomic>,
    stranger: &State<Atomic>,
) -> Result<bool, Broken>
    requires fits { Fits atomic_rules book.old.program stranger.now }
    requires steps_fit { stranger.now.steps + 1 < 2 ^ 64 }
{
    let two = take_number(book)?;
    Ok(two == 2 && refuses(alloc, book, two, stranger, Broken::Stranger)?)
}

/// Takes entries 1 and 2, the last ones, and enters the steps of entry 1 under entry 2.
fn refuses_a_stranger(alloc: Global, book: &mut Book<Atomic>) -> Result<bool, Broken> {
    let (one, state) = take_next(book)?;
    let is_refused = refuses_under_the_second(alloc, book, &state)?;
    Ok(one == 1 && is_refused)
}

fn is_stranger_refused(alloc: Global) -> Result<bool, Broken> {
    let mut book = expanded(alloc, Merge::Exact, 1)?;
    Ok(refuses_a_stranger(alloc, &mut *book)? && has_none_left(&mut *book)?)
}

#[test]
fn a_stranger_is_refused(rt: HostRuntime) -> Result<(), Fail> {
    let alloc = rt.alloc();
    let is_refused = settled!(is_stranger_refused(alloc))?;
    assert!(rt; is_refused);
    Ok(())
}

/// Enters the two steps of the start into a book that has room for one.
fn refuses_too_many(alloc: Global, book: &mut Book<Atomic>) -> Result<bool, Broken> {
    let answer = expand_next(alloc, book);
    let totals = book.totals();
    Ok(is_broken(answer, Broken::Full)? && totals.entries == 1 && totals.taken == 1)
}

fn is_full_book_left(alloc: Global) -> Result<bool, Broken> {
    let mut book = open(alloc, Atomic, TWO_INSERTS, 2, Merge::Exact)?;
    refuses_too_many(alloc, &mut *book)
}

#[test]
fn a_full_book_is_left_as_it_is(rt: HostRuntime) -> Result<(), Fail> {
    let alloc = rt.alloc();
    let is_left = settled!(is_full_book_left(alloc))?;
    assert!(rt; is_left);
    Ok(())
}

/// Schedules of the two inserts, each with how many threads are enabled behind it.
const ENABLED: [(&[u8], usize); 3] = [(&[], 2), (&[0], 1), (&[1, 0], 0)];

/// How many steps the expansion of a state of this program has.
fn step_count(alloc: Global, program: &Program, state: &State<Atomic>) -> Result<usize, Broken>
    requires { Fits atomic_rules program.now state.now }
{
    // No schedule of these tests is longer.
    if state.steps() > 1000 {
        return Err(Broken::NoEntry);
    }
    Ok(Expansion::of(alloc, Atomic, program, state)?.len())
}

fn has_steps(alloc: Global, schedule: &[u8], count: usize) -> Result<bool, Broken> {
    let program = program_of(alloc, TWO_INSERTS)?;
    let end = replayed(alloc, Atomic, &program, schedule)?;
    Ok(step_count(alloc, &program, &end.state)? == count)
}

#[test]
fn an_expansion_has_the_enabled_steps(rt: HostRuntime) -> Result<(), Fail> {
    let alloc = rt.alloc();
    for (schedule, count) in ENABLED {
        let is_so = settled!(has_steps(alloc, schedule, count))?;
        assert!(rt; is_so, "{schedule:?}");
    }
    Ok(())
}

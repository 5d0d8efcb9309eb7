//! Entries with their steps that a book refuses. The refusal leaves the book as it was, and it then
//! enters the steps of its own.
ghost use Rattle.std.specs.Prelude.{◌≡◌, OnOk};
ghost use Rattle.book.specs.ByLabel.{IsOf};

use crate::by_label::{enter_by_label, steps_by_label};
use crate::fixtures::{
    BOTH_NEW, Broken, ELLEN, MERGES, ONE_NEW, TWO_FINDS, TWO_INSERTS, expand, expanded, is_broken,
    open, settled, take_number,
};
use crate::picture::Picture;
use book::{Book, Entered, ExpandedEntry, Merge, Recycled, Scratch};
use ellen::Ellen;
use std::alloc::Global;
use std::test::Fail;
use tree_machine::{Atomic, Encode};

/// Enters an entry's steps, with no memory kept for reuse.
fn enter<M: Encode>(
    alloc: Global,
    book: &mut Book<M>,
    steps: ExpandedEntry<'_, M>,
) -> Result<Entered, Broken>
    requires { IsOf book.old.machine book.old.program steps.key }
    ensures machine { OnOk result (book.new.machine ≡ book.old.machine) }
    ensures program { OnOk result (book.new.program ≡ book.old.program) }
{
    Ok(book.enter_expanded(steps, &mut Recycled::none(alloc))?)
}

/// Whether an entry's steps are refused for this, and the book is left as it is.
fn refuses<M: Encode>(
    alloc: Global,
    book: &mut Book<M>,
    steps: ExpandedEntry<'_, M>,
    fault: Broken,
) -> Result<bool, Broken>
    requires { IsOf book.old.machine book.old.program steps.key }
{
    let before = Picture::of(alloc, book)?;
    let answer = enter(alloc, book, steps);
    Ok(is_broken(answer, fault)? && before.is_of(alloc, book)?)
}

/// Takes the start, makes its steps twice, and enters the first ones. Whether the second ones are
/// refused then.
fn enters_the_start_once(alloc: Global, book: &mut Book<Atomic>) -> Result<bool, Broken> {
    let mut scratch = Scratch::new(alloc);
    let id = take_number(book)?;
    let program = book.program().copy(alloc)?;
    let steps = steps_by_label(alloc, book, id, &program, &mut scratch)?;
    let again = steps_by_label(alloc, book, id, &program, &mut scratch)?;
    let entered = enter(alloc, book, steps)?;
    Ok(entered == BOTH_NEW && refuses(alloc, book, again, Broken::NotTaken)?)
}

fn is_entered_once(alloc: Global, merge: Merge) -> Result<bool, Broken> {
    let mut book = expanded(alloc, merge, 0)?;
    enters_the_start_once(alloc, &mut *book)
}

#[test]
fn an_entry_with_its_steps_is_entered_once(rt: HostRuntime) -> Result<(), Fail> {
    let alloc = rt.alloc();
    for merge in MERGES {
        let is_once = settled!(is_entered_once(alloc, merge))?;
        assert!(rt; is_once, "{merge:?}");
    }
    Ok(())
}

/// Whether a book refuses, for this fault, the steps of another book's entry of this number. Both
/// books are of one machine and one program.
fn refuses_of<M: Encode>(
    alloc: Global,
    book: &mut Book<M>,
    other: &Book<M>,
    id: usize,
    fault: Broken,
) -> Result<bool, Broken> {
    let mut scratch = Scratch::new(alloc);
    let program = other.program().copy(alloc)?;
    if !book.is_of(other.machine(), &program) {
        return Ok(false);
    }
    let steps = steps_by_label(alloc, other, id, &program, &mut scratch)?;
    refuses(alloc, book, steps, fault)
}

/// The book of the two inserts with the steps of the start, which are taken where this says so.
fn with_two(alloc: Global, is_taken: bool) -> Result<Box<Book<Atomic>>, Broken> {
    let mut book = expanded(alloc, Merge::Exact, 1)?;
    if is_taken {
        book.take_range();
    }
    Ok(book)
}

/// Whether entry 1, taken in one book, is refused in another, in which it is open.
fn is_open_refused(alloc: Global) -> Result<bool, Broken> {
    let mut book = with_two(alloc, false)?;
    let other = with_two(alloc, true)?;
    refuses_of(alloc, &mut *book, &*other, 1, Broken::NotTaken)
}

/// Whether entry 1, taken in one book, is refused in another, which has the start alone.
fn is_missing_refused(alloc: Global) -> Result<bool, Broken> {
    let mut book = expanded(alloc, Merge::Exact, 0)?;
    let other = with_two(alloc, true)?;
    refuses_of(alloc, &mut *book, &*other, 1, Broken::NotTaken)
}

#[test]
fn an_entry_that_is_not_taken_is_refused(rt: HostRuntime) -> Result<(), Fail> {
    let alloc = rt.alloc();
    let is_refused = settled!(is_open_refused(alloc))?;
    assert!(rt; is_refused, "open");
    let is_refused = settled!(is_missing_refused(alloc))?;
    assert!(rt; is_refused, "no entry");
    Ok(())
}

/// Whether a book refuses the steps of another's entry as a stranger's, and then enters those of
/// its own.
fn refuses_a_stranger<M: Encode>(
    alloc: Global,
    book: &mut Book<M>,
    other: &Book<M>,
    id: usize,
    counts: Entered,
) -> Result<bool, Broken> {
    if !refuses_of(alloc, book, other, id, Broken::Stranger)? {
        return Ok(false);
    }
    let entered = enter_by_label(alloc, book, id, &mut Scratch::new(alloc))?;
    Ok(entered == counts)
}

/// The book of a machine and a program, whose start is taken.
fn start_taken<M: Encode>(
    alloc: Global,
    machine: M,
    text: &str,
    merge: Merge,
) -> Result<Box<Book<M>>, Broken> {
    let mut book = open(alloc, machine, text, 100, merge)?;
    book.take_range();
    Ok(book)
}

fn is_other_merge_refused(alloc: Global, merge: Merge, other: Merge) -> Result<bool, Broken> {
    let mut book = start_taken(alloc, Atomic, TWO_INSERTS, merge)?;
    let other = start_taken(alloc, Atomic, TWO_INSERTS, other)?;
    refuses_a_stranger(alloc, &mut *book, &*other, 0, BOTH_NEW)
}

/// The book of the two inserts, which entered the steps of these two entries in this order. Then
/// its last two are taken.
fn entered_in_turn(
    alloc: Global,
    merge: Merge,
    turns: [usize; 2],
) -> Result<Box<Book<Atomic>>, Broken> {
    let mut book = expanded(alloc, merge, 1)?;
    let mut scratch = Scratch::new(alloc);
    book.take_range();
    for id in turns {
        enter_by_label(alloc, &mut *book, id, &mut scratch)?;
    }
    book.take_range();
    Ok(book)
}

/// Entry 3 of one book is the state after both threads' inserts in their order, and of the other
/// that after them the other way round.
fn is_other_label_refused(alloc: Global, merge: Merge) -> Result<bool, Broken> {
    let mut book = entered_in_turn(alloc, merge, [1, 2])?;
    let other = entered_in_turn(alloc, merge, [2, 1])?;
    refuses_a_stranger(
        alloc,
        &mut *book,
        &*other,
        3,
        Entered { entered: 0, met: 0 },
    )
}

#[test]
fn steps_of_another_merge_or_label_are_refused(rt: HostRuntime) -> Result<(), Fail> {
    let alloc = rt.alloc();
    for (merge, other) in [(Merge::Exact, Merge::Names), (Merge::Names, Merge::Exact)] {
        let is_refused = settled!(is_other_merge_refused(alloc, merge, other))?;
        assert!(rt; is_refused, "{other:?} into {merge:?}");
        let is_refused = settled!(is_other_label_refused(alloc, merge))?;
        assert!(rt; is_refused, "{merge:?}");
    }
    Ok(())
}

/// How many entries the book of the two finds may have, how many of them are expanded, and what
/// comes of the steps of the next. A step to a known state needs no room.
const LIMITS: [(usize, usize, Result<Entered, Broken>); 4] = [
    (2, 0, Err(Broken::Full)),
    (3, 0, Ok(BOTH_NEW)),
    (5, 2, Err(Broken::Full)),
    (6, 2, Ok(ONE_NEW)),
];

/// Whether entering the steps of a taken entry comes to this, and leaves the book as it is where it
/// is refused.
fn comes_to(
    alloc: Global,
    book: &mut Book<Ellen>,
    id: usize,
    end: Result<Entered, Broken>,
) -> Result<bool, Broken> {
    let before = Picture::of(alloc, book)?;
    let answer = enter_by_label(alloc, book, id, &mut Scratch::new(alloc));
    match end {
        Ok(counts) => Ok(answer? == counts),
        Err(fault) => Ok(is_broken(answer, fault)? && before.is_of(alloc, book)?),
    }
}

/// Expands `entries` entries, and takes the next one. Whether entering its steps comes to this.
fn comes_to_next(
    alloc: Global,
    book: &mut Book<Ellen>,
    entries: usize,
    end: Result<Entered, Broken>,
) -> Result<bool, Broken> {
    expand(alloc, book, entries)?;
    let id = take_number(book)?;
    comes_to(alloc, book, id, end)
}

fn is_within(
    alloc: Global,
    limit: usize,
    entries: usize,
    end: Result<Entered, Broken>,
    merge: Merge,
) -> Result<bool, Broken> {
    // No book of these tests has more entries.
    if limit == 0 || limit > 100 {
        return Err(Broken::NoEntry);
    }
    let mut book = open(alloc, ELLEN, TWO_FINDS, limit, merge)?;
    comes_to_next(alloc, &mut *book, entries, end)
}

#[test]
fn steps_with_no_room_are_refused(rt: HostRuntime) -> Result<(), Fail> {
    let alloc = rt.alloc();
    for (limit, entries, end) in LIMITS {
        for merge in MERGES {
            let is_so = settled!(is_within(alloc, limit, entries, end, merge))?;
            assert!(rt; is_so, "{entries} of {limit}, {merge:?}");
        }
    }
    Ok(())
}

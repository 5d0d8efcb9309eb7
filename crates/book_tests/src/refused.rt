//! A call that is refused memory leaves the book as it was, and the next such call answers as if
//! nothing had happened. With ample memory each case makes its call once;
//! `scripts/refuse_allocations.sh` refuses each request in turn.

use crate::by_label::enter_by_label;
use crate::fixtures::{Broken, enter_under, expanded, settled, take_next, take_number};
use crate::picture::Picture;
use book::{Book, Merge, Scratch, Totals};
use std::alloc::Global;
use std::test::Fail;
use tree_machine::{Atomic, State};

/// A call that changes the book of the two inserts, which has the start alone.
#[derive(Clone, Copy, Debug)]
enum Call {
    /// Takes the start.
    Take,
    /// Takes the start as a layer.
    TakeLayer,
    /// Enters the steps of the start, which was taken.
    Enter,
    /// Enters them where they are made from its label.
    EnterByLabel,
}

/// The totals after each call.
const CALLS: [(Call, Totals); 4] = [
    (Call::Take, START_TAKEN),
    (Call::TakeLayer, START_TAKEN),
    (Call::Enter, START_EXPANDED),
    (Call::EnterByLabel, START_EXPANDED),
];

const START_TAKEN: Totals = Totals {
    entries: 1,
    fresh: 0,
    taken: 1,
    expanded: 0,
    entered: 0,
    met: 0,
};

const START_EXPANDED: Totals = Totals {
    entries: 3,
    fresh: 2,
    taken: 0,
    expanded: 1,
    entered: 2,
    met: 0,
};

impl Call {
    /// Makes the call. Whether its answer is the right one.
    fn is_answered(
        self,
        alloc: Global,
        book: &mut Book<Atomic>,
        scratch: &mut Scratch<Atomic>,
    ) -> Result<bool, Broken> {
        match self {
            Call::Take => takes_the_start(book),
            Call::TakeLayer => takes_the_first_layer(book),
            Call::Enter => enters_both_steps(alloc, book),
            Call::EnterByLabel => enters_both_by_label(alloc, book, scratch),
        }
    }
}

fn takes_the_start(book: &mut Book<Atomic>) -> Result<bool, Broken> {
    let (id, state) = take_next(book)?;
    Ok(id == 0 && state.steps() == 0)
}

fn takes_the_first_layer(book: &mut Book<Atomic>) -> Result<bool, Broken> {
    let layer = book.take_layer()?;
    Ok(layer.len() == 1 && layer[0].0 == 0 && layer[0].1.steps() == 0)
}

fn enters_both_steps(alloc: Global, book: &mut Book<Atomic>) -> Result<bool, Broken> {
    let start = State::start(alloc, Atomic, book.program())?;
    let entered = enter_under(alloc, book, 0, &start)?;
    Ok(entered.entered == 2 && entered.met == 0)
}

fn enters_both_by_label(
    alloc: Global,
    book: &mut Book<Atomic>,
    scratch: &mut Scratch<Atomic>,
) -> Result<bool, Broken> {
    let entered = enter_by_label(alloc, book, 0, scratch)?;
    Ok(entered.entered == 2 && entered.met == 0)
}

/// Makes the call; where memory is refused, looks whether the book is as it was, and makes the call
/// once more.
fn is_answered_in_the_end(
    alloc: Global,
    book: &mut Book<Atomic>,
    call: Call,
) -> Result<bool, Broken> {
    let mut scratch = Scratch::new(alloc);
    let before = Picture::of(alloc, book)?;
    match call.is_answered(alloc, book, &mut scratch) {
        Err(Broken::OutOfMemory) => {
            let is_unchanged = before.is_of(alloc, book)?;
            Ok(is_unchanged && call.is_answered(alloc, book, &mut scratch)?)
        }
        answer => answer,
    }
}

/// Whether the call is answered as it should be, and the book has these totals then.
fn is_made(
    alloc: Global,
    book: &mut Book<Atomic>,
    call: Call,
    totals: Totals,
) -> Result<bool, Broken> {
    if matches!(call, Call::Enter | Call::EnterByLabel) {
        take_number(book)?;
    }
    Ok(is_answered_in_the_end(alloc, book, call)? && book.totals() == totals)
}

fn is_made_on_the_start(alloc: Global, call: Call, totals: Totals) -> Result<bool, Broken> {
    let mut book = expanded(alloc, Merge::Exact, 0)?;
    is_made(alloc, &mut *book, call, totals)
}

#[test]
fn a_refused_call_is_made_again(rt: HostRuntime) -> Result<(), Fail> {
    let alloc = rt.alloc();
    for (call, totals) in CALLS {
        let is_answered = settled!(is_made_on_the_start(alloc, call, totals))?;
        assert!(rt; is_answered, "{call:?}");
    }
    Ok(())
}

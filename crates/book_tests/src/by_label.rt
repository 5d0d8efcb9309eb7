//! Entries as a worker expands them: taken by their labels, worked on without the book, and
//! entered.
ghost use Rattle.std.specs.Prelude.{IfOk};
ghost use Rattle.book.specs.ByLabel.{IsOf};

use crate::fixtures::Broken;
use book::{Book, Entered, ExpandedEntry, Scratch};
use sched_program::Program;
use std::alloc::Global;
use tree_machine::Encode;

/// A taken entry of a book, with the steps that are made in what is decoded from its label.
pub fn steps_by_label<'a, M: Encode>(
    alloc: Global,
    book: &Book<M>,
    id: usize,
    program: &'a Program,
    scratch: &mut Scratch<M>,
) -> Result<ExpandedEntry<'a, M>, Broken>
    ensures { IfOk result (λ steps. IsOf book.now.machine book.now.program steps.key) }
{
    if !book.is_of(book.machine(), program) {
        return Err(Broken::Stranger);
    }
    let Some(entry) = book.taken_entry(id, program, scratch)? else {
        return Err(Broken::NotTaken);
    };
    match entry.expand(alloc, scratch)? {
        Some(steps) => Ok(steps),
        None => Err(Broken::NoSteps),
    }
}

/// Enters an entry's steps. The scratch reuses what is left over.
pub fn enter_steps<M: Encode>(
    book: &mut Book<M>,
    steps: ExpandedEntry<'_, M>,
    scratch: &mut Scratch<M>,
) -> Result<Entered, Broken>
    requires { IsOf book.old.machine book.old.program steps.key }
{
    let recycled = scratch.recycled(steps.len(), 1)?;
    Ok(book.enter_expanded(steps, recycled)?)
}

/// Enters the steps of a taken entry of this program.
fn enter_of<M: Encode>(
    alloc: Global,
    book: &mut Book<M>,
    id: usize,
    program: &Program,
    scratch: &mut Scratch<M>,
) -> Result<Entered, Broken> {
    let steps = steps_by_label(alloc, book, id, program, scratch)?;
    enter_steps(book, steps, scratch)
}

/// Enters the steps of a taken entry, made from its label.
pub fn enter_by_label<M: Encode>(
    alloc: Global,
    book: &mut Book<M>,
    id: usize,
    scratch: &mut Scratch<M>,
) -> Result<Entered, Broken> {
    let program = book.program().copy(alloc)?;
    enter_of(alloc, book, id, &program, scratch)
}

/// Takes the entries of a layer, and enters the steps of each.
fn expand_layer<M: Encode>(
    alloc: Global,
    book: &mut Book<M>,
    scratch: &mut Scratch<M>,
) -> Result<(), Broken> {
    let (start, end) = book.take_range();
    for id in start..end {
        enter_by_label(alloc, book, id, scratch)?;
    }
    Ok(())
}

/// Expands `layers` layers, with one scratch.
pub fn expand_layers<M: Encode>(
    alloc: Global,
    book: &mut Book<M>,
    layers: usize,
) -> Result<(), Broken> {
    let mut scratch = Scratch::new(alloc);
    for _layer in 0..layers {
        expand_layer(alloc, book, &mut scratch)?;
    }
    Ok(())
}

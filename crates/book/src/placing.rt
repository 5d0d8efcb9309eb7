//! Steps inserted into the entries of a book.
ghost use Rattle.std.specs.Prelude.{◌≡◌, ◌<◌, ◌∷◌, [], IsSome, OnErr, OnOk};
ghost use Rattle.std.specs.List.{All};
ghost use Rattle.tree_machine.specs.Step.{step};
ghost use Rattle.book.specs.Slots.{IsGrown, with_rows};

use crate::entry::{Origin, Row};
use crate::label::Label;
use crate::recycled::Recycled;
use crate::shown::{Shown, shown_step};
use crate::slots::put_new;
use crate::successor::Successor;
use indexmap::IndexMap;
use sched_program::Program;
use std::alloc::AllocError;
use tree_machine::{Encode, State};

/// Inserts an open row for a step of an entry, if its label is new. Otherwise the label is recycled.
#[inline(always)]
fn put_step<M: Encode>(
    slots: &mut IndexMap<Label, Row<State<M>>>,
    machine: M,
    program: &Program,
    source: &Shown<State<M>>,
    parent: usize,
    one: Successor<Label>,
    recycled: &mut Recycled,
) -> Result<(), AllocError>
    requires bounded { parent < 4294967295 }
    requires enabled { IsSome (step (M.rules machine) program.now source.now.value one.thread) }
    ensures put { OnOk result (slots.new.entries
        ≡ with_rows (step (M.rules machine) program.now) source.now.value parent slots.old.entries (one ∷ [])) }
    ensures err { OnErr result (slots.new.entries ≡ slots.old.entries) }
{
    let Successor {
        thread,
        state: label,
        finding,
    } = one;
    let shown = shown_step(machine, program, source, thread);
    let row = Row::open(shown, finding, Some(Origin { parent, thread }));
    if let Some(known) = put_new(slots, label, row)? {
        recycled.keep_label(known.into_vec());
    }
    Ok(())
}

/// Inserts, in order, open rows for the steps of an entry that reach new states. The labels of the other steps are
/// recycled, and so is the list of the steps.
#[inline(always)]
pub(crate) fn put_steps<M: Encode>(
    slots: &mut IndexMap<Label, Row<State<M>>>,
    machine: M,
    program: &Program,
    source: &Shown<State<M>>,
    parent: usize,
    mut steps: Vec<Successor<Label>>,
    recycled: &mut Recycled,
) -> Result<(), AllocError>
    requires bounded { parent < 4294967295 }
    requires enabled { All (λ x. IsSome (step (M.rules machine) program.now source.now.value x.thread)) steps.items }
    ensures put { OnOk result (slots.new.entries
        ≡ with_rows (step (M.rules machine) program.now) source.now.value parent slots.old.entries steps.items) }
    ensures kept { IsGrown slots.old.entries slots.new.entries }
{
    for one in steps.drain(..) {
        put_step(slots, machine, program, source, parent, one, recycled)?;
    }
    recycled.keep_list(steps);
    Ok(())
}

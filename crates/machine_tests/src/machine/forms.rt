//! Forms of states of the machine `Atomic`.

use crate::machine::broken::{Broken, Case};
use crate::machine::seen::{Look, are_seen};
use crate::machine::states::{after, form_of, has_form, two_inserts};
use sched_program::Program;
use std::alloc::Global;
use tree_machine::{Atomic, StateForm};

/// Two schedules, and whether the states after them have equal forms.
struct Forms {
    case: Case,
    schedule: &'static [u8],
    other: &'static [u8],
    are_equal: bool,
}

const FORMS: &[Forms] = &[
    Forms {
        case: Case::StepsInAnotherOrder,
        schedule: &[0, 1],
        other: &[1, 0],
        are_equal: false,
    },
    Forms {
        case: Case::TheSameSteps,
        schedule: &[0, 1],
        other: &[0, 1],
        are_equal: true,
    },
    Forms {
        case: Case::NoStepAndOne,
        schedule: &[],
        other: &[0],
        are_equal: false,
    },
];

/// The form of the state after a schedule.
fn form_after(
    alloc: Global,
    program: &Program,
    schedule: &[u8],
) -> Result<Box<StateForm<Atomic>>, Broken> {
    let state = after(alloc, program, schedule)?;
    Ok(form_of(alloc, program, &state)?)
}

/// The forms of the states after two schedules are equal, or not, as is expected.
fn compare_forms(alloc: Global, program: &Program, row: &Forms) -> Result<(), Broken> {
    let form = form_after(alloc, program, row.schedule)?;
    let other = after(alloc, program, row.other)?;
    has_form(alloc, program, &other, &form, row.are_equal, row.case)
}

fn compared_forms(alloc: Global) -> Result<(), Broken> {
    let program = two_inserts(alloc)?;
    for row in FORMS {
        compare_forms(alloc, &program, row)?;
    }
    Ok(())
}

fn forms_of_states(alloc: Global) -> Result<(), Broken> {
    compared_forms(alloc)?;
    are_seen(alloc, Look::FormOfCopy)
}

#[test]
fn other_replies_have_other_forms_and_copies_the_same(rt: HostRuntime) -> Result<(), Broken> {
    match forms_of_states(rt.alloc()) {
        Ok(()) => Ok(()),
        Err(_) => forms_of_states(rt.alloc()),
    }
}

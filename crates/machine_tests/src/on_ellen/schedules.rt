//! Schedules whose steps were worked out by hand from the place table, each as the lines that `transcript` describes.
mod deletes;
mod inserts;
mod without_step;

use crate::machine::labels::{NAMINGS, StepKinds};
use crate::on_ellen::read_back::{Found, Look, looked};
use crate::on_ellen::schedules::deletes::{
    BACKTRACK, DELETE_HELPS_DELETE, DELETE_HELPS_INSERT, HELPER_BACKTRACKS, LATE_DELETE,
    LATE_DELETE_HELPER, LATE_SPLICE, NESTED_DELETES,
};
use crate::on_ellen::schedules::inserts::{
    INSERT_HELPS_DELETE, INSERT_HELPS_MARK, INSERTS_HELP_INSERT, LATE_CHILD, LATE_INSERT,
    LATE_INSERT_HELPER, REPLIES,
};
use crate::on_ellen::schedules::without_step::{
    HELP_WITHOUT_MARK, LATE_WITHOUT_FLAG, WITHOUT_FLAG, WITHOUT_MARK,
};
use crate::on_ellen::transcript::first_difference;
use ellen::Ellen;
use std::alloc::Global;
use std::process::Abort;
use std::test::Fail;
use tree_machine::Naming;

const WHOLE: Ellen = Ellen {
    mark: true,
    iflag: true,
};

const WITHOUT_MARK_STEP: Ellen = Ellen {
    mark: false,
    iflag: true,
};

const WITHOUT_FLAG_STEP: Ellen = Ellen {
    mark: true,
    iflag: false,
};

/// Whether the steps are those of the lines. It tries again where memory was refused, which happens once at most.
fn follows(rt: &impl Abort, alloc: Global, machine: Ellen, program: &str, lines: &str) {
    let mut answer = first_difference(alloc, machine, program, lines);
    if answer.is_err() {
        answer = first_difference(alloc, machine, program, lines);
    }
    match answer {
        Ok(None) => {}
        Ok(Some(stated)) => assert!(rt; false, "{stated}"),
        Err(fault) => assert!(rt; false, "{fault:?}"),
    }
}

/// Fails unless the steps of a machine are those of the lines, in each program.
fn follows_all(rt: &impl Abort, alloc: Global, machine: Ellen, cases: &[(&str, &str)]) {
    for (program, lines) in cases {
        follows(rt, alloc, machine, program, lines);
    }
}

static OF_WHOLE: [(&str, &str); 15] = [
    REPLIES,
    BACKTRACK,
    NESTED_DELETES,
    DELETE_HELPS_DELETE,
    HELPER_BACKTRACKS,
    INSERTS_HELP_INSERT,
    LATE_INSERT,
    LATE_DELETE,
    LATE_INSERT_HELPER,
    LATE_DELETE_HELPER,
    LATE_SPLICE,
    LATE_CHILD,
    INSERT_HELPS_MARK,
    DELETE_HELPS_INSERT,
    INSERT_HELPS_DELETE,
];

#[test]
fn whole_machine(rt: HostRuntime) -> Result<(), Fail> {
    follows_all(&rt, rt.alloc(), WHOLE, OF_WHOLE.as_slice());
    Ok(())
}

static OF_WITHOUT_MARK: [(&str, &str); 2] = [WITHOUT_MARK, HELP_WITHOUT_MARK];

static OF_WITHOUT_FLAG: [(&str, &str); 2] = [WITHOUT_FLAG, LATE_WITHOUT_FLAG];

#[test]
fn variants(rt: HostRuntime) -> Result<(), Fail> {
    follows_all(
        &rt,
        rt.alloc(),
        WITHOUT_MARK_STEP,
        OF_WITHOUT_MARK.as_slice(),
    );
    follows_all(
        &rt,
        rt.alloc(),
        WITHOUT_FLAG_STEP,
        OF_WITHOUT_FLAG.as_slice(),
    );
    Ok(())
}

/// Fails unless each state along the lines is right, in each program. Returns the kinds of the steps that were
/// labelled.
fn looks_at_all(
    rt: &impl Abort,
    alloc: Global,
    machine: Ellen,
    naming: Naming,
    look: Look,
    cases: &[(&str, &str)],
) -> StepKinds {
    let mut met = StepKinds::none();
    for (program, lines) in cases {
        let mut answer = looked(alloc, machine, naming, look, program, lines);
        if answer.is_err() {
            answer = looked(alloc, machine, naming, look, program, lines);
        }
        match answer {
            Ok(Found::Right(kinds)) => met = met.or(kinds),
            Ok(Found::Lost(steps)) => assert!(rt; false, "lost after {steps} steps: {program}"),
            Err(fault) => assert!(rt; false, "{fault:?}"),
        }
    }
    met
}

/// Looks at all states of each machine, in its programs, by both namings. The kinds are those of the whole machine.
fn looks_at_each(rt: &impl Abort, alloc: Global, look: Look, expected: StepKinds) {
    for naming in NAMINGS {
        let whole = OF_WHOLE.as_slice();
        let kinds = looks_at_all(rt, alloc, WHOLE, naming, look, whole);
        assert!(rt; kinds == expected, "{kinds:?}");
        let without_mark = OF_WITHOUT_MARK.as_slice();
        looks_at_all(rt, alloc, WITHOUT_MARK_STEP, naming, look, without_mark);
        let without_flag = OF_WITHOUT_FLAG.as_slice();
        looks_at_all(rt, alloc, WITHOUT_FLAG_STEP, naming, look, without_flag);
    }
}

#[test]
fn states_are_read_from_their_labels(rt: HostRuntime) -> Result<(), Fail> {
    looks_at_each(&rt, rt.alloc(), Look::Read, StepKinds::none());
    Ok(())
}

#[test]
fn states_are_read_one_after_the_other(rt: HostRuntime) -> Result<(), Fail> {
    looks_at_each(&rt, rt.alloc(), Look::ReadAfter, StepKinds::none());
    Ok(())
}

#[test]
fn labels_of_steps_are_copied(rt: HostRuntime) -> Result<(), Fail> {
    looks_at_each(&rt, rt.alloc(), Look::Steps, StepKinds::all());
    Ok(())
}

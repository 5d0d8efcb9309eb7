//! Explorations by several workers: the status, the verdict, the length of a fault's schedule and the number of states
//! are those of one worker, and what the workers did adds up to the total.
use crate::answers::{Runtime, answer_to, or_printed};
use crate::known::{AMPLE, Exploration, Outcome};
use crate::ledger::{Counts, total_of};
use crate::tables::{By, check};
use book::Merge;
use sched_program::OutOfMemory;
use std::test::Fail;
use treesched_lib::Output;
use treesched_tests::sources::TWO_INSERTS;

/// Whether one worker, and each of these numbers of workers, reports what is known of the exploration and counts the
/// same in all, unless the limit stops it.
pub fn explores_together<R: Runtime>(
    rt: &R,
    exploration: &Exploration,
    crews: &[u8],
) -> Result<bool, OutOfMemory> {
    let Some(alone) = total(rt, exploration, 1)? else {
        return Ok(false);
    };
    for workers in crews {
        match total(rt, exploration, *workers)? {
            Some(total) if exploration.is_stopped() || total == alone => (),
            _ => return Ok(false),
        }
    }
    Ok(true)
}

/// What `workers` workers count in all, if they report what is known of the exploration.
fn total<R: Runtime>(
    rt: &R,
    exploration: &Exploration,
    workers: u8,
) -> Result<Option<Counts>, OutOfMemory> {
    let mut line = exploration.line(rt.alloc())?;
    write!(line, " --workers {workers} --ledger")?;
    let output = answer_to(rt, line.as_str(), exploration.file)?;
    total_in(rt, exploration, workers, &output)
}

/// What the output of `workers` workers counts in all, if it reports what is known of the exploration.
fn total_in<R: Runtime>(
    rt: &R,
    exploration: &Exploration,
    workers: u8,
    output: &Output,
) -> Result<Option<Counts>, OutOfMemory> {
    let text = exploration.text(rt.alloc())?;
    let total = total_of(text.as_str(), workers, output.out.as_str());
    let is_met = output.status == exploration.status() && output.err.is_empty() && total.is_some();
    if or_printed(rt, is_met, output) {
        Ok(total)
    } else {
        Ok(None)
    }
}

/// Whether two workers report what is known of the exploration, and count these in all.
pub fn explores_by_two<R: Runtime>(
    rt: &R,
    exploration: &Exploration,
    counts: Counts,
) -> Result<bool, OutOfMemory> {
    Ok(total(rt, exploration, 2)? == Some(counts))
}

static TWO: By = By::Two(Counts {
    expanded: 1,
    entered: 2,
    met: 0,
});

/// The first steps of two inserts.
static FIRST_STEP: Exploration = Exploration {
    file: TWO_INSERTS,
    steps: 1,
    merge: Merge::Exact,
    limit: AMPLE,
    outcome: Outcome::Holds { states: 3 },
};

#[test]
fn two_workers_share_the_first_step(rt: HostRuntime) -> Result<(), Fail> {
    check(&rt, 0, &TWO, &FIRST_STEP)
}

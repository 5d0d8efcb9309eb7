//! The judge beside the two plainer searchers.

use crate::broken::{Broken, Case, ensure};
use crate::fixtures::is_order;
use crate::plain::judge_plain;
use crate::pruned::judge_pruned;
use lin::{check_order, judge, judge_order};
use sched_program::{History, OpId, Program};
use std::alloc::Global;

fn is_answer_of_pruned(
    alloc: Global,
    program: &Program,
    history: &History,
    answer: &Option<Vec<OpId>>,
) -> Result<(), Broken> {
    let pruned = judge_pruned(alloc, program, history)?;
    ensure(
        pruned == *answer,
        Broken::Wrong(Case::TheSearcherThatPlacesOperations),
    )
}

fn is_answer_of_plain(
    alloc: Global,
    program: &Program,
    history: &History,
    answer: &Option<Vec<OpId>>,
) -> Result<(), Broken> {
    let plain = judge_plain(alloc, program, history)?;
    ensure(
        plain == *answer,
        Broken::Wrong(Case::TheSearcherThatTriesEveryList),
    )
}

fn is_answer_in_the_value(
    alloc: Global,
    program: &Program,
    history: &History,
    answer: &Option<Vec<OpId>>,
) -> Result<(), Broken> {
    let short = judge_order(alloc, program, history)?;
    match answer {
        Some(order) => ensure(
            is_order(&short, Some(order)),
            Broken::Wrong(Case::TheJudgeOrderInAValue),
        ),
        None => ensure(short.is_none(), Broken::Wrong(Case::TheJudgeOrderInAValue)),
    }
}

/// An order is taken by `check_order`.
fn is_taken(
    program: &Program,
    history: &History,
    answer: &Option<Vec<OpId>>,
) -> Result<(), Broken> {
    match answer {
        Some(order) => ensure(
            check_order(program, history, order),
            Broken::Wrong(Case::TheOrderThatTheJudgeFound),
        ),
        None => Ok(()),
    }
}

/// The searchers return this answer. The one that tries every list runs only where at most four operations began.
fn is_answer_of_all(
    alloc: Global,
    program: &Program,
    history: &History,
    answer: &Option<Vec<OpId>>,
) -> Result<(), Broken> {
    is_taken(program, history, answer)?;
    is_answer_in_the_value(alloc, program, history, answer)?;
    is_answer_of_pruned(alloc, program, history, answer)?;
    if history.begun().len() <= 4 {
        is_answer_of_plain(alloc, program, history, answer)?;
    }
    Ok(())
}

/// The searchers return equal answers. Returns whether they found an order.
pub fn agree(alloc: Global, program: &Program, history: &History) -> Result<bool, Broken> {
    let answer = judge(alloc, program, history)?;
    is_answer_of_all(alloc, program, history, &answer)?;
    Ok(answer.is_some())
}

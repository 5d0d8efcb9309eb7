//! Orders to which one more reply is put.

use crate::broken::{Broken, Case, ensure};
use crate::fixtures::{is_order, order_of, program_of};
use crate::rows::{A, B, C, D, SEEN_PENDING, SMALL, history_of_row};
use crate::twelve::{LAST, NAMES, PROGRAM};
use lin::{check_order, judge_order, order_with_reply};
use sched_program::{History, OpId, Program};
use std::alloc::Global;

/// An order, an operation with its reply, and the order after it, if the order gives that reply.
struct Question {
    case: Case,
    order: &'static [OpId],
    op: OpId,
    reply: bool,
    longer: Option<&'static [OpId]>,
}

/// One thread inserts 1 (`A`) and deletes it (`B`), the other looks for it twice (`C`, `D`).
const SMALL_QUESTIONS: &[Question] = &[
    // The operation is not in the order, and comes after all that are.
    Question {
        case: Case::InsertTrueAfterNothing,
        order: &[],
        op: A,
        reply: true,
        longer: Some(&[A]),
    },
    Question {
        case: Case::InsertFalseAfterNothing,
        order: &[],
        op: A,
        reply: false,
        longer: None,
    },
    Question {
        case: Case::FindTrueAfterTheInsert,
        order: &[A],
        op: C,
        reply: true,
        longer: Some(&[A, C]),
    },
    Question {
        case: Case::FindFalseAfterTheInsert,
        order: &[A],
        op: C,
        reply: false,
        longer: None,
    },
    Question {
        case: Case::FindFalseAfterTheDelete,
        order: &[A, C, B],
        op: D,
        reply: false,
        longer: Some(&[A, C, B, D]),
    },
    // A concurrent one comes before it.
    Question {
        case: Case::InsertTrueAfterAFind,
        order: &[C],
        op: A,
        reply: true,
        longer: Some(&[C, A]),
    },
    Question {
        case: Case::DeleteFalseAfterAFind,
        order: &[C],
        op: B,
        reply: false,
        longer: Some(&[C, B]),
    },
    // It was placed while it was pending: what it replies is what it replies there.
    Question {
        case: Case::InsertPlacedAsItReplied,
        order: &[A, C],
        op: A,
        reply: true,
        longer: Some(&[A, C]),
    },
    Question {
        case: Case::InsertPlacedAsItDidNotReply,
        order: &[A, C],
        op: A,
        reply: false,
        longer: None,
    },
    Question {
        case: Case::DeletePlacedAsItReplied,
        order: &[A, C, B, D],
        op: B,
        reply: true,
        longer: Some(&[A, C, B, D]),
    },
    Question {
        case: Case::FindPlacedAsItDidNotReply,
        order: &[A, B, C],
        op: C,
        reply: true,
        longer: None,
    },
    Question {
        case: Case::FindPlacedWhereItSawNoKey,
        order: &[C, A],
        op: C,
        reply: false,
        longer: Some(&[C, A]),
    },
    // No such operation.
    Question {
        case: Case::NoSuchThread,
        order: &[A],
        op: OpId {
            thread: 2,
            index: 0,
        },
        reply: true,
        longer: None,
    },
    Question {
        case: Case::NoSuchOperation,
        order: &[A],
        op: OpId {
            thread: 1,
            index: 2,
        },
        reply: false,
        longer: None,
    },
];

/// The order gives the reply, or not, as is expected.
fn is_answered(program: &Program, question: &Question) -> Result<(), Broken> {
    let order = order_of(question.order);
    let longer = order_with_reply(program, &order, question.op, question.reply);
    ensure(
        is_order(&longer, question.longer),
        Broken::Wrong(question.case),
    )
}

/// The orders of a program give the replies that its questions expect.
fn are_answered(alloc: Global, text: &str, questions: &[Question]) -> Result<(), Broken> {
    let program = program_of(alloc, text)?;
    for question in questions {
        is_answered(&program, question)?;
    }
    Ok(())
}

fn replies_of_a_small_program(alloc: Global) -> Result<(), Broken> {
    are_answered(alloc, SMALL, SMALL_QUESTIONS)
}

/// A find saw the key of an insert that is pending. Before its reply nothing had to be listed: that order does not give
/// the reply.
const NOT_LISTED: &Question = &Question {
    case: Case::FindOfAPendingInsertAfterNothing,
    order: &[],
    op: C,
    reply: true,
    longer: None,
};

/// The judge finds the order with the insert.
fn is_judged(alloc: Global, program: &Program, history: &History) -> Result<(), Broken> {
    ensure(
        !check_order(program, history, &[C]),
        Broken::Wrong(Case::FindWithoutTheInsert),
    )?;
    let anew = judge_order(alloc, program, history)?;
    ensure(
        is_order(&anew, SEEN_PENDING.order),
        Broken::Wrong(Case::OrderJudgedAnew),
    )
}

fn judged_anew(alloc: Global) -> Result<(), Broken> {
    let program = program_of(alloc, SMALL)?;
    is_answered(&program, NOT_LISTED)?;
    let history = history_of_row(alloc, &program, SEEN_PENDING)?;
    is_judged(alloc, &program, &history)
}

/// All twelve operations are in the order, the last one pending.
const FULL_QUESTIONS: &[Question] = &[
    Question {
        case: Case::LastOfTwelvePlacedAsItReplied,
        order: NAMES,
        op: LAST,
        reply: false,
        longer: Some(NAMES),
    },
    Question {
        case: Case::LastOfTwelvePlacedAsItDidNotReply,
        order: NAMES,
        op: LAST,
        reply: true,
        longer: None,
    },
];

fn full_order(alloc: Global) -> Result<(), Broken> {
    are_answered(alloc, PROGRAM, FULL_QUESTIONS)
}

// Each test runs once more where an allocation was refused: that happens once at most.
#[test]
fn orders_give_replies(rt: HostRuntime) -> Result<(), Broken> {
    match replies_of_a_small_program(rt.alloc()) {
        Ok(()) => Ok(()),
        Err(_) => replies_of_a_small_program(rt.alloc()),
    }
}

#[test]
fn an_order_that_does_not_is_judged_anew(rt: HostRuntime) -> Result<(), Broken> {
    match judged_anew(rt.alloc()) {
        Ok(()) => Ok(()),
        Err(_) => judged_anew(rt.alloc()),
    }
}

#[test]
fn an_order_of_twelve_has_no_room(rt: HostRuntime) -> Result<(), Broken> {
    match full_order(rt.alloc()) {
        Ok(()) => Ok(()),
        Err(_) => full_order(rt.alloc()),
    }
}

//! What several tests use: programs, histories and answers.
//!
//! A program and a history come in a box each: dropping one takes one call, and not one for each of its lists.

use crate::broken::Broken;
use lin::{Order, ShortName};
use sched_program::{History, Note, OpId, Program, ShortList};
use std::alloc::Global;

/// The program of a text that is one.
pub fn program_of(alloc: Global, text: &str) -> Result<Box<Program>, Broken> {
    match Box::new(alloc, Program::from_json(alloc, text.as_bytes())?) {
        Ok(program) => Ok(program),
        Err(_) => Err(Broken::OutOfMemory),
    }
}

fn boxed(alloc: Global, history: History) -> Result<Box<History>, Broken> {
    match Box::new(alloc, history) {
        Ok(history) => Ok(history),
        Err(_) => Err(Broken::OutOfMemory),
    }
}

/// The history of the operations that began, each with its note, and those that finished, each with its reply.
pub fn history_of(
    alloc: Global,
    program: &Program,
    begun: Vec<(OpId, Note)>,
    finished: Vec<(OpId, bool)>,
) -> Result<Box<History>, Broken> {
    match History::new(program, begun, finished) {
        Some(history) => boxed(alloc, history),
        None => Err(Broken::NoHistory),
    }
}

/// A note of these counts, which are at most four.
pub fn note(counts: &[u8]) -> Note {
    let mut note = Note::new();
    for count in counts {
        if note.len() < 4 {
            note.push(*count);
        }
    }
    note
}

/// Whether the judge returned this order, or that there is none.
pub fn is_answer(answer: &Option<Vec<OpId>>, expected: Option<&[OpId]>) -> bool {
    match (answer, expected) {
        (Some(order), Some(names)) => order.as_slice() == names,
        (None, None) => true,
        _ => false,
    }
}

/// Appends a name to an order, where there is room and the name has a place.
pub fn push_name(order: &mut Order, name: OpId) {
    if order.len() < 12 && name.thread < 4 && name.index < 8 {
        order.push(ShortName::of(name));
    }
}

/// An order of these names, which are at most twelve.
pub fn order_of(names: &[OpId]) -> Order {
    let mut order = Order::new();
    for name in names {
        push_name(&mut order, *name);
    }
    order
}

/// The names of an order.
pub fn names_of(order: &Order) -> ShortList<OpId, 12> {
    let mut names = ShortList::new();
    for name in order.as_slice() {
        if names.len() < 12 {
            names.push(name.name());
        }
    }
    names
}

/// Whether it is this order, or none.
pub fn is_order(answer: &Option<Order>, expected: Option<&[OpId]>) -> bool {
    match (answer, expected) {
        (Some(order), Some(names)) => names_of(order).as_slice() == names,
        (None, None) => true,
        _ => false,
    }
}

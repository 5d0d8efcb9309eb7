//! The judge beside the two plainer searchers, on the histories of many interleavings.

use crate::broken::{Broken, Case, ensure};
use crate::fixtures::{history_of, is_order, names_of, note, program_of, push_name};
use crate::searchers::agree;
use lin::{Order, check_order, judge_order, order_with_reply};
use sched_program::{History, Note, OpId, OutOfMemory, Program};
use std::alloc::Global;

const PROGRAM: &str = r#"{"version":1,"tree":"atomic","initial":[],"threads":[
[{"op":"insert","key":1},{"op":"delete","key":1}],
[{"op":"find","key":1},{"op":"insert","key":1}],
[{"op":"delete","key":1},{"op":"insert","key":2}]]}"#;

/// The operations of the program, in the order of their names.
const NAMES: &[OpId] = &[
    OpId {
        thread: 0,
        index: 0,
    },
    OpId {
        thread: 0,
        index: 1,
    },
    OpId {
        thread: 1,
        index: 0,
    },
    OpId {
        thread: 1,
        index: 1,
    },
    OpId {
        thread: 2,
        index: 0,
    },
    OpId {
        thread: 2,
        index: 1,
    },
];

/// What a thread does: it begins its next operation or, if it is in one, finishes it with this reply. Once both of its
/// operations are finished it does nothing.
#[derive(Clone, Copy)]
struct Event {
    thread: u8,
    reply: bool,
}

/// Six events. Each base 3 digit of `threads` is the thread of an event, each bit of `replies` its reply.
fn events_of(threads: u32, replies: u32) -> [Event; 6] {
    let mut events = [Event {
        thread: 0,
        reply: false,
    }; 6];
    let mut digits = threads;
    let mut bits = replies;
    for event in events.iter_mut() {
        *event = Event {
            thread: (digits % 3) as u8,
            reply: bits % 2 == 1,
        };
        digits /= 3;
        bits /= 2;
    }
    events
}

/// A thread's event of this number, and how many events came before it.
fn event_of(events: &[Event], thread: u8, number: u8) -> Option<(usize, Event)> {
    let mut left = number;
    for (place, event) in events.iter().enumerate() {
        if event.thread == thread {
            if left == 0 {
                return Some((place, *event));
            }
            left -= 1;
        }
    }
    None
}

/// How many operations a thread had finished after the first `place` events.
fn finished_by(events: &[Event], place: usize, thread: u8) -> u8 {
    let mut count: u8 = 0;
    for event in events.iter().take(place) {
        if event.thread == thread {
            count = count.saturating_add(1);
        }
    }
    (count / 2).min(2)
}

/// The operations that began, each with its note.
fn begun_of(alloc: Global, events: &[Event]) -> Result<Vec<(OpId, Note)>, OutOfMemory> {
    let mut begun = Vec::new(alloc);
    for name in NAMES {
        if let Some((place, _)) = event_of(events, name.thread, 2 * name.index) {
            let counts = [
                finished_by(events, place, 0),
                finished_by(events, place, 1),
                finished_by(events, place, 2),
            ];
            begun.push((*name, note(&counts)))?;
        }
    }
    Ok(begun)
}

/// The operations that finished, each with its reply.
fn finished_of(alloc: Global, events: &[Event]) -> Result<Vec<(OpId, bool)>, OutOfMemory> {
    let mut finished = Vec::new(alloc);
    for name in NAMES {
        if let Some((_, event)) = event_of(events, name.thread, 2 * name.index + 1) {
            finished.push((*name, event.reply))?;
        }
    }
    Ok(finished)
}

/// The history that six events leave.
fn history_after(
    alloc: Global,
    program: &Program,
    events: &[Event],
) -> Result<Box<History>, Broken> {
    let begun = begun_of(alloc, events)?;
    let finished = finished_of(alloc, events)?;
    history_of(alloc, program, begun, finished)
}

/// The searchers agree on the history of these events. Returns whether they found an order.
fn agree_after(alloc: Global, program: &Program, events: &[Event]) -> Result<bool, Broken> {
    let history = history_after(alloc, program, events)?;
    agree(alloc, program, &history)
}

/// The operation that the last event finishes, with its reply, if it finishes one.
fn finished_last(events: &[Event; 6]) -> Option<(OpId, bool)> {
    let last = events[5];
    let mut before: u8 = 0;
    for event in events.iter().take(5) {
        if event.thread == last.thread {
            before = before.saturating_add(1);
        }
    }
    if before == 1 || before == 3 {
        let name = OpId {
            thread: last.thread,
            index: before / 2,
        };
        Some((name, last.reply))
    } else {
        None
    }
}

/// An order of at most eleven names with one more at its end, unless it has that name.
fn with_name(order: &Order, name: OpId) -> Order {
    let mut longer = *order;
    if !names_of(order).as_slice().contains(&name) {
        push_name(&mut longer, name);
    }
    longer
}

/// The order of the history before a reply gives that reply exactly where it is one of the history after it, with the
/// operation at its end.
fn gives_reply(
    program: &Program,
    order: &Order,
    after: &History,
    name: OpId,
    reply: bool,
) -> Result<(), Broken> {
    let longer = names_of(&with_name(order, name));
    let stated = order_with_reply(program, order, name, reply);
    if check_order(program, after, longer.as_slice()) {
        ensure(
            is_order(&stated, Some(longer.as_slice())),
            Broken::Wrong(Case::ReplyThatTheOrderGives),
        )
    } else {
        ensure(
            stated.is_none(),
            Broken::Wrong(Case::ReplyThatTheOrderDoesNotGive),
        )
    }
}

/// Checks `gives_reply` for the history that six events leave.
fn gives_last_reply(
    alloc: Global,
    program: &Program,
    order: &Order,
    events: &[Event; 6],
    (name, reply): (OpId, bool),
) -> Result<(), Broken> {
    let after = history_after(alloc, program, events)?;
    gives_reply(program, order, &after, name, reply)
}

/// Checks the reply of the last event, if it finishes an operation and the history before it has an order.
fn last_reply_agrees(alloc: Global, program: &Program, events: &[Event; 6]) -> Result<(), Broken> {
    let Some(last) = finished_last(events) else {
        return Ok(());
    };
    let before = history_after(alloc, program, &events[..5])?;
    match judge_order(alloc, program, &before)? {
        Some(order) => gives_last_reply(alloc, program, &order, events, last),
        None => Ok(()),
    }
}

/// With how many of eight choices of replies the searchers find an order.
fn found_with(alloc: Global, program: &Program, threads: u32) -> Result<u64, Broken> {
    let mut found: u64 = 0;
    for replies in 0..8 {
        let events = events_of(threads, replies * 8 + replies);
        last_reply_agrees(alloc, program, &events)?;
        if agree_after(alloc, program, &events)? {
            found = found.saturating_add(1);
        }
    }
    Ok(found)
}

/// With how many histories the searchers find an order: each choice of the threads of six events, with eight of
/// replies.
fn found_of_all(alloc: Global, program: &Program) -> Result<u64, Broken> {
    let mut found: u64 = 0;
    for threads in 0..729 {
        found = found.saturating_add(found_with(alloc, program, threads)?);
    }
    Ok(found)
}

/// More than 500 histories have an order, and more than 500 have none.
fn interleavings(alloc: Global) -> Result<(), Broken> {
    let program = program_of(alloc, PROGRAM)?;
    let found = found_of_all(alloc, &program)?;
    ensure(found > 500 && found < 729 * 8 - 500, Broken::Count(found))
}

/// Runs once more where an allocation was refused: that happens once at most.
#[test]
fn searchers_agree(rt: HostRuntime) -> Result<(), Broken> {
    match interleavings(rt.alloc()) {
        Ok(()) => Ok(()),
        Err(_) => interleavings(rt.alloc()),
    }
}

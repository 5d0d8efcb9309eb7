//! What a history says of two operations.

ghost use Rattle.std.specs.Prelude.{◌↔◌, IsTrue};
ghost use Rattle.sched_program.specs.History.{EndedBefore};

use sched_program::{History, OpId, value_of};

/// Whether the first ended before the second began.
pub fn ended_before(history: &History, first: OpId, second: OpId) -> bool
    ensures { IsTrue result ↔ EndedBefore history.now first second }
{
    match value_of(history.begun(), second) {
        Some(note) => {
            let counts = note.as_slice();
            counts.get(usize::from(first.thread)).copied().unwrap_or(0) > first.index
        }
        None => false,
    }
}

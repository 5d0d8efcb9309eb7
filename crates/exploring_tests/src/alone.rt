//! Explorations by one worker.
use crate::answers::{Runtime, answer_to, or_printed};
use crate::known::Exploration;
use sched_program::OutOfMemory;

/// Whether one worker prints the lines of what is known of the exploration, the schedule among them, and nothing else.
pub fn explores_alone<R: Runtime>(rt: &R, exploration: &Exploration) -> Result<bool, OutOfMemory> {
    let line = exploration.line(rt.alloc())?;
    let output = answer_to(rt, line.as_str(), exploration.file)?;
    let text = exploration.text(rt.alloc())?;
    let is_met = output.status == exploration.status()
        && output.out.as_str() == text.as_str()
        && output.err.is_empty()
        && output.book.is_none();
    Ok(or_printed(rt, is_met, &output))
}

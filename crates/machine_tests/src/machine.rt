//! States, steps and their bytes, and the machine that does each operation at once.
//!
//! A test runs its cases once more where one failed: a growth is refused once at most.

mod atomic;
mod broken;
mod bytes;
mod cells;
mod copied;
mod crowded;
mod forms;
mod held_alone;
pub mod labels;
mod lists;
mod parts;
mod ranges;
mod reading;
mod rings;
mod seen;
mod states;

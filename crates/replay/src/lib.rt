//! What is found of a state, the replay of a schedule, and the check of a book file, which replays each line. Nothing
//! of the explorer's book is here: who only believes `check_book` reads this crate alone.
#![tactic(auto)]

mod file;
mod finding;
mod lending;
mod replayed;
mod replaying;

pub use crate::file::{CheckFault, check_book, push_head, push_line, push_start};
pub use crate::finding::{Finding, fault_in, find, judged};
pub use crate::lending::find_here;
pub use crate::replayed::{Replay, ReplayFault};
pub use crate::replaying::{replay, state_after};

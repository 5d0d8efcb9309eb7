//! What bounds an exploration, and which states it counts as one.
#![tactic(auto)]

mod options;

pub use crate::options::{Merge, Options};

//! The step machine of Natarajan and Mittal's tree, and its variant.
#![tactic(auto)]

mod helping;
mod initial;
mod machine;
mod memory;
mod memory_view;
mod place;
mod reading;
mod searching;

pub use crate::machine::NatMit;
pub use crate::memory::{NatMitMem, Node, Word};
pub use crate::place::{Mode, NatMitLoc, Path};

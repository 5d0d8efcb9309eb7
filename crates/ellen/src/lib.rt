//! The step machine of Ellen, Fatourou, Ruppert and van Breugel's tree, and its variants.
#![tactic(auto)]

mod helping;
mod initial;
mod machine;
mod memory;
mod memory_view;
mod numbers;
mod place;
mod reading;
mod searching;

pub use crate::machine::Ellen;
pub use crate::memory::{DeleteRecord, EllenMem, InsertRecord, Node, Record, UpdateWord};
pub use crate::place::{Above, Base, EllenLoc, HelpLoc, Resume, SearchLoc};

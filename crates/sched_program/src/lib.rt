//! Programs of a few threads that call a search tree, and the histories of their runs.
#![tactic(auto)]

mod counted;
mod exact;
mod fault;
mod history;
mod loading;
mod operation;
mod program;
mod reader;
mod sequence;
mod short_list;
mod text;
mod turns;
mod version;

pub use crate::counted::{Counted, ReadFault};
pub use crate::exact::{Exact, same};
pub use crate::fault::ProgramFault;
pub use crate::history::{History, Note, value_of};
pub use crate::loading::LoadFault;
pub use crate::operation::{Op, OpId, Tree, Turn};
pub use crate::program::Program;
pub use crate::sequence::Sequence;
pub use crate::short_list::{Blank, ShortList};

/// A growth was refused.
pub use std::alloc::AllocError as OutOfMemory;

//! The book of the states of a bounded exploration, each with the step that reached it and its finding; and the text of
//! a closed book.
#![tactic(auto)]

mod book;
mod decoding;
mod entry;
mod expanding;
mod expansion;
mod in_place;
mod label;
mod placing;
mod recycled;
mod rows;
mod scratch;
mod shown;
mod slots;
mod successor;
mod table;
mod writing;

pub use crate::book::{Book, EnterFault, Entered, Totals};
pub use crate::entry::{Mark, Origin};
pub use crate::expanding::{ExpandedEntry, TakenEntry};
pub use crate::expansion::Expansion;
pub use crate::recycled::Recycled;
pub use crate::scratch::Scratch;
pub use crate::successor::Successor;
pub use lin::{Order, ShortName};
pub use options::Merge;
pub use replay::{CheckFault, Finding, Replay, ReplayFault, check_book, replay};

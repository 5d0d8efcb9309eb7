//! Book files: whether lines, whoever wrote them, show that every schedule reaches a correct state; and the text of
//! such lines.

mod check;
mod closing;
mod fault;
mod labels;
mod line;
mod printing;
mod reading;
mod recalling;
mod replayer;
mod replaying;

pub use crate::file::check::check_book;
pub use crate::file::fault::CheckFault;
pub use crate::file::printing::{push_head, push_line, push_start};

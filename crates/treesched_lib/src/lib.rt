//! The program `treesched` but for its `main`: it reads words, opens files, answers what is asked for, and prints the
//! answer.
#![tactic(auto)]

mod answering;
mod files;
mod lines;
mod output;
mod printing;
mod refusals;
mod serving;

pub use crate::answering::{answer, run};
pub use crate::files::put_book;
pub use crate::lines::put_report;
pub use crate::output::{CountedWriter, WriteFault, put_all};
pub use crate::printing::{print, tell};
pub use crate::refusals::{check_fault_text, fault_text, refused};
pub use crate::serving::{Output, serve};
pub use words::{Request, WordsFault, read_words};

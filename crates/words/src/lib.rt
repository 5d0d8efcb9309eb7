//! Reads the words of the command line into a request, and says what is wrong with them.
#![tactic(auto)]

mod command;
mod request;
mod schedule;

pub use crate::request::{Request, WordsFault, read_words};

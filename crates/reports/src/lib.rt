//! What an exploration reports: the answer, read off a book whoever entered what, with the book's
//! totals and the share of each worker. And the exploration on one thread, whose book always has the
//! answer.
#![tactic(auto)]

mod alone;
mod answer;
mod driving;
mod reading;
mod reporting;

pub use crate::alone::explore_alone;
pub use crate::answer::{Answer, Report, Share};
pub use crate::reporting::report_of;

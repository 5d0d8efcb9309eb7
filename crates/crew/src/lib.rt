//! The exploration of every schedule of a program, up to a number of steps, by several workers, and
//! the due answer. Workers promise nothing: the answer is read off the book that they leave
//! (`reports`), and where that does not give it, one thread explores again.
#![tactic(auto)]

mod explorer;
mod gate;
mod layer_run;
mod layers;
mod pending;
mod starting;
mod waiting;
mod worker;
mod working;

pub use crate::explorer::explore;
pub use crate::gate::{Gate, Open};
pub use claims::{Claimed, Claims, Draws, Seat, Size};
pub use options::Options;
pub use reports::{Answer, Report, Share};

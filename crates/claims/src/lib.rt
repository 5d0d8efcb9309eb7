//! Places of a list, handed out to several threads, each place once, with no lock.
#![tactic(auto)]

mod counter;
mod view;

pub use crate::counter::{Claimed, Claims, Seat};
pub use crate::view::{Draws, Size};

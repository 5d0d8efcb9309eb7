//! Tests of the crate `book`, by its public calls.
#![tactic(auto)]

#[cfg(test)]
mod by_label;
#[cfg(test)]
mod entering;
#[cfg(test)]
mod files;
#[cfg(test)]
mod fixtures;
#[cfg(test)]
mod forms;
pub mod held_byte;
#[cfg(test)]
mod in_place;
#[cfg(test)]
mod layers;
#[cfg(test)]
mod picture;
#[cfg(test)]
mod refusals;
#[cfg(test)]
mod refused;
#[cfg(test)]
mod replays;
#[cfg(test)]
mod same_book;
#[cfg(test)]
mod straying;
#[cfg(test)]
mod taking;
#[cfg(test)]
mod texts;
#[cfg(test)]
mod ways;

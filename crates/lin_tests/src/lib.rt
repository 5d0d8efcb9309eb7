//! Tests of `lin`: worked histories, and its judge beside two plainer searchers that have nothing in common with it
//! but, one of them, the test of a finished order.
#![tactic(auto)]

pub mod broken;
#[cfg(test)]
mod family;
#[cfg(test)]
mod fixtures;
#[cfg(test)]
mod plain;
#[cfg(test)]
mod pruned;
#[cfg(test)]
mod replies;
#[cfg(test)]
mod rows;
#[cfg(test)]
mod searchers;
#[cfg(test)]
mod twelve;
#[cfg(test)]
mod walks;

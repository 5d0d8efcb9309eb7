//! Tests of explorations, by the public calls of `treesched_lib` and `crew`. A case is tried once more where memory was
//! refused, and fails where it is refused again.
#![tactic(auto)]

#[cfg(test)]
mod alone;
#[cfg(test)]
mod answers;
#[cfg(test)]
mod held;
#[cfg(test)]
mod known;
#[cfg(test)]
mod ledger;
#[cfg(test)]
mod tables;
#[cfg(test)]
mod together;

//! Tests of the program, by the public calls of `treesched_lib`: its words, its answers, and devices that fail. Each is
//! a table of cases; a case is tried once more where memory was refused, and fails where it is refused again.
#![tactic(auto)]

#[cfg(test)]
mod answers;
#[cfg(test)]
mod books;
#[cfg(test)]
mod cases;
#[cfg(test)]
mod command_lines;
#[cfg(test)]
mod devices;
#[cfg(test)]
mod explorations;
#[cfg(test)]
mod failing;
#[cfg(test)]
mod faults;
#[cfg(test)]
mod programs;
#[cfg(test)]
mod replaying;
pub mod sources;

//! Tests of programs, states and machines: of `sched_program`, `tree_machine`, `ellen` and `natmit`, by their public
//! calls.
#![tactic(auto)]

#[cfg(test)]
mod machine;
#[cfg(test)]
mod on_ellen;
#[cfg(test)]
mod on_natmit;
#[cfg(test)]
mod program;

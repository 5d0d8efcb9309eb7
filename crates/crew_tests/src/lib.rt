//! Tests of `crew`: explorations of small programs, on `Atomic`, on a machine with faults, and beside a plain
//! enumerator.
#![tactic(auto)]

/// Runs a case, and once more where a growth was refused, which happens once at most: a second refusal is a failure.
#[cfg(test)]
macro_rules! passes {
    ($rt:expr; $case:expr) => {
        if $case.is_err() {
            assert!($rt; $case.is_ok(), "out of memory twice");
        }
    };
}

#[cfg(test)]
mod crews;
#[cfg(test)]
mod drawing;
#[cfg(test)]
mod enumerator;
#[cfg(test)]
mod faulty;
#[cfg(test)]
mod gates;
pub mod held_byte;
#[cfg(test)]
mod ranges;
#[cfg(test)]
mod rows;
#[cfg(test)]
mod summary;

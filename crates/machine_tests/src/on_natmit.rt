//! The machine of Natarajan and Mittal: runs of programs, step by step. Each expected value is worked out by hand from
//! the place table.

mod cycle;
mod follow;
mod forms;
mod help;
mod lone;
mod memories;
mod read_back;
mod reading;
mod variant;
mod words;

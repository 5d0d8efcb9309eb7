//! The machine of Ellen and others at its states, replayed step by step, and at memories that no run reaches.

mod forms;
mod fronts;
mod memories;
mod read_back;
mod reading;
mod schedules;
mod small_tree;
mod states;
mod transcript;

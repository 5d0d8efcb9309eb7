//! What the rule of the claims speaks of.
use std::collections::LinkedList;

/// How many places a counter has, and how many seats. The two sum to at most the greatest `u64`.
#[derive(Clone, Copy)]
pub struct Size {
    pub len: usize,
    pub seats: usize,
}

/// What is known of a seat: how many seats it is, the places that it drew, how many of them found none left, and the
/// size of its counter. Contracts alone see it, and no value of it is made.
pub struct Draws {
    pub seats: u64,
    pub places: LinkedList<usize>,
    pub spent: u64,
    pub size: Size,
}

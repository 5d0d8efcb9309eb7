//! Where the code of a memory with what threads hold is cut.

/// How many nodes and how many records come in front of what the threads hold, in the bytes of all: those of the
/// smallest numbers.
#[derive(Clone, Copy, Debug, PartialEq, Eq)]
pub struct Front {
    pub nodes: u16,
    pub records: u16,
}

//! Where in the code of a state its parts begin.
ghost use Rattle.std.specs.Prelude.{◌≡◌, if◌then◌else◌};

use crate::front::Front;

/// Where three parts of the code of a state begin: what its threads did, its memory, and what its threads hold; with
/// the front at which the code is cut.
#[derive(Clone, Copy, Debug, PartialEq, Eq)]
pub struct CodeOffsets {
    pub(crate) op_log: usize,
    pub(crate) memory: usize,
    pub(crate) held: usize,
    pub(crate) front: Front,
}

impl CodeOffsets {
    /// Where the bytes end that a step may have left as they were: behind the front if the memory did not change, and
    /// else before it.
    #[inline(always)]
    pub(crate) fn end(self, same_memory: bool) -> usize
        ensures { result ≡ (if same_memory then self.held else self.memory) }
    {
        if same_memory { self.held } else { self.memory }
    }
}

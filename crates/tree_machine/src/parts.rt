//! Nodes, records and what threads hold, as parts that a coder visits.
ghost use Rattle.std.specs.Prelude.{◌≡◌, ◌<◌, length, OnOk};
ghost use Rattle.tree_machine.specs.Coding.{IsVisited};
ghost use Rattle.tree_machine.specs.Parts.{part_at, IsPartBelow};

use crate::coder::Coder;
use crate::output::Output;
use sched_program::OutOfMemory;

/// What comes of a visit: nothing, unless memory is refused.
pub type Visit = Result<(), OutOfMemory>;

/// Nodes, records and what the threads hold, each shown to a coder as a part on request. What it writes goes to an
/// output.
pub trait Parts {
    ghost use Rattle.tree_machine.specs.Parts.{Parts as Contents};

    /// All of them.
    ghost parts: { Self → Contents };

    /// How many nodes there are.
    fn node_count(&self) -> usize
        ensures { result ≡ length (parts self.now).nodes };

    /// How many records there are.
    fn record_count(&self) -> usize
        ensures { result ≡ length (parts self.now).records };

    /// How many threads there are.
    fn held_count(&self) -> usize
        ensures { result ≡ length (parts self.now).held };

    /// Lets a coder visit a node.
    fn visit_node(&self, index: usize, coder: &mut Coder, out: &mut Output) -> Visit
        requires in_range { index < length (parts self.now).nodes }
        requires named { IsPartBelow coder.old.nodes_below coder.old.records_below
            (part_at (parts self.now).nodes index) }
        ensures { OnOk result
            (IsVisited (part_at (parts self.now).nodes index) coder.old out.old coder.new out.new) };

    /// Lets a coder visit a record, or a part that names nothing where there is no record of this number: a tree may
    /// have no records.
    fn visit_record(&self, index: usize, coder: &mut Coder, out: &mut Output) -> Visit
        requires { IsPartBelow coder.old.nodes_below coder.old.records_below
            (part_at (parts self.now).records index) }
        ensures { OnOk result
            (IsVisited (part_at (parts self.now).records index) coder.old out.old coder.new out.new) };

    /// Lets a coder visit what a thread holds.
    fn visit_held(&self, index: usize, coder: &mut Coder, out: &mut Output) -> Visit
        requires in_range { index < length (parts self.now).held }
        requires named { IsPartBelow coder.old.nodes_below coder.old.records_below
            (part_at (parts self.now).held index) }
        ensures { OnOk result
            (IsVisited (part_at (parts self.now).held index) coder.old out.old coder.new out.new) };
}

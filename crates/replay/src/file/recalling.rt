//! States that stand in for those of entries.
ghost use Rattle.std.specs.Prelude.{◌≡◌, ◌<◌, ◌≤◌, List, Some, length, slice_get, take, IfOk, OnOk};
ghost use Rattle.tree_machine.specs.declared.state.State.{State};
ghost use Rattle.replay.specs.BookFile.Kept.{AreLabelsOf, IsSource, StandsForEntry};
ghost use Rattle.replay.specs.BookFile.Replays.{AreReplayed};
ghost use Rattle.replay.specs.Findings.{machine_of};
ghost use Rattle.replay.specs.Labels.{named_by};
ghost use Rattle.replay.specs.Schedule.{after};

use crate::file::labels::Labels;
use crate::file::line::BookLine;
use crate::file::replayer::Replayer;
use crate::replaying::state_after;
use sched_program::{OutOfMemory, Program};
use std::alloc::Global;
use tree_machine::Encode;

/// What is checked: the lines of a book file, for a program on a machine.
#[derive(Clone, Copy)]
pub struct Input<'a, M: Encode> {
    pub machine: M,
    pub program: &'a Program,
    pub lines: &'a [BookLine],
}

impl<'a, M: Encode> Input<'a, M> {
    /// The input without the lines from this one on.
    pub fn up_to(&self, end: usize) -> Input<'a, M>
        requires { end ≤ length self.now.lines.now }
        ensures machine { result.machine ≡ self.now.machine }
        ensures program { result.program.now ≡ self.now.program.now }
        ensures lines { result.lines.now ≡ take end self.now.lines.now }
    {
        Input {
            machine: self.machine,
            program: self.program,
            lines: &self.lines[..end],
        }
    }
}

/// The threads on the way from the start to an entry, as its line and those of its ancestors have it.
fn way_to<M: Encode>(
    alloc: Global,
    input: &Input<'_, M>,
    labels: &Labels,
    index: usize,
) -> Result<Vec<u8>, OutOfMemory>
    requires kept { AreLabelsOf {Machine = M} (M.rules input.now.machine) input.now.program.now
        (named_by M.form_code (M.form_of input.now.machine)) input.now.lines.now labels.now }
    requires within { index < length labels.now }
    ensures { IfOk result (λ way. (states : List (State M M.Mem M.Loc M.Form))
        → AreReplayed (M.rules input.now.machine) input.now.program.now input.now.lines.now states
        → (s : State M M.Mem M.Loc M.Form) × (slice_get states index ≡ Some s)
        × (after (machine_of (M.rules input.now.machine) input.now.program.now) way.items ≡ Some s)) }
{
    // Proofs alone read these.
    let _ = labels;
    let mut way = Vec::new(alloc);
    let mut at = index;
    'back: while at > 0 {
        let line = &input.lines[at - 1];
        way.push(line.thread)?;
        at = line.parent as usize;
    }
    way.reverse();
    Ok(way)
}

/// Makes the replayer's state stand in for that of an entry: it is decoded from the entry's label or, if that can't be
/// done, replayed from the start.
pub fn recall<M: Encode>(
    alloc: Global,
    input: &Input<'_, M>,
    labels: &Labels,
    index: usize,
    replayer: &mut Replayer<M>,
) -> Result<(), OutOfMemory>
    requires kept { AreLabelsOf {Machine = M} (M.rules input.now.machine) input.now.program.now
        (named_by M.form_code (M.form_of input.now.machine)) input.now.lines.now labels.now }
    requires within { index < length labels.now }
    requires source { IsSource M.front_code M.behind_code labels.now replayer.old.source replayer.old.state }
    ensures stands { OnOk result (StandsForEntry (M.rules input.now.machine) input.now.program.now input.now.lines.now
        index replayer.new.state) }
    ensures source { OnOk result
        (IsSource M.front_code M.behind_code labels.now replayer.new.source replayer.new.state) }
{
    // Whoever reads a program knows that it meets the limits.
    let _ = input.program.initial();
    if replayer.decode(alloc, input.machine, labels, index)? {
        replayer.state.decoded_law(input.machine);
        return Ok(());
    }
    let way = way_to(alloc, input, labels, index)?;
    replayer.state = state_after(alloc, input.machine, input.program, way.as_slice())?;
    Ok(())
}

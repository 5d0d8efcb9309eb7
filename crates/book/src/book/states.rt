//! The states of entries, rebuilt by their schedules.
ghost use Rattle.std.specs.Prelude.{◌≡◌, ◌-◌, ◌<◌, ◌≤◌, length, map, IfOk};
ghost use Rattle.std.specs.List.{range_with_len};
ghost use Rattle.tree_machine.specs.declared.state.State.{State};
ghost use Rattle.book.specs.Entries.{Entry, At};
ghost use Rattle.book.specs.Slots.{AreStatesOf};

use crate::book::Book;
use replay::state_after;
use sched_program::OutOfMemory;
use std::sync::Arc;
use tree_machine::{Encode, State};

impl<M: Encode> Book<M> {
    /// The state of an entry, rebuilt by the schedule that reaches it.
    pub(crate) fn replayed(&self, id: usize) -> Result<State<M>, OutOfMemory>
        requires { id < length self.now.entries }
        ensures { IfOk result (λ state. (e : Entry (State M M.Mem M.Loc M.Form)) × At self.now.entries id e
            × (e.state ≡ state)) }
    {
        let alloc = self.table.allocator();
        let schedule = self.schedule_of(alloc, id)?;
        state_after(alloc, self.machine, &self.program, schedule.as_slice())
    }

    /// The state of an entry, to be shared.
    pub(crate) fn state_of(&self, id: usize) -> Result<Arc<State<M>>, OutOfMemory>
        requires { id < length self.now.entries }
        ensures { IfOk result (λ state. (e : Entry (State M M.Mem M.Loc M.Form)) × At self.now.entries id e
            × (e.state ≡ state.value)) }
    {
        let state = self.replayed(id)?;
        Ok(Arc::new(self.table.allocator(), state)?)
    }

    /// The entries from `start` to below `end`, each by its number and its state.
    pub(crate) fn states_of(
        &self,
        start: usize,
        end: usize,
    ) -> Result<Vec<(usize, Arc<State<M>>)>, OutOfMemory>
        requires some { start ≤ end }
        requires within { end ≤ length self.now.entries }
        ensures numbers { IfOk result (λ range. map (λ p. p.0) range.items ≡ range_with_len start (end - start)) }
        ensures states { IfOk result (λ range. AreStatesOf self.now.entries range.items) }
    {
        let mut range = Vec::with_capacity(self.table.allocator(), end - start)?;
        for index in start..end {
            let state = self.state_of(index)?;
            range.push((index, state))?;
        }
        Ok(range)
    }
}

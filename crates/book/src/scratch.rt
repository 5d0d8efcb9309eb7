//! The memory that steps are made in, reused from one state to the next.
ghost use Rattle.std.specs.Prelude.{IfOk, IfSome};
ghost use Rattle.book.specs.Decoding.{IsRead};

use crate::decoding::{Decoded, decode};
use crate::recycled::Recycled;
use sched_program::{OutOfMemory, Program};
use std::alloc::Global;
use tree_machine::{Encode, EncodeBuffer, State, Undo};

/// What one worker makes expansions in: a state to decode others into, a buffer for labels, what takes
/// steps back, and lists to reuse.
#[derive(Drop)]
pub struct Scratch<M: Encode> {
    pub(crate) buffer: EncodeBuffer,
    pub(crate) undo: Undo<M>,
    /// The state that was decoded last. The next one is decoded into it.
    pub(crate) last: Option<Decoded<M>>,
    /// Lists for labels and for steps.
    pub(crate) spare: Recycled,
}

impl<M: Encode> Scratch<M> {
    /// Nothing. It takes no memory.
    pub fn new(alloc: Global) -> Scratch<M> {
        Scratch {
            buffer: EncodeBuffer::new(alloc),
            undo: Undo::new(),
            last: None,
            spare: Recycled::none(alloc),
        }
    }

    /// Decodes a label, into the state that was decoded last if there is one. None where that can't
    /// be done.
    #[inline(always)]
    pub(crate) fn decode(
        &mut self,
        alloc: Global,
        machine: M,
        program: &Program,
        label: &[u8],
    ) -> Result<Option<Decoded<M>>, OutOfMemory>
        ensures { IfOk result (λ o. IfSome o (λ d. IsRead M.front_code M.behind_code M.own_code
            M.form_code (M.form_of machine) (M.rules machine) label.now d.offsets d.state.value)) }
    {
        let Some(last) = self.last.take() else {
            let state = Box::new(alloc, State::start(alloc, machine, program)?)?;
            return decode(alloc, machine, label, state, Vec::new(alloc), None);
        };
        let Decoded {
            state,
            label: own,
            offsets,
        } = last;
        decode(alloc, machine, label, state, own, Some(offsets))
    }

    /// Returns the place for what entering steps under a lock leaves over. It first reserves room
    /// there for the labels of `steps` more steps, and for the lists and the labels of `entries`
    /// entries.
    pub fn recycled(&mut self, steps: usize, entries: usize) -> Result<&mut Recycled, OutOfMemory> {
        self.spare.reserve(steps.saturating_add(entries), entries)?;
        Ok(&mut self.spare)
    }
}

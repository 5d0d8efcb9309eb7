//! What one worker does in one layer.
ghost use Rattle.std.specs.Prelude.{◌≡◌, All, IfSome, OnOk};
ghost use Rattle.claims.specs.Seats.{IsSeatOf};
ghost use Rattle.book.specs.ByLabel.{IsOf};

use crate::gate::Gate;
use crate::layer_run::{Exploration, LayerRun};
use crate::pending::Pending;
use crate::worker::{Stop, Worker};
use book::{Scratch, TakenEntry};
use claims::Seat;
use reports::Share;
use std::sync::Wait;
use tree_machine::Encode;

/// With how many pending entries a worker waits for the lock before it expands another one.
const MOST_PENDING: usize = 256;

impl<'a, M: Encode, G: Gate, R: Wait> Exploration<'a, M, G, R> {
    /// A scratch that some worker left, or else a new one.
    fn scratch(&self) -> Scratch<M> {
        match self.scratches.lock(self.rt).pop() {
            Some(scratch) => scratch,
            None => Scratch::new(self.alloc),
        }
    }
}

impl<'a, M: Encode, G: Gate, R: Wait> LayerRun<'a, M, G, R> {
    /// Prefetches pending entries before they are entered, while other workers may do so too, so
    /// that entering them holds the lock for less time. Returns whether it was done.
    fn prefetch(&self, pending: &mut Pending<'a, M>, waits: bool) -> bool
        ensures { pending.new.entries ≡ pending.old.entries }
    {
        match self.read(waits) {
            Some(book) => {
                let _seen = pending.prefetch(&*book);
                true
            }
            None => false,
        }
    }

    /// Enters the pending entries if `waits`, or if no other worker has the lock. Otherwise they
    /// stay.
    fn enter(
        &self,
        pending: &mut Pending<'a, M>,
        waits: bool,
        share: &mut Share,
        scratch: &mut Scratch<M>,
    ) -> Result<(), Stop>
        requires pending { All (λ x. IsOf self.now.exploration.machine self.now.exploration.program.now x.key)
            pending.old.entries.items }
        ensures pending { OnOk result (All (λ x. IsOf self.now.exploration.machine
            self.now.exploration.program.now x.key) pending.new.entries.items) }
    {
        if pending.entries.is_empty() || !self.prefetch(pending, waits) {
            return Ok(());
        }
        let Exploration {
            machine,
            program,
            ..
        } = &self.exploration;
        let recycled = scratch.recycled(pending.count_steps(), pending.entries.len())?;
        match self.write(waits) {
            Some(mut book) => pending.enter_all(*machine, program, &mut *book, share, recycled),
            None => Ok(()),
        }
    }

    /// Expands an entry, and appends it to the pending ones.
    fn expand(
        &self,
        number: u8,
        place: usize,
        entry: TakenEntry<'a, M>,
        pending: &mut Pending<'a, M>,
        scratch: &mut Scratch<M>,
    ) -> Result<(), Stop>
        requires entry { IsOf self.now.exploration.machine self.now.exploration.program.now entry.key }
        requires pending { All (λ x. IsOf self.now.exploration.machine self.now.exploration.program.now x.key)
            pending.old.entries.items }
        ensures pending { OnOk result (All (λ x. IsOf self.now.exploration.machine
            self.now.exploration.program.now x.key) pending.new.entries.items) }
    {
        let Some(expanded) = entry.expand(self.exploration.alloc, scratch)? else {
            return Err(Stop::Refused);
        };
        self.exploration.gate.arrive(number, self.number, place);
        pending.entries.push(expanded)?;
        Ok(())
    }

    /// Expands the entries drawn, and enters what is pending whenever no other worker has the lock.
    fn expand_all(
        &self,
        number: u8,
        drawn: Vec<(usize, TakenEntry<'a, M>)>,
        pending: &mut Pending<'a, M>,
        share: &mut Share,
        scratch: &mut Scratch<M>,
    ) -> Result<(), Stop>
        requires drawn { All (λ d. IsOf self.now.exploration.machine self.now.exploration.program.now d.1.key)
            drawn.items }
        requires pending { All (λ x. IsOf self.now.exploration.machine self.now.exploration.program.now x.key)
            pending.old.entries.items }
        ensures pending { OnOk result (All (λ x. IsOf self.now.exploration.machine
            self.now.exploration.program.now x.key) pending.new.entries.items) }
    {
        pending.entries.reserve(drawn.len())?;
        for (place, entry) in drawn {
            self.expand(number, place, entry, pending, scratch)?;
            if pending.entries.len() % self.stride == 0 {
                let waits = pending.entries.len() >= MOST_PENDING;
                self.enter(pending, waits, share, scratch)?;
            }
        }
        Ok(())
    }

    /// Expands the entries at the places that the worker draws, until none is left, and enters
    /// them.
    fn turns(
        &self,
        number: u8,
        seat: &mut Seat,
        share: &mut Share,
        scratch: &mut Scratch<M>,
    ) -> Result<(), Stop>
        requires seat { IsSeatOf self.now.claims seat.old }
    {
        let mut pending = Pending::new(self.exploration.alloc);
        for _turn in 0..self.end {
            let drawn = self.draw(seat, scratch)?;
            if drawn.is_empty() {
                break;
            }
            self.expand_all(number, drawn, &mut pending, share, scratch)?;
        }
        self.enter(&mut pending, true, share, scratch)
    }

    /// Lets a worker do its part of the layer. Its scratch is left for the next layer, where there
    /// is room for it.
    pub fn work(&self, worker: &mut Worker)
        requires { IfSome worker.old.seat (IsSeatOf self.now.claims) }
    {
        let Worker {
            number,
            share,
            seat,
            stop,
        } = worker;
        let Some(seat) = seat else {
            return;
        };
        let mut scratch = self.exploration.scratch();
        *stop = self.turns(*number, seat, share, &mut scratch).err();
        let Exploration { rt, scratches, .. } = &self.exploration;
        let _ = scratches.lock(*rt).push(scratch);
    }
}

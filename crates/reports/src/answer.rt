//! What an exploration answers.
ghost use Rattle.std.specs.Prelude.{◌≡◌, ◌+◌, ◌^◌, ◌<◌};

use book::{Book, Entered, Finding, Totals};
use tree_machine::Encode;

/// What holds of every schedule of a program.
#[derive(Drop)]
pub enum Answer {
    /// Every schedule of at most `steps` steps keeps search order and leaves a linearizable
    /// history.
    Holds {
        /// The number of steps that was asked for.
        steps: u16,
    },
    /// Every schedule of any length does: states are merged by names, and the steps that were asked
    /// for reach no more of them than one step fewer.
    Every,
    /// A schedule reaches a fault, and no shorter one does.
    Fault {
        /// The fault.
        finding: Finding,
        /// The threads of the schedule, step by step.
        schedule: Vec<u8>,
    },
    /// More states are reached than the book may have entries.
    Stopped {
        /// How many entries the book may have.
        limit: u32,
        /// Every schedule of at most this many steps keeps search order and leaves a linearizable
        /// history.
        holds_to: u16,
    },
}

/// What a worker did.
#[derive(Clone, Copy, Debug, PartialEq, Eq)]
pub struct Share {
    /// The entries that it expanded.
    pub expanded: usize,
    /// The steps of these that made new entries.
    pub entered: usize,
    /// The steps of these that reached known states.
    pub met: usize,
}

impl Share {
    /// The share of a worker that did nothing yet.
    pub fn none() -> Share
        ensures { result ≡ record { expanded = 0; entered = 0; met = 0 } }
    {
        Share {
            expanded: 0,
            entered: 0,
            met: 0,
        }
    }

    /// Counts one more expanded entry. The counts saturate at the greatest number.
    pub fn add(&mut self, counts: Entered)
        ensures { self.old.expanded + 1 < 2 ^ 64 → self.old.entered + counts.entered < 2 ^ 64
            → self.old.met + counts.met < 2 ^ 64
            → self.new ≡ record {
              expanded = self.old.expanded + 1;
              entered = self.old.entered + counts.entered;
              met = self.old.met + counts.met;
            } }
    {
        self.expanded = self.expanded.saturating_add(1);
        self.entered = self.entered.saturating_add(counts.entered);
        self.met = self.met.saturating_add(counts.met);
    }
}

/// What an exploration answers, and what it rests on.
#[derive(Drop)]
pub struct Report<M: Encode> {
    /// The answer.
    pub answer: Answer,
    /// The totals of the book.
    pub totals: Totals,
    /// What each worker did, the first worker's share first.
    pub shares: Vec<Share>,
    /// The book that the answer was read off.
    pub book: Book<M>,
}

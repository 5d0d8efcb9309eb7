//! The options of an exploration.
ghost use Rattle.std.specs.Prelude.{◌≡◌, ◌↔◌, IsSome, IfSome};
ghost use Rattle.options.specs.Settings.{AreInRange};

use std::marker::Model;

/// Which states a book counts as one.
#[derive(Clone, Copy, Debug, PartialEq, Eq)]
pub enum Merge {
    /// Equal states, their step counts included.
    Exact,
    /// States that differ in nothing but the numbers of their nodes and records, their step counts, and what neither
    /// the root nor a thread reaches.
    Names,
}

/// How far an exploration goes: schedules of 0 to 400 steps, books of 1 to 2,000,000 entries, which
/// states count as one, and 1 to 8 workers.
#[derive(Clone, Copy, Debug, PartialEq, Eq)]
pub struct Options {
    steps: u16,
    limit: u32,
    merge: Merge,
    workers: u8,
}

impl Model for Options {
    ghost use Rattle.options.specs.Settings.{Settings, AreInRange};

    ghost Value = { Settings };

    ghost view = { λ o. record { steps = o.steps; limit = o.limit; merge = o.merge; workers = o.workers } };

    ghost invariant = { λ o. AreInRange
        (record { steps = o.steps; limit = o.limit; merge = o.merge; workers = o.workers }) };

    ghost inverse = { λ s. record { steps = s.steps; limit = s.limit; merge = s.merge; workers = s.workers } };
}

impl Options {
    /// The options of these fields; none if one of them is out of its range.
    pub fn new(steps: u16, limit: u32, merge: Merge, workers: u8) -> Option<Options>
        ensures value { IfSome result (λ options. options
            ≡ record { steps = steps; limit = limit; merge = merge; workers = workers }) }
        ensures range { IsSome result
            ↔ AreInRange (record { steps = steps; limit = limit; merge = merge; workers = workers }) }
    {
        if steps <= 400 && limit >= 1 && limit <= 2_000_000 && workers >= 1 && workers <= 8 {
            Some(Options {
                steps,
                limit,
                merge,
                workers,
            })
        } else {
            None
        }
    }

    /// How many steps a schedule may have: 0 to 400.
    pub fn steps(&self) -> u16
        ensures { result ≡ self.now.steps }
    {
        self.steps
    }

    /// How many entries the book may have: 1 to 2,000,000.
    pub fn limit(&self) -> u32
        ensures { result ≡ self.now.limit }
    {
        self.limit
    }

    /// Which states count as one.
    pub fn merge(&self) -> Merge
        ensures { result ≡ self.now.merge }
    {
        self.merge
    }

    /// How many workers explore.
    pub fn workers(&self) -> u8
        ensures { result ≡ self.now.workers }
    {
        self.workers
    }
}

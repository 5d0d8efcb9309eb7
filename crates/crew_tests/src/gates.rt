//! Gates that count the workers' arrivals, and hold some of them.
use crate::summary::Summary;
use crew::{Gate, Share};
use std::process::Abort;
use std::sync::atomic::{AtomicU64, Ordering};

/// How many loads of a flag a worker is held at most.
const TURNS: u64 = 1_000_000_000;

fn count(counts: &[AtomicU64], index: usize) {
    if let Some(counter) = counts.get(index) {
        counter.fetch_add(1, Ordering::SeqCst);
    }
}

/// What was counted; nothing where there is no counter.
fn times(counts: &[AtomicU64], index: usize) -> u64 {
    match counts.get(index) {
        Some(counter) => counter.load(Ordering::SeqCst),
        None => 0,
    }
}

fn zero() -> AtomicU64 {
    AtomicU64::new(0)
}

/// How often each worker arrived, the first worker's number first.
#[derive(Drop)]
pub struct Arrivals {
    counts: [AtomicU64; 8],
}

impl Arrivals {
    fn new() -> Arrivals {
        let counts = [
            zero(),
            zero(),
            zero(),
            zero(),
            zero(),
            zero(),
            zero(),
            zero(),
        ];
        Arrivals { counts }
    }

    fn add(&self, worker: u8) {
        count(self.counts.as_slice(), usize::from(worker).wrapping_sub(1));
    }

    /// Each worker arrived as often as it expanded an entry, and the shares sum to the totals.
    pub fn compare(&self, rt: &impl Abort, summary: &Summary) {
        for (index, share) in summary.shares.iter().enumerate() {
            assert_eq!(rt; share.expanded as u64, times(self.counts.as_slice(), index));
        }
        let all = sum_of(summary.shares.as_slice());
        assert_eq!(rt; all.expanded, summary.totals.expanded);
        assert_eq!(rt; all.entered, summary.totals.entered);
        assert_eq!(rt; all.met, summary.totals.met);
    }
}

/// What all workers did.
fn sum_of(shares: &[Share]) -> Share {
    let mut all = Share {
        expanded: 0,
        entered: 0,
        met: 0,
    };
    for share in shares {
        all.expanded = all.expanded.wrapping_add(share.expanded);
        all.entered = all.entered.wrapping_add(share.entered);
        all.met = all.met.wrapping_add(share.met);
    }
    all
}

/// Holds each arrival at an odd place for a while.
#[derive(Drop)]
pub struct Slow {
    pub arrivals: Arrivals,
}

impl Slow {
    pub fn new() -> Slow {
        Slow {
            arrivals: Arrivals::new(),
        }
    }
}

impl Gate for Slow {
    fn arrive(&self, worker: u8, _layer: u16, place: usize) {
        self.arrivals.add(worker);
        if place % 2 == 1 {
            let unset = AtomicU64::new(0);
            for _turn in 0..20_000 {
                unset.load(Ordering::SeqCst);
            }
        }
    }
}

/// Holds the first arrival in layer 1, which has two places, until another worker has arrived at the other place.
#[derive(Drop)]
pub struct Both {
    pub arrivals: Arrivals,
    /// The number of the worker that arrived last at each place of layer 1.
    flags: [AtomicU64; 2],
    /// How often a worker arrived at each place of layer 1, and at others.
    seen: [AtomicU64; 3],
    /// How often a worker was held to the limit.
    late: AtomicU64,
}

/// Whether another worker arrived at the flag in time.
fn is_met(flag: &AtomicU64, worker: u8) -> bool {
    for _turn in 0..TURNS {
        let other = flag.load(Ordering::SeqCst);
        if other != 0 && other != u64::from(worker) {
            return true;
        }
    }
    false
}

impl Both {
    pub fn new() -> Both {
        Both {
            arrivals: Arrivals::new(),
            flags: [zero(), zero()],
            seen: [zero(), zero(), zero()],
            late: zero(),
        }
    }

    /// Two workers were in layer 1 at once, one at place 0 and one at place 1, and no worker came to another place.
    pub fn compare(&self, rt: &impl Abort) {
        assert_eq!(rt; self.late.load(Ordering::SeqCst), 0);
        for (place, arrivals) in [1, 1, 0].iter().enumerate() {
            assert_eq!(rt; times(self.seen.as_slice(), place), *arrivals);
        }
    }
}

impl Gate for Both {
    fn arrive(&self, worker: u8, layer: u16, place: usize) {
        self.arrivals.add(worker);
        if layer != 1 {
            return;
        }
        count(self.seen.as_slice(), place.min(2));
        if let (Some(here), Some(there)) = (
            self.flags.get(place.min(1)),
            self.flags.get(1 - place.min(1)),
        ) {
            here.store(u64::from(worker), Ordering::SeqCst);
            if !is_met(there, worker) {
                self.late.fetch_add(1, Ordering::SeqCst);
            }
        }
    }
}

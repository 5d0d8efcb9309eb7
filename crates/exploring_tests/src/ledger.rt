//! The lines of an exploration with the ledger, taken apart.
use crate::known::length_of;

/// What a line of the ledger counts.
#[derive(Clone, Copy, PartialEq, Eq)]
pub struct Counts {
    pub expanded: u64,
    pub entered: u64,
    pub met: u64,
}

impl Counts {
    fn none() -> Counts {
        Counts {
            expanded: 0,
            entered: 0,
            met: 0,
        }
    }

    /// The counts that a line names.
    fn of(line: &str) -> Option<Counts> {
        Some(Counts {
            expanded: number_behind(line, "expanded ")?,
            entered: number_behind(line, "entered ")?,
            met: number_behind(line, "met ")?,
        })
    }

    fn plus(self, other: Counts) -> Counts {
        Counts {
            expanded: self.expanded.saturating_add(other.expanded),
            entered: self.entered.saturating_add(other.entered),
            met: self.met.saturating_add(other.met),
        }
    }
}

/// What `workers` workers count in all. `None` unless the output has the lines of the text, then a line for each
/// worker, and then the total, which is the sum of theirs. Of a schedule only the length has to agree.
pub fn total_of(text: &str, workers: u8, out: &str) -> Option<Counts> {
    let count = text.lines().count();
    let sum = sum_of(out, count, workers)?;
    let total = Counts::of(out.lines().last()?.strip_prefix("total ")?)?;
    let is_met = begins(out, text)
        && total == sum
        && out.lines().count() == count.saturating_add(usize::from(workers)).saturating_add(1);
    is_met.then_some(sum)
}

/// Whether each of the first lines is that of the text, or names a schedule of the same length.
fn begins(out: &str, text: &str) -> bool {
    for (line, wanted) in out.lines().zip(text.lines()) {
        if !is_alike(line, wanted) {
            return false;
        }
    }
    true
}

fn is_alike(line: &str, wanted: &str) -> bool {
    match (
        line.strip_prefix("schedule "),
        wanted.strip_prefix("schedule "),
    ) {
        (Some(schedule), Some(first)) => length_of(schedule) == length_of(first),
        _ => line == wanted,
    }
}

/// What `workers` workers count in all. Their lines come behind the first `count` lines.
fn sum_of(out: &str, count: usize, workers: u8) -> Option<Counts> {
    let mut sum = Counts::none();
    for worker in 0..workers {
        let line = out.lines().nth(count.saturating_add(usize::from(worker)))?;
        sum = sum.plus(share_of(line, u64::from(worker))?);
    }
    Some(sum)
}

/// What the worker behind `others` other ones counts.
fn share_of(line: &str, others: u64) -> Option<Counts> {
    if number_behind(line, "worker ")? == others.saturating_add(1) {
        Counts::of(line)
    } else {
        None
    }
}

/// The number behind a name in the line.
fn number_behind(line: &str, name: &str) -> Option<u64> {
    let (_, rest) = line.split_once(name)?;
    rest.split(' ').next()?.parse::<u64>().ok()
}

//! Explorations by workers whom a gate holds at odd places for a while, so that entries come in other orders.
use crate::answers::Runtime;
use crate::known::Exploration;
use crate::ledger::total_of;
use crew::{Gate, Options, Report, Share, explore};
use ellen::Ellen;
use natmit::NatMit;
use sched_program::{OutOfMemory, Program, ProgramFault, Tree};
use std::sync::atomic::{AtomicU64, Ordering};
use tree_machine::{Atomic, Encode};
use treesched_lib::put_report;

/// Whether each number of held workers reports what is known of the exploration, and each worker expanded as many
/// entries as it arrived at, unless the limit stopped it.
pub fn explores_held<R: Runtime>(rt: &R, exploration: &Exploration) -> Result<bool, OutOfMemory> {
    match Program::from_json(rt.alloc(), exploration.file) {
        Ok(program) => all_explore(rt, &program, exploration),
        Err(ProgramFault::OutOfMemory) => Err(OutOfMemory),
        Err(_) => Ok(false),
    }
}

fn all_explore<R: Runtime>(
    rt: &R,
    program: &Program,
    exploration: &Exploration,
) -> Result<bool, OutOfMemory> {
    for workers in 1..=8 {
        if !explore_on_its_tree(rt, program, exploration, workers)? {
            return Ok(false);
        }
    }
    Ok(true)
}

fn explore_on_its_tree<R: Runtime>(
    rt: &R,
    program: &Program,
    exploration: &Exploration,
    workers: u8,
) -> Result<bool, OutOfMemory> {
    let tree = program.tree();
    match tree {
        Tree::Atomic => explore_on(rt, Atomic, program, exploration, workers),
        Tree::Ellen | Tree::EllenNoMark | Tree::EllenNoIflag => {
            let machine = Ellen {
                mark: tree != Tree::EllenNoMark,
                iflag: tree != Tree::EllenNoIflag,
            };
            explore_on(rt, machine, program, exploration, workers)
        }
        Tree::Nm | Tree::NmNoTag => {
            let machine = NatMit {
                tag: tree == Tree::Nm,
            };
            explore_on(rt, machine, program, exploration, workers)
        }
    }
}

fn explore_on<R: Runtime, M: Encode>(
    rt: &R,
    machine: M,
    program: &Program,
    exploration: &Exploration,
    workers: u8,
) -> Result<bool, OutOfMemory> {
    let Exploration {
        steps,
        merge,
        limit,
        ..
    } = *exploration;
    let Some(options) = Options::new(steps, limit, merge, workers) else {
        return Ok(false);
    };
    let gate = Slow::new();
    let report = explore(rt, rt.alloc(), machine, program, options, &gate)?;
    tells(rt, &report, &gate, exploration, workers)
}

/// Whether the lines of the report show what is known of the exploration, and the shares agree with the gate, unless
/// the limit stopped it.
fn tells<R: Runtime, M: Encode>(
    rt: &R,
    report: &Report<M>,
    gate: &Slow,
    exploration: &Exploration,
    workers: u8,
) -> Result<bool, OutOfMemory> {
    let mut out = String::new(rt.alloc());
    put_report(&mut out, true, report)?;
    let is_met = gate.agrees(report.shares.as_slice()) || exploration.is_stopped();
    Ok(is_met && is_reported(rt, exploration, workers, out.as_str())?)
}

/// Whether the lines of `workers` workers show what is known of the exploration. Prints them where they do not.
fn is_reported<R: Runtime>(
    rt: &R,
    exploration: &Exploration,
    workers: u8,
    out: &str,
) -> Result<bool, OutOfMemory> {
    let text = exploration.text(rt.alloc())?;
    let is_met = total_of(text.as_str(), workers, out).is_some();
    if !is_met {
        let _ = println!(rt; "{workers} held workers: {out}");
    }
    Ok(is_met)
}

/// Counts how often each worker arrives, and holds those at odd places.
#[derive(Drop)]
struct Slow {
    counts: [AtomicU64; 8],
}

fn zero() -> AtomicU64 {
    AtomicU64::new(0)
}

impl Slow {
    fn new() -> Slow {
        let counts = [
            zero(),
            zero(),
            zero(),
            zero(),
            zero(),
            zero(),
            zero(),
            zero(),
        ];
        Slow { counts }
    }

    /// Whether each worker expanded as many entries as it arrived at.
    fn agrees(&self, shares: &[Share]) -> bool {
        for (share, count) in shares.iter().zip(&self.counts) {
            if share.expanded as u64 != count.load(Ordering::SeqCst) {
                return false;
            }
        }
        true
    }
}

impl Gate for Slow {
    fn arrive(&self, worker: u8, _layer: u16, place: usize) {
        if let Some(count) = self.counts.get(usize::from(worker).wrapping_sub(1)) {
            count.fetch_add(1, Ordering::SeqCst);
        }
        if place % 2 == 1 {
            let flag = AtomicU64::new(0);
            for _turn in 0..1_000 {
                flag.load(Ordering::SeqCst);
            }
        }
    }
}

//! Programs read from readers, some of which fail.
use crate::program::failing::failing;
use crate::program::refused_texts::{NOT_JSON, OF_KEY, OF_TREE, OF_VERSION};
use sched_program::{Counted, LoadFault, Program, ProgramFault};
use std::alloc::{AllocGlobal, Global};
use std::process::Abort;

/// The number of no read.
const NEVER: usize = usize::MAX;

const TWO_INSERTS: &str =
    r#"{"version":1,"tree":"atomic","initial":[],"threads":[[{"op":"insert","key":1}],[{"op":"insert","key":1}]]}"#;

/// The fault of a text whose read of this number fails, if it has one, and how many failed reads the reader counts.
fn load_once(alloc: Global, text: &str, fails_at: usize) -> (Option<LoadFault>, u64) {
    let mut reader = Counted::new(failing(text, fails_at));
    let fault = Program::from_reader(alloc, &mut reader).err();
    (fault, reader.failures())
}

/// Calls `load_once`, and once more where a growth was refused.
fn load(alloc: Global, text: &str, fails_at: usize) -> (Option<LoadFault>, u64) {
    let stated = load_once(alloc, text, fails_at);
    if stated.0 == Some(LoadFault::Program(ProgramFault::OutOfMemory)) {
        return load_once(alloc, text, fails_at);
    }
    stated
}

/// Expects that the failed read is the only fault, and is counted once.
fn expect_device(rt: &(impl AllocGlobal + Abort), text: &str, fails_at: usize) {
    let stated = load(rt.alloc(), text, fails_at);
    assert_eq!(rt; stated, (Some(LoadFault::Device), 1), "read {fails_at}");
}

/// Texts that are read to their ends all have this fault, each with what it shows.
fn expect_fault_of_each(
    rt: &(impl AllocGlobal + Abort),
    texts: &[(&str, &str)],
    fault: ProgramFault,
) {
    for (case, text) in texts {
        let stated = load(rt.alloc(), text, NEVER);
        assert_eq!(rt; stated, (Some(LoadFault::Program(fault)), 0), "{case}");
    }
}

/// Whether a text describes a program.
fn is_of(alloc: Global, text: &str, program: &Program) -> bool {
    match Program::from_json(alloc, text.as_bytes()) {
        Ok(other) => program.is_same(&other),
        Err(_) => false,
    }
}

/// Whether a text whose read of this number fails is read as the program that it describes.
fn is_read(alloc: Global, text: &str, fails_at: usize) -> bool {
    let mut reader = Counted::new(failing(text, fails_at));
    match Program::from_reader(alloc, &mut reader) {
        Ok(program) => is_of(alloc, text, &program),
        Err(_) => false,
    }
}

/// Expects that the text is read as the program that it describes. Tries once more where a growth was refused.
fn expect_read(rt: &(impl AllocGlobal + Abort), text: &str, fails_at: usize) {
    let is_met = is_read(rt.alloc(), text, fails_at) || is_read(rt.alloc(), text, fails_at);
    assert!(rt; is_met, "read {fails_at}");
}

#[test]
fn each_failed_read_is_reported(rt: HostRuntime) {
    for fails_at in 0..=TWO_INSERTS.len() {
        expect_device(&rt, TWO_INSERTS, fails_at);
    }
}

// One read more than there are bytes finds the end; no call makes a further one.
#[test]
fn all_bytes_are_read(rt: HostRuntime) {
    expect_read(&rt, TWO_INSERTS, TWO_INSERTS.len() + 1);
    expect_read(&rt, TWO_INSERTS, NEVER);
}

#[test]
fn a_failed_read_is_reported_before_a_fault_of_the_text(rt: HostRuntime) {
    for (_, text) in NOT_JSON {
        expect_device(&rt, text, text.len());
    }
}

#[test]
fn the_fault_of_all_bytes_is_reported(rt: HostRuntime) {
    expect_fault_of_each(&rt, NOT_JSON, ProgramFault::NotJson);
    expect_fault_of_each(&rt, OF_VERSION, ProgramFault::Version);
    expect_fault_of_each(&rt, OF_TREE, ProgramFault::Tree);
    expect_fault_of_each(&rt, OF_KEY, ProgramFault::Key);
}

/// How many failed reads a reader counts after two calls that each meet one.
fn failures_of_two_calls(alloc: Global) -> u64 {
    let mut reader = Counted::new(failing(TWO_INSERTS, 0));
    if let Err(LoadFault::Device) = Program::from_reader(alloc, &mut reader) {
        let _ = Program::from_reader(alloc, &mut reader);
    }
    reader.failures()
}

// The count goes on from call to call.
#[test]
fn failed_reads_are_counted_one_by_one(rt: HostRuntime) {
    assert_eq!(rt; failures_of_two_calls(rt.alloc()), 2);
}

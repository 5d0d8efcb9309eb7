//! The texts of the faults of programs and of book files.
use crate::cases::{Case, check_all};
use book::CheckFault;
use sched_program::{OutOfMemory, ProgramFault};
use std::alloc::Global;
use std::test::Fail;
use treesched_lib::{check_fault_text, fault_text};

static FAULTS: [Case<'static>; 12] = [
    Case::Shows(ProgramFault::NotJson),
    Case::Shows(ProgramFault::NotObject),
    Case::Shows(ProgramFault::Version),
    Case::Shows(ProgramFault::Tree),
    Case::Shows(ProgramFault::Initial),
    Case::Shows(ProgramFault::InitialTwice),
    Case::Shows(ProgramFault::Threads),
    Case::Shows(ProgramFault::Ops),
    Case::Shows(ProgramFault::Op),
    Case::Shows(ProgramFault::Key),
    Case::Shows(ProgramFault::OutOfMemory),
    Case::Shows(ProgramFault::After),
];

/// Whether the text of a program's fault is what `Display` shows of it.
pub fn is_shown(alloc: Global, fault: ProgramFault) -> Result<bool, OutOfMemory> {
    let text = format!(in alloc; "{fault}")?;
    Ok(text.as_str() == fault_text(fault))
}

#[test]
fn tells_faults_as_they_are_shown(rt: HostRuntime) -> Result<(), Fail> {
    check_all(&rt, FAULTS.as_slice())
}

static CHECK_FAULTS: [Case<'static>; 7] = [
    Case::ShowsLine(CheckFault::Form(1)),
    Case::ShowsLine(CheckFault::Parent(20)),
    Case::ShowsLine(CheckFault::Step(3)),
    Case::ShowsLine(CheckFault::Fault(400)),
    Case::ShowsLine(CheckFault::History(5)),
    Case::ShowsLine(CheckFault::Open(2_000_001)),
    Case::ShowsLine(CheckFault::OutOfMemory),
];

/// Whether the text of a book file's fault is what `Display` shows of it.
pub fn is_shown_with_its_line(alloc: Global, fault: CheckFault) -> Result<bool, OutOfMemory> {
    let text = format!(in alloc; "{fault}")?;
    let printed = check_fault_text(alloc, fault)?;
    Ok(text.as_str() == printed.as_str())
}

#[test]
fn tells_faults_of_book_files_as_they_are_shown(rt: HostRuntime) -> Result<(), Fail> {
    check_all(&rt, CHECK_FAULTS.as_slice())
}

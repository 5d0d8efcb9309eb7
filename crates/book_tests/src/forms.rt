//! Texts that are book files, and others.

use crate::files::{Subject, is_answer};
use crate::fixtures::{Broken, settled};
use book::CheckFault;
use std::alloc::Global;
use std::process::Abort;
use std::test::Fail;

/// Lines that an entry may have; here the parent is none.
static FORMED: [&str; 6] = [
    "10 9 9.9",
    "1 2 0.0,3.5,0.1",
    "1 0 0.0,0.0",
    "1999999 0 -",
    "2000000 0 -",
    "123456789012345678901234567890 0 0.0",
];

/// Lines that no entry has.
static MISFORMED: [&str; 32] = [
    "",
    "- - -",
    "00 1 1.0",
    "01 1 1.0",
    "+1 0 -",
    "-1 0 -",
    "a 0 -",
    "1a 0 -",
    "0x1 0 -",
    " 0 0 -",
    "0  0 -",
    "0 0  -",
    "0 0 - ",
    "0\t0 -",
    "0 0 -\r",
    "0 10 -",
    "0 a -",
    "0 - -",
    "0 0",
    "0 0 ",
    "0 0 --",
    "0 0 -,0.0",
    "0 0 0.0,-",
    "0 0 0.0,",
    "0 0 ,0.0",
    "0 0 0.0,,1.0",
    "0 0 0.0 1.0",
    "0 0 0.0, 1.0",
    "0 0 0.00",
    "0 0 00.0",
    "0 0 0,0",
    "0 0 0.",
];

/// Whether a file of two entries, where the second has this line, is refused for this.
fn is_refused(alloc: Global, line: &str, fault: CheckFault) -> Result<bool, Broken> {
    let text = format!(in alloc; "treesched book 1 entries 2\n- - -\n{line}\n")?;
    is_answer(alloc, Subject::Inserts, text.as_str(), Err(fault))
}

/// Fails unless a file with each of these lines is refused for this.
fn refuses_all(
    rt: &(impl AllocGlobal + Abort),
    lines: &[&str],
    fault: CheckFault,
) -> Result<(), Fail> {
    let alloc = rt.alloc();
    for line in lines {
        let is_so = settled!(is_refused(alloc, line, fault))?;
        assert!(rt; is_so, "{line}");
    }
    Ok(())
}

#[test]
fn lines_of_entries_are_read(rt: HostRuntime) -> Result<(), Fail> {
    refuses_all(&rt, FORMED.as_slice(), CheckFault::Parent(3))
}

#[test]
fn other_lines_are_refused(rt: HostRuntime) -> Result<(), Fail> {
    refuses_all(&rt, MISFORMED.as_slice(), CheckFault::Form(3))
}

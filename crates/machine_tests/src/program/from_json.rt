//! What `from_json` returns for texts whose answers are known.

use crate::program::refused_texts::{
    NOT_JSON, NOT_OBJECT, OF_INITIAL, OF_INITIAL_TWICE, OF_KEY, OF_OP, OF_OPS, OF_THREADS, OF_TREE,
    OF_VERSION,
};
use sched_program::{Op, OpId, OutOfMemory, Program, ProgramFault, Tree};
use std::alloc::Global;
use std::process::Abort;
use std::test::Fail;

const TEXT: &str =
    r#"{"version":1,"tree":"atomic","initial":[],"threads":[[{"op":"insert","key":1}],[{"op":"insert","key":1}]]}"#;

/// A text with members that are ignored.
const EVERY_MEMBER: &str =
    r#"{"threads":[[{"key":0,"op":"insert"},{"op":"delete","key":99,"by":[]}],[{"op":"find","key":7}]],
        "note":{"version":2},"initial":[30,7,12],"tree":"ellen-no-mark","version":1}"#;

/// The operations of `EVERY_MEMBER` by thread and index, and one that it has not.
const OPS: &[(u8, u8, Option<Op>)] = &[
    (0, 0, Some(Op::Insert(0))),
    (0, 1, Some(Op::Delete(99))),
    (0, 2, None),
    (1, 0, Some(Op::Find(7))),
];

/// A text for each tree.
const TREES: &[(&str, Tree)] = &[
    (
        r#"{"version":1,"tree":"atomic","initial":[],"threads":[[{"op":"find","key":1}]]}"#,
        Tree::Atomic,
    ),
    (
        r#"{"version":1,"tree":"ellen","initial":[],"threads":[[{"op":"find","key":1}]]}"#,
        Tree::Ellen,
    ),
    (
        r#"{"version":1,"tree":"ellen-no-mark","initial":[],"threads":[[{"op":"find","key":1}]]}"#,
        Tree::EllenNoMark,
    ),
    (
        r#"{"version":1,"tree":"ellen-no-iflag","initial":[],"threads":[[{"op":"find","key":1}]]}"#,
        Tree::EllenNoIflag,
    ),
    (
        r#"{"version":1,"tree":"nm","initial":[],"threads":[[{"op":"find","key":1}]]}"#,
        Tree::Nm,
    ),
    (
        r#"{"version":1,"tree":"nm-no-tag","initial":[],"threads":[[{"op":"find","key":1}]]}"#,
        Tree::NmNoTag,
    ),
];

/// Texts of programs, each with what it shows.
const ACCEPTED: &[(&str, &str)] = &[
    (
        "a line feed at the end",
        "{\"version\":1,\"tree\":\"atomic\",\"initial\":[],\"threads\":[[{\"op\":\"insert\",\"key\":1}],[{\"op\":\"insert\",\"key\":1}]]}\n",
    ),
    (
        "four threads of three operations",
        r#"{"version":1,"tree":"atomic","initial":[],"threads":[[{"op":"insert","key":1},{"op":"insert","key":1},{"op":"insert","key":1}],[{"op":"insert","key":1},{"op":"insert","key":1},{"op":"insert","key":1}],[{"op":"insert","key":1},{"op":"insert","key":1},{"op":"insert","key":1}],[{"op":"insert","key":1},{"op":"insert","key":1},{"op":"insert","key":1}]]}"#,
    ),
    (
        "two threads of six operations",
        r#"{"version":1,"tree":"atomic","initial":[],"threads":[[{"op":"insert","key":1},{"op":"insert","key":1},{"op":"insert","key":1},{"op":"insert","key":1},{"op":"insert","key":1},{"op":"insert","key":1}],[{"op":"insert","key":1},{"op":"insert","key":1},{"op":"insert","key":1},{"op":"insert","key":1},{"op":"insert","key":1},{"op":"insert","key":1}]]}"#,
    ),
    (
        "twelve initial keys",
        r#"{"version":1,"tree":"atomic","initial":[0,1,2,3,4,5,6,7,8,9,10,11],"threads":[[{"op":"insert","key":1}],[{"op":"insert","key":1}]]}"#,
    ),
    (
        "the least and the greatest key",
        r#"{"version":1,"tree":"atomic","initial":[0,99],"threads":[[{"op":"insert","key":0},{"op":"insert","key":99}]]}"#,
    ),
];

/// What a text is read as.
fn read(alloc: Global, text: &[u8]) -> Result<Program, ProgramFault> {
    Program::from_json(alloc, text)
}

/// The answer for a text. Where a growth was refused the text is read a second time, since a refusal changes nothing.
fn answer(alloc: Global, text: &[u8]) -> Result<Program, ProgramFault> {
    match read(alloc, text) {
        Err(ProgramFault::OutOfMemory) => read(alloc, text),
        answer => answer,
    }
}

/// Reads a text that has this fault.
fn expect_fault(rt: &(impl AllocGlobal + Abort), case: &str, text: &[u8], fault: ProgramFault) {
    assert_eq!(rt; answer(rt.alloc(), text).err(), Some(fault), "{case}");
}

/// Reads texts that all have this fault, each with what it shows.
pub fn expect_fault_of_each(
    rt: &(impl AllocGlobal + Abort),
    texts: &[(&str, &str)],
    fault: ProgramFault,
) {
    for (case, text) in texts {
        expect_fault(rt, case, text.as_bytes(), fault);
    }
}

/// The program of a text that has no fault.
pub fn expect_program(rt: &(impl AllocGlobal + Abort), case: &str, text: &str) -> Program {
    match answer(rt.alloc(), text.as_bytes()) {
        Ok(program) => program,
        Err(stated) => panic!(rt; "{case}: {stated}"),
    }
}

/// The tree of a program's text.
fn tree_of(rt: &(impl AllocGlobal + Abort), text: &str) -> Tree {
    expect_program(rt, "a tree", text).tree()
}

/// The operation of a program that has this name.
fn op_at(program: &Program, thread: u8, index: u8) -> Option<Op> {
    program.op(OpId { thread, index })
}

/// Holds a program to the members of `EVERY_MEMBER`.
fn check_members(rt: &impl Abort, program: &Program) {
    assert_eq!(rt; program.tree(), Tree::EllenNoMark);
    assert_eq!(rt; program.initial(), [30, 7, 12].as_slice());
    assert_eq!(rt; program.threads().len(), 2);
}

/// Holds a program to the operations of `EVERY_MEMBER`.
fn check_ops(rt: &impl Abort, program: &Program) {
    for (thread, index, op) in OPS {
        assert_eq!(rt; op_at(program, *thread, *index), *op);
    }
}

#[test]
fn reads_every_part(rt: HostRuntime) {
    let program = expect_program(&rt, "every member", EVERY_MEMBER);
    check_members(&rt, &program);
    check_ops(&rt, &program);
}

#[test]
fn knows_each_tree(rt: HostRuntime) {
    for (text, tree) in TREES {
        assert_eq!(rt; tree_of(&rt, text), *tree);
    }
}

#[test]
fn accepts_the_limits(rt: HostRuntime) {
    let _two_inserts = expect_program(&rt, "two inserts", TEXT);
    for (case, text) in ACCEPTED {
        let _program = expect_program(&rt, case, text);
    }
}

#[test]
fn refuses_each_beginning(rt: HostRuntime) {
    let text = TEXT.as_bytes();
    for len in 0..text.len() {
        expect_fault(&rt, "a beginning", &text[..len], ProgramFault::NotJson);
    }
}

#[test]
fn refuses_what_is_no_json(rt: HostRuntime) {
    expect_fault_of_each(&rt, NOT_JSON, ProgramFault::NotJson);
}

#[test]
fn refuses_what_is_no_object(rt: HostRuntime) {
    expect_fault_of_each(&rt, NOT_OBJECT, ProgramFault::NotObject);
}

#[test]
fn tells_a_fault_of_the_version(rt: HostRuntime) {
    expect_fault_of_each(&rt, OF_VERSION, ProgramFault::Version);
}

#[test]
fn tells_a_fault_of_the_tree(rt: HostRuntime) {
    expect_fault_of_each(&rt, OF_TREE, ProgramFault::Tree);
}

#[test]
fn tells_a_fault_of_the_initial_keys(rt: HostRuntime) {
    expect_fault_of_each(&rt, OF_INITIAL, ProgramFault::Initial);
}

#[test]
fn tells_an_initial_key_that_stands_twice(rt: HostRuntime) {
    expect_fault_of_each(&rt, OF_INITIAL_TWICE, ProgramFault::InitialTwice);
}

#[test]
fn tells_a_fault_of_the_list_of_threads(rt: HostRuntime) {
    expect_fault_of_each(&rt, OF_THREADS, ProgramFault::Threads);
}

#[test]
fn tells_a_fault_of_a_list_of_operations(rt: HostRuntime) {
    expect_fault_of_each(&rt, OF_OPS, ProgramFault::Ops);
}

#[test]
fn tells_a_fault_of_a_word(rt: HostRuntime) {
    expect_fault_of_each(&rt, OF_OP, ProgramFault::Op);
}

#[test]
fn tells_a_fault_of_a_key(rt: HostRuntime) {
    expect_fault_of_each(&rt, OF_KEY, ProgramFault::Key);
}

#[test]
fn reads_no_text_that_nests_too_deep_or_is_no_utf8(rt: HostRuntime) {
    let mut brackets = [b'['; 256];
    for i in 128..256 {
        brackets[i] = b']';
    }
    expect_fault(&rt, "127 deep", &brackets[1..255], ProgramFault::NotObject);
    expect_fault(&rt, "128 deep", &brackets, ProgramFault::NotJson);
    expect_fault(&rt, "no UTF-8", &[0xff], ProgramFault::NotJson);
}

/// Each fault, with how it is shown.
const SHOWN: &[(ProgramFault, &str)] = &[
    (ProgramFault::NotJson, "P1 NotJson"),
    (ProgramFault::NotObject, "P2 NotObject"),
    (ProgramFault::Version, "P3 Version"),
    (ProgramFault::Tree, "P4 Tree"),
    (ProgramFault::Initial, "P5 Initial"),
    (ProgramFault::InitialTwice, "P6 InitialTwice"),
    (ProgramFault::Threads, "P7 Threads"),
    (ProgramFault::Ops, "P8 Ops"),
    (ProgramFault::Op, "P9 Op"),
    (ProgramFault::Key, "P10 Key"),
    (ProgramFault::OutOfMemory, "P11 OutOfMemory"),
    (ProgramFault::After, "P12 After"),
];

/// Whether a fault is shown as this.
fn is_shown_as(alloc: Global, fault: ProgramFault, shown: &str) -> Result<bool, OutOfMemory> {
    let text = format!(in alloc; "{fault}")?;
    Ok(text.as_str() == shown)
}

#[test]
fn shows_number_and_name(rt: HostRuntime) -> Result<(), Fail> {
    let alloc = rt.alloc();
    for (fault, shown) in SHOWN {
        let first = is_shown_as(alloc, *fault, shown);
        // Once more where a growth was refused.
        let is_right = first.or_else(|_| is_shown_as(alloc, *fault, shown))?;
        assert!(&rt; is_right, "{shown}");
    }
    Ok(())
}

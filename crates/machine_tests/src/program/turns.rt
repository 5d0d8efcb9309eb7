//! What operations wait for, in the second version of texts.

use crate::program::from_json::{expect_fault_of_each, expect_program};
use sched_program::{OpId, Program, ProgramFault};
use std::process::Abort;

/// Three threads. The second and the third one wait.
const WAITING: &str =
    r#"{"version":2,"tree":"nm","initial":[5],"threads":[[{"op":"insert","key":1},{"op":"delete","key":5}],[{"op":"find","key":1,"after":[0,1]},{"op":"find","key":5}],[{"op":"find","key":9,"after":[1,2]},{"after":[0,2],"op":"find","key":9}]]}"#;

/// `WAITING`, except that one operation waits for less.
const SOONER: &str =
    r#"{"version":2,"tree":"nm","initial":[5],"threads":[[{"op":"insert","key":1},{"op":"delete","key":5}],[{"op":"find","key":1,"after":[0,1]},{"op":"find","key":5}],[{"op":"find","key":9,"after":[1,1]},{"after":[0,2],"op":"find","key":9}]]}"#;

/// `WAITING` as a text of version 1, where no operation waits.
const AT_ONCE: &str =
    r#"{"version":1,"tree":"nm","initial":[5],"threads":[[{"op":"insert","key":1},{"op":"delete","key":5}],[{"op":"find","key":1,"after":[0,1]},{"op":"find","key":5}],[{"op":"find","key":9,"after":[1,2]},{"after":[0,2],"op":"find","key":9}]]}"#;

/// What the operations of `WAITING` wait for, by thread and index, and that those which it has not wait for nothing.
const TURNS: &[(u8, u8, Option<(u8, u8)>)] = &[
    (0, 0, None),
    (0, 1, None),
    (0, 2, None),
    (1, 0, Some((0, 1))),
    (1, 1, None),
    (2, 0, Some((1, 2))),
    (2, 1, Some((0, 2))),
    (2, 2, None),
    (3, 0, None),
    (255, 255, None),
];

/// Texts of version 1 in which a member `after` is ignored, whatever it is.
const IGNORED: &[(&str, &str)] = &[
    (
        "a turn",
        r#"{"version":1,"tree":"atomic","initial":[],"threads":[[{"op":"insert","key":1}],[{"op":"insert","key":1,"after":[0,1]}]]}"#,
    ),
    (
        "the first thread",
        r#"{"version":1,"tree":"atomic","initial":[],"threads":[[{"op":"insert","key":1,"after":[0,1]}],[{"op":"insert","key":1}]]}"#,
    ),
    (
        "null",
        r#"{"version":1,"tree":"atomic","initial":[],"threads":[[{"op":"insert","key":1}],[{"op":"insert","key":1,"after":null}]]}"#,
    ),
    (
        "a text",
        r#"{"version":1,"tree":"atomic","initial":[],"threads":[[{"op":"insert","key":1,"after":"soon"}],[{"op":"insert","key":1}]]}"#,
    ),
];

/// Texts whose first fault is what an operation waits for.
const OF_AFTER: &[(&str, &str)] = &[
    (
        "its own thread",
        r#"{"version":2,"tree":"atomic","initial":[],"threads":[[{"op":"insert","key":1}],[{"op":"insert","key":1,"after":[1,1]}]]}"#,
    ),
    (
        "no operation",
        r#"{"version":2,"tree":"atomic","initial":[],"threads":[[{"op":"insert","key":1}],[{"op":"insert","key":1,"after":[0,0]}]]}"#,
    ),
    (
        "more operations than there are",
        r#"{"version":2,"tree":"atomic","initial":[],"threads":[[{"op":"insert","key":1}],[{"op":"insert","key":1,"after":[0,2]}]]}"#,
    ),
    (
        "one number",
        r#"{"version":2,"tree":"atomic","initial":[],"threads":[[{"op":"insert","key":1}],[{"op":"insert","key":1,"after":[0]}]]}"#,
    ),
    (
        "null",
        r#"{"version":2,"tree":"atomic","initial":[],"threads":[[{"op":"insert","key":1}],[{"op":"insert","key":1,"after":null}]]}"#,
    ),
    (
        "a count with a point",
        r#"{"version":2,"tree":"atomic","initial":[],"threads":[[{"op":"insert","key":1}],[{"op":"insert","key":1,"after":[0,1.0]}]]}"#,
    ),
    (
        "three numbers",
        r#"{"version":2,"tree":"atomic","initial":[],"threads":[[{"op":"insert","key":1}],[{"op":"insert","key":1,"after":[0,1,1]}]]}"#,
    ),
    (
        "no numbers",
        r#"{"version":2,"tree":"atomic","initial":[],"threads":[[{"op":"insert","key":1}],[{"op":"insert","key":1,"after":[]}]]}"#,
    ),
    (
        "a thread that is not there",
        r#"{"version":2,"tree":"atomic","initial":[],"threads":[[{"op":"insert","key":1}],[{"op":"insert","key":1,"after":[2,1]}]]}"#,
    ),
    (
        "a negative thread",
        r#"{"version":2,"tree":"atomic","initial":[],"threads":[[{"op":"insert","key":1}],[{"op":"insert","key":1,"after":[-1,1]}]]}"#,
    ),
    (
        "a great count",
        r#"{"version":2,"tree":"atomic","initial":[],"threads":[[{"op":"insert","key":1}],[{"op":"insert","key":1,"after":[0,18446744073709551615]}]]}"#,
    ),
    (
        "a count that is no number of bytes",
        r#"{"version":2,"tree":"atomic","initial":[],"threads":[[{"op":"insert","key":1}],[{"op":"insert","key":1,"after":[0,257]}]]}"#,
    ),
    (
        "a thread of 256 more",
        r#"{"version":2,"tree":"atomic","initial":[],"threads":[[{"op":"insert","key":1}],[{"op":"insert","key":1,"after":[256,1]}]]}"#,
    ),
    (
        "a number above all",
        r#"{"version":2,"tree":"atomic","initial":[],"threads":[[{"op":"insert","key":1}],[{"op":"insert","key":1,"after":[0,18446744073709551616]}]]}"#,
    ),
    (
        "texts",
        r#"{"version":2,"tree":"atomic","initial":[],"threads":[[{"op":"insert","key":1}],[{"op":"insert","key":1,"after":["0","1"]}]]}"#,
    ),
    (
        "an object",
        r#"{"version":2,"tree":"atomic","initial":[],"threads":[[{"op":"insert","key":1}],[{"op":"insert","key":1,"after":{"thread":0,"count":1}}]]}"#,
    ),
    (
        "a number",
        r#"{"version":2,"tree":"atomic","initial":[],"threads":[[{"op":"insert","key":1}],[{"op":"insert","key":1,"after":1}]]}"#,
    ),
    (
        "lists",
        r#"{"version":2,"tree":"atomic","initial":[],"threads":[[{"op":"insert","key":1}],[{"op":"insert","key":1,"after":[[0],[1]]}]]}"#,
    ),
    (
        "a truth",
        r#"{"version":2,"tree":"atomic","initial":[],"threads":[[{"op":"insert","key":1}],[{"op":"insert","key":1,"after":true}]]}"#,
    ),
    (
        "the first thread waits",
        r#"{"version":2,"tree":"atomic","initial":[],"threads":[[{"op":"insert","key":1,"after":[0,1]}],[{"op":"insert","key":1}]]}"#,
    ),
    (
        "a later thread",
        r#"{"version":2,"tree":"atomic","initial":[],"threads":[[{"op":"insert","key":1,"after":[1,1]}],[{"op":"insert","key":1}]]}"#,
    ),
    (
        "both of two operations wait, and the second wrongly",
        r#"{"version":2,"tree":"atomic","initial":[],"threads":[[{"op":"insert","key":1}],[{"op":"insert","key":1,"after":[0,1]},{"op":"find","key":1,"after":[0,2]}]]}"#,
    ),
    (
        "a member that stands twice, the last of which counts",
        r#"{"version":2,"tree":"atomic","initial":[],"threads":[[{"op":"insert","key":1}],[{"op":"insert","key":1,"after":[0,1],"after":[0,9]}]]}"#,
    ),
];

/// Texts of version 2 whose first fault is a key.
const OF_KEY: &[(&str, &str)] = &[
    (
        "a key 100 and a first thread that waits",
        r#"{"version":2,"tree":"atomic","initial":[],"threads":[[{"op":"insert","key":100,"after":[0,1]}],[{"op":"insert","key":1}]]}"#,
    ),
    (
        "a key 100 after an operation that waits wrongly",
        r#"{"version":2,"tree":"atomic","initial":[],"threads":[[{"op":"insert","key":1}],[{"op":"insert","key":100,"after":[0,0]}]]}"#,
    ),
    (
        "a key 100 in version 2",
        r#"{"version":2,"tree":"atomic","initial":[],"threads":[[{"op":"insert","key":1}],[{"op":"insert","key":100}]]}"#,
    ),
];

/// What an operation of a program waits for.
fn turn_at(program: &Program, thread: u8, index: u8) -> Option<(u8, u8)> {
    program.after(OpId { thread, index })
}

/// Holds a program to the turns of `WAITING`.
fn check_turns(rt: &impl Abort, program: &Program) {
    for (thread, index, turn) in TURNS {
        assert_eq!(rt; turn_at(program, *thread, *index), *turn);
    }
}

/// Holds a program to no turns.
fn check_no_turns(rt: &impl Abort, program: &Program) {
    for (thread, index, _) in TURNS {
        assert_eq!(rt; turn_at(program, *thread, *index), None);
    }
}

#[test]
fn reads_what_operations_wait_for(rt: HostRuntime) {
    let program = expect_program(&rt, "waiting", WAITING);
    check_turns(&rt, &program);
}

#[test]
fn copies_what_operations_wait_for(rt: HostRuntime) {
    let program = expect_program(&rt, "waiting", WAITING);
    let alloc = rt.alloc();
    let Ok(copy) = program.copy(alloc).or_else(|_| program.copy(alloc)) else {
        panic!(&rt; "refused twice");
    };
    check_turns(&rt, &copy);
}

#[test]
fn ignores_waiting_in_version_1(rt: HostRuntime) {
    let program = expect_program(&rt, "at once", AT_ONCE);
    check_no_turns(&rt, &program);
    for (case, text) in IGNORED {
        let program = expect_program(&rt, case, text);
        check_no_turns(&rt, &program);
    }
}

/// Whether the programs of two texts are the same.
fn are_same(rt: &(impl AllocGlobal + Abort), one: &str, other: &str) -> bool {
    let one = expect_program(rt, "one", one);
    let other = expect_program(rt, "other", other);
    one.is_same(&other)
}

#[test]
fn programs_that_wait_for_other_turns_differ(rt: HostRuntime) {
    assert!(&rt; are_same(&rt, WAITING, WAITING));
    assert!(&rt; !are_same(&rt, WAITING, SOONER));
    assert!(&rt; !are_same(&rt, WAITING, AT_ONCE));
}

#[test]
fn tells_a_fault_of_what_is_waited_for(rt: HostRuntime) {
    expect_fault_of_each(&rt, OF_AFTER, ProgramFault::After);
}

#[test]
fn tells_a_fault_of_a_key_before_it(rt: HostRuntime) {
    expect_fault_of_each(&rt, OF_KEY, ProgramFault::Key);
}

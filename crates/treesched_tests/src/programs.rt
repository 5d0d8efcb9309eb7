//! Which texts are programs.
use crate::answers::{Wanted, answers};
use crate::cases::{Case, Runtime, check, check_all};
use crate::sources::TWO_INSERTS;
use sched_program::OutOfMemory;
use std::test::Fail;

/// The words that each text is tried with.
const LINE: &str = "treesched explore f --steps 2";

const NOT_JSON: Wanted<'static> = Wanted::Tells(3, "treesched: P1 NotJson\n");

const NOT_OBJECT: Wanted<'static> = Wanted::Tells(3, "treesched: P2 NotObject\n");

const VERSION: Wanted<'static> = Wanted::Tells(3, "treesched: P3 Version\n");

const INITIAL: Wanted<'static> = Wanted::Tells(3, "treesched: P5 Initial\n");

const INITIAL_TWICE: Wanted<'static> = Wanted::Tells(3, "treesched: P6 InitialTwice\n");

const THREADS: Wanted<'static> = Wanted::Tells(3, "treesched: P7 Threads\n");

const OPS: Wanted<'static> = Wanted::Tells(3, "treesched: P8 Ops\n");

const OP: Wanted<'static> = Wanted::Tells(3, "treesched: P9 Op\n");

const KEY: Wanted<'static> = Wanted::Tells(3, "treesched: P10 Key\n");

const AFTER: Wanted<'static> = Wanted::Tells(3, "treesched: P12 After\n");

static FIRST_FAULTS: [Case<'static>; 7] = [
    Case::Line(
        LINE,
        br#"{"version":1,"tree":"atomic","initial":[7,7],"threads":[[{"op":"insert","key":1}]]}"#,
        INITIAL_TWICE,
    ),
    Case::Line(
        LINE,
        br#"{"version":1,"tree":"atomic","initial":[],"threads":[[{"op":"insert","key":100}]]}"#,
        KEY,
    ),
    Case::Line(
        LINE,
        br#"{"version":1,"tree":"atomic","initial":[7,7],"threads":[[{"op":"insert","key":100}]]}"#,
        INITIAL_TWICE,
    ),
    Case::Line(
        LINE,
        br#"{"version":1,"tree":"atomic","initial":[5.0],"threads":[[{"op":"insert","key":1}]]}"#,
        INITIAL,
    ),
    Case::Line(
        LINE,
        br#"{"version":1,"tree":"atomic","initial":[],"threads":[[]]}"#,
        OPS,
    ),
    Case::Line(
        LINE,
        br#"{"version":1,"tree":"atomic","initial":[],"threads":[[{"op":"put","key":1}]]}"#,
        OP,
    ),
    Case::Line(
        LINE,
        br#"{"version":1,"tree":"atomic","initial":[],"threads":[[{"op":"insert","key":1}],[{"op":"insert","key":1}],[{"op":"insert","key":1}],[{"op":"insert","key":1}],[{"op":"insert","key":1}]]}"#,
        THREADS,
    ),
];

#[test]
fn tells_the_first_fault(rt: HostRuntime) -> Result<(), Fail> {
    check_all(&rt, FIRST_FAULTS.as_slice())
}

/// Whether a text of `count` opening brackets and `count` closing ones has that answer.
pub fn nests<R: Runtime>(rt: &R, count: usize, wanted: &Wanted<'_>) -> Result<bool, OutOfMemory> {
    let mut file = vec![in rt.alloc(); b'['; count]?;
    file.resize(count.saturating_mul(2), b']')?;
    answers(rt, LINE, file.as_slice(), wanted)
}

static WHOLE_TEXTS: [Case<'static>; 8] = [
    Case::Line(
        LINE,
        br#"{"version":3,"tree":"atomic","initial":[],"threads":[[{"op":"insert","key":1}]]}"#,
        VERSION,
    ),
    Case::Line(LINE, b"[]", NOT_OBJECT),
    Case::Line(LINE, b"", NOT_JSON),
    Case::Line(LINE, b"\xff", NOT_JSON),
    Case::Line(
        LINE,
        b"\xef\xbb\xbf{\"version\":1,\"tree\":\"atomic\",\"initial\":[],\"threads\":[[{\"op\":\"insert\",\"key\":1}],[{\"op\":\"insert\",\"key\":1}]]}",
        NOT_JSON,
    ),
    Case::Line(
        LINE,
        br#"{"version":1,"tree":"atomic","initial":[],"threads":[[{"op":"insert","key":1}],[{"op":"insert","key":1}]]}x"#,
        NOT_JSON,
    ),
    Case::Nested(127, NOT_OBJECT),
    Case::Nested(128, NOT_JSON),
];

#[test]
fn tells_faults_of_the_whole_text(rt: HostRuntime) -> Result<(), Fail> {
    check_all(&rt, WHOLE_TEXTS.as_slice())
}

#[test]
fn tells_a_text_that_ends_too_early(rt: HostRuntime) -> Result<(), Fail> {
    for length in 0..TWO_INSERTS.len() {
        check(
            &rt,
            length,
            &Case::Line(LINE, &TWO_INSERTS[..length], NOT_JSON),
        )?;
    }
    Ok(())
}

static KEYS: [Case<'static>; 8] = [
    Case::Line(
        LINE,
        br#"{"version":1,"tree":"atomic","initial":[],"threads":[[{"op":"insert","key":-0}]]}"#,
        KEY,
    ),
    Case::Line(
        LINE,
        br#"{"version":1,"tree":"atomic","initial":[],"threads":[[{"op":"insert","key":1e1}]]}"#,
        KEY,
    ),
    Case::Line(
        LINE,
        br#"{"version":1,"tree":"atomic","initial":[],"threads":[[{"op":"insert","key":"5"}]]}"#,
        KEY,
    ),
    Case::Line(
        LINE,
        br#"{"version":1,"tree":"atomic","initial":[],"threads":[[{"op":"insert","key":18446744073709551616}]]}"#,
        KEY,
    ),
    Case::Line(
        LINE,
        br#"{"version":1,"tree":"atomic","initial":[],"threads":[[{"op":"insert","key":5.0}]]}"#,
        KEY,
    ),
    Case::Line(
        LINE,
        br#"{"version":1,"tree":"atomic","initial":[],"threads":[[{"op":"insert","key":100}]]}"#,
        KEY,
    ),
    Case::Line(
        LINE,
        br#"{"version":1,"tree":"atomic","initial":[],"threads":[[{"op":"insert","key":null}]]}"#,
        KEY,
    ),
    Case::Line(
        LINE,
        br#"{"version":1,"tree":"atomic","initial":[],"threads":[[{"op":"insert","key":007}]]}"#,
        NOT_JSON,
    ),
];

#[test]
fn takes_keys_of_digits_alone(rt: HostRuntime) -> Result<(), Fail> {
    check_all(&rt, KEYS.as_slice())
}

static TURNS: [Case<'static>; 8] = [
    Case::Line(
        LINE,
        br#"{"version":2,"tree":"atomic","initial":[],"threads":[[{"op":"insert","key":1}],[{"op":"insert","key":1,"after":[1,1]}]]}"#,
        AFTER,
    ),
    Case::Line(
        LINE,
        br#"{"version":2,"tree":"atomic","initial":[],"threads":[[{"op":"insert","key":1}],[{"op":"insert","key":1,"after":[0,0]}]]}"#,
        AFTER,
    ),
    Case::Line(
        LINE,
        br#"{"version":2,"tree":"atomic","initial":[],"threads":[[{"op":"insert","key":1}],[{"op":"insert","key":1,"after":[0,2]}]]}"#,
        AFTER,
    ),
    Case::Line(
        LINE,
        br#"{"version":2,"tree":"atomic","initial":[],"threads":[[{"op":"insert","key":1}],[{"op":"insert","key":1,"after":[0]}]]}"#,
        AFTER,
    ),
    Case::Line(
        LINE,
        br#"{"version":2,"tree":"atomic","initial":[],"threads":[[{"op":"insert","key":1}],[{"op":"insert","key":1,"after":null}]]}"#,
        AFTER,
    ),
    Case::Line(
        LINE,
        br#"{"version":2,"tree":"atomic","initial":[],"threads":[[{"op":"insert","key":1}],[{"op":"insert","key":1,"after":[0,1.0]}]]}"#,
        AFTER,
    ),
    Case::Line(
        LINE,
        br#"{"version":2,"tree":"atomic","initial":[],"threads":[[{"op":"insert","key":1,"after":[0,1]}],[{"op":"insert","key":1}]]}"#,
        AFTER,
    ),
    // The last member of a name counts.
    Case::Line(
        LINE,
        br#"{"version":2,"tree":"atomic","initial":[],"threads":[[{"op":"insert","key":1,"after":[0,1]}],[{"op":"insert","key":1,"key":100}]]}"#,
        KEY,
    ),
];

#[test]
fn waits_for_operations_of_earlier_threads(rt: HostRuntime) -> Result<(), Fail> {
    check_all(&rt, TURNS.as_slice())
}

/// Thirteen keys, seven operations of one thread, and four threads of four operations.
static COUNTS: [Case<'static>; 3] = [
    Case::Line(
        LINE,
        br#"{"version":1,"tree":"atomic","initial":[1,2,3,4,5,6,7,8,9,10,11,12,13],"threads":[[{"op":"insert","key":1}]]}"#,
        INITIAL,
    ),
    Case::Line(
        LINE,
        br#"{"version":1,"tree":"atomic","initial":[],"threads":[[{"op":"insert","key":1},{"op":"insert","key":1},{"op":"insert","key":1},{"op":"insert","key":1},{"op":"insert","key":1},{"op":"insert","key":1},{"op":"insert","key":1}]]}"#,
        OPS,
    ),
    Case::Line(
        LINE,
        br#"{"version":1,"tree":"atomic","initial":[],"threads":[[{"op":"insert","key":1},{"op":"insert","key":1},{"op":"insert","key":1},{"op":"insert","key":1}],[{"op":"insert","key":1},{"op":"insert","key":1},{"op":"insert","key":1},{"op":"insert","key":1}],[{"op":"insert","key":1},{"op":"insert","key":1},{"op":"insert","key":1},{"op":"insert","key":1}],[{"op":"insert","key":1},{"op":"insert","key":1},{"op":"insert","key":1},{"op":"insert","key":1}]]}"#,
        OPS,
    ),
];

#[test]
fn counts_keys_and_operations(rt: HostRuntime) -> Result<(), Fail> {
    check_all(&rt, COUNTS.as_slice())
}

static PROGRAMS: [Case<'static>; 2] = [
    Case::Line(
        LINE,
        b"{\"version\":1,\"tree\":\"atomic\",\"initial\":[],\"threads\":[[{\"op\":\"insert\",\"key\":1}],[{\"op\":\"insert\",\"key\":1}]]}\n",
        Wanted::Prints(0, "holds to 2 steps\nstates 5\n"),
    ),
    Case::Line(
        "treesched explore f --steps 0",
        br#"{"version":1,"tree":"atomic","initial":[],"threads":[[{"op":"insert","key":1},{"op":"insert","key":1},{"op":"insert","key":1}],[{"op":"insert","key":1},{"op":"insert","key":1},{"op":"insert","key":1}],[{"op":"insert","key":1},{"op":"insert","key":1},{"op":"insert","key":1}],[{"op":"insert","key":1},{"op":"insert","key":1},{"op":"insert","key":1}]]}"#,
        Wanted::Prints(0, "holds to 0 steps\nstates 1\n"),
    ),
];

#[test]
fn takes_a_line_feed_behind_and_twelve_operations(rt: HostRuntime) -> Result<(), Fail> {
    check_all(&rt, PROGRAMS.as_slice())
}

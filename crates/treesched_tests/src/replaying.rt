//! What is printed for replays, and which lists are schedules.
use crate::answers::{Wanted, answer};
use crate::cases::{Case, Runtime, check_all};
use crate::sources::{
    ELLEN_INSERT, ELLEN_NO_MARK, NM_INSERT, NM_NO_TAG, THREE_INSERTS, TWO_IN_TURN, TWO_INSERTS,
};
use sched_program::OutOfMemory;
use std::test::Fail;

/// Whether a replay of the schedule has that answer.
pub fn replays<R: Runtime>(
    rt: &R,
    schedule: &str,
    file: &[u8],
    wanted: &Wanted<'_>,
) -> Result<bool, OutOfMemory> {
    let words = ["treesched", "replay", "f", "--schedule", schedule];
    let output = answer(rt, words.as_slice(), file)?;
    Ok(wanted.is_met(rt, &output))
}

/// A program of two threads, an insert and a find.
const INSERT_AND_FIND: &[u8] =
    br#"{"version":1,"tree":"ellen","initial":[],"threads":[[{"op":"insert","key":5}],[{"op":"find","key":5}]]}"#;

static REPLAYED: [Case<'static>; 9] = [
    Case::Replay(
        "1,0",
        TWO_INSERTS,
        Wanted::Prints(
            0,
            "0.0 insert 1 false\n1.0 insert 1 true\norder 1.0 0.0\nno fault\n",
        ),
    ),
    Case::Replay(
        "0",
        TWO_INSERTS,
        Wanted::Prints(0, "0.0 insert 1 true\norder 0.0\nno fault\n"),
    ),
    Case::Replay("", TWO_INSERTS, Wanted::Prints(0, "order -\nno fault\n")),
    Case::Replay(
        "2,0,1",
        THREE_INSERTS,
        Wanted::Prints(
            0,
            "0.0 insert 1 false\n1.0 insert 1 false\n2.0 insert 1 true\norder 2.0 0.0 1.0\nno fault\n",
        ),
    ),
    Case::Replay(
        "0,0,0,0,1,1,1,1",
        INSERT_AND_FIND,
        Wanted::Prints(
            0,
            "0.0 insert 5 pending\n1.0 find 5 true\norder 0.0 1.0\nno fault\n",
        ),
    ),
    Case::Replay(
        "0,0,0,0,1,1,1,1,1,0,0,0,0,0,1,1,0,0,0,0,0,0,0,0,0,0,0,0",
        ELLEN_INSERT,
        Wanted::Prints(
            0,
            "0.0 delete 10 true\n1.0 insert 5 true\norder 0.0 1.0\nno fault\n",
        ),
    ),
    Case::Replay(
        "0,0,0,1,1,1,1,1,1,1,1,1,1,0,0,0,0,0,0",
        NM_INSERT,
        Wanted::Prints(
            0,
            "0.0 delete 10 true\n1.0 insert 5 true\norder 0.0 1.0\nno fault\n",
        ),
    ),
    Case::Replay(
        "0,0,0,0,0,0,0,1,1,0,1,1,1,1,1,1,1",
        ELLEN_NO_MARK,
        Wanted::Prints(
            1,
            "0.0 delete 10 pending\n1.0 insert 5 true\n1.1 find 5 false\nfault history\n",
        ),
    ),
    Case::Replay(
        "1,1,1,0,0,0,0,0,0,1,0,1,1",
        NM_NO_TAG,
        Wanted::Prints(
            1,
            "0.0 delete 10 true\n1.0 insert 25 true\n1.1 find 25 false\nfault history\n",
        ),
    ),
];

#[test]
fn replays_schedules(rt: HostRuntime) -> Result<(), Fail> {
    check_all(&rt, REPLAYED.as_slice())
}

static STUCK: [Case<'static>; 3] = [
    Case::Replay(
        "0,0",
        TWO_INSERTS,
        Wanted::Tells(4, "treesched: step 2: thread 0 has no step\n"),
    ),
    Case::Replay(
        "7",
        THREE_INSERTS,
        Wanted::Tells(4, "treesched: step 1: thread 7 has no step\n"),
    ),
    Case::Replay(
        "1",
        TWO_IN_TURN,
        Wanted::Tells(4, "treesched: step 1: thread 1 has no step\n"),
    ),
];

#[test]
fn stops_where_a_thread_has_no_step(rt: HostRuntime) -> Result<(), Fail> {
    check_all(&rt, STUCK.as_slice())
}

const BAD_SCHEDULE: Wanted<'static> = Wanted::Tells(4, "treesched: bad schedule\n");

static NO_SCHEDULES: [Case<'static>; 13] = [
    Case::Replay("0,", TWO_INSERTS, BAD_SCHEDULE),
    Case::Replay(",", TWO_INSERTS, BAD_SCHEDULE),
    Case::Replay("00", TWO_INSERTS, BAD_SCHEDULE),
    Case::Replay(" 0", TWO_INSERTS, BAD_SCHEDULE),
    Case::Replay("10", TWO_INSERTS, BAD_SCHEDULE),
    Case::Replay("0,,1", TWO_INSERTS, BAD_SCHEDULE),
    Case::Replay("0, 1", TWO_INSERTS, BAD_SCHEDULE),
    Case::Replay("0 1", TWO_INSERTS, BAD_SCHEDULE),
    Case::Replay("a", TWO_INSERTS, BAD_SCHEDULE),
    Case::Replay("0,a", TWO_INSERTS, BAD_SCHEDULE),
    Case::Replay("+0", TWO_INSERTS, BAD_SCHEDULE),
    Case::Replay(",0", TWO_INSERTS, BAD_SCHEDULE),
    Case::Replay("0,1,", TWO_INSERTS, BAD_SCHEDULE),
];

#[test]
fn refuses_what_is_no_schedule(rt: HostRuntime) -> Result<(), Fail> {
    check_all(&rt, NO_SCHEDULES.as_slice())
}

/// Whether a replay of `count` steps of the first of two threads, which has one step, has that answer.
pub fn replays_zeros<R: Runtime>(
    rt: &R,
    count: usize,
    wanted: &Wanted<'_>,
) -> Result<bool, OutOfMemory> {
    let mut schedule = "0,".repeat(rt.alloc(), count)?;
    schedule.pop();
    replays(rt, schedule.as_str(), TWO_INSERTS, wanted)
}

static LENGTHS: [Case<'static>; 2] = [
    Case::Zeros(
        400,
        Wanted::Tells(4, "treesched: step 2: thread 0 has no step\n"),
    ),
    Case::Zeros(401, BAD_SCHEDULE),
];

#[test]
fn takes_400_steps_and_no_more(rt: HostRuntime) -> Result<(), Fail> {
    check_all(&rt, LENGTHS.as_slice())
}

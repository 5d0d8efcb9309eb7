//! Explorations whose outcome is known. Two explorers that have no code in common with this one report the same numbers
//! of states.
use book::Merge;
use sched_program::OutOfMemory;
use std::alloc::Global;
use std::ops::RangeInclusive;
use treesched_tests::sources::{
    ELLEN, ELLEN_IN_TURN, ELLEN_INSERT, ELLEN_NO_IFLAG, ELLEN_NO_IFLAG_IN_TURN, ELLEN_NO_MARK,
    ELLEN_NO_MARK_IN_TURN, FINDS_IN_TURN, LAST_IN_TURN, NM, NM_IN_TURN, NM_INSERT, NM_NO_TAG,
    NM_NO_TAG_IN_TURN, TWO_AT_ONCE, TWO_FINDS, TWO_IN_TURN, TWO_INSERTS,
};

/// The limit of an exploration that names none.
pub const AMPLE: u32 = 200_000;

/// What an exploration comes to.
#[derive(Clone, Copy)]
pub enum Outcome {
    /// No fault after any number of steps, and the number of states.
    Every { states: u32 },
    /// No fault, and the number of states.
    Holds { states: u32 },
    /// A history without an order, and the number of states. The schedule is the first shortest one in list order.
    Fault { schedule: &'static str, states: u32 },
    /// More states than the limit. Schedules of `holds_to` steps hold.
    Stopped { holds_to: u16 },
}

/// An exploration, and what it comes to.
#[derive(Clone, Copy)]
pub struct Exploration {
    pub file: &'static [u8],
    pub steps: u16,
    pub merge: Merge,
    pub limit: u32,
    pub outcome: Outcome,
}

impl Exploration {
    /// The words that ask for it.
    pub fn line(&self, alloc: Global) -> Result<String, OutOfMemory> {
        let steps = self.steps;
        let merge = match self.merge {
            Merge::Exact => "",
            Merge::Names => " --merge names",
        };
        match self.limit {
            AMPLE => format!(in alloc; "treesched explore f --steps {steps}{merge}"),
            limit => format!(in alloc;
                "treesched explore f --steps {steps}{merge} --states {limit}"
            ),
        }
    }

    /// Whether the limit stops it.
    pub fn is_stopped(&self) -> bool {
        matches!(self.outcome, Outcome::Stopped { .. })
    }

    /// The status that the program ends with.
    pub fn status(&self) -> u8 {
        match self.outcome {
            Outcome::Every { .. } | Outcome::Holds { .. } => 0,
            Outcome::Fault { .. } => 1,
            Outcome::Stopped { .. } => 2,
        }
    }

    /// What one worker prints.
    pub fn text(&self, alloc: Global) -> Result<String, OutOfMemory> {
        match self.outcome {
            Outcome::Every { states } => {
                format!(in alloc; "holds for every schedule\nstates {states}\n")
            }
            Outcome::Holds { states } => {
                let steps = self.steps;
                format!(in alloc; "holds to {steps} steps\nstates {states}\n")
            }
            Outcome::Fault { schedule, states } => {
                let steps = length_of(schedule);
                format!(in alloc;
                    "fault history after {steps} steps\nschedule {schedule}\nstates {states}\n"
                )
            }
            Outcome::Stopped { holds_to } => {
                let limit = self.limit;
                format!(in alloc; "stopped at {limit} states\nholds to {holds_to} steps\n")
            }
        }
    }
}

/// How many steps a schedule has, which is not the empty one.
pub fn length_of(schedule: &str) -> usize {
    schedule.split(',').count()
}

/// What is known of a program's schedules.
enum Schedules {
    /// None reaches a fault, and by names those of this number of steps and more reach no further state.
    Close(u16),
    /// The first shortest one to a fault in the order of lists.
    Fault(&'static str),
}

/// A program, the bound on steps, what is known of its schedules, and the counts of states: exact and by names.
pub struct Known(&'static [u8], u16, Schedules, u32, u32);

impl Known {
    /// How many states are reached.
    pub fn states(&self, merge: Merge) -> u32 {
        match merge {
            Merge::Exact => self.3,
            Merge::Names => self.4,
        }
    }

    /// The exploration with a limit that suffices.
    pub fn exploration(&self, merge: Merge, limit: u32) -> Exploration {
        Exploration {
            file: self.0,
            steps: self.1,
            merge,
            limit,
            outcome: self.outcome(merge),
        }
    }

    fn outcome(&self, merge: Merge) -> Outcome {
        let states = self.states(merge);
        match self.2 {
            Schedules::Close(from) if merge == Merge::Names && from <= self.1 => {
                Outcome::Every { states }
            }
            Schedules::Close(_) => Outcome::Holds { states },
            Schedules::Fault(schedule) => Outcome::Fault { schedule, states },
        }
    }
}

/// Programs of one thread. They reach one state more than they take steps.
pub static ONE_THREAD: [Known; 14] = [
    Known(
        br#"{"version":1,"tree":"ellen","initial":[],"threads":[[{"op":"insert","key":5}]]}"#,
        10,
        Schedules::Close(6),
        6,
        6,
    ),
    Known(
        br#"{"version":1,"tree":"ellen","initial":[],"threads":[[{"op":"delete","key":5}]]}"#,
        10,
        Schedules::Close(3),
        3,
        3,
    ),
    Known(
        br#"{"version":1,"tree":"ellen","initial":[10],"threads":[[{"op":"delete","key":10}]]}"#,
        20,
        Schedules::Close(11),
        11,
        11,
    ),
    Known(
        br#"{"version":1,"tree":"ellen","initial":[10],"threads":[[{"op":"insert","key":10}]]}"#,
        20,
        Schedules::Close(5),
        5,
        5,
    ),
    Known(
        br#"{"version":1,"tree":"ellen","initial":[10],"threads":[[{"op":"find","key":10}]]}"#,
        20,
        Schedules::Close(5),
        5,
        5,
    ),
    Known(
        br#"{"version":1,"tree":"ellen","initial":[10],"threads":[[{"op":"insert","key":5}]]}"#,
        20,
        Schedules::Close(8),
        8,
        8,
    ),
    Known(
        br#"{"version":1,"tree":"ellen","initial":[10,20],"threads":[[{"op":"delete","key":20}]]}"#,
        20,
        Schedules::Close(13),
        13,
        13,
    ),
    Known(
        br#"{"version":1,"tree":"nm","initial":[],"threads":[[{"op":"insert","key":5}]]}"#,
        20,
        Schedules::Close(3),
        3,
        3,
    ),
    Known(
        br#"{"version":1,"tree":"nm","initial":[],"threads":[[{"op":"find","key":5}]]}"#,
        20,
        Schedules::Close(2),
        2,
        2,
    ),
    Known(
        br#"{"version":1,"tree":"nm","initial":[10],"threads":[[{"op":"delete","key":10}]]}"#,
        20,
        Schedules::Close(8),
        8,
        8,
    ),
    Known(
        br#"{"version":1,"tree":"nm","initial":[10],"threads":[[{"op":"insert","key":10}]]}"#,
        20,
        Schedules::Close(3),
        3,
        3,
    ),
    Known(
        br#"{"version":1,"tree":"nm","initial":[10],"threads":[[{"op":"find","key":10}]]}"#,
        20,
        Schedules::Close(3),
        3,
        3,
    ),
    Known(
        br#"{"version":1,"tree":"nm","initial":[10],"threads":[[{"op":"insert","key":5}]]}"#,
        20,
        Schedules::Close(4),
        4,
        4,
    ),
    Known(
        br#"{"version":1,"tree":"nm","initial":[10,20],"threads":[[{"op":"delete","key":20}]]}"#,
        20,
        Schedules::Close(9),
        9,
        9,
    ),
];

const INSERTS: Known = Known(TWO_INSERTS, 2, Schedules::Close(3), 5, 5);

const FINDS: Known = Known(TWO_FINDS, 4, Schedules::Close(5), 13, 13);

/// Two threads that each insert a key beside another leaf.
const APART: &[u8] =
    br#"{"version":1,"tree":"nm","initial":[10,20],"threads":[[{"op":"insert","key":5}],[{"op":"insert","key":25}]]}"#;

/// `APART`, where the second insert waits for the first.
const APART_IN_TURN: &[u8] =
    br#"{"version":2,"tree":"nm","initial":[10,20],"threads":[[{"op":"insert","key":5}],[{"op":"insert","key":25,"after":[0,1]}]]}"#;

/// Programs of two threads.
pub static TWO_THREADS: [Known; 8] = [
    Known(TWO_INSERTS, 0, Schedules::Close(3), 1, 1),
    Known(TWO_INSERTS, 1, Schedules::Close(3), 3, 3),
    INSERTS,
    Known(TWO_INSERTS, 400, Schedules::Close(3), 5, 5),
    FINDS,
    Known(APART, 8, Schedules::Close(9), 34, 33),
    Known(ELLEN, 20, Schedules::Close(32), 902, 553),
    Known(NM, 20, Schedules::Close(26), 195, 184),
];

/// Programs in which an operation waits for another, and one of version 1, in which that is ignored.
pub static IN_TURN: [Known; 10] = [
    Known(TWO_IN_TURN, 2, Schedules::Close(3), 3, 3),
    Known(TWO_AT_ONCE, 2, Schedules::Close(3), 5, 5),
    Known(LAST_IN_TURN, 3, Schedules::Close(4), 9, 9),
    Known(FINDS_IN_TURN, 4, Schedules::Close(5), 5, 5),
    Known(APART_IN_TURN, 8, Schedules::Close(9), 9, 9),
    Known(ELLEN_IN_TURN, 20, Schedules::Close(20), 20, 20),
    Known(ELLEN_NO_MARK_IN_TURN, 20, Schedules::Close(19), 19, 19),
    Known(ELLEN_NO_IFLAG_IN_TURN, 20, Schedules::Close(18), 18, 18),
    Known(NM_IN_TURN, 20, Schedules::Close(15), 15, 15),
    Known(NM_NO_TAG_IN_TURN, 20, Schedules::Close(14), 14, 14),
];

/// Programs of two threads, each schedule to its end.
pub static WHOLE: [Known; 3] = [
    Known(TWO_INSERTS, 400, Schedules::Close(3), 5, 5),
    Known(ELLEN, 400, Schedules::Close(32), 2094, 831),
    Known(NM, 400, Schedules::Close(26), 224, 198),
];

/// A program, from how many steps on by names every schedule is covered, and how many states that reaches.
pub struct Closing(&'static [u8], u16, u32);

impl Closing {
    /// One step fewer, and this number of steps.
    pub fn steps(&self) -> RangeInclusive<u16> {
        self.1.saturating_sub(1)..=self.1
    }

    /// The exploration by names to `steps` steps.
    pub fn exploration(&self, steps: u16) -> Exploration {
        let Closing(file, from, states) = *self;
        Exploration {
            file,
            steps,
            merge: Merge::Names,
            limit: AMPLE,
            outcome: if steps < from {
                Outcome::Holds { states }
            } else {
                Outcome::Every { states }
            },
        }
    }
}

/// Programs about the first number of steps that closes them.
pub static CLOSING: [Closing; 9] = [
    Closing(TWO_INSERTS, 3, 5),
    Closing(TWO_IN_TURN, 3, 3),
    Closing(
        br#"{"version":1,"tree":"ellen","initial":[],"threads":[[{"op":"insert","key":5}]]}"#,
        6,
        6,
    ),
    Closing(TWO_FINDS, 5, 13),
    Closing(APART, 9, 33),
    Closing(ELLEN, 32, 831),
    Closing(NM, 26, 198),
    Closing(ELLEN_INSERT, 28, 276),
    Closing(NM_INSERT, 19, 89),
];

const NO_MARK: Known = Known(
    ELLEN_NO_MARK,
    20,
    Schedules::Fault("0,0,0,0,0,0,0,1,1,0,1,1,1,1,1,1,1"),
    456,
    352,
);

const NO_IFLAG: Known = Known(
    ELLEN_NO_IFLAG,
    20,
    Schedules::Fault("0,0,0,0,0,1,1,1,0,0,0,0,1,1,1,1"),
    329,
    322,
);

const NO_TAG: Known = Known(
    NM_NO_TAG,
    20,
    Schedules::Fault("0,0,0,0,0,0,1,1,0,1,1,1,1"),
    133,
    130,
);

/// Programs of the variants.
pub static FAULTS: [Known; 3] = [NO_MARK, NO_IFLAG, NO_TAG];

/// Programs that are also explored with no more states allowed than are reached.
pub static TIGHT: [Known; 3] = [INSERTS, FINDS, NO_IFLAG];

/// A program, how many steps are explored and how states are merged; the first and the last of some limits; and how
/// many steps schedules have that hold where it is stopped at one of these.
pub struct Stops(&'static [u8], u16, Merge, u32, u32, u16);

impl Stops {
    /// The limits.
    pub fn limits(&self) -> RangeInclusive<u32> {
        self.3..=self.4
    }

    /// The exploration that is stopped at this limit.
    pub fn exploration(&self, limit: u32) -> Exploration {
        Exploration {
            file: self.0,
            steps: self.1,
            merge: self.2,
            limit,
            outcome: Outcome::Stopped { holds_to: self.5 },
        }
    }
}

/// All limits below the number of states for two programs, and for one the last, at which the layer of its fault is
/// full.
pub static STOPS: [Stops; 14] = [
    Stops(TWO_INSERTS, 2, Merge::Exact, 1, 2, 0),
    Stops(TWO_INSERTS, 2, Merge::Exact, 3, 4, 1),
    Stops(TWO_INSERTS, 2, Merge::Names, 1, 2, 0),
    Stops(TWO_INSERTS, 2, Merge::Names, 3, 4, 1),
    Stops(TWO_FINDS, 4, Merge::Exact, 1, 2, 0),
    Stops(TWO_FINDS, 4, Merge::Exact, 3, 5, 1),
    Stops(TWO_FINDS, 4, Merge::Exact, 6, 9, 2),
    Stops(TWO_FINDS, 4, Merge::Exact, 10, 12, 3),
    Stops(TWO_FINDS, 4, Merge::Names, 1, 2, 0),
    Stops(TWO_FINDS, 4, Merge::Names, 3, 5, 1),
    Stops(TWO_FINDS, 4, Merge::Names, 6, 9, 2),
    Stops(TWO_FINDS, 4, Merge::Names, 10, 12, 3),
    Stops(ELLEN_NO_IFLAG, 20, Merge::Exact, 328, 328, 15),
    Stops(ELLEN_NO_IFLAG, 20, Merge::Names, 321, 321, 15),
];

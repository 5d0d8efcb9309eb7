//! Which words make which request.
use crate::answers::Wanted;
use crate::cases::{Case, check, check_all};
use crate::sources::TWO_INSERTS;
use book::Merge;
use crew::Options;
use sched_program::OutOfMemory;
use std::alloc::Global;
use std::test::Fail;
use treesched_lib::{Request, WordsFault, read_words};

/// What words ask for.
#[derive(Clone, Copy)]
pub enum Asked {
    /// To explore the file `f` to 5 steps and at most 200000 states: how states are merged, by how many workers,
    /// whether the ledger is asked for, and where the book goes.
    Explore(Merge, u8, bool, Option<&'static str>),
    /// To replay three steps of a file whose name has a space.
    Replay,
    /// To check the book file `-b` against a file whose name has a space.
    Check,
}

/// Whether the words make a request that asks for that.
pub fn asks(alloc: Global, words: &[&str], asked: &Asked) -> Result<bool, OutOfMemory> {
    match read_words(alloc, words) {
        Ok(request) => Ok(asked.is(&request)),
        Err(WordsFault::OutOfMemory) => Err(OutOfMemory),
        Err(_) => Ok(false),
    }
}

impl Asked {
    fn is(&self, request: &Request<'_>) -> bool {
        match request {
            Request::Explore {
                file,
                options,
                ledger,
                book,
            } => *file == "f" && self.is_explored(options, *ledger, *book),
            Request::Replay { file, schedule } => {
                matches!(self, Asked::Replay)
                    && *file == "a file"
                    && schedule.as_slice() == [0u8, 9, 1].as_slice()
            }
            Request::Check { file, book } => {
                matches!(self, Asked::Check) && *file == "a file" && *book == "-b"
            }
        }
    }

    fn is_explored(&self, options: &Options, has_ledger: bool, out: Option<&str>) -> bool {
        match self {
            Asked::Explore(merge, workers, ledger, book) => {
                options.steps() == 5
                    && options.limit() == 200_000
                    && options.merge() == *merge
                    && options.workers() == *workers
                    && has_ledger == *ledger
                    && out == *book
            }
            _ => false,
        }
    }
}

static EXPLORATIONS: [Case<'static>; 12] = [
    Case::Reads(
        &["treesched", "explore", "f", "--steps", "5", "--ledger"],
        Asked::Explore(Merge::Exact, 1, true, None),
    ),
    Case::Reads(
        &["treesched", "explore", "--ledger", "--steps=5", "f"],
        Asked::Explore(Merge::Exact, 1, true, None),
    ),
    Case::Reads(
        &[
            "treesched",
            "explore",
            "--states",
            "200000",
            "--steps",
            "+5",
            "--ledger",
            "f",
        ],
        Asked::Explore(Merge::Exact, 1, true, None),
    ),
    Case::Reads(
        &[
            "treesched",
            "explore",
            "--steps",
            "005",
            "--ledger",
            "--",
            "f",
        ],
        Asked::Explore(Merge::Exact, 1, true, None),
    ),
    Case::Reads(
        &[
            "treesched",
            "explore",
            "f",
            "--steps",
            "5",
            "--workers",
            "8",
        ],
        Asked::Explore(Merge::Exact, 8, false, None),
    ),
    Case::Reads(
        &["treesched", "explore", "--workers=08", "f", "--steps", "5"],
        Asked::Explore(Merge::Exact, 8, false, None),
    ),
    Case::Reads(
        &["treesched", "explore", "f", "--steps", "5"],
        Asked::Explore(Merge::Exact, 1, false, None),
    ),
    Case::Reads(
        &[
            "treesched",
            "explore",
            "f",
            "--steps",
            "5",
            "--merge",
            "exact",
        ],
        Asked::Explore(Merge::Exact, 1, false, None),
    ),
    Case::Reads(
        &["treesched", "explore", "--merge=names", "f", "--steps", "5"],
        Asked::Explore(Merge::Names, 1, false, None),
    ),
    Case::Reads(
        &[
            "treesched",
            "explore",
            "f",
            "--steps",
            "5",
            "--merge",
            "names",
            "--book",
            "b",
        ],
        Asked::Explore(Merge::Names, 1, false, Some("b")),
    ),
    Case::Reads(
        &[
            "treesched",
            "explore",
            "--book=b.txt",
            "--merge",
            "names",
            "--steps",
            "5",
            "f",
            "--ledger",
        ],
        Asked::Explore(Merge::Names, 1, true, Some("b.txt")),
    ),
    Case::Reads(
        &[
            "treesched",
            "explore",
            "--book",
            "f",
            "f",
            "--steps",
            "5",
            "--merge",
            "names",
        ],
        Asked::Explore(Merge::Names, 1, false, Some("f")),
    ),
];

#[test]
fn reads_explorations(rt: HostRuntime) -> Result<(), Fail> {
    check_all(&rt, EXPLORATIONS.as_slice())
}

static REPLAY: Case<'static> = Case::Reads(
    &["treesched", "replay", "--schedule", "0,9,1", "a file"],
    Asked::Replay,
);

#[test]
fn reads_a_replay(rt: HostRuntime) -> Result<(), Fail> {
    check(&rt, 0, &REPLAY)
}

static CHECK: Case<'static> = Case::Reads(
    &["treesched", "check", "--", "a file", "-b"],
    Asked::Check,
);

#[test]
fn reads_a_check(rt: HostRuntime) -> Result<(), Fail> {
    check(&rt, 0, &CHECK)
}

/// What is reported where a book file is requested with another merge than that by names.
const NEEDS_NAMES: Wanted<'static> = Wanted::Tells(4, "treesched: --book needs --merge names\n");

static BOOKS_OF_EXACT_MERGING: [Case<'static>; 3] = [
    Case::Line(
        "treesched explore f --steps 5 --book b",
        TWO_INSERTS,
        NEEDS_NAMES,
    ),
    Case::Line(
        "treesched explore --book b f --steps 5 --merge exact",
        TWO_INSERTS,
        NEEDS_NAMES,
    ),
    Case::Line(
        "treesched explore f --merge=exact --steps 5 --ledger --book=b",
        TWO_INSERTS,
        NEEDS_NAMES,
    ),
];

#[test]
fn refuses_books_of_exact_merging(rt: HostRuntime) -> Result<(), Fail> {
    check_all(&rt, BOOKS_OF_EXACT_MERGING.as_slice())
}

static NO_USES: [Case<'static>; 26] = [
    Case::Line(
        "treesched explore f --steps 401",
        TWO_INSERTS,
        Wanted::NoUse,
    ),
    Case::Line(
        "treesched explore f --steps 5 --workers 0",
        TWO_INSERTS,
        Wanted::NoUse,
    ),
    Case::Line(
        "treesched explore f --steps 5 --workers 9",
        TWO_INSERTS,
        Wanted::NoUse,
    ),
    Case::Line(
        "treesched explore f --steps 5 --states 0",
        TWO_INSERTS,
        Wanted::NoUse,
    ),
    Case::Line(
        "treesched explore f --steps 5 --states 2000001",
        TWO_INSERTS,
        Wanted::NoUse,
    ),
    Case::Line(
        "treesched explore f --steps 5 --merge name",
        TWO_INSERTS,
        Wanted::NoUse,
    ),
    Case::Line(
        "treesched explore f --steps 5 --merge Exact",
        TWO_INSERTS,
        Wanted::NoUse,
    ),
    Case::Line(
        "treesched explore f --steps 5 --merge",
        TWO_INSERTS,
        Wanted::NoUse,
    ),
    Case::Line(
        "treesched explore f --steps 5 --book b",
        TWO_INSERTS,
        Wanted::NoUse,
    ),
    Case::Line("treesched explore f --steps -5", TWO_INSERTS, Wanted::NoUse),
    Case::Line("treesched explore f --steps ", TWO_INSERTS, Wanted::NoUse),
    Case::Line(
        "treesched explore f --steps 5 --steps 5",
        TWO_INSERTS,
        Wanted::NoUse,
    ),
    Case::Line("treesched explore f --step 5", TWO_INSERTS, Wanted::NoUse),
    Case::Line("treesched explore f", TWO_INSERTS, Wanted::NoUse),
    Case::Line("treesched explore --steps 5", TWO_INSERTS, Wanted::NoUse),
    Case::Line(
        "treesched explore f g --steps 5",
        TWO_INSERTS,
        Wanted::NoUse,
    ),
    Case::Line("treesched replay f", TWO_INSERTS, Wanted::NoUse),
    Case::Line(
        "treesched replay f --schedule -1",
        TWO_INSERTS,
        Wanted::NoUse,
    ),
    Case::Line(
        "treesched replay f --schedule 0 --book b",
        TWO_INSERTS,
        Wanted::NoUse,
    ),
    Case::Line(
        "treesched explore f --steps 5 --merge names --book",
        TWO_INSERTS,
        Wanted::NoUse,
    ),
    Case::Line(
        "treesched explore f --steps 5 --merge names --book b --book c",
        TWO_INSERTS,
        Wanted::NoUse,
    ),
    Case::Line("treesched check f", TWO_INSERTS, Wanted::NoUse),
    Case::Line("treesched check f b c", TWO_INSERTS, Wanted::NoUse),
    Case::Line("treesched check --book b f", TWO_INSERTS, Wanted::NoUse),
    Case::Line("treesched", TWO_INSERTS, Wanted::NoUse),
    Case::Line("", TWO_INSERTS, Wanted::NoUse),
];

#[test]
fn refuses_other_words(rt: HostRuntime) -> Result<(), Fail> {
    check_all(&rt, NO_USES.as_slice())
}

static CALLS_FOR_HELP: [Case<'static>; 15] = [
    Case::Line(
        "treesched --help",
        TWO_INSERTS,
        Wanted::Help("Example: treesched explore"),
    ),
    Case::Line("treesched -h", TWO_INSERTS, Wanted::Help("explore")),
    Case::Line("treesched help", TWO_INSERTS, Wanted::Help("replay")),
    Case::Line(
        "treesched help explore",
        TWO_INSERTS,
        Wanted::Help("a JSON text"),
    ),
    Case::Line(
        "treesched explore --help",
        TWO_INSERTS,
        Wanted::Help("0 to 400 steps"),
    ),
    Case::Line(
        "treesched explore --help",
        TWO_INSERTS,
        Wanted::Help("1 to 8"),
    ),
    Case::Line(
        "treesched explore --help",
        TWO_INSERTS,
        Wanted::Help("[default: 1]"),
    ),
    Case::Line(
        "treesched explore --help",
        TWO_INSERTS,
        Wanted::Help("1 to 2000000"),
    ),
    Case::Line(
        "treesched explore --help",
        TWO_INSERTS,
        Wanted::Help("[default: 200000]"),
    ),
    Case::Line(
        "treesched explore --help",
        TWO_INSERTS,
        Wanted::Help("[possible values: exact, names]"),
    ),
    Case::Line(
        "treesched explore --help",
        TWO_INSERTS,
        Wanted::Help("each thread that explored"),
    ),
    Case::Line(
        "treesched replay --help",
        TWO_INSERTS,
        Wanted::Help("single digits"),
    ),
    Case::Line(
        "treesched explore --help",
        TWO_INSERTS,
        Wanted::Help("needs --merge names"),
    ),
    Case::Line("treesched help", TWO_INSERTS, Wanted::Help("check")),
    Case::Line("treesched check --help", TWO_INSERTS, Wanted::Help("BOOK")),
];

#[test]
fn gives_help(rt: HostRuntime) -> Result<(), Fail> {
    check_all(&rt, CALLS_FOR_HELP.as_slice())
}

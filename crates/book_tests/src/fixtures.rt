//! Programs, their books, and steps that are entered into these.
//!
//! A book is held in a box: dropping it takes one call, and not one for each of its lists, which
//! keeps the proofs short.
ghost use Rattle.std.specs.Prelude.{◌≡◌, ◌+◌, ◌^◌, ◌<◌, ◌≤◌, IfOk};
ghost use Rattle.replay.specs.Findings.{IsFindingOf};
ghost use Rattle.tree_machine.specs.Step.{Fits};

use book::{Book, EnterFault, Entered, Expansion, Merge, Replay, ReplayFault, replay};
use ellen::Ellen;
use natmit::NatMit;
use sched_program::{OutOfMemory, Program, ProgramFault};
use std::alloc::Global;
use std::sync::Arc;
use tree_machine::{Atomic, Encode, State};

/// Two threads that each insert 1.
pub const TWO_INSERTS: &str =
    r#"{"version":1,"tree":"atomic","initial":[],"threads":[[{"op":"insert","key":1}],[{"op":"insert","key":1}]]}"#;

/// Two threads that each look for 5 in an empty tree.
pub const TWO_FINDS: &str =
    r#"{"version":1,"tree":"ellen","initial":[],"threads":[[{"op":"find","key":5}],[{"op":"find","key":5}]]}"#;

/// A delete, and an insert with a find, in the tree of Natarajan and Mittal without tags.
pub const NO_TAG_PROGRAM: &str =
    r#"{"version":1,"tree":"nm-no-tag","initial":[10,20],"threads":[[{"op":"delete","key":10}],[{"op":"insert","key":25},{"op":"find","key":25}]]}"#;

/// Ellen's tree.
pub const ELLEN: Ellen = Ellen {
    mark: true,
    iflag: true,
};

/// Ellen's tree without marks.
pub const NO_MARK: Ellen = Ellen {
    mark: false,
    iflag: true,
};

/// The tree of Natarajan and Mittal without tags.
pub const NO_TAG: NatMit = NatMit { tag: false };

pub const MERGES: [Merge; 2] = [Merge::Exact, Merge::Names];

pub const BOTH_NEW: Entered = Entered { entered: 2, met: 0 };

pub const ONE_NEW: Entered = Entered { entered: 1, met: 1 };

/// Why a case was not run to its end.
#[derive(Clone, Copy, Debug, PartialEq, Eq)]
pub enum Broken {
    /// The text is no program.
    NoProgram,
    /// The book has no such entry, or none to take.
    NoEntry,
    /// The steps of an entry can't be made from its label.
    NoSteps,
    /// The book refused an expansion: its entry was not taken.
    NotTaken,
    /// The book refused an expansion: it was not that of its entry.
    Stranger,
    /// The book refused an expansion: there was no room for its steps.
    Full,
    /// The thread of this step, counted from 1, was not enabled.
    NotEnabled(usize),
    /// A growth was refused.
    OutOfMemory,
}

impl From<OutOfMemory> for Broken {
    ghost from_gives = { λ _ _. Unit {0} };

    fn from(_refused: OutOfMemory) -> Broken {
        Broken::OutOfMemory
    }
}

impl From<EnterFault> for Broken {
    ghost from_gives = { λ _ _. Unit {0} };

    fn from(fault: EnterFault) -> Broken {
        match fault {
            EnterFault::NotTaken => Broken::NotTaken,
            EnterFault::Stranger => Broken::Stranger,
            EnterFault::Full => Broken::Full,
            EnterFault::OutOfMemory => Broken::OutOfMemory,
        }
    }
}

impl From<ReplayFault> for Broken {
    ghost from_gives = { λ _ _. Unit {0} };

    fn from(fault: ReplayFault) -> Broken {
        match fault {
            ReplayFault::OutOfMemory => Broken::OutOfMemory,
            ReplayFault::NotEnabled(step) => Broken::NotEnabled(step),
        }
    }
}

/// Runs a case, and once more where memory was refused: that happens once at most.
macro_rules! settled {
    ($case:expr) => {
        match $case {
            Err(Broken::OutOfMemory) => $case,
            answer => answer,
        }
    };
}

pub(crate) use settled;

/// The program of a text.
pub fn program_of(alloc: Global, text: &str) -> Result<Program, Broken> {
    match Program::from_json(alloc, text.as_bytes()) {
        Ok(program) => Ok(program),
        Err(ProgramFault::OutOfMemory) => Err(Broken::OutOfMemory),
        Err(_) => Err(Broken::NoProgram),
    }
}

pub fn boxed<T: Drop>(alloc: Global, value: T) -> Result<Box<T>, OutOfMemory>
    ensures { IfOk result (λ boxed. boxed.value ≡ value) }
{
    Ok(Box::new(alloc, value)?)
}

/// The book of the program of a text with the start alone.
pub fn open<M: Encode>(
    alloc: Global,
    machine: M,
    text: &str,
    limit: usize,
    merge: Merge,
) -> Result<Box<Book<M>>, Broken>
    requires { (1 ≤ limit) × (limit ≤ 2000000) }
{
    let program = program_of(alloc, text)?;
    let book = Book::open(alloc, machine, program, limit, merge)?;
    Ok(boxed(alloc, book)?)
}

/// Takes the next entry.
pub fn take_next<M: Encode>(book: &mut Book<M>) -> Result<(usize, Arc<State<M>>), Broken>
    ensures fits { IfOk result (λ p. Fits (M.rules book.new.machine) book.new.program p.1.value) }
    ensures steps_fit { IfOk result (λ p. p.1.value.steps + 1 < 2 ^ 64) }
    ensures machine { book.new.machine ≡ book.old.machine }
    ensures program { book.new.program ≡ book.old.program }
{
    // No book of these tests has more entries, so no state has more steps.
    if book.limit() > 1000 {
        return Err(Broken::NoEntry);
    }
    book.take()?.ok_or(Broken::NoEntry)
}

/// Takes the next entry, and returns its number alone.
pub fn take_number<M: Encode>(book: &mut Book<M>) -> Result<usize, Broken>
    ensures machine { book.new.machine ≡ book.old.machine }
    ensures program { book.new.program ≡ book.old.program }
{
    let (id, _state) = take_next(book)?;
    Ok(id)
}

/// Whether no entry is left to take.
pub fn has_none_left(book: &mut Book<Atomic>) -> Result<bool, Broken> {
    Ok(book.take()?.is_none())
}

/// Enters the steps of a state of this program under the number of an entry.
fn enter_of<M: Encode>(
    alloc: Global,
    book: &mut Book<M>,
    id: usize,
    program: &Program,
    state: &State<M>,
) -> Result<Entered, Broken>
    requires fits { Fits (M.rules book.old.machine) program.now state.now }
    requires steps_fit { state.now.steps + 1 < 2 ^ 64 }
    ensures machine { book.new.machine ≡ book.old.machine }
    ensures program { book.new.program ≡ book.old.program }
{
    let expansion = Expansion::of(alloc, book.machine(), program, state)?;
    Ok(book.enter(id, expansion)?)
}

/// Enters the steps of a state of the book's program.
pub fn enter_under<M: Encode>(
    alloc: Global,
    book: &mut Book<M>,
    id: usize,
    state: &State<M>,
) -> Result<Entered, Broken>
    requires fits { Fits (M.rules book.old.machine) book.old.program state.now }
    requires steps_fit { state.now.steps + 1 < 2 ^ 64 }
    ensures machine { book.new.machine ≡ book.old.machine }
    ensures program { book.new.program ≡ book.old.program }
{
    let program = book.program().copy(alloc)?;
    enter_of(alloc, book, id, &program, state)
}

/// Whether the steps of a state were refused for this.
pub fn is_broken(answer: Result<Entered, Broken>, reason: Broken) -> Result<bool, Broken> {
    match answer {
        Err(Broken::OutOfMemory) => Err(Broken::OutOfMemory),
        Err(broken) => Ok(broken == reason),
        Ok(_) => Ok(false),
    }
}

/// Takes the next entry and enters its steps.
pub fn expand_next<M: Encode>(alloc: Global, book: &mut Book<M>) -> Result<Entered, Broken> {
    let (id, state) = take_next(book)?;
    enter_under(alloc, book, id, &state)
}

/// Takes `entries` entries, one after the other, and enters the steps of each.
pub fn expand<M: Encode>(alloc: Global, book: &mut Book<M>, entries: usize) -> Result<(), Broken> {
    for _entry in 0..entries {
        expand_next(alloc, book)?;
    }
    Ok(())
}

/// The book of the two inserts, with `entries` entries expanded.
pub fn expanded(alloc: Global, merge: Merge, entries: usize) -> Result<Box<Book<Atomic>>, Broken> {
    let mut book = open(alloc, Atomic, TWO_INSERTS, 100, merge)?;
    expand(alloc, &mut *book, entries)?;
    Ok(book)
}

/// An entry's recorded schedule.
pub fn way_of<M: Encode>(alloc: Global, book: &Book<M>, entry: usize) -> Result<Vec<u8>, Broken> {
    if entry >= book.len() {
        return Err(Broken::NoEntry);
    }
    Ok(book.schedule_of(alloc, entry)?)
}

/// Whether an entry's recorded schedule is this.
pub fn is_way<M: Encode>(
    alloc: Global,
    book: &Book<M>,
    entry: usize,
    way: &[u8],
) -> Result<bool, Broken> {
    Ok(way_of(alloc, book, entry)?.as_slice() == way)
}

/// What a schedule of a program reaches.
pub fn replayed<M: Encode>(
    alloc: Global,
    machine: M,
    program: &Program,
    schedule: &[u8],
) -> Result<Box<Replay<M>>, Broken>
    ensures fits { IfOk result (λ end. Fits (M.rules machine) program.now end.value.state) }
    ensures finding { IfOk result (λ end. IsFindingOf (M.rules machine) program.now end.value.state end.value.finding) }
{
    let end = replay(alloc, machine, program, schedule)?;
    Ok(boxed(alloc, end)?)
}

//! Why a test fails.

use sched_program::{OutOfMemory, ProgramFault};
use tree_machine::StepFault;

/// What a test looks at, each by a name of its own.
#[derive(Clone, Copy, Debug)]
pub enum Case {
    InsertOfANewKey,
    InsertOfAKeyThatIsThere,
    DeleteOfAKeyThatIsThere,
    DeleteOfNoKey,
    FindOfAKeyThatIsThere,
    FindOfNoKey,
    TheSameKeysAndPlaces,
    OtherKeys,
    OtherPlaces,
    KeysInOrder,
    CopyOfKeys,
    CopyOfAPlace,
    NothingTwice,
    ThreeBytesTwice,
    AnotherByte,
    AByteMore,
    NothingAndAByte,
    TheRing,
    TheRingTurned,
    TheRingUnderOtherNumbers,
    HeldAlone,
    HeldAloneTurned,
    AnotherFact,
    NoneOnOneSide,
    StepsInAnotherOrder,
    TheSameSteps,
    NoStepAndOne,
    NoStep,
    AStepOfTheFirst,
    ARecordNamedByTheRecord,
    NoNodeNamedByTheThread,
    FourFacts,
    FiveFacts,
    FiveNodes,
    SixNodes,
    ThreeNodesAndFourRecords,
    ThreeNodesAndFiveRecords,
    Fact0,
    Fact1,
    Fact253,
    Fact254,
    Facts255And0,
    Facts255Twice,
    NoFact,
    FiveLargeFacts,
    FourLargeFacts,
    TheRootNamedByTheThread,
    NoStack,
    AStackOfFive,
    AStackOfSix,
    LongLists,
    Levels,
    Nodes253,
    Nodes254,
    Nodes300,
    Records53,
    Records54,
    Records253,
    Records254,
    Threads4,
    OneMoreThanWithThreads,
    AStepOfTheSecond,
    TheSecondBeforeTheFirst,
    TheFirstBeforeTheSecond,
    NoThread,
    ManySteps,
    TheSecondAstray,
    FourThreads,
    NoByte,
    FiveThreads,
    SevenReplies,
    RepliesWithoutALeadingOne,
    NotesOfMoreThreads,
    SevenNotes,
    FiveCounts,
    ACountBehindTheLast,
    AstrayOfNeither,
    AnUnknownPlace,
    APlaceTooFew,
    BytesCutShort,
}

/// Why a test fails.
#[derive(Clone, Copy, Debug)]
pub enum Broken {
    /// A growth was refused.
    OutOfMemory,
    /// A text is no program.
    NoProgram,
    /// A thread had no step.
    NotEnabled,
    /// This case is not as it should be.
    Wrong(Case),
}

impl From<OutOfMemory> for Broken {
    fn from(_refused: OutOfMemory) -> Broken {
        Broken::OutOfMemory
    }
}

impl From<StepFault> for Broken {
    fn from(fault: StepFault) -> Broken {
        match fault {
            StepFault::NotEnabled => Broken::NotEnabled,
            StepFault::OutOfMemory => Broken::OutOfMemory,
        }
    }
}

impl From<ProgramFault> for Broken {
    fn from(fault: ProgramFault) -> Broken {
        match fault {
            ProgramFault::OutOfMemory => Broken::OutOfMemory,
            _ => Broken::NoProgram,
        }
    }
}

/// An error where a case is not right.
pub fn ensure(is_right: bool, case: Case) -> Result<(), Broken> {
    if is_right {
        Ok(())
    } else {
        Err(Broken::Wrong(case))
    }
}

//! Why a case fails.
ghost use Rattle.std.specs.Prelude.{◌≡◌, true, false, OnOk, IfErr};

use sched_program::{OutOfMemory, ProgramFault};

/// What a test looks at, each by a name of its own.
#[derive(Clone, Copy, Debug)]
pub enum Case {
    ReplyThatTheOrderGives,
    ReplyThatTheOrderDoesNotGive,
    InsertTrueAfterNothing,
    InsertFalseAfterNothing,
    FindTrueAfterTheInsert,
    FindFalseAfterTheInsert,
    FindFalseAfterTheDelete,
    InsertTrueAfterAFind,
    DeleteFalseAfterAFind,
    InsertPlacedAsItReplied,
    InsertPlacedAsItDidNotReply,
    DeletePlacedAsItReplied,
    FindPlacedAsItDidNotReply,
    FindPlacedWhereItSawNoKey,
    NoSuchThread,
    NoSuchOperation,
    FindOfAPendingInsertAfterNothing,
    LastOfTwelvePlacedAsItReplied,
    LastOfTwelvePlacedAsItDidNotReply,
    FindWithoutTheInsert,
    OrderJudgedAnew,
    AFindThatSawTheKeyOfAPendingInsert,
    NothingBegan,
    AnInsertIsPending,
    AFindAfterTheInsertSawNoKey,
    AFindBeforeTheDelete,
    AFindBesideTheDelete,
    TheFindAlone,
    TheInsertAndTheFind,
    TheInsertTwice,
    TheSearcherThatPlacesOperations,
    TheSearcherThatTriesEveryList,
    TheJudgeOrderInAValue,
    TheOrderThatTheJudgeFound,
    TwelveJudged,
    TwelveCounted,
}

/// Why a case fails.
#[derive(Clone, Copy, Debug)]
pub enum Broken {
    /// A growth was refused.
    OutOfMemory,
    /// A text is no program.
    NoProgram(ProgramFault),
    /// Two lists are no history of the program.
    NoHistory,
    /// This case is not as it should be.
    Wrong(Case),
    /// This was counted where the case expects another number.
    Count(u64),
}

impl From<OutOfMemory> for Broken {
    fn from(_refused: OutOfMemory) -> Broken {
        Broken::OutOfMemory
    }
}

impl From<ProgramFault> for Broken {
    fn from(fault: ProgramFault) -> Broken {
        match fault {
            ProgramFault::OutOfMemory => Broken::OutOfMemory,
            _ => Broken::NoProgram(fault),
        }
    }
}

/// An error where a fact does not hold.
pub fn ensure(holds: bool, broken: Broken) -> Result<(), Broken>
    ensures ok { OnOk result (holds ≡ true) }
    ensures err { IfErr result (λ fault. (fault ≡ broken) × (holds ≡ false)) }
{
    if holds { Ok(()) } else { Err(broken) }
}

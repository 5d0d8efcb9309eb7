//! The outputs that say why there is no answer.
ghost use Rattle.std.specs.Prelude.{◌≡◌, ◌≢◌, ◌++◌, [], codes, IfOk};
ghost use Rattle.std.specs.String.{string_bytes};
ghost use Rattle.treesched_lib.specs.Lines as lines;
ghost use Rattle.treesched_lib.specs.Serving.{TellsUnloaded};

use crate::serving::Output;
use book::CheckFault;
use sched_program::{LoadFault, OutOfMemory, ProgramFault};
use std::alloc::Global;
use words::{Request, WordsFault};

/// The output of a refusal: nothing on the standard output, and one line on the standard error.
pub fn refusal(alloc: Global, status: u8, text: &str) -> Result<Output, OutOfMemory>
    ensures { IfOk result (lines.IsRefusal status text.now) }
{
    let err = format!(in alloc; "treesched: {text}\n")?;
    Ok(Output {
        status,
        out: String::new(alloc),
        err,
        book: None,
    })
}

/// The output for words that make no request: help goes to the standard output, and all else to the standard error.
///
/// # Errors
/// Memory ran out, now or when the words were read.
pub fn refused(alloc: Global, fault: WordsFault) -> Result<Output, OutOfMemory>
    ensures { IfOk result (lines.TellsFault fault) }
{
    match fault {
        WordsFault::Usage { help: true, text } => Ok(Output {
            status: 0,
            out: text,
            err: String::new(alloc),
            book: None,
        }),
        WordsFault::Usage { help: false, text } => Ok(Output {
            status: 4,
            out: String::new(alloc),
            err: text,
            book: None,
        }),
        WordsFault::Schedule => refusal(alloc, 4, "bad schedule"),
        WordsFault::BookMerge => refusal(alloc, 4, "--book needs --merge names"),
        WordsFault::OutOfMemory => Err(OutOfMemory),
    }
}

/// The refusal where a file can't be read.
pub fn unreadable(alloc: Global, name: &str) -> Result<Output, OutOfMemory>
    ensures { IfOk result (lines.IsUnreadable name.now) }
{
    let text = format!(in alloc; "can't read {name}")?;
    refusal(alloc, 6, text.as_str())
}

/// The refusal where a file can't be written.
pub fn unwritable(alloc: Global, name: &str) -> Result<Output, OutOfMemory>
    ensures { IfOk result (lines.IsUnwritable name.now) }
{
    let text = format!(in alloc; "can't write {name}")?;
    refusal(alloc, 6, text.as_str())
}

/// The refusal of a schedule: the thread of this step, counted from 1, has no step there.
pub fn no_step(alloc: Global, step: usize, thread: u8) -> Result<Output, OutOfMemory>
    ensures { IfOk result (lines.IsRefusal 4 (lines.no_step_text step thread)) }
{
    let text = format!(in alloc; "step {step}: thread {thread} has no step")?;
    refusal(alloc, 4, text.as_str())
}

/// The number and the name of a fault of a program, as `Display` shows them.
pub fn fault_text(fault: ProgramFault) -> &'static str
    ensures { result.now ≡ lines.fault_text fault }
{
    match fault {
        ProgramFault::NotJson => "P1 NotJson",
        ProgramFault::NotObject => "P2 NotObject",
        ProgramFault::Version => "P3 Version",
        ProgramFault::Tree => "P4 Tree",
        ProgramFault::Initial => "P5 Initial",
        ProgramFault::InitialTwice => "P6 InitialTwice",
        ProgramFault::Threads => "P7 Threads",
        ProgramFault::Ops => "P8 Ops",
        ProgramFault::Op => "P9 Op",
        ProgramFault::Key => "P10 Key",
        ProgramFault::OutOfMemory => "P11 OutOfMemory",
        ProgramFault::After => "P12 After",
    }
}

/// The refusal of a text that is no program.
fn no_program(alloc: Global, fault: ProgramFault) -> Result<Output, OutOfMemory>
    ensures { IfOk result (λ output. (fault ≢ ProgramFault.OutOfMemory)
        × lines.IsRefusal 3 (lines.fault_text fault) output) }
{
    match fault {
        ProgramFault::OutOfMemory => Err(OutOfMemory),
        fault => refusal(alloc, 3, fault_text(fault)),
    }
}

/// The refusal where FILE gives no program.
pub fn not_loaded(
    alloc: Global,
    request: &Request<'_>,
    fault: LoadFault,
) -> Result<Output, OutOfMemory>
    ensures { IfOk result (TellsUnloaded request.now fault) }
{
    match fault {
        LoadFault::Device => unreadable(alloc, request.file()),
        LoadFault::Program(fault) => no_program(alloc, fault),
    }
}

/// The number of a book file's fault with its line, as `Display` shows them.
pub fn check_fault_text(alloc: Global, fault: CheckFault) -> Result<String, OutOfMemory>
    ensures { IfOk result (λ text. string_bytes text ≡ lines.check_fault_text fault) }
{
    match fault {
        CheckFault::Form(line) => format!(in alloc; "C1 at line {line}"),
        CheckFault::Parent(line) => format!(in alloc; "C2 at line {line}"),
        CheckFault::Step(line) => format!(in alloc; "C3 at line {line}"),
        CheckFault::Fault(line) => format!(in alloc; "C4 at line {line}"),
        CheckFault::History(line) => format!(in alloc; "C5 at line {line}"),
        CheckFault::Open(line) => format!(in alloc; "C6 at line {line}"),
        CheckFault::OutOfMemory => format!(in alloc; "C7"),
    }
}

/// The refusal of a book file.
pub fn book_refused(alloc: Global, fault: CheckFault) -> Result<Output, OutOfMemory>
    ensures { IfOk result (λ output. (fault ≢ CheckFault.OutOfMemory)
        × lines.IsRefusal 3 (codes "book refused: " ++ lines.check_fault_text fault) output) }
{
    match fault {
        CheckFault::OutOfMemory => Err(OutOfMemory),
        fault => {
            let cause = check_fault_text(alloc, fault)?;
            let cause = cause.as_str();
            let text = format!(in alloc; "book refused: {cause}")?;
            refusal(alloc, 3, text.as_str())
        }
    }
}

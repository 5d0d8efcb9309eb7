//! The answer to a request: the status and all that is to be written.
ghost use Rattle.std.specs.Prelude.{◌≡◌, ◌-◌, ◌^◌, ◌<◌, ◌⊎◌, ◌++◌, [], IfOk, IfSome, None, MatchOption, if◌then◌else◌};
ghost use Rattle.std.specs.Prelude.{length};
ghost use Rattle.std.specs.String.{string_bytes};
ghost use Rattle.tree_machine.specs.History.{history_of};
ghost use Rattle.tree_machine.specs.Step.{Fits};
ghost use Rattle.book.specs.Closed.{AreSound, IsClosed};
ghost use Rattle.replay.specs.Findings.{is_sound};
ghost use Rattle.treesched_lib.specs.Devices.{LeavesBehind};
ghost use Rattle.treesched_lib.specs.Lines as lines;
ghost use Rattle.treesched_lib.specs.Serving.{IsAnswered, IsAnsweredBy, IsAsked, IsBookDue, IsBookRead};
ghost use Rattle.treesched_lib.specs.Serving.{IsChecked};
ghost use Rattle.treesched_lib.specs.Serving.{IsExplored, IsReplayed, IsServed, IsServedFrom, IsStuck, IsUnopened};

use crate::lines::{put_operations, put_passed, put_report, put_verdict};
use crate::refusals::{book_refused, no_step, not_loaded, unreadable};
use book::{Finding, Replay, ReplayFault, check_book, replay};
use crew::{Answer, Open, Options, Report, explore};
use ellen::Ellen;
use natmit::NatMit;
use sched_program::{Counted, OutOfMemory, Program, ReadFault, Tree};
use std::alloc::Global;
use std::io::Read;
use std::mem::forget;
use std::sync::Wait;
use std::thread::Threads;
use tree_machine::{Atomic, Encode};
use words::Request;

/// What the program writes, and the status that it ends with.
#[derive(Debug, Drop)]
pub struct Output {
    /// The exit status.
    pub status: u8,
    /// The text of the standard output.
    pub out: String,
    /// The text of the standard error.
    pub err: String,
    /// The text of the book file, if there is one to write.
    pub book: Option<Vec<u8>>,
}

/// What came of the book file to check.
#[derive(Debug, Drop)]
pub enum BookRead {
    /// The request is to check none, or FILE gave no program.
    NotAsked,
    /// It could not be opened, or a read failed.
    Unreadable,
    /// All its bytes.
    Read(Vec<u8>),
}

/// The output that is a text on the standard output alone.
fn page(alloc: Global, status: u8, out: String) -> Output
    ensures { lines.IsPage status (string_bytes out) result }
{
    Output {
        status,
        out,
        err: String::new(alloc),
        book: None,
    }
}

/// The exit status for an answer.
fn status_of(answer: &Answer) -> u8
    ensures { result ≡ lines.status_of answer.now }
{
    match answer {
        Answer::Every | Answer::Holds { .. } => 0,
        Answer::Fault { .. } => 1,
        Answer::Stopped { .. } => 2,
    }
}

/// The text of the book, where it is asked for and the answer is for every schedule.
fn due_book<M: Encode>(
    alloc: Global,
    report: &Report<M>,
    is_asked: bool,
) -> Result<Option<Vec<u8>>, OutOfMemory>
    requires { report.now.answer ≡ Answer.Every → IsClosed report.now.book × AreSound report.now.book.entries }
    ensures { IfOk result
        (IsBookDue M M.Form (M.rules report.now.book.machine) report.now.book.program is_asked report.now.answer
        report.now.book.entries) }
{
    if !is_asked {
        return Ok(None);
    }
    match report.answer {
        Answer::Every => report.book.to_text(alloc),
        _ => Ok(None),
    }
}

/// The output that reports the outcome of an exploration.
fn report_output<M: Encode>(
    alloc: Global,
    report: &Report<M>,
    ledger: bool,
    asks_book: bool,
) -> Result<Output, OutOfMemory>
    requires { report.now.answer ≡ Answer.Every → IsClosed report.now.book × AreSound report.now.book.entries }
    ensures { IfOk result (λ output. (output.status ≡ lines.status_of report.now.answer)
        × (string_bytes output.out
        ≡ lines.report_text ledger report.now.answer report.now.totals report.now.shares.items)
        × (string_bytes output.err ≡ [])
        × IsBookDue M M.Form (M.rules report.now.book.machine) report.now.book.program asks_book report.now.answer
        report.now.book.entries output.book) }
{
    let book = due_book(alloc, report, asks_book)?;
    let mut out = String::new(alloc);
    put_report(&mut out, ledger, report)?;
    Ok(Output {
        status: status_of(&report.answer),
        out,
        err: String::new(alloc),
        book,
    })
}

/// Explores the schedules of a program.
fn explored<M: Encode, R: Threads + Wait + Sync>(
    rt: &R,
    alloc: Global,
    machine: M,
    program: &Program,
    options: Options,
    ledger: bool,
    asks_book: bool,
) -> Result<Output, OutOfMemory>
    ensures { IfOk result (IsExplored M M.Form (M.rules machine) program.now options ledger asks_book) }
{
    let report = explore(rt, alloc, machine, program, options, &Open)?;
    report.book.law();
    let output = report_output(alloc, &report, ledger, asks_book);
    // The program and its memory end with this answer, so there is no need to drop each state first.
    forget(report);
    output
}

/// The exit status for the finding of a replay.
fn status_of_finding(finding: &Finding) -> u8
    ensures { result ≡ (if is_sound finding.now then 0 else 1) }
{
    if finding.is_sound() { 0 } else { 1 }
}

/// The output that shows the history and the finding of the state that a replay reaches.
fn replay_output<M: Encode>(
    alloc: Global,
    program: &Program,
    last: &Replay<M>,
) -> Result<Output, OutOfMemory>
    requires { (machine : M) × Fits (M.rules machine) program.now last.now.state }
    ensures { IfOk result (lines.IsPage (if is_sound last.now.finding then 0 else 1)
        (lines.operations_text program.now (history_of last.now.state) ++ lines.verdict_text last.now.finding)) }
{
    let history = last.state.history(alloc, program)?;
    let mut out = String::new(alloc);
    put_operations(&mut out, program, &history)?;
    put_verdict(&mut out, &last.finding)?;
    Ok(page(alloc, status_of_finding(&last.finding), out))
}

/// Replays one schedule of a program.
fn replayed<M: Encode>(
    alloc: Global,
    machine: M,
    program: &Program,
    schedule: &[u8],
) -> Result<Output, OutOfMemory>
    ensures { IfOk result (λ output. IsReplayed M M.Form (M.rules machine) program.now schedule.now output
        ⊎ IsStuck M M.Form (M.rules machine) program.now schedule.now output) }
{
    match replay(alloc, machine, program, schedule) {
        Ok(last) => replay_output(alloc, program, &last),
        Err(ReplayFault::NotEnabled(step)) => no_step(alloc, step, schedule[step - 1]),
        Err(ReplayFault::OutOfMemory) => Err(OutOfMemory),
    }
}

/// Checks the bytes of a book file against a program.
fn checked<M: Encode>(
    alloc: Global,
    machine: M,
    program: &Program,
    bytes: &[u8],
) -> Result<Output, OutOfMemory>
    ensures { IfOk result (IsChecked M M.Form (M.rules machine) program.now bytes.now) }
{
    match check_book(alloc, machine, program, bytes) {
        Ok(entries) => {
            let mut out = String::new(alloc);
            put_passed(&mut out, entries)?;
            Ok(page(alloc, 0, out))
        }
        Err(fault) => book_refused(alloc, fault),
    }
}

/// Answers the request on a machine.
fn answered<M: Encode, R: Threads + Wait + Sync>(
    rt: &R,
    alloc: Global,
    machine: M,
    program: &Program,
    book: &BookRead,
    request: &Request<'_>,
) -> Result<Output, OutOfMemory>
    ensures { IfOk result (IsAnswered M M.Form (M.rules machine) program.now book.now request.now) }
{
    match request {
        Request::Explore {
            options,
            ledger,
            book,
            ..
        } => explored(
            rt,
            alloc,
            machine,
            program,
            *options,
            *ledger,
            book.is_some(),
        ),
        Request::Replay { schedule, .. } => replayed(alloc, machine, program, schedule.as_slice()),
        Request::Check { book: name, .. } => match book {
            BookRead::Read(bytes) => checked(alloc, machine, program, bytes.as_slice()),
            _ => unreadable(alloc, name),
        },
    }
}

/// The tree of Ellen and others, or the variant that lacks a mark or an insert flag.
fn ellen(mark: bool, iflag: bool) -> Ellen
    ensures { result ≡ record { mark = mark; iflag = iflag } }
{
    Ellen { mark, iflag }
}

/// Answers the request for a program, on the machine that it names.
fn served<R: Threads + Wait + Sync>(
    rt: &R,
    alloc: Global,
    program: &Program,
    book: &BookRead,
    request: &Request<'_>,
) -> Result<Output, OutOfMemory>
    ensures { IfOk result (IsAnsweredBy program.now.tree program.now book.now request.now) }
{
    match program.tree() {
        Tree::Atomic => answered(rt, alloc, Atomic, program, book, request),
        Tree::Ellen => answered(rt, alloc, ellen(true, true), program, book, request),
        Tree::EllenNoMark => answered(rt, alloc, ellen(false, true), program, book, request),
        Tree::EllenNoIflag => answered(rt, alloc, ellen(true, false), program, book, request),
        Tree::Nm => answered(rt, alloc, NatMit { tag: true }, program, book, request),
        Tree::NmNoTag => answered(rt, alloc, NatMit { tag: false }, program, book, request),
    }
}

/// Reads the book file, if the request is to check one.
fn read_book<B: Read>(
    alloc: Global,
    request: &Request<'_>,
    book: &mut Counted<B>,
) -> Result<BookRead, OutOfMemory>
    requires { book.old.failures < 2 ^ 64 - 1 }
    ensures asked { IfOk result (IsAsked request.now) }
    ensures read { IfOk result (IsBookRead B.remaining book.old book.new) }
{
    if request.book().is_none() {
        return Ok(BookRead::NotAsked);
    }
    match book.read_all(alloc) {
        Ok(bytes) => Ok(BookRead::Read(bytes)),
        Err(ReadFault::Device) => Ok(BookRead::Unreadable),
        Err(ReadFault::OutOfMemory) => Err(OutOfMemory),
    }
}

/// What comes of a book file that could not be opened.
fn unopened(request: &Request<'_>) -> BookRead
    ensures asked { IsAsked request.now result }
    ensures unopened { IsUnopened result }
{
    if request.book().is_some() {
        BookRead::Unreadable
    } else {
        BookRead::NotAsked
    }
}

/// Answers the request for what the readers of FILE and of the book file give.
fn served_from<R: Threads + Wait + Sync, F: Read, B: Read>(
    rt: &R,
    alloc: Global,
    request: &Request<'_>,
    file: &mut Counted<F>,
    book: &mut Counted<B>,
) -> Result<Output, OutOfMemory>
    requires file { file.old.failures < 2 ^ 64 - 1 }
    requires book { book.old.failures < 2 ^ 64 - 1 }
    ensures { IfOk result
        (IsServedFrom F.remaining file.old file.new (IsBookRead B.remaining book.old book.new) request.now) }
{
    match Program::from_reader(alloc, file) {
        Ok(program) => {
            let read = read_book(alloc, request, book)?;
            served(rt, alloc, &program, &read, request)
        }
        Err(fault) => not_loaded(alloc, request, fault),
    }
}

/// Answers the request for what the reader of FILE gives, where no book file was opened.
fn served_alone<R: Threads + Wait + Sync, F: Read>(
    rt: &R,
    alloc: Global,
    request: &Request<'_>,
    file: &mut Counted<F>,
) -> Result<Output, OutOfMemory>
    requires { file.old.failures < 2 ^ 64 - 1 }
    ensures { IfOk result (IsServedFrom F.remaining file.old file.new IsUnopened request.now) }
{
    match Program::from_reader(alloc, file) {
        Ok(program) => served(rt, alloc, &program, &unopened(request), request),
        Err(fault) => not_loaded(alloc, request, fault),
    }
}

/// Answers the request. The output says that a file can't be read exactly where a read failed, as the reader counts.
/// The book file is read only to check it, and only once FILE gave a program. A reader that is `None` means a file that
/// could not be opened, which counts as a failed read where the file would be read. An exploration runs its workers on
/// the runtime and joins them before it answers. Nothing is written: the output holds all texts, the book file's too.
///
/// # Errors
/// Memory ran out.
pub fn serve<R: Threads + Wait + Sync, F: Read, B: Read>(
    rt: &R,
    alloc: Global,
    request: &Request<'_>,
    file: Option<&mut Counted<F>>,
    book: Option<&mut Counted<B>>,
) -> Result<Output, OutOfMemory>
    requires file { IfSome file (λ reader. reader.now.failures < 2 ^ 64 - 1) }
    requires book { IfSome book (λ reader. reader.now.failures < 2 ^ 64 - 1) }
    ensures { IfOk result (λ output. MatchOption file.entry (IsServed None BookRead.NotAsked request.now output)
        (λ reader. LeavesBehind
        (λ after. MatchOption book.entry (IsServedFrom F.remaining reader.now after IsUnopened request.now output)
        (λ reading. LeavesBehind (λ read. IsServedFrom F.remaining reader.now after
        (IsBookRead B.remaining reading.now read) request.now output) book.exit)) file.exit)) }
{
    let Some(file) = file else {
        return unreadable(alloc, request.file());
    };
    let Some(book) = book else {
        return served_alone(rt, alloc, request, file);
    };
    served_from(rt, alloc, request, file, book)
}

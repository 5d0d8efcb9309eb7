//! The lines that the program prints. Each function appends its text to a page.
ghost use Rattle.std.specs.Prelude.{◌≡◌, ◌++◌, IfOk};
ghost use Rattle.std.specs.String.{string_bytes};
ghost use Rattle.treesched_lib.specs.Lines as lines;

use book::{Finding, ShortName, Totals};
use crew::{Answer, Report, Share};
use sched_program::{History, Op, OpId, OutOfMemory, Program, value_of};
use std::fmt::Write;
use tree_machine::Encode;

/// The word for a finding.
fn finding_name(finding: &Finding) -> &'static str
    ensures { result.now ≡ lines.finding_name finding.now }
{
    match finding {
        Finding::Astray => "astray",
        Finding::Order => "order",
        Finding::History => "history",
        Finding::Sound(_) => "sound",
    }
}

fn put_op(page: &mut String, op: Op) -> Result<(), OutOfMemory>
    ensures { IfOk result (λ _. string_bytes page.new ≡ string_bytes page.old ++ lines.op_text op) }
{
    match op {
        Op::Insert(key) => write!(page, "insert {key}"),
        Op::Delete(key) => write!(page, "delete {key}"),
        Op::Find(key) => write!(page, "find {key}"),
    }
}

fn put_name(page: &mut String, id: OpId) -> Result<(), OutOfMemory>
    ensures { IfOk result (λ _. string_bytes page.new ≡ string_bytes page.old ++ lines.name_text id) }
{
    let OpId { thread, index } = id;
    write!(page, "{thread}.{index}")
}

fn put_reply(page: &mut String, reply: Option<bool>) -> Result<(), OutOfMemory>
    ensures { IfOk result (λ _. string_bytes page.new ≡ string_bytes page.old ++ lines.reply_text reply) }
{
    match reply {
        None => page.push_str("pending"),
        Some(reply) => write!(page, "{reply}"),
    }
}

/// The line of an operation that began.
fn put_operation(
    page: &mut String,
    program: &Program,
    history: &History,
    id: OpId,
) -> Result<(), OutOfMemory>
    ensures { IfOk result (λ _. string_bytes page.new
        ≡ string_bytes page.old ++ lines.operation_text program.now history.now id) }
{
    let Some(op) = program.op(id) else {
        return Ok(());
    };
    put_name(page, id)?;
    page.push(' ')?;
    put_op(page, op)?;
    page.push(' ')?;
    put_reply(page, value_of(history.finished(), id))?;
    page.push('\n')
}

/// A line for each operation that began, by thread and index.
pub fn put_operations(
    page: &mut String,
    program: &Program,
    history: &History,
) -> Result<(), OutOfMemory>
    ensures { IfOk result (λ _. string_bytes page.new
        ≡ string_bytes page.old ++ lines.operations_text program.now history.now) }
{
    for (id, _) in history.begun() {
        put_operation(page, program, history, *id)?;
    }
    Ok(())
}

/// Numbers joined by commas.
fn put_list(page: &mut String, numbers: &[u8]) -> Result<(), OutOfMemory>
    ensures { IfOk result (λ _. string_bytes page.new ≡ string_bytes page.old ++ lines.list_text numbers.now) }
{
    let Some((first, rest)) = numbers.split_first() else {
        return Ok(());
    };
    write!(page, "{first}")?;
    for number in rest {
        write!(page, ",{number}")?;
    }
    Ok(())
}

/// The line of a linearization.
fn put_order(page: &mut String, order: &[ShortName]) -> Result<(), OutOfMemory>
    ensures { IfOk result (λ _. string_bytes page.new ≡ string_bytes page.old ++ lines.order_text order.now) }
{
    if order.is_empty() {
        return page.push_str("order -\n");
    }
    page.push_str("order")?;
    for id in order {
        page.push(' ')?;
        put_name(page, id.name())?;
    }
    page.push('\n')
}

/// What a replay reports of its last state: an order and `no fault`, or the fault.
pub fn put_verdict(page: &mut String, finding: &Finding) -> Result<(), OutOfMemory>
    ensures { IfOk result (λ _. string_bytes page.new ≡ string_bytes page.old ++ lines.verdict_text finding.now) }
{
    match finding {
        Finding::Sound(order) => {
            put_order(page, order.as_slice())?;
            page.push_str("no fault\n")
        }
        fault => writeln!(page, "fault {}", finding_name(fault)),
    }
}

fn put_holds_for_every(page: &mut String) -> Result<(), OutOfMemory>
    ensures { IfOk result (λ _. string_bytes page.new ≡ string_bytes page.old ++ lines.holds_for_every_text) }
{
    writeln!(page, "holds for every schedule")
}

fn put_holds(page: &mut String, steps: u16) -> Result<(), OutOfMemory>
    ensures { IfOk result (λ _. string_bytes page.new ≡ string_bytes page.old ++ lines.holds_text steps) }
{
    writeln!(page, "holds to {steps} steps")
}

fn put_states(page: &mut String, states: usize) -> Result<(), OutOfMemory>
    ensures { IfOk result (λ _. string_bytes page.new ≡ string_bytes page.old ++ lines.states_text states) }
{
    writeln!(page, "states {states}")
}

/// The answer that every schedule holds, and the number of states.
fn put_every(page: &mut String, states: usize) -> Result<(), OutOfMemory>
    ensures { IfOk result (λ _. string_bytes page.new
        ≡ string_bytes page.old ++ lines.answer_text states Answer.Every) }
{
    put_holds_for_every(page)?;
    put_states(page, states)
}

/// What is printed for a book file that passes, with its number of entries.
pub fn put_passed(page: &mut String, entries: usize) -> Result<(), OutOfMemory>
    ensures { IfOk result (λ _. string_bytes page.new ≡ string_bytes page.old ++ lines.passed_text entries) }
{
    writeln!(page, "every schedule holds")?;
    put_states(page, entries)
}

/// The answer of an exploration that met `states` states.
fn put_answer(page: &mut String, states: usize, answer: &Answer) -> Result<(), OutOfMemory>
    ensures { IfOk result (λ _. string_bytes page.new ≡ string_bytes page.old ++ lines.answer_text states answer.now) }
{
    match answer {
        Answer::Every => put_every(page, states),
        Answer::Holds { steps } => {
            put_holds(page, *steps)?;
            put_states(page, states)
        }
        Answer::Fault { finding, schedule } => {
            let kind = finding_name(finding);
            let length = schedule.len();
            writeln!(page, "fault {kind} after {length} steps")?;
            page.push_str("schedule ")?;
            put_list(page, schedule.as_slice())?;
            page.push('\n')?;
            put_states(page, states)
        }
        Answer::Stopped { limit, holds_to } => {
            writeln!(page, "stopped at {limit} states")?;
            put_holds(page, *holds_to)
        }
    }
}

fn put_counts(
    page: &mut String,
    expanded: usize,
    entered: usize,
    met: usize,
) -> Result<(), OutOfMemory>
    ensures { IfOk result (λ _. string_bytes page.new
        ≡ string_bytes page.old ++ lines.counts_text expanded entered met) }
{
    writeln!(page, " expanded {expanded} entered {entered} met {met}")
}

/// A line for each worker, numbered from 1.
fn put_workers(page: &mut String, shares: &[Share]) -> Result<(), OutOfMemory>
    ensures { IfOk result (λ _. string_bytes page.new ≡ string_bytes page.old ++ lines.workers_text 1 shares.now) }
{
    for (i, share) in shares.iter().enumerate() {
        let worker = i + 1;
        write!(page, "worker {worker}")?;
        put_counts(page, share.expanded, share.entered, share.met)?;
    }
    Ok(())
}

/// The ledger: a line for each worker and the total.
fn put_ledger(page: &mut String, shares: &[Share], totals: &Totals) -> Result<(), OutOfMemory>
    ensures { IfOk result (λ _. string_bytes page.new
        ≡ string_bytes page.old ++ lines.ledger_text shares.now totals.now) }
{
    put_workers(page, shares)?;
    page.push_str("total")?;
    put_counts(page, totals.expanded, totals.entered, totals.met)
}

/// All lines of an exploration, the ledger's if it is asked for.
pub fn put_report<M: Encode>(
    page: &mut String,
    ledger: bool,
    report: &Report<M>,
) -> Result<(), OutOfMemory>
    ensures { IfOk result (λ _. string_bytes page.new ≡ string_bytes page.old
        ++ lines.report_text ledger report.now.answer report.now.totals report.now.shares.items) }
{
    put_answer(page, report.totals.entries, &report.answer)?;
    if ledger {
        put_ledger(page, report.shares.as_slice(), &report.totals)?;
    }
    Ok(())
}

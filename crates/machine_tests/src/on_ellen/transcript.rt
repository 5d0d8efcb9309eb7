//! What a step did, as one line of text.
//!
//! A line has the thread; the place where it is then, or its reply, or `astray`; and behind each `|` a node that
//! the step wrote or made, or a record that it made. An update word is `U` for (CLEAN, none), or its state with the
//! number of its record. A place has its locals in the order of the table, `above` as `node:word` or `-`, and a help
//! place its stack and its base behind them. A node is its number with its key, and its update word and children if it
//! has them.

use crate::on_ellen::states::{next, program_of, start};
use ellen::{
    Above, Base, Ellen, EllenLoc, EllenMem, HelpLoc, Node, Record, Resume, SearchLoc, UpdateWord,
};
use sched_program::{OutOfMemory, Program};
use std::alloc::Global;
use tree_machine::{Side, State, StepFault, Thread};

/// A part of a line. It comes behind a blank.
#[derive(Drop)]
enum Part {
    Name(&'static str),
    Number(u16),
    Word(UpdateWord),
    Above(Option<Above>),
}

fn add_word(text: &mut String, word: UpdateWord) -> Result<(), OutOfMemory> {
    let (name, record) = match word {
        UpdateWord::Untouched => return text.push_str("U"),
        UpdateWord::Clean(record) => ("CLEAN", record),
        UpdateWord::InsertFlag(record) => ("IFLAG", record),
        UpdateWord::DeleteFlag(record) => ("DFLAG", record),
        UpdateWord::Mark(record) => ("MARK", record),
    };
    write!(text, "{name}{record}")
}

fn add_above(text: &mut String, above: Option<Above>) -> Result<(), OutOfMemory> {
    match above {
        Some(above) => {
            let node = above.node;
            write!(text, "{node}:")?;
            add_word(text, above.update)
        }
        None => text.push_str("-"),
    }
}

fn add_part(text: &mut String, part: &Part) -> Result<(), OutOfMemory> {
    text.push_str(" ")?;
    match part {
        Part::Name(name) => text.push_str(*name),
        Part::Number(number) => write!(text, "{number}"),
        Part::Word(word) => add_word(text, *word),
        Part::Above(above) => add_above(text, *above),
    }
}

fn add_parts(text: &mut String, parts: &[Part]) -> Result<(), OutOfMemory> {
    for part in parts {
        add_part(text, part)?;
    }
    Ok(())
}

fn add_search(text: &mut String, at: SearchLoc) -> Result<(), OutOfMemory> {
    match at {
        SearchLoc::Update { above, parent } => add_parts(
            text,
            &[
                Part::Name("Update"),
                Part::Above(above),
                Part::Number(parent),
            ],
        ),
        SearchLoc::Child {
            above,
            parent,
            update,
        } => add_parts(
            text,
            &[
                Part::Name("Child"),
                Part::Above(above),
                Part::Number(parent),
                Part::Word(update),
            ],
        ),
        SearchLoc::IFlag {
            parent,
            update,
            leaf,
        } => add_parts(
            text,
            &[
                Part::Name("IFlag"),
                Part::Number(parent),
                Part::Word(update),
                Part::Number(leaf),
            ],
        ),
        SearchLoc::InsOnly { parent, leaf } => add_parts(
            text,
            &[
                Part::Name("InsOnly"),
                Part::Number(parent),
                Part::Number(leaf),
            ],
        ),
        SearchLoc::DFlag {
            above,
            parent,
            update,
            leaf,
        } => add_parts(
            text,
            &[
                Part::Name("DFlag"),
                Part::Above(Some(above)),
                Part::Number(parent),
                Part::Word(update),
                Part::Number(leaf),
            ],
        ),
    }
}

fn add_help(text: &mut String, at: HelpLoc) -> Result<(), OutOfMemory> {
    let (name, record) = match at {
        HelpLoc::InsChild(record) => ("InsChild", record),
        HelpLoc::InsClean(record) => ("InsClean", record),
        HelpLoc::Mark(record) => ("Mark", record),
        HelpLoc::Right(record) => ("Right", record),
        HelpLoc::Other { record, .. } => ("Other", record),
        HelpLoc::Splice { record, .. } => ("Splice", record),
        HelpLoc::DelClean(record) => ("DelClean", record),
        HelpLoc::Back(record) => ("Back", record),
    };
    add_parts(text, &[Part::Name(name), Part::Number(record)])?;
    match at {
        HelpLoc::Other {
            side: Side::Left,
            ..
        } => add_part(text, &Part::Name("left")),
        HelpLoc::Other {
            side: Side::Right,
            ..
        } => add_part(text, &Part::Name("right")),
        HelpLoc::Splice { other, .. } => add_part(text, &Part::Number(other)),
        _ => Ok(()),
    }
}

fn add_resume(text: &mut String, resume: &Resume) -> Result<(), OutOfMemory> {
    text.push_str(" [")?;
    for number in resume.stack.as_slice() {
        write!(text, "{number}")?;
    }
    text.push_str(match resume.base {
        Base::Again => "] again",
        Base::Insert => "] insert",
        Base::Delete => "] delete",
    })
}

fn add_place(text: &mut String, place: &EllenLoc) -> Result<(), OutOfMemory> {
    match place {
        EllenLoc::Search(at) => add_search(text, *at),
        EllenLoc::Help(at, resume) => {
            add_help(text, *at)?;
            add_resume(text, resume)
        }
    }
}

fn add_node(text: &mut String, x: usize, node: Node) -> Result<(), OutOfMemory> {
    let (Node::Leaf { key } | Node::Internal { key, .. }) = node;
    write!(text, " | {x}: {key}")?;
    match node {
        Node::Leaf { .. } => Ok(()),
        Node::Internal {
            update,
            left,
            right,
            ..
        } => add_parts(
            text,
            &[Part::Word(update), Part::Number(left), Part::Number(right)],
        ),
    }
}

fn add_record(text: &mut String, record: Record) -> Result<(), OutOfMemory> {
    text.push_str(" |")?;
    match record {
        Record::Ins(info) => add_parts(
            text,
            &[
                Part::Name("Ins"),
                Part::Number(info.parent),
                Part::Number(info.leaf),
                Part::Number(info.new),
            ],
        ),
        Record::Del(info) => add_parts(
            text,
            &[
                Part::Name("Del"),
                Part::Number(info.grandparent),
                Part::Number(info.parent),
                Part::Number(info.leaf),
                Part::Word(info.parent_update),
            ],
        ),
    }
}

/// The nodes of a memory that another has not.
fn add_nodes(text: &mut String, old: &EllenMem, new: &EllenMem) -> Result<(), OutOfMemory> {
    for (x, node) in new.nodes.as_slice().iter().enumerate() {
        match old.nodes.get(x) {
            Some(before) if *before == *node => {}
            _ => add_node(text, x, *node)?,
        }
    }
    Ok(())
}

/// The records of a memory that another has not.
fn add_records(text: &mut String, old: &EllenMem, new: &EllenMem) -> Result<(), OutOfMemory> {
    for (r, record) in new.records.as_slice().iter().enumerate() {
        match old.records.get(r) {
            Some(before) if *before == *record => {}
            _ => add_record(text, *record)?,
        }
    }
    Ok(())
}

/// What a thread replied last, if it replied.
fn last_reply(thread: &Thread<EllenLoc>) -> Option<bool> {
    let before = thread.replies.len().checked_sub(1)?;
    thread.replies.get(before)
}

/// Adds where a thread is, or what it replied last.
fn add_thread(text: &mut String, thread: &Thread<EllenLoc>) -> Result<(), OutOfMemory> {
    match &thread.place {
        Some(place) => add_place(text, place),
        None => match last_reply(thread) {
            Some(reply) => write!(text, " {reply}"),
            None => text.push_str(" idle"),
        },
    }
}

/// Adds where a thread is after a step, and what the step wrote and made.
fn add_changes(
    text: &mut String,
    t: u8,
    old: &State<Ellen>,
    new: &State<Ellen>,
) -> Result<(), OutOfMemory> {
    match (new.astray(), new.threads.get(usize::from(t))) {
        (None, Some(thread)) => add_thread(text, thread)?,
        _ => text.push_str(" astray")?,
    }
    add_nodes(text, old.memory(), new.memory())?;
    add_records(text, old.memory(), new.memory())
}

/// The line of a step.
fn line_of(
    alloc: Global,
    t: u8,
    old: &State<Ellen>,
    new: &State<Ellen>,
) -> Result<String, OutOfMemory> {
    let mut text = format!(in alloc; "{t}")?;
    add_changes(&mut text, t, old, new)?;
    Ok(text)
}

/// The line of a step, if it differs from this one.
fn other_line(
    alloc: Global,
    t: u8,
    old: &State<Ellen>,
    new: &State<Ellen>,
    line: &str,
) -> Result<Option<String>, OutOfMemory> {
    let stated = line_of(alloc, t, old, new)?;
    if stated.as_str() == line {
        Ok(None)
    } else {
        Ok(Some(stated))
    }
}

/// The thread of a line's step.
pub fn thread_of(line: &str) -> Result<u8, StepFault> {
    match line.as_bytes().first() {
        Some(digit) => Ok(digit.wrapping_sub(b'0')),
        None => Err(StepFault::NotEnabled),
    }
}

/// The actual line of the first step whose line differs from these, along the schedule of their threads.
fn differs(
    alloc: Global,
    machine: Ellen,
    program: &Program,
    lines: &str,
) -> Result<Option<String>, StepFault> {
    let mut state = start(alloc, machine, program)?;
    for line in lines.lines() {
        let thread = thread_of(line)?;
        let after = next(alloc, machine, program, &state, thread)?;
        let other = other_line(alloc, thread, &state, &after, line)?;
        if other.is_some() {
            return Ok(other);
        }
        state = after;
    }
    Ok(None)
}

/// The actual line of the first step that differs from these lines, for the program of a text.
pub fn first_difference(
    alloc: Global,
    machine: Ellen,
    text: &str,
    lines: &str,
) -> Result<Option<String>, StepFault> {
    let program = program_of(alloc, text)?;
    differs(alloc, machine, &program, lines)
}

//! What is reported where a reader or a writer fails.
ghost use Rattle.std.specs.Prelude.{◌≡◌};

use crate::answers::{Wanted, answer, answer_by};
use crate::books::BOOK;
use crate::cases::{Case, Runtime, check};
use crate::failing::{FailingReader, FailingWriter, failing};
use crate::sources::TWO_INSERTS;
use sched_program::{Counted, OutOfMemory};
use std::io::ErrorKind;
use std::test::Fail;
use treesched_lib::{CountedWriter, Output, WriteFault, put_all, put_book};

/// The words of an exploration.
static EXPLORE: [&str; 5] = ["treesched", "explore", "a file", "--steps", "2"];

const EXPLORED: Wanted<'static> = Wanted::Prints(0, "holds to 2 steps\nstates 5\n");

const UNREAD_FILE: Wanted<'static> = Wanted::Tells(6, "treesched: can't read a file\n");

/// The words of a check of a book file.
static CHECK: [&str; 4] = ["treesched", "check", "a file", "a book"];

const CHECKED: Wanted<'static> = Wanted::Prints(0, "every schedule holds\nstates 5\n");

const UNREAD_BOOK: Wanted<'static> = Wanted::Tells(6, "treesched: can't read a book\n");

const UNWRITTEN_BOOK: Wanted<'static> = Wanted::Tells(6, "treesched: can't write a book\n");

/// A device that fails, or cannot be opened.
#[derive(Clone, Copy)]
pub enum Device<'a> {
    /// A file whose read of this number fails. The program reports it, but answers if it had all bytes and the end
    /// before.
    File(usize),
    /// A file that cannot be opened.
    NoFile,
    /// A book file whose read of this number fails. The program reports it, but checks the book if it had all bytes
    /// and the end before.
    Book(usize),
    /// A book file that cannot be opened.
    NoBook,
    /// A book file whose every read fails. A request that checks none does not read it.
    LetAlone,
    /// A text, and the number of the write that fails. All of the text goes out if that write is not reached, and
    /// otherwise two bytes for each write before it.
    Text(&'a str, usize),
    /// The number of the write of a book that fails: the program reports it, and prints nothing else.
    Written(usize),
}

/// Whether the program reports what comes of the device.
pub fn works<R: Runtime>(rt: &R, device: &Device<'_>) -> Result<bool, OutOfMemory> {
    match device {
        Device::File(fails_at) => reads_file(rt, *fails_at),
        Device::NoFile => opens_no_file(rt),
        Device::Book(fails_at) => reads_book(rt, *fails_at),
        Device::NoBook => opens_no_book(rt),
        Device::LetAlone => lets_alone(rt),
        Device::Text(text, fails_at) => writes_text(rt, text, *fails_at),
        Device::Written(fails_at) => writes_book(rt, *fails_at),
    }
}

fn reads_file<R: Runtime>(rt: &R, fails_at: usize) -> Result<bool, OutOfMemory> {
    let mut file = Counted::new(failing(TWO_INSERTS, fails_at));
    let output = answer_by::<R, FailingReader<'_>, &[u8]>(
        rt,
        EXPLORE.as_slice(),
        Some(&mut file),
        None,
    )?;
    let wanted = if fails_at <= TWO_INSERTS.len() {
        UNREAD_FILE
    } else {
        EXPLORED
    };
    Ok(wanted.is_met(rt, &output))
}

#[test]
fn tells_a_file_that_cannot_be_read(rt: HostRuntime) -> Result<(), Fail> {
    for fails_at in 0..TWO_INSERTS.len() + 3 {
        check(&rt, fails_at, &Case::Works(Device::File(fails_at)))?;
    }
    Ok(())
}

fn opens_no_file<R: Runtime>(rt: &R) -> Result<bool, OutOfMemory> {
    let output = answer_by::<R, &[u8], &[u8]>(rt, EXPLORE.as_slice(), None, None)?;
    Ok(UNREAD_FILE.is_met(rt, &output))
}

#[test]
fn tells_a_file_that_cannot_be_opened(rt: HostRuntime) -> Result<(), Fail> {
    check(&rt, 0, &Case::Works(Device::NoFile))
}

fn reads_book<R: Runtime>(rt: &R, fails_at: usize) -> Result<bool, OutOfMemory> {
    let mut book = Counted::new(failing(BOOK, fails_at));
    let output = answer_with(rt, CHECK.as_slice(), &mut book)?;
    let wanted = if fails_at <= BOOK.len() {
        UNREAD_BOOK
    } else {
        CHECKED
    };
    Ok(wanted.is_met(rt, &output))
}

/// The output for these words, where FILE has two inserts and the book file has this reader.
fn answer_with<R: Runtime>(
    rt: &R,
    words: &[&str],
    book: &mut Counted<FailingReader<'_>>,
) -> Result<Output, OutOfMemory>
    requires { book.old.failures ≡ 0 }
{
    answer_by(rt, words, Some(&mut Counted::new(TWO_INSERTS)), Some(book))
}

#[test]
fn tells_a_book_that_cannot_be_read(rt: HostRuntime) -> Result<(), Fail> {
    for fails_at in 0..BOOK.len() + 3 {
        check(&rt, fails_at, &Case::Works(Device::Book(fails_at)))?;
    }
    Ok(())
}

fn opens_no_book<R: Runtime>(rt: &R) -> Result<bool, OutOfMemory> {
    let output = answer(rt, CHECK.as_slice(), TWO_INSERTS)?;
    Ok(UNREAD_BOOK.is_met(rt, &output))
}

#[test]
fn tells_a_book_that_cannot_be_opened(rt: HostRuntime) -> Result<(), Fail> {
    check(&rt, 0, &Case::Works(Device::NoBook))
}

fn lets_alone<R: Runtime>(rt: &R) -> Result<bool, OutOfMemory> {
    let mut book = Counted::new(failing(b"", 0));
    let output = answer_with(rt, EXPLORE.as_slice(), &mut book)?;
    Ok(EXPLORED.is_met(rt, &output) && book.failures() == 0)
}

#[test]
fn reads_no_book_that_is_not_checked(rt: HostRuntime) -> Result<(), Fail> {
    check(&rt, 0, &Case::Works(Device::LetAlone))
}

fn writes_text<R: Runtime>(rt: &R, text: &str, fails_at: usize) -> Result<bool, OutOfMemory> {
    let mut writer = FailingWriter::new(Vec::new(rt.alloc()), fails_at);
    let answer = put_all(&mut CountedWriter::new(&mut writer), text.as_bytes());
    match &answer {
        Ok(()) => Ok(is_held(rt, text, fails_at, true, writer.held())),
        Err(WriteFault::Failed(error)) if error.kind() == ErrorKind::OutOfMemory => {
            Err(OutOfMemory)
        }
        Err(WriteFault::Failed(_)) => Ok(is_held(rt, text, fails_at, false, writer.held())),
        Err(WriteFault::TookNone) => Ok(false),
    }
}

/// Whether it was rightly reported if the writer took the whole text, and the writer holds what it took before it
/// failed.
fn is_held<P: Print>(rt: &P, text: &str, fails_at: usize, is_whole: bool, held: &[u8]) -> bool {
    let taken = fails_at.saturating_mul(2).min(text.len());
    let is_met = held == &text.as_bytes()[..taken]
        && is_whole == (fails_at >= text.len().div_ceil(2));
    if !is_met {
        let _ = println!(rt; "{text:?}: {held:?}");
    }
    is_met
}

#[test]
fn leaves_a_beginning(rt: HostRuntime) -> Result<(), Fail> {
    for text in ["holds to 2 steps\nstates 5\n", "states 5\n", ""] {
        for fails_at in 0..=text.len() {
            check(&rt, fails_at, &Case::Works(Device::Text(text, fails_at)))?;
        }
    }
    Ok(())
}

fn writes_book<R: Runtime>(rt: &R, fails_at: usize) -> Result<bool, OutOfMemory> {
    let held = Vec::with_capacity(rt.alloc(), BOOK.len())?;
    let mut writer = FailingWriter::new(held, fails_at);
    let mut file = CountedWriter::new(&mut writer);
    let refusal = put_book(rt.alloc(), &mut file, "a book", BOOK)?;
    Ok(is_put(rt, fails_at, writer.held(), &refusal))
}

/// Whether the book is refused where the writer did not take all of it.
fn is_put<P: Print>(rt: &P, fails_at: usize, held: &[u8], refusal: &Option<Output>) -> bool {
    match refusal {
        None => held == BOOK && fails_at >= BOOK.len().div_ceil(2),
        Some(output) => held != BOOK && UNWRITTEN_BOOK.is_met(rt, output),
    }
}

#[test]
fn tells_a_book_that_cannot_be_written(rt: HostRuntime) -> Result<(), Fail> {
    for fails_at in 0..BOOK.len() {
        check(&rt, fails_at, &Case::Works(Device::Written(fails_at)))?;
    }
    Ok(())
}

//! What the program answers to its words.
ghost use Rattle.std.specs.Prelude.{◌<◌, ◌^◌, ◌-◌, IfSome};

use crate::cases::Runtime;
use sched_program::{Counted, OutOfMemory};
use std::alloc::Global;
use std::io::Read;
use treesched_lib::{Output, read_words, refused, serve};

/// What an output is to be.
#[derive(Clone, Copy)]
pub enum Wanted<'a> {
    /// This status, this text on the standard output, and nothing else.
    Prints(u8, &'a str),
    /// This status, this text on the standard error, and nothing else.
    Tells(u8, &'a str),
    /// The status of words that are no use of the program, with a text on the standard error and none on the standard
    /// output.
    NoUse,
    /// Help with this text in it, and nothing on the standard error.
    Help(&'a str),
    /// This status, and this line first.
    Begins(u8, &'a str),
    /// That every schedule holds, with this line of the states, and a book file.
    Holds(&'a str),
    /// That a book file passes, with this line of the states.
    Passes(&'a str),
    /// This book file.
    Book(&'a [u8]),
    /// A text on the standard output, and no book file.
    NoBook,
}

impl Wanted<'_> {
    /// Whether the output is that. Prints it where it is not.
    pub fn is_met<P: Print>(&self, rt: &P, output: &Output) -> bool {
        or_printed(rt, self.fits(output), output)
    }

    fn fits(&self, output: &Output) -> bool {
        match self {
            Wanted::Prints(status, text) => shows(output, *status, text, ""),
            Wanted::Tells(status, text) => shows(output, *status, "", text),
            Wanted::NoUse => {
                output.status == 4 && output.out.is_empty() && !output.err.is_empty()
            }
            Wanted::Help(text) => output.status == 0
                && output.err.is_empty()
                && helps(output, text),
            Wanted::Begins(status, line) => {
                output.status == *status && output.out.as_str().lines().next() == Some(*line)
            }
            Wanted::Holds(states) => {
                counts(output, "holds for every schedule\n", states) && output.book.is_some()
            }
            Wanted::Passes(states) => {
                counts(output, "every schedule holds\n", states) && output.book.is_none()
            }
            Wanted::Book(bytes) => match &output.book {
                Some(book) => book.as_slice() == *bytes,
                None => false,
            },
            Wanted::NoBook => !output.out.is_empty() && output.book.is_none(),
        }
    }
}

/// Whether the output has this status, these texts and no book file.
fn shows(output: &Output, status: u8, out: &str, err: &str) -> bool {
    output.status == status
        && output.out.as_str() == out
        && output.err.as_str() == err
        && output.book.is_none()
}

/// Whether help with this text in it is printed.
fn helps(output: &Output, text: &str) -> bool {
    let out = output.out.as_str();
    out.contains("Usage: treesched") && out.contains(text)
}

/// Whether that is printed, and then the line of the states.
fn counts(output: &Output, verdict: &str, states: &str) -> bool {
    output.status == 0
        && output.err.is_empty()
        && output.out.as_str().strip_prefix(verdict) == Some(states)
}

/// Returns `is_met`, and prints the output where it is false.
pub fn or_printed<P: Print>(rt: &P, is_met: bool, output: &Output) -> bool {
    if !is_met {
        let _ = println!(rt; "{output:?}");
    }
    is_met
}

/// Whether the words of the line have that answer.
pub fn answers<R: Runtime>(
    rt: &R,
    line: &str,
    file: &[u8],
    wanted: &Wanted<'_>,
) -> Result<bool, OutOfMemory> {
    let output = answer_to(rt, line, file)?;
    Ok(wanted.is_met(rt, &output))
}

/// The output for the words of a line, where FILE has these bytes.
pub fn answer_to<R: Runtime>(rt: &R, line: &str, file: &[u8]) -> Result<Output, OutOfMemory> {
    let words = words_of(rt.alloc(), line)?;
    answer(rt, words.as_slice(), file)
}

/// The words of a line, which single spaces separate. An empty line has none.
fn words_of<'a>(alloc: Global, line: &'a str) -> Result<Vec<&'a str>, OutOfMemory> {
    let mut words = Vec::new(alloc);
    if line.is_empty() {
        return Ok(words);
    }
    for word in line.split(' ') {
        words.push(word)?;
    }
    Ok(words)
}

/// The output for these words, where FILE has these bytes and there is no book file. The first word is the program's
/// name.
pub fn answer<R: Runtime>(rt: &R, words: &[&str], file: &[u8]) -> Result<Output, OutOfMemory> {
    answer_by::<R, &[u8], &[u8]>(rt, words, Some(&mut Counted::new(file)), None)
}

/// Whether a check of the book file of these bytes has that answer.
pub fn checks<R: Runtime>(
    rt: &R,
    book: &[u8],
    file: &[u8],
    wanted: &Wanted<'_>,
) -> Result<bool, OutOfMemory> {
    let words = ["treesched", "check", "f", "b"];
    let mut file = Counted::new(file);
    let mut book = Counted::new(book);
    let output = answer_by(rt, words.as_slice(), Some(&mut file), Some(&mut book))?;
    Ok(wanted.is_met(rt, &output))
}

/// The output for these words, where FILE and the book file have these readers, if they can be opened.
pub fn answer_by<R: Runtime, F: Read, B: Read>(
    rt: &R,
    words: &[&str],
    file: Option<&mut Counted<F>>,
    book: Option<&mut Counted<B>>,
) -> Result<Output, OutOfMemory>
    requires file { IfSome file (λ reader. reader.now.failures < 2 ^ 64 - 1) }
    requires book { IfSome book (λ reader. reader.now.failures < 2 ^ 64 - 1) }
{
    match read_words(rt.alloc(), words) {
        Ok(request) => serve(rt, rt.alloc(), &request, file, book),
        Err(fault) => refused(rt.alloc(), fault),
    }
}

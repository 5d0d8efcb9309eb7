//! The lines of a book file, read from its bytes.
ghost use Rattle.std.specs.Prelude.{◌≡◌, ◌≢◌, ℕ, ◌+◌, ◌^◌, ◌<◌, ◌⊎◌, List, ◌∷◌, ◌++◌, min, length, IfSome, IfNone};
ghost use Rattle.std.specs.Prelude.{IfOk, IfErr};
ghost use Rattle.std.specs.List.{AllByRecursion, AllZip};
ghost use Rattle.sched_program.specs.declared.operation.OpId.{OpId};
ghost use Rattle.replay.specs.Text.Files.{space, comma, digit, AreLines, IsNumber, IsName, name_text, IsOrder};
ghost use Rattle.replay.specs.Text.Files.{IsEntryLine, IsEntryText, IsHead, HasHead, IsBookText};
ghost use Rattle.replay.specs.Text.Files.{IsEntriesFault, IsFormFault};

use crate::file::fault::CheckFault;
use crate::file::line::{BookLine, MOST_ENTRIES, Names};
use sched_program::{OpId, OutOfMemory, Sequence};
use std::alloc::Global;

/// The bytes before the first byte that is `at`, and those after it.
fn cut(bytes: &[u8], at: u8) -> Option<(&[u8], &[u8])>
    ensures found { IfSome result (λ pieces. (bytes.now ≡ pieces.0.now ++ at ∷ pieces.1.now)
        × AllByRecursion (λ b. b ≢ at) pieces.0.now) }
    ensures none { IfNone result (AllByRecursion (λ b. b ≢ at) bytes.now) }
{
    for i in 0..bytes.len() {
        if bytes[i] == at {
            return Some((&bytes[..i], &bytes[i + 1..]));
        }
    }
    None
}

/// The number that a text is, or `most` where it is greater.
fn number_of(text: &[u8], most: usize) -> Option<usize>
    requires { most < 2 ^ 32 }
    ensures found { IfSome result (λ value. (number : ℕ) × IsNumber text.now number × (value ≡ min number most)) }
    ensures none { IfNone result ((number : ℕ) → ¬ IsNumber text.now number) }
{
    if text.is_empty() || text.len() > 1 && text[0] == b'0' {
        return None;
    }
    let mut value = 0;
    for digit in text {
        if *digit < b'0' || *digit > b'9' {
            return None;
        }
        value = value * 10 + usize::from(*digit - b'0');
        if value > most {
            value = most;
        }
    }
    Some(value)
}

/// The name that a text begins with, and what follows it.
fn name_of(text: &[u8]) -> Option<(OpId, &[u8])>
    ensures found { IfSome result (λ name. IsName name.0 × (text.now ≡ name_text name.0 ++ name.1.now)) }
    ensures none { IfNone result ((id : OpId) (rest : List ℕ) → IsName id → text.now ≢ name_text id ++ rest) }
{
    match text {
        [thread @ b'0'..=b'9', b'.', index @ b'0'..=b'9', rest @ ..] => Some((
            OpId {
                thread: *thread - b'0',
                index: *index - b'0',
            },
            rest,
        )),
        _ => None,
    }
}

/// What follows the comma that a text begins with.
fn after_comma(text: &[u8]) -> Option<&[u8]>
    ensures found { IfSome result (λ rest. text.now ≡ comma ∷ rest.now) }
    ensures none { IfNone result ((rest : List ℕ) → text.now ≢ comma ∷ rest) }
{
    match text {
        [b',', rest @ ..] => Some(rest),
        _ => None,
    }
}

/// The thread that a text begins with, a digit and a space, and what follows it.
fn thread_of(text: &[u8]) -> Option<(u8, &[u8])>
    ensures found { IfSome result (λ thread. (thread.0 < 10) × (text.now ≡ digit thread.0 ∷ space ∷ thread.1.now)) }
    ensures none { IfNone result ((thread : ℕ) (rest : List ℕ) → thread < 10 → text.now ≢ digit thread ∷ space ∷ rest) }
{
    match text {
        [thread @ b'0'..=b'9', b' ', rest @ ..] => Some((*thread - b'0', rest)),
        _ => None,
    }
}

/// The order whose names are the text.
fn order_of(alloc: Global, text: &[u8]) -> Result<Option<Names>, OutOfMemory>
    ensures found { IfOk result (λ found. IfSome found (IsOrder text.now)) }
    ensures none { IfOk result (λ found. IfNone found ((order : List OpId) → ¬ IsOrder text.now order)) }
{
    let mut order = Names::new();
    if text == b"-".as_slice() {
        return Ok(Some(order));
    }
    let Some((first, mut rest)) = name_of(text) else {
        return Ok(None);
    };
    order.push(alloc, first)?;
    while let Some(tail) = after_comma(rest) {
        let Some((name, after)) = name_of(tail) else {
            return Ok(None);
        };
        order.push(alloc, name)?;
        rest = after;
    }
    if rest.is_empty() {
        Ok(Some(order))
    } else {
        Ok(None)
    }
}

/// The line that a text is, of an entry after the first.
fn line_of(alloc: Global, text: &[u8]) -> Result<Option<BookLine>, OutOfMemory>
    ensures found { IfOk result (λ found. IfSome found (IsEntryLine text.now)) }
    ensures none { IfOk result (λ found. IfNone found (¬ IsEntryText text.now)) }
{
    let Some((parent, rest)) = cut(text, b' ') else {
        return Ok(None);
    };
    let Some(parent) = number_of(parent, MOST_ENTRIES) else {
        return Ok(None);
    };
    let Some((thread, order)) = thread_of(rest) else {
        return Ok(None);
    };
    match order_of(alloc, order)? {
        Some(order) => Ok(Some(BookLine {
            parent: parent as u32,
            thread,
            order,
        })),
        None => Ok(None),
    }
}

/// The number of entries that a first line states.
fn entries_of(head: &[u8]) -> Option<usize>
    ensures found { IfSome result (IsHead head.now) }
    ensures none { IfNone result ((entries : ℕ) → ¬ IsHead head.now entries) }
{
    let number = head.strip_prefix(b"treesched book 1 entries ")?;
    match number_of(number, MOST_ENTRIES + 1) {
        Some(entries) if entries >= 1 && entries <= MOST_ENTRIES => Some(entries),
        _ => None,
    }
}

/// How many lines the bytes are, if nothing follows the last.
fn line_count(bytes: &[u8]) -> Option<usize>
    ensures found { IfSome result (λ count. (texts : List (List ℕ)) × AreLines bytes.now texts
        × (length texts ≡ count)) }
    ensures none { IfNone result ((texts : List (List ℕ)) → ¬ AreLines bytes.now texts) }
{
    if bytes.is_empty() {
        return Some(0);
    }
    bytes.strip_suffix(b"\n")?;
    Some(bytes.iter().filter(|byte| **byte == b'\n').count())
}

/// What follows the first line, if that is in the form.
fn after_head(bytes: &[u8]) -> Option<&[u8]>
    ensures found { IfSome result (λ rest. (texts : List (List ℕ)) × HasHead bytes.now texts
        × AreLines rest.now texts) }
    ensures none { IfNone result ((texts : List (List ℕ)) → ¬ HasHead bytes.now texts) }
{
    let (head, rest) = cut(bytes, b'\n')?;
    let entries = entries_of(head)?;
    if line_count(rest)? == entries {
        Some(rest)
    } else {
        None
    }
}

/// The lines of the entries after the first, which begin at the third line of a file.
fn entry_lines(alloc: Global, bytes: &[u8]) -> Result<Vec<BookLine>, CheckFault>
    requires { (texts : List (List ℕ)) × AreLines bytes.now texts × (length texts < 2000000) }
    ensures ok { IfOk result (λ lines. (texts : List (List ℕ)) × AreLines bytes.now texts
        × AllZip IsEntryLine texts lines.items) }
    ensures err { IfErr result (λ fault. (fault ≡ CheckFault.OutOfMemory) ⊎ IsEntriesFault bytes.now fault) }
{
    let mut lines = Sequence::new(alloc);
    let mut rest = bytes;
    while let Some((text, tail)) = cut(rest, b'\n') {
        match line_of(alloc, text)? {
            Some(line) => lines.push(line)?,
            None => return Err(CheckFault::Form(lines.len() + 3)),
        }
        rest = tail;
    }
    Ok(lines.into_vec())
}

/// The lines of the entries after the first that a book file has.
///
/// # Errors
///
/// The first line that is not in the form, or `OutOfMemory` where a growth was refused.
pub fn read_lines(alloc: Global, bytes: &[u8]) -> Result<Vec<BookLine>, CheckFault>
    ensures book { IfOk result (λ lines. IsBookText bytes.now lines.items) }
    ensures bounded { IfOk result (λ lines. length lines.items < 2000000) }
    ensures refused { IfErr result (λ fault. (fault ≡ CheckFault.OutOfMemory) ⊎ IsFormFault bytes.now fault) }
{
    let Some(rest) = after_head(bytes) else {
        return Err(CheckFault::Form(1));
    };
    match rest.strip_prefix(b"- - -\n") {
        Some(rest) => entry_lines(alloc, rest),
        None => Err(CheckFault::Form(2)),
    }
}

//! What threads did, in bytes, one value after the other.
ghost use Rattle.std.specs.Prelude.{◌≡◌, ◌≤◌, ◌+◌, ◌++◌, OnOk, length, take};
ghost use Rattle.tree_machine.specs.Alike.{notes_of, replies_of};
ghost use Rattle.tree_machine.specs.FormCode.{astray_code, op_log_code, list_code, note_code, replies_code};

use crate::fixed::put_byte;
use crate::output::{Output, make_room};
use crate::short_note::ShortNote;
use crate::state::Thread;
use sched_program::{OutOfMemory, ShortList};

/// Writes the replies of each thread at a place of a slice, and returns the place behind them.
fn put_all_replies<L>(bytes: &mut [u8], start: usize, threads: &[Thread<L>]) -> usize
    requires bounded { length threads.now ≤ 4 }
    requires room { start + 5 ≤ length bytes.old }
    ensures put { take result bytes.new
        ≡ take start bytes.old ++ list_code replies_code (replies_of threads.now) }
    ensures most { result ≤ start + 5 }
    ensures length { length bytes.new ≡ length bytes.old }
{
    let mut at = put_byte(bytes, start, threads.len() as u8);
    for thread in threads {
        at = put_byte(bytes, at, thread.replies.byte());
    }
    at
}

/// Writes a note at a place of a slice, and returns the place behind it.
#[inline(always)]
fn put_note(bytes: &mut [u8], start: usize, note: &ShortNote) -> usize
    requires { start + 2 ≤ length bytes.old }
    ensures put { take result bytes.new ≡ take start bytes.old ++ note_code note.now }
    ensures place { result ≡ start + 2 }
    ensures length { length bytes.new ≡ length bytes.old }
{
    let (high, low) = note.bytes();
    let at = put_byte(bytes, start, high);
    put_byte(bytes, at, low)
}

/// Writes the notes of a thread at a place of a slice, and returns the place behind them.
#[inline(always)]
fn put_notes(bytes: &mut [u8], start: usize, notes: &ShortList<ShortNote, 6>) -> usize
    requires { start + 13 ≤ length bytes.old }
    ensures put { take result bytes.new ≡ take start bytes.old ++ list_code note_code notes.now }
    ensures most { result ≤ start + 13 }
    ensures length { length bytes.new ≡ length bytes.old }
{
    let mut at = put_byte(bytes, start, notes.len() as u8);
    for note in notes.as_slice() {
        at = put_note(bytes, at, note);
    }
    at
}

/// Writes the notes of each thread at a place of a slice, and returns the place behind them.
fn put_all_notes<L>(bytes: &mut [u8], start: usize, threads: &[Thread<L>]) -> usize
    requires bounded { length threads.now ≤ 4 }
    requires room { start + 53 ≤ length bytes.old }
    ensures put { take result bytes.new
        ≡ take start bytes.old ++ list_code (list_code note_code) (notes_of threads.now) }
    ensures most { result ≤ start + 53 }
    ensures length { length bytes.new ≡ length bytes.old }
{
    let mut at = put_byte(bytes, start, threads.len() as u8);
    for thread in threads {
        at = put_notes(bytes, at, &thread.notes);
    }
    at
}

/// Writes which thread went astray, if one did, at a place of a slice, and returns the place behind that.
#[inline(always)]
fn put_astray(bytes: &mut [u8], start: usize, astray: Option<u8>) -> usize
    requires { start + 2 ≤ length bytes.old }
    ensures put { take result bytes.new ≡ take start bytes.old ++ astray_code astray }
    ensures most { result ≤ start + 2 }
    ensures length { length bytes.new ≡ length bytes.old }
{
    match astray {
        None => put_byte(bytes, start, 0),
        Some(thread) => {
            let at = put_byte(bytes, start, 1);
            put_byte(bytes, at, thread)
        }
    }
}

/// Appends what the threads did, and who went astray.
pub(crate) fn put_op_log<L>(
    out: &mut Output,
    threads: &[Thread<L>],
    astray: Option<u8>,
) -> Result<(), OutOfMemory>
    requires { length threads.now ≤ 4 }
    ensures { OnOk result (out.new
        ≡ out.old ++ op_log_code (replies_of threads.now) (notes_of threads.now) astray) }
{
    make_room(&mut out.bytes, out.at)?;
    let slice = out.bytes.as_mut_slice();
    let at = put_all_replies(slice, out.at, threads);
    let at = put_all_notes(slice, at, threads);
    out.at = put_astray(slice, at, astray);
    Ok(())
}

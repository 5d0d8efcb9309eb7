//! What threads did, read back from bytes.
ghost use Rattle.std.specs.Prelude.{◌≡◌, ◌++◌, ◌≤◌, length, IfSome};
ghost use Rattle.std.specs.List.{flat_map};
ghost use Rattle.tree_machine.specs.Alike.{notes_of, replies_of};
ghost use Rattle.tree_machine.specs.FormCode.{astray_code, list_code, note_code, replies_code};

use crate::reading::read_byte;
use crate::replies::Replies;
use crate::short_note::ShortNote;
use crate::state::Thread;
use sched_program::ShortList;

/// Reads the replies of a thread.
#[inline(always)]
fn read_replies(bytes: &[u8]) -> Option<(Replies, &[u8])>
    ensures { IfSome result (λ (replies, rest). bytes.now ≡ replies_code replies ++ rest.now) }
{
    let (byte, rest) = read_byte(bytes)?;
    let replies = Replies::of_byte(byte)?;
    Some((replies, rest))
}

/// Reads a note.
#[inline(always)]
fn read_note(bytes: &[u8]) -> Option<(ShortNote, &[u8])>
    ensures { IfSome result (λ (note, rest). bytes.now ≡ note_code note ++ rest.now) }
{
    match bytes {
        [high, low, rest @ ..] => {
            let note = ShortNote::of_bytes(*high, *low)?;
            Some((note, rest))
        }
        _ => None,
    }
}

/// Reads the notes of a thread into a list, and returns the bytes behind them.
#[inline(always)]
fn read_notes<'a>(bytes: &'a [u8], notes: &mut ShortList<ShortNote, 6>) -> Option<&'a [u8]>
    ensures { IfSome result (λ rest. bytes.now ≡ list_code note_code notes.new ++ rest.now) }
{
    *notes = ShortList::new();
    let (count, mut rest) = read_byte(bytes)?;
    if count > 6 {
        return None;
    }
    for _i in 0..count {
        let Some((note, behind)) = read_note(rest) else {
            return None;
        };
        notes.push(note);
        rest = behind;
    }
    Some(rest)
}

/// Reads the replies of each of these threads, and returns the bytes behind them.
#[inline(always)]
pub(crate) fn read_all_replies<'a, L>(
    bytes: &'a [u8],
    threads: &mut [Thread<L>],
) -> Option<&'a [u8]>
    ensures read { IfSome result
        (λ rest. bytes.now ≡ flat_map replies_code (replies_of threads.new) ++ rest.now) }
    ensures length { length threads.new ≡ length threads.old }
{
    let mut rest = bytes;
    for index in 0..threads.len() {
        let Some((replies, behind)) = read_replies(rest) else {
            return None;
        };
        threads[index].replies = replies;
        rest = behind;
    }
    Some(rest)
}

/// Reads the notes of each of these threads, and returns the bytes behind them.
#[inline(always)]
#[tactic(auto, using(crate::proofs::Lists::field_stays))]
pub(crate) fn read_all_notes<'a, L>(bytes: &'a [u8], threads: &mut [Thread<L>]) -> Option<&'a [u8]>
    ensures read { IfSome result
        (λ rest. bytes.now ≡ flat_map (list_code note_code) (notes_of threads.new) ++ rest.now) }
    ensures replies { replies_of threads.new ≡ replies_of threads.old }
    ensures length { length threads.new ≡ length threads.old }
{
    let mut rest = bytes;
    for index in 0..threads.len() {
        rest = read_notes(rest, &mut threads[index].notes)?;
    }
    Some(rest)
}

/// Reads which thread went astray, if one did.
#[inline(always)]
pub(crate) fn read_astray(bytes: &[u8]) -> Option<(Option<u8>, &[u8])>
    ensures { IfSome result (λ (astray, rest). bytes.now ≡ astray_code astray ++ rest.now) }
{
    match read_byte(bytes)? {
        (0, rest) => Some((None, rest)),
        (1, rest) => {
            let (thread, rest) = read_byte(rest)?;
            Some((Some(thread), rest))
        }
        _ => None,
    }
}

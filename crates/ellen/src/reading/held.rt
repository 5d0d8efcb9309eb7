//! What the threads hold read back from its bytes, where each number is one byte.
ghost use Rattle.std.specs.Prelude.{◌≡◌, ◌++◌, IfSome, IfOk};
ghost use Rattle.std.specs.List.{flat_map};
ghost use Rattle.tree_machine.specs.Alike.{replies_of, notes_of};
ghost use Rattle.tree_machine.specs.Flat.{cell_code, part_content};
ghost use Rattle.ellen.specs.Parts.{held_part};

use crate::place::EllenLoc;
use crate::reading::help::read_help;
use crate::reading::search::read_search;
use sched_program::OutOfMemory;
use std::alloc::Global;
use tree_machine::Thread;

/// Reads what a thread holds, a place or nothing between operations, and returns the bytes behind it.
#[inline(always)]
fn read_held<'a>(
    alloc: Global,
    bytes: &'a [u8],
    held: &mut Option<EllenLoc>,
) -> Result<Option<&'a [u8]>, OutOfMemory>
    ensures { IfOk result (λ read. IfSome read (λ rest.
        bytes.now ≡ cell_code (part_content (held_part held.new)) ++ rest.now)) }
{
    match bytes {
        [0, rest @ ..] => {
            *held = None;
            Ok(Some(rest))
        }
        [head, 5, rest @ ..] => read_help(alloc, *head, rest, held),
        [head, kind, rest @ ..] => match read_search(*head, *kind, rest) {
            Some((at, rest)) => {
                *held = Some(EllenLoc::Search(at));
                Ok(Some(rest))
            }
            None => Ok(None),
        },
        _ => Ok(None),
    }
}

/// Reads what each thread holds, one behind the other, and returns the bytes behind that.
pub(crate) fn read_each<'a>(
    alloc: Global,
    bytes: &'a [u8],
    threads: &mut [Thread<EllenLoc>],
) -> Result<Option<&'a [u8]>, OutOfMemory>
    ensures read { IfOk result (λ read. IfSome read (λ rest. bytes.now
        ≡ flat_map (λ thread. cell_code (part_content (held_part thread.place))) threads.new ++ rest.now)) }
    ensures replies { replies_of threads.new ≡ replies_of threads.old }
    ensures notes { notes_of threads.new ≡ notes_of threads.old }
{
    let mut rest = bytes;
    for thread in threads.iter_mut() {
        match read_held(alloc, rest, &mut thread.place)? {
            Some(behind) => rest = behind,
            None => return Ok(None),
        }
    }
    Ok(Some(rest))
}

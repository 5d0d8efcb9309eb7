//! Help places read back from their bytes, where each number is one byte.
ghost use Rattle.std.specs.Prelude.{◌≡◌, ◌<◌, ◌+◌, ◌*◌, ◌++◌, ◌∷◌, [], suc, map, length, IfSome, IfOk, All};
ghost use Rattle.tree_machine.specs.Flat.{number_code, reference_number, cell_code, part_content};
ghost use Rattle.ellen.specs.Parts.{held_part, help_number, help_side, help_node, help_record, base_number};

use crate::place::{Base, EllenLoc, HelpLoc, Resume};
use crate::reading::keep_first;
use crate::reading::words::name_of;
use sched_program::{OutOfMemory, Sequence};
use std::alloc::Global;
use std::mem::replace;
use tree_machine::Side;

/// How many delete records are awaited, by the first byte of a help place.
#[inline(always)]
fn awaited(head: u8) -> Option<u8>
    ensures head { IfSome result (λ count. head ≡ 69 + 30 * count) }
    ensures bounded { IfSome result (λ count. count < 6) }
{
    match head {
        69 => Some(0),
        99 => Some(1),
        129 => Some(2),
        159 => Some(3),
        189 => Some(4),
        219 => Some(5),
        _ => None,
    }
}

/// The help place of a kind, by its side, its other node and its own record.
#[inline(always)]
fn help_of(kind: u8, side: u8, other: u8, own: u8) -> Option<HelpLoc>
    ensures kind { IfSome result (λ at. number_code (help_number at) ≡ kind ∷ []) }
    ensures side { IfSome result (λ at. number_code (help_side at) ≡ side ∷ []) }
    ensures other { IfSome result (λ at. number_code (reference_number (help_node at)) ≡ other ∷ []) }
    ensures own { IfSome result (λ at. number_code (suc (help_record at)) ≡ own ∷ []) }
{
    let number = name_of(own)?;
    match (kind, side, other) {
        (0, 0, 0) => Some(HelpLoc::InsChild(number)),
        (1, 0, 0) => Some(HelpLoc::InsClean(number)),
        (2, 0, 0) => Some(HelpLoc::Mark(number)),
        (3, 0, 0) => Some(HelpLoc::Right(number)),
        (4, 1, 0) => Some(HelpLoc::Other {
            record: number,
            side: Side::Left,
        }),
        (4, 2, 0) => Some(HelpLoc::Other {
            record: number,
            side: Side::Right,
        }),
        (5, 0, _) => Some(HelpLoc::Splice {
            record: number,
            other: name_of(other)?,
        }),
        (6, 0, 0) => Some(HelpLoc::DelClean(number)),
        (7, 0, 0) => Some(HelpLoc::Back(number)),
        _ => None,
    }
}

/// What is done behind the backtracks.
#[inline(always)]
fn base_of(number: u8) -> Option<Base>
    ensures { IfSome result (λ base. number_code (base_number base) ≡ number ∷ []) }
{
    match number {
        0 => Some(Base::Again),
        1 => Some(Base::Insert),
        2 => Some(Base::Delete),
        _ => None,
    }
}

/// An empty list, in the buffer of the stack that a place holds, if it holds one.
#[inline(always)]
fn stack_of(alloc: Global, held: Option<EllenLoc>) -> Sequence<u16>
    ensures { result ≡ [] }
{
    match held {
        Some(EllenLoc::Help(_, resume)) => {
            let mut stack = resume.stack;
            keep_first(&mut stack, 0);
            stack
        }
        _ => Sequence::new(alloc),
    }
}

/// Reads `count` records of a stack into an empty list, and returns the bytes behind them.
fn read_stack<'a>(
    bytes: &'a [u8],
    count: u8,
    stack: &mut Sequence<u16>,
) -> Result<Option<&'a [u8]>, OutOfMemory>
    requires { stack.old ≡ [] }
    ensures stack { IfOk result (λ read. IfSome read (λ rest.
        bytes.now ≡ map (λ number. number + 1) stack.new ++ rest.now)) }
    ensures small { IfOk result (λ read. IfSome read (λ _. All (λ number. number < 254) stack.new)) }
    ensures count { IfOk result (λ read. IfSome read (λ _. length stack.new ≡ count)) }
{
    let mut rest = bytes;
    for _i in 0..count {
        let [byte, behind @ ..] = rest else {
            return Ok(None);
        };
        let Some(number) = name_of(*byte) else {
            return Ok(None);
        };
        stack.push(number)?;
        rest = behind;
    }
    Ok(Some(rest))
}

/// Reads the rest of a help place into a place that holds another, and returns the bytes behind it. The stack reuses
/// the buffer of the other one's.
pub(crate) fn read_help<'a>(
    alloc: Global,
    head: u8,
    bytes: &'a [u8],
    held: &mut Option<EllenLoc>,
) -> Result<Option<&'a [u8]>, OutOfMemory>
    ensures { IfOk result (λ read. IfSome read (λ rest.
        head ∷ 5 ∷ bytes.now ≡ cell_code (part_content (held_part held.new)) ++ rest.now)) }
{
    let [kind, side, base, other, own, rest @ ..] = bytes else {
        return Ok(None);
    };
    let Some(count) = awaited(head) else {
        return Ok(None);
    };
    let Some(at) = help_of(*kind, *side, *other, *own) else {
        return Ok(None);
    };
    let Some(base) = base_of(*base) else {
        return Ok(None);
    };
    let mut stack = stack_of(alloc, replace(held, None));
    let Some(behind) = read_stack(rest, count, &mut stack)? else {
        return Ok(None);
    };
    *held = Some(EllenLoc::Help(at, Resume { stack, base }));
    Ok(Some(behind))
}

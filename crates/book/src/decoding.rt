//! States read from the labels by which a book knows them.
ghost use Rattle.std.specs.Prelude.{IfOk, IfSome};
ghost use Rattle.tree_machine.specs.Offsets.{AreOffsetsOf};
ghost use Rattle.book.specs.Decoding.{IsRead};

use sched_program::OutOfMemory;
use std::alloc::Global;
use tree_machine::{CodeOffsets, Encode, State};

/// A decoded state, with the label that it was decoded from and the offsets of that label's parts.
/// The state is in a box, since it is passed on for each entry.
#[derive(Drop)]
pub(crate) struct Decoded<M: Encode> {
    pub(crate) state: Box<State<M>>,
    pub(crate) label: Vec<u8>,
    pub(crate) offsets: CodeOffsets,
    pub(crate) ghost read: { AreOffsetsOf M.front_code M.behind_code label.items offsets state.value },
}

/// Decodes a label into the place of another state, and copies it into `list`. The result counts as
/// one with each state that has this label in a book of either merge. It may always return none. If
/// `known` is given, `list` holds the other state's own code, whose parts have these offsets.
pub(crate) fn decode<M: Encode>(
    alloc: Global,
    machine: M,
    label: &[u8],
    mut state: Box<State<M>>,
    mut list: Vec<u8>,
    known: Option<CodeOffsets>,
) -> Result<Option<Decoded<M>>, OutOfMemory>
    requires { IfSome known (λ offsets. AreOffsetsOf M.front_code M.behind_code list.items offsets state.value) }
    ensures { IfOk result (λ o. IfSome o (λ d. IsRead M.front_code M.behind_code M.own_code M.form_code
        (M.form_of machine) (M.rules machine) label.now d.offsets d.state.value)) }
{
    let last = match known {
        Some(offsets) => Some((list.as_slice(), offsets)),
        None => None,
    };
    let read = state.decode(alloc, machine, label, last)?;
    state.decoded_law(machine);
    let Some(offsets) = read else {
        return Ok(None);
    };
    list.clear();
    list.extend_from_slice(label)?;
    Ok(Some(Decoded {
        state,
        label: list,
        offsets,
    }))
}

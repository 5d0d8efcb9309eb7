//! Names, update words and grandparents read back from bytes.
ghost use Rattle.std.specs.Prelude.{◌≡◌, ◌<◌, ◌+◌, ◌∷◌, [], suc, IfSome};
ghost use Rattle.tree_machine.specs.Flat.{number_code, reference_number};
ghost use Rattle.ellen.specs.Parts.{word_number, word_record, above_number, above_node, above_record};

use crate::memory::UpdateWord;
use crate::place::Above;

/// The node or the record that a byte names.
#[inline(always)]
pub(crate) fn name_of(byte: u8) -> Option<u16>
    ensures coded { IfSome result (λ name. number_code (suc name) ≡ byte ∷ []) }
    ensures number { IfSome result (λ name. byte ≡ name + 1) }
    ensures small { IfSome result (λ name. name < 254) }
{
    if 0 < byte && byte < 255 {
        Some(u16::from(byte) - 1)
    } else {
        None
    }
}

/// The update word of a kind, whose record a byte names.
#[inline(always)]
pub(crate) fn word_of(kind: u8, named: u8) -> Option<UpdateWord>
    ensures kind { IfSome result (λ word. kind ≡ word_number word) }
    ensures named { IfSome result (λ word. number_code (reference_number (word_record word)) ≡ named ∷ []) }
{
    if kind == 0 && named == 0 {
        return Some(UpdateWord::Untouched);
    }
    let number = name_of(named)?;
    match kind {
        1 => Some(UpdateWord::Clean(number)),
        2 => Some(UpdateWord::InsertFlag(number)),
        3 => Some(UpdateWord::DeleteFlag(number)),
        4 => Some(UpdateWord::Mark(number)),
        _ => None,
    }
}

/// The grandparent, if there is one: whether there is and the kind of its update word, the node, and the record that
/// the update word names.
#[inline(always)]
pub(crate) fn above_of(kind: u8, node: u8, named: u8) -> Option<Option<Above>>
    ensures kind { IfSome result (λ above. kind ≡ above_number above) }
    ensures node { IfSome result (λ above. number_code (reference_number (above_node above)) ≡ node ∷ []) }
    ensures named { IfSome result (λ above. number_code (reference_number (above_record above)) ≡ named ∷ []) }
{
    if kind == 0 && node == 0 && named == 0 {
        return Some(None);
    }
    if kind == 0 {
        return None;
    }
    let node = name_of(node)?;
    let update = word_of(kind - 1, named)?;
    Some(Some(Above { node, update }))
}

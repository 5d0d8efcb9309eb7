//! The numbers of update words, places and bases, and the names in them, as parts have them.
ghost use Rattle.std.specs.Prelude.{◌≡◌, ◌<◌};
ghost use Rattle.ellen.specs.Parts.{word_number, word_record, above_number, above_node, above_record};
ghost use Rattle.ellen.specs.Parts.{help_number, help_side, help_record, help_node, base_number};

use crate::memory::UpdateWord;
use crate::place::{Above, Base, HelpLoc};
use tree_machine::Side;

/// The number of the kind of an update word, and the record that it names.
pub(crate) fn word_parts(word: UpdateWord) -> (u8, Option<u16>)
    ensures parts { result ≡ (word_number word, word_record word) }
    ensures small { result.0 < 5 }
{
    match word {
        UpdateWord::Untouched => (0, None),
        UpdateWord::Clean(number) => (1, Some(number)),
        UpdateWord::InsertFlag(number) => (2, Some(number)),
        UpdateWord::DeleteFlag(number) => (3, Some(number)),
        UpdateWord::Mark(number) => (4, Some(number)),
    }
}

/// The grandparent, if there is one, behind one more than the number of its update word's kind, and before the record
/// that this names.
pub(crate) fn above_parts(above: Option<Above>) -> (u8, Option<u16>, Option<u16>)
    ensures { result ≡ (above_number above, above_node above, above_record above) }
{
    match above {
        None => (0, None, None),
        Some(above) => {
            let (kind, record) = word_parts(above.update);
            (kind + 1, Some(above.node), record)
        }
    }
}

/// The number of the kind of a help place, that of its side, the node that it holds beside its record, and the record.
pub(crate) fn help_parts(at: HelpLoc) -> (u8, u8, Option<u16>, u16)
    ensures { result ≡ (help_number at, help_side at, help_node at, help_record at) }
{
    match at {
        HelpLoc::InsChild(record) => (0, 0, None, record),
        HelpLoc::InsClean(record) => (1, 0, None, record),
        HelpLoc::Mark(record) => (2, 0, None, record),
        HelpLoc::Right(record) => (3, 0, None, record),
        HelpLoc::Other {
            record,
            side: Side::Left,
        } => (4, 1, None, record),
        HelpLoc::Other {
            record,
            side: Side::Right,
        } => (4, 2, None, record),
        HelpLoc::Splice { record, other } => (5, 0, Some(other), record),
        HelpLoc::DelClean(record) => (6, 0, None, record),
        HelpLoc::Back(record) => (7, 0, None, record),
    }
}

/// The number of what is done behind the backtracks.
pub(crate) fn base_number(base: Base) -> u8
    ensures { result ≡ base_number base }
{
    match base {
        Base::Again => 0,
        Base::Insert => 1,
        Base::Delete => 2,
    }
}

//! How many rows are marked each way.
ghost use Rattle.std.specs.Prelude.{◌≡◌, count_by};
ghost use Rattle.indexmap.specs.IndexMap.{values};
ghost use Rattle.book.specs.Entries.{is_open, is_taken, is_expanded};

use crate::entry::Row;
use crate::label::Label;
use indexmap::IndexMap;

/// The number of open rows.
pub(crate) fn open_rows<S>(slots: &IndexMap<Label, Row<S>>) -> usize
    ensures { result ≡ count_by (λ row. is_open row.mark) (values slots.now) }
{
    slots.values().filter(|row| row.is_open()).count()
}

/// The number of taken rows.
pub(crate) fn taken_rows<S>(slots: &IndexMap<Label, Row<S>>) -> usize
    ensures { result ≡ count_by (λ row. is_taken row.mark) (values slots.now) }
{
    slots.values().filter(|row| row.is_taken()).count()
}

/// The number of expanded rows.
pub(crate) fn expanded_rows<S>(slots: &IndexMap<Label, Row<S>>) -> usize
    ensures { result ≡ count_by (λ row. is_expanded row.mark) (values slots.now) }
{
    slots.values().filter(|row| row.is_expanded()).count()
}

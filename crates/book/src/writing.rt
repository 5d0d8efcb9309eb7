//! The text of a table's entries.
ghost use Rattle.std.specs.Prelude.{◌≡◌, ◌≤◌, [], ◌∷◌, ◌++◌, length, IfOk, OnOk};
ghost use Rattle.replay.specs.declared.file.line.BookLine.{BookLine};
ghost use Rattle.replay.specs.Text.Files.{ended};
ghost use Rattle.replay.specs.Text.Written.{line_text, IsProper};
ghost use Rattle.book.specs.BookFile.Writing.{IsLineOf};
ghost use Rattle.book.specs.BookFile.Written.{AreWritable, IsFileOf};

use crate::entry::Row;
use crate::table::Table;
use replay::{Finding, push_head, push_line, push_start};
use sched_program::OutOfMemory;
use std::alloc::Global;

/// Adds the line of an entry after the first, by its row.
fn push_row<S>(text: &mut Vec<u8>, row: &Row<S>) -> Result<(), OutOfMemory>
    requires { (line : BookLine) × IsLineOf row.now.origin row.now.finding line × IsProper line }
    ensures { OnOk result ((line : BookLine) × IsLineOf row.now.origin row.now.finding line × IsProper line
        × (text.new.items ≡ text.old.items ++ ended (line_text line.parent line.thread line.order ∷ []))) }
{
    let Some(origin) = row.origin() else {
        unreachable!();
    };
    let Finding::Sound(order) = row.finding() else {
        unreachable!();
    };
    push_line(text, origin.parent, origin.thread, order.as_slice())?;
    Ok(())
}

/// The text of the entries.
pub fn write_entries<S>(alloc: Global, table: &Table<S>) -> Result<Vec<u8>, OutOfMemory>
    requires some { 1 ≤ length table.now.entries }
    requires bounded { length table.now.entries ≤ 2000000 }
    requires writable { AreWritable table.now.entries }
    ensures { IfOk result (λ text. IsFileOf table.now.entries text.items) }
{
    let mut text = Vec::new(alloc);
    push_head(&mut text, table.len())?;
    push_start(&mut text)?;
    for index in 1..table.len() {
        let Some(row) = table.row(index) else {
            unreachable!();
        };
        push_row(&mut text, row)?;
    }
    Ok(text)
}

//! The rows of the table at which an operation cuts a flagged leaf off, its own or that of a delete which it helps.
ghost use Rattle.std.specs.Prelude.{◌≡◌};
ghost use Rattle.natmit.specs.declared.place.NatMitLoc.TheVariants as place;
ghost use Rattle.natmit.specs.Table.{act, other_side, tagging, clean_read, swung};

use crate::machine::NatMit;
use crate::memory::{NatMitMem, Word, is_plain, untagged, word_on};
use crate::place::{Mode, NatMitLoc, Path};
use crate::searching::{Next, side_at};
use sched_program::Op;
use tree_machine::{Outcome, Side};

fn other_side(side: Side) -> Side
    ensures { result ≡ other_side side }
{
    match side {
        Side::Left => Side::Right,
        Side::Right => Side::Left,
    }
}

/// Where the cleanup goes once it knows the side of the sibling: to the tag, or past it in the variant.
fn tagging(machine: NatMit, path: Path, side: Side, mode: Mode) -> NatMitLoc
    ensures { result ≡ tagging machine path side mode }
{
    if machine.tag {
        NatMitLoc::Tag { path, side, mode }
    } else {
        NatMitLoc::Sibling { path, side, mode }
    }
}

/// Where the cleanup goes from this word of the parent, on the side of the key.
fn clean_read(machine: NatMit, path: Path, side: Side, mode: Mode, word: Word) -> Next
    ensures { result ≡ clean_read machine path side mode word }
{
    if word.flag {
        Outcome::Goes(tagging(machine, path, other_side(side), mode))
    } else {
        Outcome::Goes(tagging(machine, path, side, mode))
    }
}

/// Where the cleanup goes once it has cut off the parent.
fn swung(mode: Mode) -> Next
    ensures { result ≡ swung mode }
{
    match mode {
        Mode::Plain => Outcome::Goes(NatMitLoc::Begin { mode }),
        Mode::Owner(_) => Outcome::Replies(true),
    }
}

// ---- the rows of the table

impl NatMit {
    /// Of the two children of the parent the one that is not flagged stays.
    pub(crate) fn clean_read_row(self, op: Op, mem: &NatMitMem, path: Path, mode: Mode) -> Next
        ensures { act self op (place.CleanRead path mode) mem.now ≡ (mem.now, result) }
    {
        let side = side_at(op, mem, path.parent);
        match word_on(side, mem.node(path.parent)) {
            Some(word) => clean_read(self, path, side, mode, word),
            None => Outcome::Astray,
        }
    }

    /// The word of the sibling is tagged, so that no exchange changes it from here on.
    pub(crate) fn tag_row(
        self,
        op: Op,
        mem: &mut NatMitMem,
        path: Path,
        side: Side,
        mode: Mode,
    ) -> Next
        ensures { act self op (place.Tag path side mode) mem.old ≡ (mem.new, result) }
    {
        let Some(word) = word_on(side, mem.node(path.parent)) else {
            return Outcome::Astray;
        };
        let tagged = Word { tag: true, ..word };
        mem.set_word(path.parent, side, tagged);
        Outcome::Goes(NatMitLoc::Sibling { path, side, mode })
    }

    /// The sibling may itself be flagged, and the flag goes up with it.
    pub(crate) fn sibling_row(
        self,
        op: Op,
        mem: &NatMitMem,
        path: Path,
        side: Side,
        mode: Mode,
    ) -> Next
        ensures { act self op (place.Sibling path side mode) mem.now ≡ (mem.now, result) }
    {
        match word_on(side, mem.node(path.parent)) {
            Some(word) => Outcome::Goes(NatMitLoc::Swing {
                ancestor: path.ancestor,
                successor: path.successor,
                flag: word.flag,
                node: word.node,
                mode,
            }),
            None => Outcome::Astray,
        }
    }

    /// The word of the ancestor then points to the sibling, and all between them is cut off.
    pub(crate) fn swing_row(
        self,
        op: Op,
        mem: &mut NatMitMem,
        ancestor: u16,
        successor: u16,
        sibling: Word,
        mode: Mode,
    ) -> Next
        ensures { act self op (place.Swing ancestor successor sibling.flag sibling.node mode) mem.old
            ≡ (mem.new, result) }
    {
        let side = side_at(op, mem, ancestor);
        let Some(word) = word_on(side, mem.node(ancestor)) else {
            return Outcome::Astray;
        };
        if is_plain(successor, word) {
            mem.set_word(ancestor, side, untagged(sibling.flag, sibling.node));
            swung(mode)
        } else {
            Outcome::Goes(NatMitLoc::Begin { mode })
        }
    }
}

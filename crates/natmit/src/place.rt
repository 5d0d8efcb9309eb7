//! The place of an operation: its next access to the memory, and its locals.
ghost use Rattle.std.specs.Prelude.{◌≡◌};
ghost use Rattle.natmit.specs.Table.{path_of};

use tree_machine::Side;

/// What a delete has done so far.
#[derive(Clone, Copy, PartialEq, Eq, Hash)]
pub enum Mode {
    /// It has flagged no leaf.
    Plain,
    /// It flagged this leaf, and has still to cut it off.
    Owner(u16),
}

/// The nodes above the one that a search has reached.
#[derive(Clone, Copy, PartialEq, Eq, Hash)]
pub struct Path {
    /// The node of the last word above the parent that was read untagged.
    pub ancestor: u16,
    /// The child to which that word led.
    pub successor: u16,
    /// The parent.
    pub parent: u16,
}

impl Path {
    /// The path of these nodes.
    pub(crate) fn of(ancestor: u16, successor: u16, parent: u16) -> Path
        ensures { result ≡ path_of ancestor successor parent }
    {
        Path {
            ancestor,
            successor,
            parent,
        }
    }
}

/// A place of the machine. A leaf is the parent's child, which is a leaf where the search has ended.
#[derive(Clone, Copy, PartialEq, Eq, Hash)]
pub enum NatMitLoc {
    /// The search reads the word from which it begins.
    Begin {
        mode: Mode,
    },
    /// The search goes down, from the word of the parent, whose tag it read.
    Down {
        path: Path,
        leaf: u16,
        tag: bool,
        mode: Mode,
    },
    /// An insert replaces the leaf by a new internal node.
    Put {
        path: Path,
        leaf: u16,
    },
    /// A delete flags its leaf.
    Flag {
        path: Path,
        leaf: u16,
    },
    /// An insert or delete whose exchange failed checks whether another delete is in its way.
    Look {
        path: Path,
        leaf: u16,
    },
    /// The cleanup reads on which side of the parent the leaf to remove is.
    CleanRead {
        path: Path,
        mode: Mode,
    },
    /// The cleanup tags the word of the sibling, which stays.
    Tag {
        path: Path,
        side: Side,
        mode: Mode,
    },
    /// The cleanup reads the word of the sibling.
    Sibling {
        path: Path,
        side: Side,
        mode: Mode,
    },
    /// The cleanup replaces the successor by the sibling, with its flag.
    Swing {
        ancestor: u16,
        successor: u16,
        flag: bool,
        node: u16,
        mode: Mode,
    },
}

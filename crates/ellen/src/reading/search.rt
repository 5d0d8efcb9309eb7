//! Places of a search read back from their bytes, where each number is one byte. The first byte of a place says how
//! much it is, and the second what kind of place.
ghost use Rattle.std.specs.Prelude.{◌∷◌, IfSome};
ghost use Rattle.ellen.specs.Parts.{IsSearchCode};

use crate::place::{Above, SearchLoc};
use crate::reading::words::{above_of, name_of, word_of};

/// Reads the rest of the place at which a search reads an update word, and returns the bytes behind it.
#[inline(always)]
fn read_update(bytes: &[u8]) -> Option<(SearchLoc, &[u8])>
    ensures { IfSome result (λ read. IsSearchCode (102 ∷ 0 ∷ bytes.now) read.0 read.1.now) }
{
    let [kind, node, parent, named, rest @ ..] = bytes else {
        return None;
    };
    let above = above_of(*kind, *node, *named)?;
    let parent = name_of(*parent)?;
    Some((SearchLoc::Update { above, parent }, rest))
}

/// Reads the rest of the place at which a search reads a child, and returns the bytes behind it.
#[inline(always)]
fn read_child(bytes: &[u8]) -> Option<(SearchLoc, &[u8])>
    ensures { IfSome result (λ read. IsSearchCode (133 ∷ 1 ∷ bytes.now) read.0 read.1.now) }
{
    let [kind, word, node, parent, named, last, rest @ ..] = bytes else {
        return None;
    };
    let above = above_of(*kind, *node, *named)?;
    let update = word_of(*word, *last)?;
    let parent = name_of(*parent)?;
    let at = SearchLoc::Child {
        above,
        parent,
        update,
    };
    Some((at, rest))
}

/// Reads the rest of the place at which an insert flags the parent, and returns the bytes behind it.
#[inline(always)]
fn read_insert_flag(bytes: &[u8]) -> Option<(SearchLoc, &[u8])>
    ensures { IfSome result (λ read. IsSearchCode (102 ∷ 2 ∷ bytes.now) read.0 read.1.now) }
{
    let [word, parent, leaf, named, rest @ ..] = bytes else {
        return None;
    };
    let at = SearchLoc::IFlag {
        parent: name_of(*parent)?,
        update: word_of(*word, *named)?,
        leaf: name_of(*leaf)?,
    };
    Some((at, rest))
}

/// Reads the rest of the place at which an insert writes a child without a flag, and returns the bytes behind it.
#[inline(always)]
fn read_insert_only(bytes: &[u8]) -> Option<(SearchLoc, &[u8])>
    ensures { IfSome result (λ read. IsSearchCode (71 ∷ 3 ∷ bytes.now) read.0 read.1.now) }
{
    let [parent, leaf, rest @ ..] = bytes else {
        return None;
    };
    let at = SearchLoc::InsOnly {
        parent: name_of(*parent)?,
        leaf: name_of(*leaf)?,
    };
    Some((at, rest))
}

/// Reads the rest of the place at which a delete flags the grandparent, and returns the bytes behind it.
#[inline(always)]
fn read_delete_flag(bytes: &[u8]) -> Option<(SearchLoc, &[u8])>
    ensures { IfSome result (λ read. IsSearchCode (168 ∷ 4 ∷ bytes.now) read.0 read.1.now) }
{
    let [kind, word, node, parent, leaf, named, last, rest @ ..] = bytes else {
        return None;
    };
    let above = Above {
        node: name_of(*node)?,
        update: word_of(*kind, *named)?,
    };
    let at = SearchLoc::DFlag {
        above,
        parent: name_of(*parent)?,
        update: word_of(*word, *last)?,
        leaf: name_of(*leaf)?,
    };
    Some((at, rest))
}

/// Reads the rest of a place of a search behind its first two bytes, and returns the bytes behind it.
#[inline(always)]
pub(crate) fn read_search(head: u8, kind: u8, bytes: &[u8]) -> Option<(SearchLoc, &[u8])>
    ensures { IfSome result (λ read. IsSearchCode (head ∷ kind ∷ bytes.now) read.0 read.1.now) }
{
    match (head, kind) {
        (102, 0) => read_update(bytes),
        (133, 1) => read_child(bytes),
        (102, 2) => read_insert_flag(bytes),
        (71, 3) => read_insert_only(bytes),
        (168, 4) => read_delete_flag(bytes),
        _ => None,
    }
}

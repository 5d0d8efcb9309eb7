//! The places that threads hold, read back from their bytes.
ghost use Rattle.std.specs.Prelude.{◌≡◌, ◌<◌, ◌++◌, ◌∷◌, [], Some, IfSome};
ghost use Rattle.std.specs.List.{flat_map};
ghost use Rattle.tree_machine.specs.Alike.{replies_of, notes_of};
ghost use Rattle.tree_machine.specs.Flat.{cell_code, number_code, part_content, reference_number};
ghost use Rattle.natmit.specs.Parts.{side_number, owned, path_part, place_part, held_part};

use crate::place::{Mode, NatMitLoc, Path};
use crate::reading::bytes::{name_of, reference_of};
use tree_machine::{Side, Thread, read_byte};

/// The mode of an operation that has flagged this leaf, or none.
#[inline(always)]
fn mode_of(leaf: Option<u16>) -> Mode
    ensures { owned result ≡ leaf }
{
    match leaf {
        None => Mode::Plain,
        Some(leaf) => Mode::Owner(leaf),
    }
}

/// The side of this number.
#[inline(always)]
fn side_of_number(number: u8) -> Side
    requires { number < 2 }
    ensures { side_number result ≡ number }
{
    if number == 0 { Side::Left } else { Side::Right }
}

/// The path of the nodes to which these bytes are references, if they are.
#[inline(always)]
fn path_named(ancestor: u8, successor: u8, parent: u8) -> Option<Path>
    ensures { IfSome result (λ path. (number_code (reference_number (Some path.ancestor)) ≡ ancestor ∷ [])
        × (number_code (reference_number (Some path.successor)) ≡ successor ∷ [])
        × (number_code (reference_number (Some path.parent)) ≡ parent ∷ [])) }
{
    Some(Path {
        ancestor: name_of(ancestor)?,
        successor: name_of(successor)?,
        parent: name_of(parent)?,
    })
}

/// Reads the place from which a search begins, behind its first byte.
#[inline(always)]
fn read_begin(bytes: &[u8]) -> Option<(NatMitLoc, &[u8])>
    ensures { IfSome result (λ (place, rest). 36 ∷ bytes.now
        ≡ cell_code (part_content (place_part place)) ++ rest.now) }
{
    match bytes {
        [1, leaf, rest @ ..] => {
            let mode = mode_of(reference_of(*leaf)?);
            Some((NatMitLoc::Begin { mode }, rest))
        }
        _ => None,
    }
}

/// Reads the place from which a search goes down, behind its first byte.
#[inline(always)]
fn read_down(bytes: &[u8]) -> Option<(NatMitLoc, &[u8])>
    ensures { IfSome result (λ (place, rest). 177 ∷ bytes.now
        ≡ cell_code (part_content (place_part place)) ++ rest.now) }
{
    let [
        2,
        tag @ 0..=1,
        ancestor,
        successor,
        parent,
        leaf,
        last,
        rest @ ..,
    ] = bytes
    else {
        return None;
    };
    let place = NatMitLoc::Down {
        path: path_named(*ancestor, *successor, *parent)?,
        leaf: name_of(*leaf)?,
        tag: *tag == 1,
        mode: mode_of(reference_of(*last)?),
    };
    Some((place, rest))
}

/// The place of this kind that holds a path, one more reference and no other locals, if there is one.
#[inline(always)]
fn place_of_path(kind: u8, path: Path, last: Option<u16>) -> Option<NatMitLoc>
    ensures { IfSome result (λ place. place_part place ≡ path_part (kind ∷ []) path (last ∷ [])) }
{
    match (kind, last) {
        (3, Some(leaf)) => Some(NatMitLoc::Put { path, leaf }),
        (4, Some(leaf)) => Some(NatMitLoc::Flag { path, leaf }),
        (5, Some(leaf)) => Some(NatMitLoc::Look { path, leaf }),
        (6, last) => {
            let mode = mode_of(last);
            Some(NatMitLoc::CleanRead { path, mode })
        }
        _ => None,
    }
}

/// Reads a place that holds a path, one more reference and no other locals, behind its first byte.
#[inline(always)]
fn read_path(bytes: &[u8]) -> Option<(NatMitLoc, &[u8])>
    ensures { IfSome result (λ (place, rest). 141 ∷ bytes.now
        ≡ cell_code (part_content (place_part place)) ++ rest.now) }
{
    let [kind @ 3..=6, ancestor, successor, parent, last, rest @ ..] = bytes else {
        return None;
    };
    let path = path_named(*ancestor, *successor, *parent)?;
    let place = place_of_path(*kind, path, reference_of(*last)?)?;
    Some((place, rest))
}

/// The place of this kind that holds one fact, three nodes and a mode, if there is one. The nodes come as a path: the
/// third one of a swing is no parent, but stands where a path has its parent.
#[inline(always)]
fn place_with_fact(kind: u8, fact: u8, path: Path, mode: Mode) -> Option<NatMitLoc>
    requires { fact < 2 }
    ensures { IfSome result (λ place. place_part place ≡ path_part (kind ∷ fact ∷ []) path (owned mode ∷ [])) }
{
    match kind {
        7 => {
            let side = side_of_number(fact);
            Some(NatMitLoc::Tag { path, side, mode })
        }
        8 => {
            let side = side_of_number(fact);
            Some(NatMitLoc::Sibling { path, side, mode })
        }
        9 => Some(NatMitLoc::Swing {
            ancestor: path.ancestor,
            successor: path.successor,
            flag: fact == 1,
            node: path.parent,
            mode,
        }),
        _ => None,
    }
}

/// Reads a place that holds one fact, three nodes and a mode, behind its first byte.
#[inline(always)]
fn read_with_fact(bytes: &[u8]) -> Option<(NatMitLoc, &[u8])>
    ensures { IfSome result (λ (place, rest). 142 ∷ bytes.now
        ≡ cell_code (part_content (place_part place)) ++ rest.now) }
{
    let [
        kind @ 7..=9,
        fact @ 0..=1,
        ancestor,
        successor,
        node,
        last,
        rest @ ..,
    ] = bytes
    else {
        return None;
    };
    let path = path_named(*ancestor, *successor, *node)?;
    let mode = mode_of(reference_of(*last)?);
    let place = place_with_fact(*kind, *fact, path, mode)?;
    Some((place, rest))
}

/// Reads a place, which has this first byte.
#[inline(always)]
fn read_place(head: u8, bytes: &[u8]) -> Option<(NatMitLoc, &[u8])>
    ensures { IfSome result (λ (place, rest). head ∷ bytes.now
        ≡ cell_code (part_content (place_part place)) ++ rest.now) }
{
    match head {
        36 => read_begin(bytes),
        141 => read_path(bytes),
        142 => read_with_fact(bytes),
        177 => read_down(bytes),
        _ => None,
    }
}

/// Reads what a thread holds: a place, or nothing between operations.
#[inline(always)]
fn read_held(bytes: &[u8]) -> Option<(Option<NatMitLoc>, &[u8])>
    ensures { IfSome result (λ (held, rest). bytes.now ≡ cell_code (part_content (held_part held)) ++ rest.now) }
{
    let (head, rest) = read_byte(bytes)?;
    if head == 0 {
        Some((None, rest))
    } else {
        let (place, rest) = read_place(head, rest)?;
        Some((Some(place), rest))
    }
}

/// Reads what each thread holds, and returns the bytes behind it.
pub(crate) fn read_places<'a>(
    bytes: &'a [u8],
    threads: &mut [Thread<NatMitLoc>],
) -> Option<&'a [u8]>
    ensures read { IfSome result (λ rest. bytes.now
        ≡ flat_map (λ thread. cell_code (part_content (held_part thread.place))) threads.new ++ rest.now) }
    ensures replies { replies_of threads.new ≡ replies_of threads.old }
    ensures notes { notes_of threads.new ≡ notes_of threads.old }
{
    let mut rest = bytes;
    for thread in threads.iter_mut() {
        let (held, behind) = read_held(rest)?;
        thread.place = held;
        rest = behind;
    }
    Some(rest)
}

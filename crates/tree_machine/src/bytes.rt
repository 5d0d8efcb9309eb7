//! Bytes that are hashed eight by eight.
ghost use Rattle.std.specs.Prelude.{◌≡◌, ◌++◌, ◌∷◌, [], length, nat_eq, IfOk};
ghost use Rattle.std.specs.Cmp.{partial_equiv_from_equiv};
ghost use Rattle.std.specs.Cmp.Lexicographic.{pointwise, lists_equiv};
ghost use Rattle.tree_machine.specs.Laws.CellOrder.{nat_equivalence};
ghost use Rattle.tree_machine.specs.ByteLists.{bytes_input};
ghost use Rattle.tree_machine.specs.Laws.ByteLists.{bytes_fed};

use sched_program::OutOfMemory;
use std::hash::{Hash, Hasher};
use std::marker::Model;

/// A list of bytes, over a `Vec`, which contracts see as the list itself. It is hashed eight bytes at a time: a write
/// whose length is known to be eight takes a few instructions, and one write of all bytes would put numbers together
/// byte by byte.
#[derive(Drop)]
pub struct Bytes {
    items: Vec<u8>,
}

impl Model for Bytes {
    ghost use Rattle.std.specs.Prelude.{List, ℕ};

    ghost Value = { List ℕ };

    ghost view = { λ b. b.items.items };
}

impl Bytes {
    /// The list of a `Vec`'s bytes. It allocates nothing.
    pub fn from_vec(items: Vec<u8>) -> Self
        ensures { result ≡ items.items }
    {
        Bytes { items }
    }

    /// Copies bytes into the buffer of `spare`, if that is large enough. Otherwise it allocates a new buffer, of just
    /// their length. It does not grow `spare`: that would copy what `spare` holds, and would wait for the thread that
    /// allocated it while that thread allocates too.
    #[inline(always)]
    pub fn copied_in(bytes: &[u8], mut spare: Vec<u8>) -> Result<Self, OutOfMemory>
        ensures { IfOk result (λ copy. copy ≡ bytes.now) }
    {
        if spare.capacity() < bytes.len() {
            spare = Vec::new(*spare.allocator());
        }
        spare.clear();
        spare.reserve_exact(bytes.len())?;
        spare.extend_from_slice(bytes)?;
        Ok(Bytes { items: spare })
    }

    /// The list, for a caller that needs its buffer. It allocates nothing.
    pub fn into_vec(self) -> Vec<u8>
        ensures { result.items ≡ self }
    {
        let Bytes { items } = self;
        items
    }

    /// The bytes.
    pub fn as_slice(&self) -> &[u8]
        ensures { result.now ≡ self.now }
    {
        self.items.as_slice()
    }
}

impl PartialEq for Bytes {
    ghost eq = { pointwise nat_eq };

    ghost laws = { partial_equiv_from_equiv (lists_equiv nat_equivalence) };

    fn eq(&self, other: &Bytes) -> bool {
        self.items == other.items
    }
}

impl Eq for Bytes {
    ghost laws = { lists_equiv nat_equivalence };
}

impl Hash for Bytes {
    ghost hash_input = { bytes_input };

    ghost respects_eq = { bytes_fed };

    fn hash<H: Hasher>(&self, state: &mut H) {
        let (eights, rest) = self.items.as_slice().as_chunks::<8>();
        for eight in eights {
            state.write(eight);
        }
        state.write(rest);
    }
}

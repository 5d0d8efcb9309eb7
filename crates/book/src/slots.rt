//! Values under keys that are new.
ghost use Rattle.std.specs.Prelude.{◌≡◌, ◌+◌, ◌++◌, ◌∷◌, [], if◌then◌else◌, is_some, length, IfOk, OnOk, OnErr};
ghost use Rattle.std.specs.List.{list_any};
ghost use Rattle.indexmap.specs.IndexMap.{keys};

use indexmap::IndexMap;
use std::alloc::AllocError;
use std::hash::Hash;

/// Inserts a value if its key is new. Otherwise it returns the key.
#[inline(always)]
pub fn put_new<K: Eq + Hash + Drop, V: Drop>(
    slots: &mut IndexMap<K, V>,
    key: K,
    value: V,
) -> Result<Option<K>, AllocError>
    ensures put { OnOk result (slots.new.entries
        ≡ slots.old.entries ++ (if list_any (K.eq key) (keys slots.old) then [] else (key, value) ∷ [])) }
    ensures len { IfOk result (λ known. length slots.new.entries
        ≡ length slots.old.entries + (if is_some known then 0 else 1)) }
    ensures err { OnErr result (slots.new.entries ≡ slots.old.entries) }
{
    if slots.contains_key(&key) {
        return Ok(Some(key));
    }
    slots.insert(key, value)?;
    Ok(None)
}

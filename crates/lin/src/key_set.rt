//! Sets of keys.

ghost use Rattle.std.specs.Prelude.{◌≡◌, ◌<◌, All};
ghost use Rattle.sched_program.specs.Program.{key_of};
ghost use Rattle.lin.specs.Keys.{no_keys, with_key, without_key, keys_of, reply_on, keys_after};

use sched_program::Op;

/// A set of keys below 128.
#[derive(Clone, Copy, PartialEq, Eq, Hash)]
pub struct KeySet {
    bits: u128,
}

impl KeySet {
    ghost use Rattle.lin.specs.KeySet.{keys_in};

    /// No key.
    pub fn empty() -> Self
        ensures { keys_in result ≡ no_keys }
    {
        KeySet { bits: 0 }
    }

    /// Whether the key is in this set.
    pub fn contains(&self, key: u8) -> bool
        requires { key < 128 }
        ensures { result ≡ keys_in self.now key }
    {
        (self.bits >> key) & 1 == 1
    }

    /// This set with the key.
    pub fn with(self, key: u8) -> Self
        requires { key < 128 }
        ensures { keys_in result ≡ with_key (keys_in self) key }
    {
        KeySet {
            bits: self.bits | 1 << key,
        }
    }

    /// This set without the key.
    pub fn without(self, key: u8) -> Self
        requires { key < 128 }
        ensures { keys_in result ≡ without_key (keys_in self) key }
    {
        KeySet {
            bits: self.bits & !(1 << key),
        }
    }

    /// The set of the keys of the list.
    pub fn of(keys: &[u8]) -> Self
        requires { All (λ key. key < 128) keys.now }
        ensures { keys_in result ≡ keys_of keys.now }
    {
        let mut set = KeySet::empty();
        for key in keys {
            set = set.with(*key);
        }
        set
    }

    /// What the operation replies on this set.
    pub fn reply_to(&self, operation: Op) -> bool
        requires { key_of operation < 128 }
        ensures { result ≡ reply_on operation (keys_in self.now) }
    {
        match operation {
            Op::Insert(key) => !self.contains(key),
            Op::Delete(key) | Op::Find(key) => self.contains(key),
        }
    }

    /// The set that the operation leaves.
    pub fn after(self, operation: Op) -> Self
        requires { key_of operation < 128 }
        ensures { keys_in result ≡ keys_after operation (keys_in self) }
    {
        match operation {
            Op::Insert(key) => self.with(key),
            Op::Delete(key) => self.without(key),
            Op::Find(_) => self,
        }
    }
}

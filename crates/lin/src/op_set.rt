//! Sets of operations.

ghost use Rattle.std.specs.Prelude.{◌≡◌, ◌<◌, ◌||◌, ◌&&◌, ◌==◌, ◌↔◌, IsTrue, true, nat_lt, []};
ghost use Rattle.sched_program.specs.declared.operation.OpId.{OpId as Name};
ghost use Rattle.lin.specs.Completion.{listed_in, with_name};

use sched_program::OpId;

/// A set of operations of at most four threads with at most eight operations each: a bit for each.
#[derive(Clone, Copy, PartialEq, Eq, Hash)]
pub struct OpSet {
    bits: u32,
}

impl OpSet {
    ghost use Rattle.lin.specs.OpSet.{operations_in};

    /// No operation.
    pub fn empty() -> Self
        ensures { operations_in result ≡ listed_in [] }
    {
        OpSet { bits: 0 }
    }

    /// The first operations of a thread.
    pub fn first(thread: u8, count: u8) -> Self
        requires { thread < 4 }
        ensures { operations_in result ≡ (λ a. nat_lt a.index 8 && (a.thread == thread && nat_lt a.index count)) }
    {
        OpSet {
            bits: ((1 << count.min(8)) - 1) << (8 * thread),
        }
    }

    /// Whether the operation is in this set.
    pub fn contains(self, name: OpId) -> bool
        requires thread { name.thread < 4 }
        requires index { name.index < 8 }
        ensures { result ≡ operations_in self name }
    {
        (self.bits >> (8 * name.thread + name.index)) & 1 == 1
    }

    /// This set with the operation.
    pub fn with(self, name: OpId) -> Self
        requires thread { name.thread < 4 }
        requires index { name.index < 8 }
        ensures { operations_in result ≡ with_name (operations_in self) name }
    {
        OpSet {
            bits: self.bits | 1 << (8 * name.thread + name.index),
        }
    }

    /// The operations of this set and of another one.
    pub fn union(self, other: OpSet) -> Self
        ensures { operations_in result ≡ (λ a. operations_in self a || operations_in other a) }
    {
        OpSet {
            bits: self.bits | other.bits,
        }
    }

    /// The operations of this set that are in another one too.
    pub fn intersection(self, other: OpSet) -> Self
        ensures { operations_in result ≡ (λ a. operations_in self a && operations_in other a) }
    {
        OpSet {
            bits: self.bits & other.bits,
        }
    }

    /// Whether each operation of this set is in another one too.
    #[tactic(auto, using(crate::proofs::Bits::within_bits))]
    pub fn is_within(self, other: OpSet) -> bool
        ensures { IsTrue result ↔ ((a : Name) → operations_in self a ≡ true → operations_in other a ≡ true) }
    {
        self.bits | other.bits == other.bits
    }
}

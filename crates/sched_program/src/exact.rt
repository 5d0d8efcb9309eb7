//! Values that are one and the same where they compare as equal.
ghost use Rattle.std.specs.Prelude.{◌≡◌, ◌↔◌, IsTrue};
ghost use Rattle.sched_program.specs.Laws.Operations.{op_exact, tree_exact, turn_exact};
ghost use Rattle.sched_program.specs.Exact.{IsExact};
ghost use Rattle.sched_program.specs.Laws.Exact.{nat_exact, option_exact, list_exact};

use crate::operation::{Op, Tree, Turn};
use crate::sequence::Sequence;

/// A type whose `==` holds of equal values alone.
pub trait Exact: Eq {
    /// Values that compare as equal are one and the same.
    ghost exact: { IsExact Self.eq };
}

impl Exact for u8 {
    ghost exact = { nat_exact };
}

impl<T: Exact> Exact for Option<T> {
    ghost exact = { option_exact T.exact };
}

impl<T: Exact> Exact for Sequence<T> {
    ghost exact = { list_exact T.exact };
}

impl Exact for Op {
    ghost exact = { op_exact };
}

impl Exact for Tree {
    ghost exact = { tree_exact };
}

impl Exact for Turn {
    ghost exact = { turn_exact };
}

/// Whether two values are one and the same.
pub fn same<T: Exact>(a: &T, b: &T) -> bool
    ensures { IsTrue result ↔ (a.now ≡ b.now) }
{
    *a == *b
}

//! Replies in one byte.
ghost use Rattle.std.specs.Prelude.{◌≡◌, ◌≤◌, ◌<◌, ◌*◌, ◌^◌, ◌++◌, ◌∷◌, [], if◌then◌else◌, length, slice_get, IfSome};
ghost use Rattle.std.specs.Cmp.Lexicographic.{pointwise, lists_equiv, lists_per};

use std::marker::Model;

/// The replies of a thread, in order, six at most: the binary digits of a byte below a leading one, the first reply
/// lowest. A thread is copied with each of its steps, and each label holds its replies. Contracts see the list.
#[derive(Clone, Copy)]
pub struct Replies {
    number: u8,
}

impl Model for Replies {
    ghost use Rattle.std.specs.Prelude.{◌<◌, Bool, List};
    ghost use Rattle.tree_machine.specs.Packed.{replies_in, replies_number};
    ghost use Rattle.tree_machine.specs.Laws.Packed.{replies_back};

    ghost Value = { List Bool };

    ghost view = { λ replies. replies_in replies.number };

    ghost invariant = { λ replies. (0 < replies.number) × (replies.number < 128) };

    ghost inverse = { λ replies. record { number = replies_number replies } };

    ghost inverse_ok = { λ a h i. record { number = replies_back a.number h.0 h.1 i } };
}

/// What a reply adds to the number of the `count` replies before it: its digit, and the leading one moves up.
#[inline(always)]
fn added(reply: bool, count: usize) -> u8
    requires { count < 6 }
    ensures { result ≡ (if reply then 2 * 2 ^ count else 2 ^ count) }
{
    if reply { 2 << count } else { 1 << count }
}

impl Replies {
    ghost use Rattle.tree_machine.specs.FormCode.{replies_code};

    /// No reply.
    #[tactic(auto, unfolding(crate::specs::Packed::replies_in))]
    pub fn new() -> Replies
        ensures { result ≡ [] }
    {
        Replies { number: 1 }
    }

    /// The number of replies.
    #[tactic(auto, using(crate::specs::Laws::Packed::power_bounded, crate::specs::Laws::Packed::replies_length))]
    pub fn len(&self) -> usize
        ensures value { result ≡ length self.now }
        ensures fits { result ≤ 6 }
    {
        self.number.ilog2() as usize
    }

    /// The reply at an index, if there is one.
    #[tactic(auto, using(crate::proofs::Packed::reply_got))]
    pub fn get(&self, index: usize) -> Option<bool>
        ensures { result ≡ slice_get self.now index }
    {
        if index < self.len() {
            Some((self.number >> index) & 1 == 1)
        } else {
            None
        }
    }

    /// Appends a reply, for which there is room.
    #[tactic(auto, using(crate::specs::Laws::Packed::pushed))]
    pub fn push(&mut self, reply: bool)
        requires { length self.old < 6 }
        ensures { self.new ≡ self.old ++ reply ∷ [] }
    {
        self.number += added(reply, self.len());
    }

    /// The byte that holds the replies in a label.
    #[inline(always)]
    #[tactic(auto, using(crate::proofs::Packed::code_of_replies))]
    pub(crate) fn byte(&self) -> u8
        ensures { replies_code self.now ≡ result ∷ [] }
    {
        self.number
    }

    /// The replies that a byte of a label holds, if it holds any.
    #[inline(always)]
    #[tactic(auto, using(crate::proofs::Packed::code_of_replies))]
    pub(crate) fn of_byte(byte: u8) -> Option<Replies>
        ensures { IfSome result (λ replies. replies_code replies ≡ byte ∷ []) }
    {
        if 0 < byte && byte < 128 {
            Some(Replies { number: byte })
        } else {
            None
        }
    }
}

impl PartialEq for Replies {
    ghost use Rattle.std.specs.Cmp.Lexicographic.{pointwise, lists_per};
    ghost use Rattle.std.specs.Cmp.{bool_eq_equiv, partial_equiv_from_equiv};
    ghost use mathlib.Core.Bool.{beq};

    ghost eq = { pointwise beq };

    ghost laws = { lists_per (partial_equiv_from_equiv bool_eq_equiv) };

    #[tactic(auto, using(crate::proofs::Packed::replies_same))]
    fn eq(&self, other: &Replies) -> bool {
        self.number == other.number
    }
}

impl Eq for Replies {
    ghost use Rattle.std.specs.Cmp.Lexicographic.{lists_equiv};
    ghost use Rattle.std.specs.Cmp.{bool_eq_equiv};

    ghost laws = { lists_equiv bool_eq_equiv };
}

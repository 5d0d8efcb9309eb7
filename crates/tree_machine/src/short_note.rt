//! Notes in two bytes.
ghost use Rattle.std.specs.Prelude.{◌≡◌, ◌<◌, ◌++◌, ◌∷◌, [], length, slice_index, IfSome};

use sched_program::{Blank, Note};
use std::marker::Model;

/// The note of an operation of a program: how many operations each thread had finished when it began. There are four
/// threads at most, each with six operations at most. So three bits hold each count, and three more hold how many
/// counts there are. Contracts see the list of the counts.
#[derive(Clone, Copy)]
pub struct ShortNote {
    number: u16,
}

impl Model for ShortNote {
    ghost use Rattle.std.specs.Prelude.{◌≡◌, ◌<◌, ℕ, List};
    ghost use Rattle.tree_machine.specs.Packed.{counts_in, note_number};

    ghost Value = { List ℕ };

    ghost view = { λ note. counts_in note.number };

    ghost invariant = { λ note. (note.number < 20480) × (note_number (counts_in note.number) ≡ note.number) };

    ghost inverse = { λ counts. record { number = note_number counts } };

    ghost inverse_ok = { λ a h i. record { number = h.1 i } };
}

impl Blank for ShortNote {
    ghost filler = { [] };

    fn blank() -> ShortNote {
        ShortNote::new()
    }
}

impl ShortNote {
    ghost use Rattle.tree_machine.specs.FormCode.{note_code};

    /// No count.
    #[tactic(auto, unfolding(crate::specs::Packed::counts_in))]
    pub fn new() -> ShortNote
        ensures { result ≡ [] }
    {
        ShortNote { number: 0 }
    }

    /// Appends a count, for which there is room.
    #[tactic(auto, using(crate::proofs::Packed::note_push))]
    pub fn push(&mut self, count: u8)
        requires room { length self.old < 4 }
        requires small { count < 8 }
        ensures { self.new ≡ self.old ++ count ∷ [] }
    {
        let place = 3 * (self.number / 4096);
        self.number += 4096 + (u16::from(count) << place);
    }

    /// How many operations a thread had finished: 0 for a thread that the program does not have.
    #[inline(always)]
    #[tactic(auto, using(crate::proofs::Packed::digit_at, crate::proofs::Packed::none_at))]
    pub fn count_of(&self, thread: u8) -> u8
        ensures { result ≡ slice_index self.now thread }
    {
        if thread < 4 {
            ((self.number >> (3 * thread)) % 8) as u8
        } else {
            0
        }
    }

    /// The counts.
    #[tactic(auto, using(crate::proofs::Packed::length_is))]
    pub fn counts(&self) -> Note
        ensures { result ≡ self.now }
    {
        let mut counts = Note::new();
        for thread in 0..(self.number / 4096) as u8 {
            counts.push(self.count_of(thread));
        }
        counts
    }

    /// The two bytes that hold the note in a label.
    #[inline(always)]
    #[tactic(auto, using(crate::proofs::Packed::code_of_number))]
    pub(crate) fn bytes(&self) -> (u8, u8)
        ensures { note_code self.now ≡ result.0 ∷ result.1 ∷ [] }
    {
        ((self.number / 256) as u8, (self.number % 256) as u8)
    }

    /// The note that two bytes of a label hold, if they hold any.
    #[inline(always)]
    #[tactic(auto, using(crate::proofs::Packed::note_read))]
    pub(crate) fn of_bytes(high: u8, low: u8) -> Option<ShortNote>
        ensures { IfSome result (λ note. note_code note ≡ high ∷ low ∷ []) }
    {
        let number = 256 * u16::from(high) + u16::from(low);
        if number < 20480 && (number % 4096) >> (3 * (number / 4096)) == 0 {
            Some(ShortNote { number })
        } else {
            None
        }
    }
}

impl PartialEq for ShortNote {
    ghost use Rattle.std.specs.Prelude.{nat_eq};
    ghost use Rattle.std.specs.Cmp.{nat_eq_equiv, partial_equiv_from_equiv};
    ghost use Rattle.std.specs.Cmp.Lexicographic.{pointwise, lists_per};

    ghost eq = { pointwise nat_eq };

    ghost laws = { lists_per (partial_equiv_from_equiv nat_eq_equiv) };

    #[tactic(auto, using(crate::proofs::Packed::notes_same))]
    fn eq(&self, other: &ShortNote) -> bool {
        self.number == other.number
    }
}

impl Eq for ShortNote {
    ghost use Rattle.std.specs.Cmp.{nat_eq_equiv};
    ghost use Rattle.std.specs.Cmp.Lexicographic.{lists_equiv};

    ghost laws = { lists_equiv nat_eq_equiv };
}

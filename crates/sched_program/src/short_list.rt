//! Lists of a fixed capacity that contracts see as the list itself.
ghost use Rattle.std.specs.Prelude.{◌≡◌, ◌+◌, ◌<◌, ◌≤◌, ◌^◌, ⊤, [], ◌∷◌, ◌++◌, length, slice_get};
ghost use Rattle.std.specs.Cmp.Lexicographic.{pointwise, lists_equiv, lists_per};

use std::alloc::AllocError;
use std::marker::Model;

/// A type with a value for the cells of a list that are not in use.
pub trait Blank: Copy {
    ghost filler: { Self };

    fn blank() -> Self
        ensures { result ≡ filler };
}

impl Blank for u8 {
    ghost filler = { 0 };

    fn blank() -> u8 {
        0
    }
}

impl Blank for bool {
    ghost use Rattle.std.specs.Prelude.{false};

    ghost filler = { false };

    fn blank() -> bool {
        false
    }
}

/// A list of at most `CAP` values, which are stored in the value itself: it takes no memory and is copied as a whole.
///
/// Cells that are not in use are blank, so that equal lists are equal values.
#[derive(Copy)]
pub struct ShortList<T: Blank, const CAP: usize> {
    items: [T; CAP],
    count: u8,
}

impl<T: Blank, const CAP: usize> Model for ShortList<T, CAP> {
    ghost use Rattle.std.specs.Prelude.{◌≡◌, ◌≤◌, ◌-◌, ◌++◌, List, length, take, replicate};

    ghost Value = { List T };

    ghost view = { λ a. take a.count a.items };

    ghost invariant = { λ a. (length (take a.count a.items) ≡ a.count)
        × (a.items ≡ take a.count a.items ++ replicate (CAP - a.count) T.filler) };

    ghost inverse = { λ items.
        record { items = items ++ replicate (CAP - length items) T.filler; count = length items } };
}

impl<T: Blank, const CAP: usize> Clone for ShortList<T, CAP> {
    ghost is_clone = { λ x y. y ≡ x };

    ghost is_infallible = { λ _. ⊤ };

    fn clone(&self) -> Result<ShortList<T, CAP>, AllocError> {
        Ok(*self)
    }
}

impl<T: Blank, const CAP: usize> ShortList<T, CAP> {
    /// The empty list.
    pub fn new() -> Self
        ensures { result ≡ [] }
    {
        ShortList {
            items: [T::blank(); CAP],
            count: 0,
        }
    }

    /// The number of values.
    pub fn len(&self) -> usize
        ensures value { result ≡ length self.now }
        ensures fits { result ≤ CAP }
    {
        self.count as usize
    }

    /// The values in order.
    pub fn as_slice(&self) -> &[T]
        ensures { result.now ≡ self.now }
    {
        &self.items[..self.count as usize]
    }

    /// The value at an index, if there is one.
    pub fn get(&self, index: usize) -> Option<T>
        ensures { result ≡ slice_get self.now index }
    {
        self.as_slice().get(index).copied()
    }

    /// Appends a value, for which there is room.
    pub fn push(&mut self, value: T)
        requires room { length self.old < CAP }
        requires capacity { CAP < 2 ^ 8 }
        ensures { self.new ≡ self.old ++ value ∷ [] }
    {
        self.items[self.count as usize] = value;
        self.count += 1;
    }
}

impl<T: Blank + PartialEq, const CAP: usize> PartialEq for ShortList<T, CAP> {
    ghost eq = { pointwise T.eq };

    ghost laws = { lists_per T.laws };

    fn eq(&self, other: &ShortList<T, CAP>) -> bool {
        self.as_slice() == other.as_slice()
    }
}

impl<T: Blank + Eq, const CAP: usize> Eq for ShortList<T, CAP> {
    ghost laws = { lists_equiv T.Eq.laws };
}

impl<T: Blank, const CAP: usize> Blank for ShortList<T, CAP> {
    ghost filler = { [] };

    fn blank() -> ShortList<T, CAP> {
        ShortList::new()
    }
}

//! An entry, packed.
ghost use Rattle.std.specs.Prelude.{◌≡◌, ◌<◌, IfSome};
ghost use Rattle.replay.specs.Findings.{is_sound};
ghost use Rattle.book.specs.Entries.{is_open, is_taken, is_expanded};

use crate::shown::Shown;
use replay::Finding;
use std::marker::Model;

/// How far an entry is worked on.
#[derive(Clone, Copy, Debug, PartialEq, Eq)]
pub enum Mark {
    /// Not begun.
    Open,
    /// Given out, so that its steps are made.
    Taken,
    /// Its steps are entered.
    Expanded,
}

/// The step that reached an entry: the entry that it was taken from, and the thread that took it.
#[derive(Clone, Copy, Debug, PartialEq, Eq)]
pub struct Origin {
    /// The number of the entry.
    pub parent: usize,
    /// The number of the thread.
    pub thread: u8,
}

/// The parent number that means no parent.
const NO_PARENT: u32 = u32::MAX;

/// What a book keeps of an entry beside its label, in 20 bytes, since there is one for each state. Contracts see the
/// entry, with its state.
#[derive(Drop)]
pub struct Row<S> {
    parent: u32,
    finding: Finding,
    thread: u8,
    mark: Mark,
    shown: Shown<S>,
}

impl<S> Model for Row<S> {
    ghost use Rattle.book.specs.Packed.{origin_of};
    ghost use Rattle.book.specs.Entries.{Entry};

    ghost Value = { Entry S };

    ghost view = { λ r. record {
      state = r.shown.value;
      finding = r.finding;
      origin = origin_of r.parent r.thread;
      mark = r.mark;
    } };
}

impl<S> Row<S> {
    /// An open entry.
    pub fn open(shown: Shown<S>, finding: Finding, origin: Option<Origin>) -> Row<S>
        requires { IfSome origin (λ origin. origin.parent < 4294967295) }
        ensures { result ≡ record {
          state = shown.value;
          finding = finding;
          origin = origin;
          mark = Mark.Open;
        } }
    {
        let (parent, thread) = match origin {
            None => (NO_PARENT, 0),
            Some(origin) => (origin.parent as u32, origin.thread),
        };
        Row {
            parent,
            finding,
            thread,
            mark: Mark::Open,
            shown,
        }
    }

    /// The state, for proofs alone.
    pub fn shown(&self) -> &Shown<S>
        ensures { result.now.value ≡ self.now.state }
    {
        &self.shown
    }

    /// What was found of the state.
    pub fn finding(&self) -> &Finding
        ensures { result.now ≡ self.now.finding }
    {
        &self.finding
    }

    /// The step that reached the entry, if it has one.
    pub fn origin(&self) -> Option<Origin>
        ensures { result ≡ self.now.origin }
    {
        if self.parent == NO_PARENT {
            return None;
        }
        Some(Origin {
            parent: self.parent as usize,
            thread: self.thread,
        })
    }

    /// Marks the entry, and leaves the rest as it is.
    pub fn set_mark(&mut self, mark: Mark)
        ensures { self.new ≡ record self.old { mark = mark } }
    {
        self.mark = mark;
    }

    /// Whether it is not begun.
    pub fn is_open(&self) -> bool
        ensures { result ≡ is_open self.now.mark }
    {
        matches!(self.mark, Mark::Open)
    }

    /// Whether it is given out, and its steps are not entered.
    pub fn is_taken(&self) -> bool
        ensures { result ≡ is_taken self.now.mark }
    {
        matches!(self.mark, Mark::Taken)
    }

    /// Whether its steps are entered.
    pub fn is_expanded(&self) -> bool
        ensures { result ≡ is_expanded self.now.mark }
    {
        matches!(self.mark, Mark::Expanded)
    }

    /// Whether its state shows no fault.
    pub fn is_sound(&self) -> bool
        ensures { result ≡ is_sound self.now.finding }
    {
        self.finding.is_sound()
    }
}

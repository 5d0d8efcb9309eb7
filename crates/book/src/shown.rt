//! Values that only clauses see.
ghost use Rattle.std.specs.Prelude.{◌≡◌, IsSome, Some};
ghost use Rattle.std.specs.Borrow.{ftrue};
ghost use Rattle.tree_machine.specs.Step.{step};

use sched_program::Program;
use std::marker::{Model, PhantomData, Send, Sync};
use tree_machine::{Encode, State};

/// An `S` as clauses see it. It has no bytes and owns nothing: a clause alone ties `value` to what memory holds.
pub struct Shown<S> {
    marker: PhantomData<S>,
    pub ghost value: { S },
}

impl<S> Model for Shown<S> {
    ghost also_owns = { λ _. ftrue };
}

impl<S> Shown<S> {
    /// The value that the caller's proof picks, out of what `x` is.
    pub(crate) fn any<X>(x: &X) -> Shown<S>
        ghost some: { S }
        ensures { result.value ≡ some }
    {
        let _ = x;
        Shown {
            marker: PhantomData,
        }
    }

    /// What a value is now.
    pub fn of(value: &S) -> Shown<S>
        ensures { result.value ≡ value.now }
    {
        Shown::any(value)
    }

    /// Another `Shown` of this value.
    pub fn copy(&self) -> Shown<S>
        ensures { result.value ≡ self.now.value }
    {
        Shown::any(self)
    }
}

// It owns nothing.
unsafe impl<S> Send for Shown<S> {}

unsafe impl<S> Sync for Shown<S> {}

impl<S> Drop for Shown<S> {
    fn drop(self) {
        let Self { marker: _ } = self;
    }
}

/// The state that the step of a thread reaches from a shown state.
pub fn shown_step<M: Encode>(
    machine: M,
    program: &Program,
    source: &Shown<State<M>>,
    thread: u8,
) -> Shown<State<M>>
    requires { IsSome (step (M.rules machine) program.now source.now.value thread) }
    ensures { step (M.rules machine) program.now source.now.value thread ≡ Some result.value }
{
    Shown::any(&(machine, program, source, thread))
}

//! Names of operations in a byte each.

ghost use Rattle.std.specs.Prelude.{◌≡◌};
ghost use Rattle.lin.specs.Timeline.{HasPlace};

use sched_program::{Blank, OpId};
use std::marker::Model;

/// The name of an operation, of one of four threads with at most eight operations each, in one byte: an order is copied
/// with each finding, and so takes a byte for each name that it has room for. Contracts see the name.
#[derive(Clone, Copy)]
pub struct ShortName {
    place: u8,
}

impl Model for ShortName {
    ghost use Rattle.std.specs.Prelude.{◌+◌, ◌*◌, ◌/◌, ◌%◌};
    ghost use Rattle.sched_program.specs.declared.operation.OpId.{OpId as Name};

    ghost Value = { Name };

    ghost view = { λ n. record { thread = n.place / 8; index = n.place % 8 } };

    ghost inverse = { λ name. record { place = 8 * name.thread + name.index } };
}

impl Blank for ShortName {
    ghost filler = { record { thread = 0; index = 0 } };

    fn blank() -> ShortName {
        ShortName { place: 0 }
    }
}

impl ShortName {
    /// The name, in a byte.
    pub fn of(name: OpId) -> ShortName
        requires { HasPlace name }
        ensures { result ≡ name }
    {
        ShortName {
            place: 8 * name.thread + name.index,
        }
    }

    /// The name.
    pub fn name(self) -> OpId
        ensures { result ≡ self }
    {
        OpId {
            thread: self.place / 8,
            index: self.place % 8,
        }
    }
}

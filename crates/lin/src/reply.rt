//! Whether an order explains one reply more.

ghost use Rattle.std.specs.Prelude.{◌≡◌, MatchOption};
ghost use Rattle.std.specs.Option.{option_map};
ghost use Rattle.sched_program.specs.History.{History};
ghost use Rattle.sched_program.specs.Program.{IsWithinLimits, op_at};
ghost use Rattle.lin.specs.Keys.{keys_of, reply_on};
ghost use Rattle.lin.specs.KeySet.{keys_in};
ghost use Rattle.lin.specs.Linearization.{IsLinearization};
ghost use Rattle.lin.specs.Reply.{ending_with, reply_in, HasReplied};

use crate::key_set::KeySet;
use crate::short_name::ShortName;
use crate::short_order::{Order, ending_with};
use sched_program::{OpId, Program};

/// An order after a reply: with the operation at its end, unless the order already has it, from when it was pending.
/// None where it replies otherwise there.
///
/// Let the given order be a linearization of the history before the reply. Then the returned order is one of the
/// history after it; where none is returned, the order with the operation is not. It needs no history and takes no
/// memory.
pub fn order_with_reply(program: &Program, order: &Order, name: OpId, reply: bool) -> Option<Order>
    ensures { MatchOption result
        ((old new : History) → HasReplied old new name reply → IsLinearization program.now old order.now
        → IsLinearization program.now new (ending_with order.now name) → ⊥)
        (λ longer. (longer ≡ ending_with order.now name)
        × ((old new : History) → HasReplied old new name reply → IsLinearization program.now old order.now
        → IsLinearization program.now new longer)) }
{
    // Whoever reads a program knows that it meets the limits.
    let _ = program.initial();
    match reply_in(program, order.as_slice(), name) {
        Some(stated) if stated == reply => ending_with(order, name),
        _ => None,
    }
}

/// What the operation replies where those of the order are run one after the other: at its own place, or after the last
/// if it has none.
fn reply_in(program: &Program, order: &[ShortName], name: OpId) -> Option<bool>
    ensures { result ≡ reply_in program.now (keys_of program.now.initial) order.now name }
{
    let mut keys = KeySet::of(program.initial());
    for other in order {
        let other = other.name();
        if other == name {
            return stated(program, keys, name);
        }
        keys = keys.after(program.op(other)?);
    }
    stated(program, keys, name)
}

/// What the operation replies on these keys.
fn stated(program: &Program, keys: KeySet, name: OpId) -> Option<bool>
    requires { IsWithinLimits program.now }
    ensures { result ≡ option_map (λ o. reply_on o (keys_in keys)) (op_at program.now name.thread name.index) }
{
    Some(keys.reply_to(program.op(name)?))
}

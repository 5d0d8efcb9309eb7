//! Orders that are stored in the value itself.

ghost use Rattle.std.specs.Prelude.{◌≡◌, ◌≤◌, ◌+◌, length, All, IfOk, IfSome, IfNone, MatchOption};
ghost use Rattle.lin.specs.Linearization.{IsLinearization, IsLinearizable};
ghost use Rattle.lin.specs.Completion.{listed_in};
ghost use Rattle.lin.specs.Reply.{ending_with};
ghost use Rattle.lin.specs.Timeline.{HasPlace};

use crate::searcher::judge;
use crate::short_name::ShortName;
use sched_program::{History, OpId, OutOfMemory, Program, ShortList};
use std::alloc::Global;

/// Operations of a program in some order, each once: there are twelve at most. It takes no memory, and a copy is a
/// plain copy of thirteen bytes.
pub type Order = ShortList<ShortName, 12>;

/// The answer of `judge` as such an order.
pub fn judge_order(
    alloc: Global,
    program: &Program,
    history: &History,
) -> Result<Option<Order>, OutOfMemory>
    ensures found { IfOk result (λ answer. IfSome answer (λ order. IsLinearization program.now history.now order)) }
    ensures none { IfOk result (λ answer. IfNone answer (¬ IsLinearizable program.now history.now)) }
{
    // Whoever reads a program knows that it meets the limits.
    let _ = program.initial();
    match judge(alloc, program, history)? {
        Some(names) => Ok(Some(order_of(names.as_slice()))),
        None => Ok(None),
    }
}

/// The names of a list, in its order, as an `Order`.
fn order_of(names: &[OpId]) -> Order
    requires bounded { length names.now ≤ 12 }
    requires places { All HasPlace names.now }
    ensures { result ≡ names.now }
{
    let mut order = Order::new();
    for name in names {
        order.push(ShortName::of(*name));
    }
    order
}

/// Whether an order has an operation.
fn lists(order: &Order, name: OpId) -> bool
    ensures { result ≡ listed_in order.now name }
{
    order.as_slice().iter().any(|other| other.name() == name)
}

/// The order with an operation at its end, unless it is there already. None where there is no room.
pub(crate) fn ending_with(order: &Order, name: OpId) -> Option<Order>
    requires { HasPlace name }
    ensures { MatchOption result (13 ≤ length (ending_with order.now name))
        (λ longer. longer ≡ ending_with order.now name) }
{
    if lists(order, name) {
        return Some(*order);
    }
    if order.len() == 12 {
        return None;
    }
    let mut longer = *order;
    longer.push(ShortName::of(name));
    Some(longer)
}

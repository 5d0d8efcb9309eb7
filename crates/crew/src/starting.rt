//! Calls with several items at once, with each in a thread of its own.
ghost use Rattle.std.specs.Prelude.{◌≡◌, All, length};
ghost use Rattle.std.specs.Thread.{IsSend, IsSync};
ghost use Rattle.crew.specs.Starting.{TakesItem};

use std::thread;
use std::thread::Threads;

/// Calls `f` with one item, in this thread.
fn call<T, F: Fn(&mut T)>(f: &F, item: &mut T)
    requires { TakesItem F.Fn f.now item.old }
{
    f(item);
}

/// Calls `f` with each item, in a new thread for each if there are several, and returns once all
/// calls have returned. This thread starts all others and then only waits: a new thread is often
/// put on the processor of the one that starts it, even while another processor is idle, and begins
/// once that one waits.
pub fn call_at_once<R: Threads + Sync, T: Send, F: Fn(&mut T) + Sync>(
    rt: &R,
    f: &F,
    items: &mut [T],
)
    requires { All (TakesItem F.Fn f.now) items.old }
    ensures { length items.new ≡ length items.old }
{
    if let Some((last, others)) = items.split_last_mut() {
        if others.is_empty() {
            call(f, last);
        } else {
            call_beside(rt, f, last, others);
        }
    }
}

/// Calls `f` with one item in a new thread, and with the others beside it.
#[cycle(starts)]
fn call_beside<R: Threads + Sync, T: Send, F: Fn(&mut T) + Sync>(
    rt: &R,
    f: &F,
    one: &mut T,
    others: &mut [T],
)
    requires one { TakesItem F.Fn f.now one.old }
    requires others { All (TakesItem F.Fn f.now) others.old }
    ensures { length others.new ≡ length others.old }
{
    let mut alone = ||
        requires { TakesItem F.Fn f.now one.now }
    { call(f, one) };
    let mut rest = ||
        requires { IsSync R.row × IsSync F.row × IsSend T.row × All (TakesItem F.Fn f.now) others.now }
        ensures { length others.exit.now ≡ length others.entry.now }
    { call_each(rt, f, others) };
    thread::join_mut(rt, &mut alone, &mut rest);
}

/// Calls `f` with each item, in a new thread for each.
#[cycle(starts)]
fn call_each<R: Threads + Sync, T: Send, F: Fn(&mut T) + Sync>(rt: &R, f: &F, items: &mut [T])
    requires { All (TakesItem F.Fn f.now) items.old }
    ensures { length items.new ≡ length items.old }
{
    if let Some((last, others)) = items.split_last_mut() {
        call_beside(rt, f, last, others);
    }
}

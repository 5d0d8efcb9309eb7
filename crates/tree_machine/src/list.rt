//! Lists built in the buffers of other lists, and lists with more values.
ghost use Rattle.std.specs.Prelude.{◌≡◌, ◌++◌, IfOk, OnOk};

use sched_program::{OutOfMemory, Sequence};
use std::alloc::Global;

/// A new list: the values of another, and more of them behind.
pub fn extended<T: Copy>(
    alloc: Global,
    list: &Sequence<T>,
    more: &[T],
) -> Result<Sequence<T>, OutOfMemory>
    ensures { IfOk result (λ longer. longer ≡ list.now ++ more.now) }
{
    let mut items = Vec::new(alloc);
    items.extend_from_slice(list.as_slice())?;
    items.extend_from_slice(more)?;
    Ok(Sequence::from_vec(items))
}

/// Replaces the values of a list by these. It reuses the list's buffer where that is large enough. After a refusal the
/// list is unspecified.
#[inline(always)]
pub fn copy_into<T: Copy + Drop>(values: &[T], list: &mut Sequence<T>) -> Result<(), OutOfMemory>
    ensures { OnOk result (list.new ≡ values.now) }
{
    let items = list.as_mut_vec();
    items.clear();
    items.extend_from_slice(values)?;
    Ok(())
}

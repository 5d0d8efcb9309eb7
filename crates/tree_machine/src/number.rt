//! Numbers of nodes and records as others hold them, and numbers in bytes.
ghost use Rattle.std.specs.Prelude.{◌≡◌, ◌^◌, ◌≤◌, ◌+◌, ◌++◌, length, IfOk, IfErr, OnOk};
ghost use Rattle.tree_machine.specs.Flat.{number_code};

use sched_program::OutOfMemory;

/// A number in two bytes. It takes no memory: a number that does not fit is refused as memory is.
pub fn short_number_of(x: usize) -> Result<u16, OutOfMemory>
    ensures number { IfOk result (λ number. number ≡ x) }
    ensures refused { IfErr result (λ _. 2 ^ 16 ≤ x) }
{
    match u16::try_from(x) {
        Ok(number) => Ok(number),
        Err(_) => Err(OutOfMemory),
    }
}

/// The sum of two counts. It takes no memory: one that does not fit is refused as memory is.
pub(crate) fn sum_of(some: usize, more: usize) -> Result<usize, OutOfMemory>
    ensures { IfOk result (λ sum. sum ≡ some + more) }
{
    some.checked_add(more).ok_or(OutOfMemory)
}

/// Appends a number: 255 for each 255 in it, and then the rest. Nearly all numbers are small.
#[inline(always)]
pub(crate) fn put_number(bytes: &mut Vec<u8>, number: u64) -> Result<(), OutOfMemory>
    ensures written { OnOk result (bytes.new.items ≡ bytes.old.items ++ number_code number) }
    ensures longer { length bytes.old.items ≤ length bytes.new.items }
{
    if number < 255 {
        bytes.push(number as u8)?;
        Ok(())
    } else {
        put_large(bytes, number)
    }
}

/// Appends a number that may be large, as `put_number` does.
#[cold]
#[inline(never)]
pub(crate) fn put_large(bytes: &mut Vec<u8>, number: u64) -> Result<(), OutOfMemory>
    ensures written { OnOk result (bytes.new.items ≡ bytes.old.items ++ number_code number) }
    ensures longer { length bytes.old.items ≤ length bytes.new.items }
{
    for _whole in 0..number / 255 {
        bytes.push(255)?;
    }
    bytes.push((number % 255) as u8)?;
    Ok(())
}

//! Values that are read back from the code of their parts, one behind the other.
ghost use Rattle.std.specs.Prelude.{◌≡◌, ◌++◌, List, length, map, IfOk, IfSome};
ghost use Rattle.tree_machine.specs.Flat.{cell_code, part_codes, part_content};
ghost use Rattle.tree_machine.specs.Parts.{Part};

use sched_program::OutOfMemory;

/// A node or a record that is read back from the code of its part.
pub trait CodedPart: Copy {
    /// Its part.
    ghost part: { Self → Part };

    /// Reads a value, and returns the bytes behind it.
    fn read(bytes: &[u8]) -> Option<(Self, &[u8])>
        ensures { IfSome result (λ (value, rest). bytes.now ≡ cell_code (part_content (part value)) ++ rest.now) };
}

/// Appends `count` values to a list, and returns the bytes behind them. It allocates once at most.
pub fn read_values<'a, V: CodedPart>(
    bytes: &'a [u8],
    count: u8,
    values: &mut Vec<V>,
) -> Result<Option<&'a [u8]>, OutOfMemory>
    ensures { IfOk result (λ read. IfSome read (λ rest. (more : List V)
        × (values.new.items ≡ values.old.items ++ more) × (length more ≡ count)
        × (bytes.now ≡ part_codes (map V.part more) ++ rest.now))) }
{
    values.reserve(usize::from(count))?;
    let mut rest = bytes;
    for _each in 0..count {
        let Some((value, behind)) = V::read(rest) else {
            return Ok(None);
        };
        values.push_reserved(value);
        rest = behind;
    }
    Ok(Some(rest))
}

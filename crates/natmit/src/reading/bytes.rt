//! References that are one byte each.
ghost use Rattle.std.specs.Prelude.{◌≡◌, ◌∷◌, [], Some, IfSome};
ghost use Rattle.tree_machine.specs.Flat.{number_code, reference_number};

/// The node to which this byte is a reference, if it is one.
#[inline(always)]
pub(crate) fn name_of(byte: u8) -> Option<u16>
    ensures { IfSome result (λ name. number_code (reference_number (Some name)) ≡ byte ∷ []) }
{
    if 0 < byte && byte < 255 {
        Some(u16::from(byte) - 1)
    } else {
        None
    }
}

/// The node to which this byte is a reference, or none, if it is one of these.
#[inline(always)]
pub(crate) fn reference_of(byte: u8) -> Option<Option<u16>>
    ensures { IfSome result (λ reference. number_code (reference_number reference) ≡ byte ∷ []) }
{
    match byte {
        0 => Some(None),
        255 => None,
        _ => Some(Some(u16::from(byte) - 1)),
    }
}

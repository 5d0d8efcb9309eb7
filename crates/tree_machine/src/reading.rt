//! Readers of values at the front of bytes. Each returns the value with the bytes behind it. It returns `None` where
//! there is no value, as behind the last byte, or where the value would be too large.
ghost use Rattle.std.specs.Prelude.{◌≡◌, ◌<◌, ◌++◌, ◌∷◌, IfSome};
ghost use Rattle.tree_machine.specs.Flat.{number_code};

/// Reads a byte.
#[inline(always)]
pub fn read_byte(bytes: &[u8]) -> Option<(u8, &[u8])>
    ensures { IfSome result (λ (byte, rest). bytes.now ≡ byte ∷ rest.now) }
{
    let (byte, rest) = bytes.split_first()?;
    Some((*byte, rest))
}

/// Reads a number that is one byte, as nearly all are: one below 255.
#[inline(always)]
pub fn read_number(bytes: &[u8]) -> Option<(u64, &[u8])>
    ensures number { IfSome result (λ (number, rest). bytes.now ≡ number_code number ++ rest.now) }
    ensures small { IfSome result (λ (number, rest). number < 255) }
{
    let (byte, rest) = read_byte(bytes)?;
    if byte < 255 {
        Some((u64::from(byte), rest))
    } else {
        None
    }
}

/// Reads a number of any size that takes fewer than 65536 bytes.
#[inline(always)]
pub fn read_any_number(bytes: &[u8]) -> Option<(u64, &[u8])>
    ensures { IfSome result (λ (number, rest). bytes.now ≡ number_code number ++ rest.now) }
{
    match read_number(bytes) {
        Some(read) => Some(read),
        None => read_long_number(bytes),
    }
}

/// Reads a number that may be large. Only the number of steps is.
#[cold]
#[inline(never)]
fn read_long_number(bytes: &[u8]) -> Option<(u64, &[u8])>
    ensures { IfSome result (λ (number, rest). bytes.now ≡ number_code number ++ rest.now) }
{
    let mut rest = bytes;
    for whole in 0u16..u16::MAX {
        let (byte, behind) = read_byte(rest)?;
        rest = behind;
        if byte < 255 {
            return Some((u64::from(whole) * 255 + u64::from(byte), rest));
        }
    }
    None
}

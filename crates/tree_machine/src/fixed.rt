//! Writes of bytes, one behind the other, into a slice that is long enough.
ghost use Rattle.std.specs.Prelude.{◌≡◌, ◌<◌, ◌≤◌, ◌+◌, ◌++◌, ◌∷◌, [], length, take, drop, IfSome};
ghost use Rattle.tree_machine.specs.Flat.{number_code};

/// Writes a byte at a place of a slice, and returns the place behind it. A caller that writes many bytes keeps the
/// place in a variable of its own; a list would count each byte.
#[inline(always)]
pub(crate) fn put_byte(bytes: &mut [u8], at: usize, byte: u8) -> usize
    requires { at < length bytes.old }
    ensures place { result ≡ at + 1 }
    ensures length { length bytes.new ≡ length bytes.old }
    ensures written { take (at + 1) bytes.new ≡ take at bytes.old ++ byte ∷ [] }
    ensures behind { drop (at + 1) bytes.new ≡ drop (at + 1) bytes.old }
{
    bytes[at] = byte;
    at + 1
}

/// Writes a byte as a number, and returns the place behind it: a number takes one byte, or two where it is 255.
#[inline(always)]
pub(crate) fn put_number_byte(bytes: &mut [u8], at: usize, number: u8) -> usize
    requires { at + 2 ≤ length bytes.old }
    ensures place { result ≤ at + 2 }
    ensures length { length bytes.new ≡ length bytes.old }
    ensures written { take result bytes.new ≡ take at bytes.old ++ number_code number }
    ensures behind { drop result bytes.new ≡ drop result bytes.old }
{
    let behind = put_byte(bytes, at, number);
    if number < 255 {
        behind
    } else {
        put_byte(bytes, behind, 0)
    }
}

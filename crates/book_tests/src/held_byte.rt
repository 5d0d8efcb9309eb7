//! What a thread of the machine that these tests make holds, as a byte.
ghost use Rattle.std.specs.Prelude.{◌≡◌};
ghost use Rattle.book_tests.specs.Straying.{held_code};

/// What a thread holds as a byte.
pub fn held_byte(place: Option<bool>) -> u8
    ensures { result ≡ held_code place }
{
    match place {
        None => 0,
        Some(false) => 1,
        Some(true) => 2,
    }
}

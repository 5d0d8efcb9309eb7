//! Whether numbers name what is there.
ghost use Rattle.std.specs.Prelude.{◌<◌, ◌↔◌, IsTrue, IfSome};
ghost use Rattle.std.specs.List.{All};

/// Whether each number is none or below a bound.
pub fn are_below(numbers: &[Option<usize>], bound: usize) -> bool
    ensures { IsTrue result ↔ All (λ r. IfSome r (λ x. x < bound)) numbers.now }
{
    numbers.iter().all(|number| match number {
        Some(x) => *x < bound,
        None => true,
    })
}

/// Whether each name is none or of a number below a bound.
pub fn are_named_below(names: &[Option<u16>], bound: usize) -> bool
    ensures { IsTrue result → All (λ r. IfSome r (λ x. x < bound)) names.now }
{
    names.iter().all(|name| match name {
        Some(x) => (*x as usize) < bound,
        None => true,
    })
}

/// Whether each number is below a bound.
pub fn are_all_below(numbers: &[u16], bound: usize) -> bool
    ensures { IsTrue result → All (λ x. x < bound) numbers.now }
{
    numbers.iter().all(|x| (*x as usize) < bound)
}

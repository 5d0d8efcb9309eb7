//! The grammar of a schedule on the command line.
ghost use Rattle.std.specs.Prelude.{IfOk, MatchOption};
ghost use Rattle.words.specs.Schedule.{IsSchedule};

use std::alloc::{AllocError, Global};

/// The most steps of a schedule.
const MOST_STEPS: usize = 400;

/// The threads that a schedule names, or none where the text is no schedule: a schedule is empty, or
/// single digits joined by single commas, at most 400 of them.
///
/// # Errors
/// Memory ran out.
pub fn schedule_of(alloc: Global, text: &str) -> Result<Option<Vec<u8>>, AllocError>
    ensures { IfOk result (λ r. MatchOption r ((threads : _) → IsSchedule text.now threads → ⊥)
        (λ threads. IsSchedule text.now threads.items)) }
{
    let mut threads = Vec::new(alloc);
    let mut rest = match text.as_bytes() {
        [] => return Ok(Some(threads)),
        [digit @ b'0'..=b'9', tail @ ..] => {
            threads.push(*digit - b'0')?;
            tail
        }
        _ => return Ok(None),
    };
    while let [b',', digit @ b'0'..=b'9', tail @ ..] = rest {
        if threads.len() == MOST_STEPS {
            return Ok(None);
        }
        threads.push(*digit - b'0')?;
        rest = tail;
    }
    Ok(rest.is_empty().then_some(threads))
}

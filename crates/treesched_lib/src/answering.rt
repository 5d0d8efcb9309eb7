//! The output for words: that of the request that they make, or of why they make none.
ghost use Rattle.std.specs.Prelude.{IfOk, map};
ghost use Rattle.treesched_lib.specs.Serving.{IsAnswerTo};

use crate::files::{kept, serve_files};
use crate::refusals::{refusal, refused};
use crate::serving::Output;
use sched_program::OutOfMemory;
use std::env::Env;
use std::fs::Files;
use std::io;
use std::sync::Wait;
use std::thread::Threads;
use words::read_words;

/// The output for these words. The first one is the program's name.
///
/// # Errors
/// Memory ran out.
pub fn answer<R: AllocGlobal + Files + Sync + Threads + Wait>(
    rt: &R,
    words: &[&str],
) -> Result<Output, OutOfMemory>
    ensures { IfOk result (IsAnswerTo (map (λ s. s.now) words.now)) }
{
    match read_words(rt.alloc(), words) {
        Ok(request) => {
            let output = serve_files(rt, &request)?;
            kept(rt, &request, output)
        }
        Err(fault) => refused(rt.alloc(), fault),
    }
}

/// The output for the words of the command line.
///
/// # Errors
/// Memory ran out.
pub fn run<R: AllocGlobal + Env + Files + Sync + Threads + Wait>(
    rt: &R,
) -> Result<Output, OutOfMemory> {
    let alloc = rt.alloc();
    let args: Vec<String> = match std::env::args(rt) {
        Ok(args) => args.collect(alloc)?,
        Err(error) if error.kind() == io::ErrorKind::OutOfMemory => return Err(OutOfMemory),
        Err(_) => return refusal(alloc, 4, "the words are not UTF-8"),
    };
    let mut words = Vec::new(alloc);
    for arg in &args {
        words.push(arg.as_str())?;
    }
    answer(rt, words.as_slice())
}

//! What the program answers to the words of an exploration.
use sched_program::{Counted, OutOfMemory};
use std::alloc::Global;
use std::sync::Wait;
use std::thread::Threads;
use treesched_lib::{Output, read_words, refused, serve};

/// What the tests ask of the runtime: memory, a place to print, and threads.
pub trait Runtime: AllocGlobal + Print + Sync + Threads + Wait {}

impl<R: AllocGlobal + Print + Sync + Threads + Wait> Runtime for R {}

/// Returns `is_met`, and prints the output where it is false.
pub fn or_printed<P: Print>(rt: &P, is_met: bool, output: &Output) -> bool {
    if !is_met {
        let _ = println!(rt; "{output:?}");
    }
    is_met
}

/// The output for the words of a line, which single spaces separate, where FILE has these bytes.
pub fn answer_to<R: Runtime>(rt: &R, line: &str, file: &[u8]) -> Result<Output, OutOfMemory> {
    let words = words_of(rt.alloc(), line)?;
    let mut file = Counted::new(file);
    match read_words(rt.alloc(), words.as_slice()) {
        Ok(request) => serve::<R, &[u8], &[u8]>(rt, rt.alloc(), &request, Some(&mut file), None),
        Err(fault) => refused(rt.alloc(), fault),
    }
}

fn words_of<'a>(alloc: Global, line: &'a str) -> Result<Vec<&'a str>, OutOfMemory> {
    let mut words = Vec::new(alloc);
    for word in line.split(' ') {
        words.push(word)?;
    }
    Ok(words)
}

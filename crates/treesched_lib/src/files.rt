//! The files that a request names: those that are read, and the one that the book is written to.
ghost use Rattle.std.specs.Prelude.{◌-◌, ◌<◌, ◌^◌, IfOk};
ghost use Rattle.treesched_lib.specs.Printing.{IsBookPut};
ghost use Rattle.treesched_lib.specs.Serving.{IsKept, IsServedBySome};

use crate::output::{CountedWriter, put_all};
use crate::refusals::unwritable;
use crate::serving::{Output, serve};
use sched_program::{Counted, OutOfMemory};
use std::alloc::Global;
use std::fs::{File, Files};
use std::io::Write;
use std::sync::Wait;
use std::thread::Threads;
use words::Request;

/// The book file to check, if the request is to check one and it can be opened.
fn open_book<R: Files>(rt: &R, request: &Request<'_>) -> Option<R::File> {
    File::open(rt, request.book()?).ok()
}

/// The output for a request, once its files are opened.
pub fn serve_files<R: AllocGlobal + Files + Sync + Threads + Wait>(
    rt: &R,
    request: &Request<'_>,
) -> Result<Output, OutOfMemory>
    ensures { IfOk result (IsServedBySome request.now) }
{
    let Ok(file) = File::open(rt, request.file()) else {
        return serve::<R, File, File>(rt, rt.alloc(), request, None, None);
    };
    let mut file = Counted::new(file);
    let Some(book) = open_book(rt, request) else {
        return serve::<R, R::File, File>(rt, rt.alloc(), request, Some(&mut file), None);
    };
    let mut book = Counted::new(book);
    serve(rt, rt.alloc(), request, Some(&mut file), Some(&mut book))
}

/// Writes the text of a book file. Where that fails, returns the output that reports it.
///
/// # Errors
/// Memory ran out.
pub fn put_book<W: Write>(
    alloc: Global,
    file: &mut CountedWriter<W>,
    name: &str,
    text: &[u8],
) -> Result<Option<Output>, OutOfMemory>
    requires { file.old.failures < 2 ^ 64 - 1 }
    ensures { IfOk result (IsBookPut W.contents file.old file.new text.now name.now) }
{
    match put_all(file, text) {
        Ok(()) => Ok(None),
        Err(_) => Ok(Some(unwritable(alloc, name)?)),
    }
}

/// Writes the output's book file, if it has one, over the contents of the file that the request names. Returns the
/// output or, where that fails, the one that reports it.
pub fn kept<R: AllocGlobal + Files>(
    rt: &R,
    request: &Request<'_>,
    output: Output,
) -> Result<Output, OutOfMemory>
    ensures { IfOk result (IsKept request.now output) }
{
    let Some(name) = request.out() else {
        return Ok(output);
    };
    let Some(text) = &output.book else {
        return Ok(output);
    };
    let Ok(file) = File::create(rt, name) else {
        return unwritable(rt.alloc(), name);
    };
    match put_book(
        rt.alloc(),
        &mut CountedWriter::new(file),
        name,
        text.as_slice(),
    )? {
        Some(refusal) => Ok(refusal),
        None => Ok(output),
    }
}

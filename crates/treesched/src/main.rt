//! The program `treesched`: prints what `run` answers to the words of the command line.
#![tactic(auto)]

ghost use Rattle.std.specs.Prelude.{◌-◌, ◌<◌, ◌^◌};
ghost use Rattle.treesched.specs.Ending.{IsEnded};

use std::alloc::AllocError;
use std::io;
use std::io::Write;
use std::process::ExitCode;
use treesched_lib::{CountedWriter, Output, print, run, tell};

/// Prints the answer, or reports that memory ran out, and returns the status that the program ends with.
fn ended<O: Write, E: Write>(
    out: &mut CountedWriter<O>,
    err: &mut CountedWriter<E>,
    answer: Result<Output, AllocError>,
) -> u8
    requires out { out.old.failures < 2 ^ 64 - 1 }
    requires err { err.old.failures < 2 ^ 64 - 1 }
    ensures { IsEnded O.contents out.old out.new E.contents err.old err.new answer result }
{
    match answer {
        Ok(output) => print(out, err, &output),
        Err(_) => {
            tell(err, "treesched: out of memory\n");
            5
        }
    }
}

fn main(rt: HostRuntime) -> ExitCode {
    let stdout = rt.stdout();
    let stderr = rt.stderr();
    let mut out = CountedWriter::new(io::writer(&stdout));
    let mut err = CountedWriter::new(io::writer(&stderr));
    ExitCode::from(ended(&mut out, &mut err, run(&rt)))
}

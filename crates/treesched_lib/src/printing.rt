//! What is printed, and the status that the program ends with.
ghost use Rattle.std.specs.Prelude.{◌-◌, ◌<◌, ◌^◌};
ghost use Rattle.treesched_lib.specs.Printing.{IsPrinted, WasTried};

use crate::output::{CountedWriter, put_all};
use crate::serving::Output;
use std::io::Write;

/// Writes the text to the standard error. A write that fails is ignored, since there is nowhere to report it.
pub fn tell<E: Write>(err: &mut CountedWriter<E>, text: &str)
    requires { err.old.failures < 2 ^ 64 - 1 }
    ensures { WasTried E.contents err.old err.new text.now }
{
    let _ = put_all(err, text.as_bytes());
}

/// Prints the output, and returns the status that the program ends with.
pub fn print<O: Write, E: Write>(
    out: &mut CountedWriter<O>,
    err: &mut CountedWriter<E>,
    output: &Output,
) -> u8
    requires out { out.old.failures < 2 ^ 64 - 1 }
    requires err { err.old.failures < 2 ^ 64 - 1 }
    ensures { IsPrinted O.contents out.old out.new E.contents err.old err.new output.now result }
{
    if put_all(out, output.out.as_bytes()).is_err() {
        tell(err, "treesched: can't write standard output\n");
        return 6;
    }
    tell(err, output.err.as_str());
    output.status
}

//! Whether the bytes of a book file pass.
ghost use Rattle.std.specs.Prelude.{◌≡◌, ◌≢◌, ℕ, ◌+◌, ◌<◌, ◌⊎◌, IfOk, IfErr, None, length};
ghost use Rattle.tree_machine.specs.Step.{start, Fits};
ghost use Rattle.replay.specs.Correct.{HoldsAlways};
ghost use Rattle.replay.specs.declared.file.fault.CheckFault.{CheckFault};
ghost use Rattle.replay.specs.BookFile.Checks.{AreRefused, IsRefusedFor, Pass, PassAs};

use crate::file::closing::test_closed;
use crate::file::fault::CheckFault;
use crate::file::line::BookLine;
use crate::file::reading::read_lines;
use crate::file::recalling::Input;
use crate::file::replayer::Replayer;
use crate::file::replaying::replay_lines;
use sched_program::Program;
use std::alloc::Global;
use tree_machine::Encode;

/// Whether the lines pass, with a replayer that has the start's state.
fn replay_and_close<M: Encode>(
    alloc: Global,
    input: &Input<'_, M>,
    replayer: &mut Replayer<M>,
) -> Result<(), CheckFault>
    requires bounded { length input.now.lines.now < 2000000 }
    requires start { replayer.old.state ≡ start (M.rules input.now.machine) input.now.program.now }
    requires fits { Fits (M.rules input.now.machine) input.now.program.now replayer.old.state }
    requires source { replayer.old.source ≡ None }
    ensures pass { IfOk result
        (λ _. Pass M M.Form (M.rules input.now.machine) input.now.program.now input.now.lines.now) }
    ensures refused { IfErr result (λ fault. (fault ≡ CheckFault.OutOfMemory)
        ⊎ AreRefused M M.Form (M.rules input.now.machine) input.now.program.now input.now.lines.now fault) }
{
    let (labels, marks) = replay_lines(alloc, input, replayer)?;
    test_closed(alloc, input, &labels, marks.as_slice(), replayer)
}

/// Whether the lines after the second of a book file pass: each states the step of an earlier entry, and its order
/// shows that the state reached is correct; and each step of an entry reaches a state that is alike to some entry's.
fn check_lines<M: Encode>(alloc: Global, input: &Input<'_, M>) -> Result<(), CheckFault>
    requires { length input.now.lines.now < 2000000 }
    ensures pass { IfOk result
        (λ _. Pass M M.Form (M.rules input.now.machine) input.now.program.now input.now.lines.now) }
    ensures refused { IfErr result (λ fault. (fault ≡ CheckFault.OutOfMemory)
        ⊎ AreRefused M M.Form (M.rules input.now.machine) input.now.program.now input.now.lines.now fault) }
{
    let mut replayer = Replayer::new(alloc, input.machine, input.program)?;
    replay_and_close(alloc, input, &mut replayer)
}

/// The lines after the second of a book file whose bytes pass.
fn lines_checked<M: Encode>(
    alloc: Global,
    machine: M,
    program: &Program,
    bytes: &[u8],
) -> Result<Vec<BookLine>, CheckFault>
    ensures pass { IfOk result (λ lines.
        PassAs M M.Form (M.rules machine) program.now bytes.now (length lines.items + 1)) }
    ensures refused { IfErr result (λ fault. (fault ≡ CheckFault.OutOfMemory)
        ⊎ IsRefusedFor M M.Form (M.rules machine) program.now bytes.now fault) }
{
    let lines = read_lines(alloc, bytes)?;
    let input = Input {
        machine,
        program,
        lines: lines.as_slice(),
    };
    check_lines(alloc, &input)?;
    Ok(lines)
}

/// Whether the bytes of a book file pass, and how many entries it has: they are in the form, and their lines pass. Then
/// every schedule of any length reaches a correct state, whoever wrote the bytes. The form is in docs/FORMATS.md.
///
/// # Errors
///
/// The first [`CheckFault`] of the bytes, with its line, or `OutOfMemory` where a growth was refused.
pub fn check_book<M: Encode>(
    alloc: Global,
    machine: M,
    program: &Program,
    bytes: &[u8],
) -> Result<usize, CheckFault>
    ensures pass { IfOk result (PassAs M M.Form (M.rules machine) program.now bytes.now) }
    ensures every { IfOk result (λ _. HoldsAlways M M.Form (M.rules machine) program.now) }
    ensures none { IfOk result (λ _. (fault : CheckFault)
        → IsRefusedFor M M.Form (M.rules machine) program.now bytes.now fault → ⊥) }
    ensures refused { IfErr result (λ fault. (fault ≡ CheckFault.OutOfMemory)
        ⊎ IsRefusedFor M M.Form (M.rules machine) program.now bytes.now fault) }
    ensures only { IfErr result (λ fault. fault ≢ CheckFault.OutOfMemory → (other : CheckFault)
        → IsRefusedFor M M.Form (M.rules machine) program.now bytes.now other → other ≡ fault) }
    ensures passes { IfErr result (λ fault. fault ≢ CheckFault.OutOfMemory → (entries : ℕ)
        → PassAs M M.Form (M.rules machine) program.now bytes.now entries → ⊥) }
{
    // Whoever reads a program knows that it meets the limits.
    let _ = program.initial();
    let lines = lines_checked(alloc, machine, program, bytes)?;
    Ok(lines.len() + 1)
}

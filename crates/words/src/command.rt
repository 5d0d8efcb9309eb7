//! The command line, as it is declared to clap.
ghost use Rattle.std.specs.Prelude.{◌≡◌, IfOk, false};
ghost use Rattle.clap.specs.Words.{app_of, rule_of};
ghost use Rattle.clap.specs.declared.builder.command.Command.TheViews.{out-Command as fields_of};
ghost use Rattle.words.specs.Command as line;

use clap::{Arg, ArgAction, Command, value_parser};
use std::alloc::{AllocError, Global};

/// The text below the help for the whole command.
const BELOW: &str = "Example: treesched explore examples/ellen.json --steps 400 --merge names

Exit status:
  0  it holds, the replay has no fault, the book passes, or help was asked for
  1  a schedule has a fault
  2  more states were reached than --states allows
  3  the program or the book is refused
  4  the words are refused
  5  memory was refused
  6  a file can't be read, or a file or the standard output can't be written

docs/REFUSALS.md has each line that is printed, with its repair.";

/// The words for the ways to merge states.
static MERGES: [&str; 2] = ["exact", "names"];

/// An option with one value.
fn option<'a>(alloc: Global, id: &'a str, value: &'a str) -> Arg<'a>
    ensures rule { rule_of result ≡ line.option id.entry.now }
    ensures local { result.global ≡ false }
{
    Arg::new(alloc, id).long(id).value_name(value)
}

fn file<'a>(alloc: Global) -> Arg<'a>
    ensures rule { rule_of result ≡ line.file }
    ensures local { result.global ≡ false }
{
    Arg::new(alloc, "file")
        .value_name("FILE")
        .required(true)
        .help("The program: a JSON text (docs/FORMATS.md)")
}

fn steps<'a>(alloc: Global) -> Arg<'a>
    ensures rule { rule_of result ≡ line.steps }
    ensures local { result.global ≡ false }
{
    option(alloc, "steps", "N")
        .required(true)
        .value_parser(value_parser!(u64).range(..=400))
        .help("The longest schedules that are explored: 0 to 400 steps")
}

fn workers<'a>(alloc: Global) -> Arg<'a>
    ensures rule { rule_of result ≡ line.workers }
    ensures local { result.global ≡ false }
{
    option(alloc, "workers", "W")
        .default_value("1")
        .value_parser(value_parser!(u64).range(1..=8))
        .help("The threads that explore: 1 to 8")
}

fn states<'a>(alloc: Global) -> Arg<'a>
    ensures rule { rule_of result ≡ line.states }
    ensures local { result.global ≡ false }
{
    option(alloc, "states", "M")
        .default_value("200000")
        .value_parser(value_parser!(u64).range(1..=2_000_000))
        .help("The most states that are kept: 1 to 2000000")
}

fn merge<'a>(alloc: Global) -> Arg<'a>
    ensures rule { line.IsMerge (rule_of result) }
    ensures local { result.global ≡ false }
{
    option(alloc, "merge", "STATES")
        .default_value("exact")
        .value_parser(MERGES.as_slice())
        .help("Which states count as one; 'holds for every schedule' needs names")
}

fn ledger<'a>(alloc: Global) -> Arg<'a>
    ensures rule { rule_of result ≡ line.ledger }
    ensures local { result.global ≡ false }
{
    Arg::new(alloc, "ledger")
        .long("ledger")
        .action(ArgAction::SetTrue)
        .help("Also prints what each thread that explored has done")
}

fn schedule<'a>(alloc: Global) -> Arg<'a>
    ensures rule { rule_of result ≡ line.schedule }
    ensures local { result.global ≡ false }
{
    option(alloc, "schedule", "LIST").required(true).help(
        "The thread of each step, single digits with commas between them, at most 400",
    )
}

fn book_out<'a>(alloc: Global) -> Arg<'a>
    ensures rule { rule_of result ≡ line.book_out }
    ensures local { result.global ≡ false }
{
    option(alloc, "book", "OUT").help(
        "Writes the book file to OUT, over what stands there, if the answer is for every schedule; needs --merge names",
    )
}

fn book_file<'a>(alloc: Global) -> Arg<'a>
    ensures rule { rule_of result ≡ line.book_file }
    ensures local { result.global ≡ false }
{
    Arg::new(alloc, "book")
        .value_name("BOOK")
        .required(true)
        .help("The book file, whoever wrote it (docs/FORMATS.md)")
}

fn explore<'a>(alloc: Global) -> Result<Command<'a>, AllocError>
    ensures app { IfOk result (λ c. line.IsExplore (app_of c)) }
    ensures local { IfOk result (λ c. (fields_of c).has_globals ≡ false) }
{
    Command::new(alloc, "explore")
        .about("Explores every schedule of the program in FILE")
        .arg(file(alloc))?
        .arg(steps(alloc))?
        .arg(workers(alloc))?
        .arg(states(alloc))?
        .arg(merge(alloc))?
        .arg(ledger(alloc))?
        .arg(book_out(alloc))
}

fn replay<'a>(alloc: Global) -> Result<Command<'a>, AllocError>
    ensures app { IfOk result (λ c. app_of c ≡ line.replay) }
    ensures local { IfOk result (λ c. (fields_of c).has_globals ≡ false) }
{
    Command::new(alloc, "replay")
        .about("Replays one schedule of the program in FILE")
        .arg(file(alloc))?
        .arg(schedule(alloc))
}

fn check<'a>(alloc: Global) -> Result<Command<'a>, AllocError>
    ensures app { IfOk result (λ c. app_of c ≡ line.check) }
    ensures local { IfOk result (λ c. (fields_of c).has_globals ≡ false) }
{
    Command::new(alloc, "check")
        .about("Checks that a book file shows every schedule of the program in FILE correct")
        .arg(file(alloc))?
        .arg(book_file(alloc))
}

/// The command `treesched` with its subcommands.
///
/// # Errors
/// Memory ran out.
pub fn treesched_command<'a>(alloc: Global) -> Result<Command<'a>, AllocError>
    ensures { IfOk result (λ c. line.IsCommandLine (app_of c)) }
{
    Command::new(alloc, "treesched")
        .about("Explores the schedules of concurrent tree programs")
        .after_help(BELOW)
        .subcommand_required(true)
        .subcommand(explore(alloc)?)?
        .subcommand(replay(alloc)?)?
        .subcommand(check(alloc)?)
}

//! The request that the words make.
ghost use Rattle.std.specs.Prelude.{◌≡◌, ◌↔◌, ◌<◌, ◌^◌, ℕ, true, IfOk, List, MatchOption, MatchResult, map, codes};
ghost use Rattle.clap.specs.Walk.{Text};
ghost use Rattle.clap.specs.Words.{first_of, found_of, kind_of, rows_of};
ghost use Rattle.clap.specs.declared.error.kind.ErrorKind.TheVariants as kind;
ghost use Rattle.options.specs.declared.options.Merge.{Merge};
ghost use Rattle.options.specs.Settings.{Settings};
ghost use Rattle.words.specs.Reading.{AreRead, AreRefused, AskFor, book_of, file_of, HasText, IsFaultOf};
ghost use Rattle.words.specs.Reading.{IsRequestOf, IsUsed};
ghost use Rattle.words.specs.Reading.{MergeIs, NumberIs, OptionsAre, out_of, Tells, text_of};
ghost use Rattle.words.specs.declared.request.WordsFault.TheVariants as fault;

use crate::command::treesched_command;
use crate::schedule::schedule_of;
use clap::error::ErrorKind;
use clap::{ArgMatches, Error};
use options::{Merge, Options};
use std::alloc::{AllocError, Global};

/// What the words ask for.
#[derive(Debug, Drop)]
pub enum Request<'a> {
    /// Explore the program of a file.
    Explore {
        /// The file of the program.
        file: &'a str,
        /// The bounds.
        options: Options,
        /// Whether the workers' counts are printed.
        ledger: bool,
        /// The file that the book is written to, where every schedule holds.
        book: Option<&'a str>,
    },
    /// Replay a schedule of the program of a file.
    Replay {
        /// The file of the program.
        file: &'a str,
        /// The threads of the steps.
        schedule: Vec<u8>,
    },
    /// Check a book file against the program of a file.
    Check {
        /// The file of the program.
        file: &'a str,
        /// The book file.
        book: &'a str,
    },
}

impl<'a> Request<'a> {
    /// The file of the program.
    pub fn file(&self) -> &'a str
        ensures { result.now ≡ file_of self.now }
    {
        match self {
            Request::Explore { file, .. } => *file,
            Request::Replay { file, .. } => *file,
            Request::Check { file, .. } => *file,
        }
    }

    /// The book file to check, if the request is to check one.
    pub fn book(&self) -> Option<&'a str>
        ensures { text_of result ≡ book_of self.now }
    {
        match self {
            Request::Check { book, .. } => Some(*book),
            _ => None,
        }
    }

    /// The file that the book is written to, if the request asks for one.
    pub fn out(&self) -> Option<&'a str>
        ensures { text_of result ≡ out_of self.now }
    {
        match self {
            Request::Explore { book, .. } => *book,
            _ => None,
        }
    }
}

/// Why the words make no request.
#[derive(Debug, Drop)]
pub enum WordsFault {
    /// The words are no use of the command, or a call for help.
    Usage {
        /// Whether the words call for help.
        help: bool,
        /// The text for the user.
        text: String,
    },
    /// The schedule is no list of single digits.
    Schedule,
    /// A book file is asked for, and states are not merged by names.
    BookMerge,
    /// Memory ran out.
    OutOfMemory,
}

impl From<AllocError> for WordsFault {
    ghost from_gives = { λ _ e. e ≡ fault.OutOfMemory };

    fn from(_error: AllocError) -> WordsFault {
        WordsFault::OutOfMemory
    }
}

/// The fault for an error of clap's.
fn fault_of(alloc: Global, error: &Error) -> WordsFault
    ensures tells { Tells (kind_of error.now) result }
    ensures memory { kind_of error.now ≡ kind.OutOfMemory → result ≡ fault.OutOfMemory }
{
    let kind = error.kind();
    if kind == ErrorKind::OutOfMemory {
        return WordsFault::OutOfMemory;
    }
    match format!(in alloc; "{error}") {
        Ok(text) => WordsFault::Usage {
            help: kind == ErrorKind::DisplayHelp,
            text,
        },
        Err(_) => WordsFault::OutOfMemory,
    }
}

/// The value of the argument.
fn text<'a>(matches: &ArgMatches<'a>, id: &str) -> Option<&'a str>
    ensures { text_of result ≡ first_of id.now (rows_of (found_of matches.now)) }
{
    matches.get_str(id)
}

/// The number that the argument's value writes.
fn number(matches: &ArgMatches<'_>, id: &str) -> Option<u64>
    ensures { let rows = rows_of (found_of matches.now) in
        MatchOption result ((n : ℕ) → n < 2 ^ 64 → NumberIs rows id.now n → ⊥) (NumberIs rows id.now) }
{
    matches.get_one(id)
}

/// Whether the flag was used.
fn flag(matches: &ArgMatches<'_>, id: &str) -> bool
    ensures { result ≡ true ↔ IsUsed (rows_of (found_of matches.now)) id.now }
{
    matches.get_one::<bool>(id) == Some(true)
}

/// The way to merge states that the matches of `explore` name.
fn merge_of(matches: &ArgMatches<'_>) -> Option<Merge>
    ensures { let rows = rows_of (found_of matches.now) in
        MatchOption result ((m : Merge) → MergeIs rows m → ⊥) (MergeIs rows) }
{
    match text(matches, "merge")? {
        "exact" => Some(Merge::Exact),
        "names" => Some(Merge::Names),
        _ => None,
    }
}

/// The bounds that the matches of `explore` name.
fn options_of(matches: &ArgMatches<'_>) -> Option<Options>
    ensures { let rows = rows_of (found_of matches.now) in
        MatchOption result ((settings : Settings) → OptionsAre rows settings → ⊥) (OptionsAre rows) }
{
    let steps = u16::try_from(number(matches, "steps")?).ok()?;
    let workers = u8::try_from(number(matches, "workers")?).ok()?;
    let limit = u32::try_from(number(matches, "states")?).ok()?;
    let merge = merge_of(matches)?;
    Options::new(steps, limit, merge, workers)
}

/// The request of `explore`, whose arguments have values in range.
fn explore_of<'a>(matches: &ArgMatches<'a>) -> Result<Request<'a>, WordsFault>
    requires file { HasText (rows_of (found_of matches.now)) (codes "file") }
    requires options { (settings : Settings) × OptionsAre (rows_of (found_of matches.now)) settings }
    ensures { let rows = rows_of (found_of matches.now) in
        MatchResult result (IsRequestOf (codes "explore") rows) (IsFaultOf (codes "explore") rows) }
{
    let Some(file) = text(matches, "file") else {
        unreachable!()
    };
    let Some(options) = options_of(matches) else {
        unreachable!()
    };
    let ledger = flag(matches, "ledger");
    let book = text(matches, "book");
    if book.is_some() && options.merge() == Merge::Exact {
        return Err(WordsFault::BookMerge);
    }
    Ok(Request::Explore {
        file,
        options,
        ledger,
        book,
    })
}

/// The request of `replay`, whose arguments have values.
fn replay_of<'a>(alloc: Global, matches: &ArgMatches<'a>) -> Result<Request<'a>, WordsFault>
    requires file { HasText (rows_of (found_of matches.now)) (codes "file") }
    requires schedule { HasText (rows_of (found_of matches.now)) (codes "schedule") }
    ensures { let rows = rows_of (found_of matches.now) in
        MatchResult result (IsRequestOf (codes "replay") rows) (IsFaultOf (codes "replay") rows) }
{
    let Some(file) = text(matches, "file") else {
        unreachable!()
    };
    let Some(text) = text(matches, "schedule") else {
        unreachable!()
    };
    match schedule_of(alloc, text)? {
        Some(schedule) => Ok(Request::Replay { file, schedule }),
        None => Err(WordsFault::Schedule),
    }
}

/// The request of `check`, whose arguments have values.
fn check_of<'a>(matches: &ArgMatches<'a>) -> Request<'a>
    requires file { HasText (rows_of (found_of matches.now)) (codes "file") }
    requires book { HasText (rows_of (found_of matches.now)) (codes "book") }
    ensures { IsRequestOf (codes "check") (rows_of (found_of matches.now)) result }
{
    let Some(file) = text(matches, "file") else {
        unreachable!()
    };
    let Some(book) = text(matches, "book") else {
        unreachable!()
    };
    Request::Check { file, book }
}

/// The request of the subcommand of that name with these matches.
fn request_of<'a>(
    alloc: Global,
    name: &str,
    matches: &ArgMatches<'a>,
) -> Result<Request<'a>, WordsFault>
    requires { (words : List Text) × AreRead words name.now (rows_of (found_of matches.now)) }
    ensures { (words : List Text) → AreRead words name.now (rows_of (found_of matches.now))
        → MatchResult result (AskFor words) (AreRefused words) }
{
    match name {
        "explore" => explore_of(matches),
        "replay" => replay_of(alloc, matches),
        "check" => Ok(check_of(matches)),
        _ => unreachable!(),
    }
}

/// The request that the words make by the exact reading of `clap`. The first word is the program's
/// name.
///
/// # Errors
/// `Usage` exactly where `clap` refuses the words or finds a call for help, `Schedule` where the words ask for
/// a replay of what is no schedule, `BookMerge` where they ask for a book file with exact merging, and `OutOfMemory`,
/// which may come at any point.
pub fn read_words<'a>(alloc: Global, words: &'a [&'a str]) -> Result<Request<'a>, WordsFault>
    ensures { let texts = map (λ s. s.now) words.entry.now in
        MatchResult result (AskFor texts) (AreRefused texts) }
{
    let command = treesched_command(alloc)?;
    let matches = match command.try_get_matches_from(words) {
        Ok(matches) => matches,
        Err(error) => return Err(fault_of(alloc, &error)),
    };
    match matches.subcommand() {
        Some((name, inner)) => request_of(alloc, name, inner),
        None => unreachable!(),
    }
}

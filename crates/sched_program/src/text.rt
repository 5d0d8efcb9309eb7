//! The program that a JSON text describes.
ghost use Rattle.std.specs.Prelude.{◌≡◌, ◌≢◌, ℕ, ◌<◌, ◌≤◌, ◌↔◌, ◌⊎◌, AllPairs, codes, length, map};
ghost use Rattle.std.specs.Prelude.{slice_index, IsTrue, MatchBool, IfSome, IfNone, IfOk, IfErr, Some};
ghost use Rattle.std.specs.List.{AllByRecursion};
ghost use Rattle.serde_json.specs.Find.{get};
ghost use Rattle.serde_json.specs.View.{view};
ghost use Rattle.sched_program.specs.Text.{HasMember, IsListOf, IsKey, tree_name};
ghost use Rattle.sched_program.specs.Text.{HasTree, HasThreads, IsTextOf, IsJsonTextOf};
ghost use Rattle.sched_program.specs.Faults.{IsListWithin, AreOpCounts, HasOpCounts, HasWords};
ghost use Rattle.sched_program.specs.Faults.{Passes, earlier, IsFirstFault, IsFirstFaultOf};
ghost use Rattle.sched_program.specs.declared.operation.Tree.{Tree};

use crate::OutOfMemory;
use crate::fault::ProgramFault;
use crate::operation::{Op, Tree};
use crate::program::Program;
use crate::reader::{CountReader, KeyReader, ListOf, OpReader, Reader, WordReader, list_len};
use crate::sequence::Sequence;
use crate::turns::turns_within;
use crate::version::version_of;
use serde_json::Value;
use std::alloc::Global;

/// The tree with this name.
fn tree_named(name: &str) -> Option<Tree>
    ensures found { IfSome result (λ tree. name.now ≡ tree_name tree) }
    ensures none { IfNone result ((tree : Tree) → name.now ≢ tree_name tree) }
{
    match name {
        "atomic" => Some(Tree::Atomic),
        "ellen" => Some(Tree::Ellen),
        "ellen-no-mark" => Some(Tree::EllenNoMark),
        "ellen-no-iflag" => Some(Tree::EllenNoIflag),
        "nm" => Some(Tree::Nm),
        "nm-no-tag" => Some(Tree::NmNoTag),
        _ => None,
    }
}

/// The tree that a value names.
fn tree_of(value: &Value) -> Option<Tree>
    ensures found { IfSome result (HasTree (view value.now)) }
    ensures none { IfNone result (¬ Passes (view value.now) ProgramFault.Tree) }
{
    tree_named(value.get("tree")?.as_str()?)
}

/// The member of this name, if it is a list and the number of its items is from `least` to `most`.
fn list_member<'a>(value: &'a Value, name: &str, least: usize, most: usize) -> Option<&'a Value>
    ensures found { IfSome result (λ member. (get name.now (view value.now) ≡ Some (view member.now))
        × IsListWithin least most (view member.now)) }
    ensures none { IfNone result (¬ HasMember name.now (IsListWithin least most) (view value.now)) }
{
    let Some(member) = value.get(name) else {
        return None;
    };
    let Some(count) = list_len(member) else {
        return None;
    };
    if count < least || count > most {
        return None;
    }
    Some(member)
}

/// The keys that a value's tree begins with.
fn initial_of(alloc: Global, value: &Value) -> Result<Sequence<u8>, ProgramFault>
    ensures ok { IfOk result (λ keys.
        HasMember (codes "initial") (λ member. IsListOf IsKey member keys) (view value.now)
        × (length keys ≤ 12)) }
    ensures err { IfErr result (λ fault. (fault ≡ ProgramFault.OutOfMemory)
        ⊎ ((fault ≡ ProgramFault.Initial) × ¬ Passes (view value.now) ProgramFault.Initial)) }
{
    let Some(member) = list_member(value, "initial", 0, 12) else {
        return Err(ProgramFault::Initial);
    };
    match ListOf(KeyReader).read(alloc, member)? {
        Some(keys) => Ok(keys),
        None => Err(ProgramFault::Initial),
    }
}

/// Whether the key at an index occurs before it too.
fn stands_before(keys: &[u8], i: usize) -> bool
    requires { i < length keys.now }
    ensures { MatchBool result
        ((j : ℕ) × (j < i) × (slice_index keys.now j ≡ slice_index keys.now i))
        ((j : ℕ) → j < i → slice_index keys.now j ≢ slice_index keys.now i) }
{
    for j in 0..i {
        if keys[j] == keys[i] {
            return true;
        }
    }
    false
}

/// Whether no key occurs twice.
#[tactic(auto, using(crate::proofs::Distinct::pairs))]
fn is_distinct(keys: &[u8]) -> bool
    ensures { MatchBool result (AllPairs (λ a b. a ≢ b) keys.now) (¬ AllPairs (λ a b. a ≢ b) keys.now) }
{
    for i in 0..keys.len() {
        if stands_before(keys, i) {
            return false;
        }
    }
    true
}

/// Whether threads may have these numbers of operations.
fn are_op_counts(counts: &[usize]) -> bool
    ensures { MatchBool result (AreOpCounts counts.now) (¬ AreOpCounts counts.now) }
{
    let mut total = 0;
    for count in counts {
        if *count < 1 || *count > 6 {
            return false;
        }
        total += *count;
    }
    total <= 12
}

/// Whether the threads of a list are lists, and have permitted numbers of operations.
#[tactic(auto, using(crate::proofs::Members::counts_fit))]
fn has_op_counts(alloc: Global, threads: &Value) -> Result<bool, OutOfMemory>
    ensures { IfOk result (λ passes. MatchBool passes (HasOpCounts (view threads.now))
        (¬ HasOpCounts (view threads.now))) }
{
    match ListOf(CountReader).read(alloc, threads)? {
        Some(counts) => Ok(are_op_counts(counts.as_slice())),
        None => Ok(false),
    }
}

/// Whether each operation of a list of threads has a word.
fn has_words(alloc: Global, threads: &Value) -> Result<bool, OutOfMemory>
    ensures { IfOk result (λ passes. MatchBool passes (HasWords (view threads.now)) (¬ HasWords (view threads.now))) }
{
    match ListOf(ListOf(WordReader)).read(alloc, threads)? {
        Some(_words) => Ok(true),
        None => Ok(false),
    }
}

/// The operations of each thread of a value that passes the tests before theirs.
fn threads_of(alloc: Global, value: &Value) -> Result<Sequence<Sequence<Op>>, ProgramFault>
    requires { AllByRecursion (Passes (view value.now)) (earlier ProgramFault.Threads) }
    ensures ok { IfOk result (λ threads.
        HasThreads (view value.now) threads
        × (1 ≤ length threads) × (length threads ≤ 4) × AreOpCounts (map length threads)) }
    ensures err { IfErr result (IsFirstFault (view value.now)) }
{
    let Some(threads) = list_member(value, "threads", 1, 4) else {
        return Err(ProgramFault::Threads);
    };
    if !has_op_counts(alloc, threads)? {
        return Err(ProgramFault::Ops);
    }
    if !has_words(alloc, threads)? {
        return Err(ProgramFault::Op);
    }
    match ListOf(ListOf(OpReader)).read(alloc, threads)? {
        Some(threads) => Ok(threads),
        None => Err(ProgramFault::Key),
    }
}

/// The program that a value is the text of.
fn program_of(alloc: Global, value: &Value) -> Result<Program, ProgramFault>
    ensures ok { IfOk result (IsTextOf (view value.now)) }
    ensures err { IfErr result (IsFirstFault (view value.now)) }
{
    if !value.is_object() {
        return Err(ProgramFault::NotObject);
    }
    let Some(version) = version_of(value) else {
        return Err(ProgramFault::Version);
    };
    let Some(tree) = tree_of(value) else {
        return Err(ProgramFault::Tree);
    };
    let initial = initial_of(alloc, value)?;
    if !is_distinct(initial.as_slice()) {
        return Err(ProgramFault::InitialTwice);
    }
    let threads = threads_of(alloc, value)?;
    let Some(turns) = turns_within(alloc, value, version, threads.as_slice())? else {
        return Err(ProgramFault::After);
    };
    Ok(Program::new(tree, initial, threads, turns))
}

impl Program {
    ghost use Rattle.sched_program.specs.Program.{Program};

    /// The program that a JSON text of version 1 or 2 describes.
    ///
    /// The text is one object with the members `version`, `tree`, `initial` and `threads`, and other members are
    /// ignored. Keys are written as digits alone, from 0 to 99, and `version` as the digit 1 or 2. In version 2 an
    /// operation may have a member `after`, which says what it waits for.
    ///
    /// # Errors
    ///
    /// The first fault of the text in the order of [`ProgramFault`], or `OutOfMemory` where a growth was refused.
    pub fn from_json(alloc: Global, text: &[u8]) -> Result<Program, ProgramFault>
        ensures program { IfOk result (IsJsonTextOf text.now) }
        ensures only { IfOk result (λ program. (other : Program) → IsJsonTextOf text.now other → other ≡ program) }
        ensures fault { IfErr result (IsFirstFaultOf text.now) }
        ensures refused { IfErr result (λ fault. fault ≢ ProgramFault.OutOfMemory
            → (program : Program) → ¬ IsJsonTextOf text.now program) }
    {
        match Value::from_slice(alloc, text) {
            Ok(value) => program_of(alloc, &value),
            Err(error) => {
                if error.is_memory() {
                    Err(ProgramFault::OutOfMemory)
                } else {
                    Err(ProgramFault::NotJson)
                }
            }
        }
    }
}

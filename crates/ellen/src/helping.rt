//! The rows of the table at which an operation carries out what a record says.
ghost use Rattle.std.specs.Prelude.{◌≡◌, IfOk, OnErr};
ghost use Rattle.ellen.specs.declared.place.HelpLoc.TheVariants as place;
ghost use Rattle.ellen.specs.Table.{help_act, returned, settled, marking, help, unflagged, exchange_update};
ghost use Rattle.ellen.specs.Table.{exchange_child, side_apart, help_first, first_place, awaiting, unmarked, with_base};

use crate::machine::Ellen;
use crate::memory::{EllenMem, UpdateWord, child_on, is_word, key_in, update_of};
use crate::place::{Base, EllenLoc, HelpLoc, Resume, SearchLoc};
use sched_program::{OutOfMemory, Sequence};
use std::alloc::Global;
use tree_machine::{Outcome, Side, extended, side_of};

/// What comes of an access, unless memory is refused.
pub(crate) type Access = Result<Outcome<EllenLoc>, OutOfMemory>;

/// The first place of an operation, and that of one that begins again.
pub fn first_place() -> EllenLoc
    ensures { result ≡ first_place }
{
    EllenLoc::Search(SearchLoc::Update {
        above: None,
        parent: 0,
    })
}

/// What is done where no backtrack is awaited any more.
fn settled(done: bool, base: Base) -> Outcome<EllenLoc>
    ensures { result ≡ settled done base }
{
    match base {
        Base::Again => Outcome::Goes(first_place()),
        Base::Insert => Outcome::Replies(true),
        Base::Delete => {
            if done {
                Outcome::Replies(true)
            } else {
                Outcome::Goes(first_place())
            }
        }
    }
}

/// Ends one helping: the last backtrack that is awaited, or what is done behind it.
#[tactic(auto, using(crate::proofs::Stack::returned_is))]
fn returned(alloc: Global, done: bool, resume: &Resume) -> Access
    ensures { IfOk result (λ outcome. outcome ≡ returned done resume.now) }
{
    let mut stack = resume.stack.copy(alloc)?;
    match stack.as_mut_vec().pop() {
        Some(number) => {
            let resume = Resume {
                stack,
                base: resume.base,
            };
            Ok(Outcome::Goes(EllenLoc::Help(HelpLoc::Back(number), resume)))
        }
        None => Ok(settled(done, resume.base)),
    }
}

/// The place that marks the parent of a delete, or the one behind it in the variant without the mark.
pub fn marking(machine: Ellen, number: u16) -> HelpLoc
    ensures { result ≡ marking machine number }
{
    if machine.mark {
        HelpLoc::Mark(number)
    } else {
        HelpLoc::Right(number)
    }
}

/// Begins to help what an update word announces.
fn help(alloc: Global, machine: Ellen, word: UpdateWord, resume: Resume) -> Access
    ensures { IfOk result (λ outcome. outcome ≡ help machine word resume) }
{
    match word {
        UpdateWord::InsertFlag(number) => Ok(Outcome::Goes(EllenLoc::Help(
            HelpLoc::InsChild(number),
            resume,
        ))),
        UpdateWord::DeleteFlag(number) => Ok(Outcome::Goes(EllenLoc::Help(
            marking(machine, number),
            resume,
        ))),
        UpdateWord::Mark(number) => Ok(Outcome::Goes(EllenLoc::Help(
            HelpLoc::Right(number),
            resume,
        ))),
        UpdateWord::Untouched | UpdateWord::Clean(_) => returned(alloc, true, &resume),
    }
}

/// An empty stack of backtracks, and what is done behind it.
pub fn with_base(alloc: Global, base: Base) -> Resume
    ensures { result ≡ with_base base }
{
    Resume {
        stack: Sequence::new(alloc),
        base,
    }
}

/// Helps what a word announces that a search found in its way. The search then begins again.
pub fn help_first(alloc: Global, machine: Ellen, word: UpdateWord) -> Access
    ensures { IfOk result (λ outcome. outcome ≡ help_first machine word) }
{
    help(alloc, machine, word, with_base(alloc, Base::Again))
}

/// The stack with one more delete whose backtrack is awaited.
fn awaiting(alloc: Global, number: u16, resume: &Resume) -> Result<Resume, OutOfMemory>
    ensures { IfOk result (λ more. more ≡ awaiting number resume.now) }
{
    Ok(Resume {
        stack: extended(alloc, &resume.stack, &[number])?,
        base: resume.base,
    })
}

/// Where the parent of a delete has another update word than the record says: the mark, or what is to be helped first.
fn unmarked(
    alloc: Global,
    machine: Ellen,
    number: u16,
    resume: &Resume,
    found: UpdateWord,
) -> Access
    ensures { IfOk result (λ outcome. outcome ≡ unmarked machine number resume.now found) }
{
    if is_word(found, UpdateWord::Mark(number)) {
        let resume = resume.copy(alloc)?;
        Ok(Outcome::Goes(EllenLoc::Help(HelpLoc::Right(number), resume)))
    } else {
        help(alloc, machine, found, awaiting(alloc, number, resume)?)
    }
}

/// Takes back the flag of a record at a node, if it is still there, and ends the helping.
fn take_flag_back(
    alloc: Global,
    mem: &mut EllenMem,
    node: u16,
    flag: UpdateWord,
    number: u16,
    done: bool,
    resume: &Resume,
) -> Access
    ensures ok { IfOk result (λ outcome. exchange_update mem.old node flag (UpdateWord.Clean number) mem.old
        (returned done resume.now) (λ _. returned done resume.now) ≡ (mem.new, outcome)) }
    ensures err { OnErr result (mem.new ≡ mem.old) }
{
    let Some(found) = update_of(mem.node(node)) else {
        return Ok(Outcome::Astray);
    };
    let outcome = returned(alloc, done, resume)?;
    if is_word(found, flag) {
        mem.set_update(node, UpdateWord::Clean(number));
    }
    Ok(outcome)
}

/// The side on which the leaf of a delete is not, where this is the right child.
fn side_apart(right: u16, leaf: u16) -> Side
    ensures { result ≡ side_apart right leaf }
{
    if right == leaf {
        Side::Left
    } else {
        Side::Right
    }
}

/// Exchanges the child of a node, on the side of the new child's key. The operation goes on at one place, whether it
/// succeeds or not.
fn exchange_child(
    alloc: Global,
    mem: &mut EllenMem,
    node: u16,
    old: u16,
    new: u16,
    at: HelpLoc,
    resume: &Resume,
) -> Access
    ensures ok { IfOk result (λ outcome. exchange_child mem.old node old new mem.old
        (Outcome.Goes (EllenLoc.Help at resume.now)) (Outcome.Goes (EllenLoc.Help at resume.now))
        ≡ (mem.new, outcome)) }
    ensures err { OnErr result (mem.new ≡ mem.old) }
{
    let parent = mem.node(node);
    let side = side_of(key_in(mem.node(new)), key_in(parent));
    let Some(child) = child_on(side, parent) else {
        return Ok(Outcome::Astray);
    };
    let goal = EllenLoc::Help(at, resume.copy(alloc)?);
    if child == old {
        mem.set_child(node, side, new);
    }
    Ok(Outcome::Goes(goal))
}

/// Takes back the flag of a delete, whether it is done or not.
fn unflag_row(alloc: Global, mem: &mut EllenMem, number: u16, done: bool, resume: &Resume) -> Access
    ensures ok { IfOk result (λ outcome. unflagged done number resume.now mem.old ≡ (mem.new, outcome)) }
    ensures err { OnErr result (mem.new ≡ mem.old) }
{
    let Some(info) = mem.delete_record(number) else {
        return Ok(Outcome::Astray);
    };
    let flag = UpdateWord::DeleteFlag(number);
    take_flag_back(alloc, mem, info.grandparent, flag, number, done, resume)
}

// ---- the rows of the table

impl Ellen {
    /// Writes the new node of an insert as a child of its parent.
    fn insert_row(self, alloc: Global, mem: &mut EllenMem, number: u16, resume: &Resume) -> Access
        ensures ok { IfOk result (λ next. help_act self (place.InsChild number) resume.now mem.old ≡ (mem.new, next)) }
        ensures err { OnErr result (mem.new ≡ mem.old) }
    {
        let Some(info) = mem.insert_record(number) else {
            return Ok(Outcome::Astray);
        };
        let at = HelpLoc::InsClean(number);
        exchange_child(alloc, mem, info.parent, info.leaf, info.new, at, resume)
    }

    /// Takes the flag of an insert back.
    fn clean_row(self, alloc: Global, mem: &mut EllenMem, number: u16, resume: &Resume) -> Access
        ensures ok { IfOk result (λ next. help_act self (place.InsClean number) resume.now mem.old ≡ (mem.new, next)) }
        ensures err { OnErr result (mem.new ≡ mem.old) }
    {
        let Some(info) = mem.insert_record(number) else {
            return Ok(Outcome::Astray);
        };
        let flag = UpdateWord::InsertFlag(number);
        take_flag_back(alloc, mem, info.parent, flag, number, true, resume)
    }

    /// Marks the parent of a delete.
    fn mark_row(self, alloc: Global, mem: &mut EllenMem, number: u16, resume: &Resume) -> Access
        ensures ok { IfOk result (λ next. help_act self (place.Mark number) resume.now mem.old ≡ (mem.new, next)) }
        ensures err { OnErr result (mem.new ≡ mem.old) }
    {
        let Some(info) = mem.delete_record(number) else {
            return Ok(Outcome::Astray);
        };
        let Some(found) = update_of(mem.node(info.parent)) else {
            return Ok(Outcome::Astray);
        };
        if !is_word(found, info.parent_update) {
            return unmarked(alloc, self, number, resume, found);
        }
        let goal = EllenLoc::Help(HelpLoc::Right(number), resume.copy(alloc)?);
        mem.set_update(info.parent, UpdateWord::Mark(number));
        Ok(Outcome::Goes(goal))
    }

    /// Reads the right child of the parent of a delete.
    fn right_row(self, alloc: Global, mem: &EllenMem, number: u16, resume: &Resume) -> Access
        ensures { IfOk result (λ outcome. help_act self (place.Right number) resume.now mem.now ≡ (mem.now, outcome)) }
    {
        let Some(info) = mem.delete_record(number) else {
            return Ok(Outcome::Astray);
        };
        let Some(child) = child_on(Side::Right, mem.node(info.parent)) else {
            return Ok(Outcome::Astray);
        };
        let at = HelpLoc::Other {
            record: number,
            side: side_apart(child, info.leaf),
        };
        Ok(Outcome::Goes(EllenLoc::Help(at, resume.copy(alloc)?)))
    }

    /// Reads the child of that parent on the side where the leaf is not.
    fn other_row(
        self,
        alloc: Global,
        mem: &EllenMem,
        number: u16,
        side: Side,
        resume: &Resume,
    ) -> Access
        ensures { IfOk result (λ outcome. help_act self (place.Other number side) resume.now mem.now
            ≡ (mem.now, outcome)) }
    {
        let Some(info) = mem.delete_record(number) else {
            return Ok(Outcome::Astray);
        };
        let Some(other) = child_on(side, mem.node(info.parent)) else {
            return Ok(Outcome::Astray);
        };
        let at = HelpLoc::Splice {
            record: number,
            other,
        };
        Ok(Outcome::Goes(EllenLoc::Help(at, resume.copy(alloc)?)))
    }

    /// Replaces the parent by that other child.
    fn splice_row(
        self,
        alloc: Global,
        mem: &mut EllenMem,
        number: u16,
        other: u16,
        resume: &Resume,
    ) -> Access
        ensures ok { IfOk result (λ outcome. help_act self (place.Splice number other) resume.now mem.old
            ≡ (mem.new, outcome)) }
        ensures err { OnErr result (mem.new ≡ mem.old) }
    {
        let Some(info) = mem.delete_record(number) else {
            return Ok(Outcome::Astray);
        };
        let at = HelpLoc::DelClean(number);
        exchange_child(alloc, mem, info.grandparent, info.parent, other, at, resume)
    }
}

/// One access at a place that carries out what a record says.
pub fn help_act(
    alloc: Global,
    machine: Ellen,
    at: HelpLoc,
    resume: &Resume,
    mem: &mut EllenMem,
) -> Access
    ensures ok { IfOk result (λ outcome. help_act machine at resume.now mem.old ≡ (mem.new, outcome)) }
    ensures err { OnErr result (mem.new ≡ mem.old) }
{
    match at {
        HelpLoc::InsChild(number) => machine.insert_row(alloc, mem, number, resume),
        HelpLoc::InsClean(number) => machine.clean_row(alloc, mem, number, resume),
        HelpLoc::Mark(number) => machine.mark_row(alloc, mem, number, resume),
        HelpLoc::Right(number) => machine.right_row(alloc, mem, number, resume),
        HelpLoc::Other {
            record: number,
            side,
        } => machine.other_row(alloc, mem, number, side, resume),
        HelpLoc::Splice {
            record: number,
            other,
        } => machine.splice_row(alloc, mem, number, other, resume),
        HelpLoc::DelClean(number) => unflag_row(alloc, mem, number, true, resume),
        HelpLoc::Back(number) => unflag_row(alloc, mem, number, false, resume),
    }
}

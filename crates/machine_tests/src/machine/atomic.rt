//! The calls of the machine `Atomic`.

use crate::machine::broken::{Broken, Case, ensure};
use sched_program::{Op, OutOfMemory, Sequence, ShortList};
use std::alloc::Global;
use std::test::Fail;
use tree_machine::{Atomic, AtomicForm, AtomicLoc, Encode, Machine, Outcome, Replies, Thread};

/// An operation, the keys before and after it, and its reply.
struct Access {
    case: Case,
    op: Op,
    before: &'static [u8],
    after: &'static [u8],
    reply: bool,
}

const ACCESSES: &[Access] = &[
    Access {
        case: Case::InsertOfANewKey,
        op: Op::Insert(15),
        before: &[10, 20],
        after: &[10, 15, 20],
        reply: true,
    },
    Access {
        case: Case::InsertOfAKeyThatIsThere,
        op: Op::Insert(20),
        before: &[10, 20],
        after: &[10, 20],
        reply: false,
    },
    Access {
        case: Case::DeleteOfAKeyThatIsThere,
        op: Op::Delete(10),
        before: &[10, 20],
        after: &[20],
        reply: true,
    },
    Access {
        case: Case::DeleteOfNoKey,
        op: Op::Delete(15),
        before: &[10, 20],
        after: &[10, 20],
        reply: false,
    },
    Access {
        case: Case::FindOfAKeyThatIsThere,
        op: Op::Find(20),
        before: &[10, 20],
        after: &[10, 20],
        reply: true,
    },
    Access {
        case: Case::FindOfNoKey,
        op: Op::Find(15),
        before: &[10, 20],
        after: &[10, 20],
        reply: false,
    },
];

/// A memory of these keys.
fn keys_of(alloc: Global, keys: &[u8]) -> Result<Sequence<u8>, OutOfMemory> {
    Ok(Sequence::from_vec(Vec::from_slice(alloc, keys)?))
}

/// Whether an operation on these keys gives this reply.
fn replies(
    alloc: Global,
    keys: &mut Sequence<u8>,
    op: Op,
    reply: bool,
) -> Result<bool, OutOfMemory> {
    match Atomic.act(alloc, op, &AtomicLoc::Do, keys)? {
        Outcome::Replies(given) => Ok(given == reply),
        _ => Ok(false),
    }
}

/// An operation leaves the keys that the access expects after it, and gives its reply.
fn is_access(alloc: Global, access: &Access) -> Result<(), Broken> {
    let mut keys = keys_of(alloc, access.before)?;
    let is_reply = replies(alloc, &mut keys, access.op, access.reply)?;
    ensure(is_reply && keys.as_slice() == access.after, access.case)
}

fn every_access(alloc: Global) -> Result<(), Broken> {
    for access in ACCESSES {
        is_access(alloc, access)?;
    }
    Ok(())
}

#[test]
fn accesses(rt: HostRuntime) -> Result<(), Broken> {
    match every_access(rt.alloc()) {
        Ok(()) => Ok(()),
        Err(_) => every_access(rt.alloc()),
    }
}

/// The initial keys of a program are sorted.
fn are_built(alloc: Global) -> Result<(), Broken> {
    let keys = Atomic.build(alloc, &[20, 10, 15])?;
    ensure(
        keys.as_slice() == [10, 15, 20].as_slice(),
        Case::KeysInOrder,
    )
}

/// A copy of these keys is equal to what it is of.
fn is_copied(alloc: Global, keys: &Sequence<u8>) -> Result<(), Broken> {
    let copy = Atomic.copy_mem(alloc, keys)?;
    ensure(copy.as_slice() == [10, 20].as_slice(), Case::CopyOfKeys)
}

fn are_copied(alloc: Global) -> Result<(), Broken> {
    let keys = keys_of(alloc, &[10, 20])?;
    is_copied(alloc, &keys)
}

/// A copy of a place is equal to what it is of.
fn is_place_copied(alloc: Global) -> Result<(), Broken> {
    let place = Atomic.copy_loc(alloc, &AtomicLoc::Do)?;
    ensure(place == AtomicLoc::Do, Case::CopyOfAPlace)
}

fn built_and_copied(alloc: Global) -> Result<(), Broken> {
    are_built(alloc)?;
    are_copied(alloc)?;
    is_place_copied(alloc)
}

#[test]
fn builds_and_copies(rt: HostRuntime) -> Result<(), Broken> {
    match built_and_copied(rt.alloc()) {
        Ok(()) => Ok(()),
        Err(_) => built_and_copied(rt.alloc()),
    }
}

#[test]
fn a_place_may_write(rt: HostRuntime) -> Result<(), Fail> {
    assert!(rt; !Atomic.only_reads(&AtomicLoc::Do));
    Ok(())
}

/// Keys and the places that threads hold.
struct Held {
    case: Case,
    keys: &'static [u8],
    places: &'static [Option<AtomicLoc>],
}

const HELD: &Held = &Held {
    case: Case::TheSameKeysAndPlaces,
    keys: &[10, 20],
    places: &[Some(AtomicLoc::Do), None],
};

const OTHER_KEYS: &Held = &Held {
    case: Case::OtherKeys,
    keys: &[10, 21],
    places: &[Some(AtomicLoc::Do), None],
};

const OTHER_PLACES: &Held = &Held {
    case: Case::OtherPlaces,
    keys: &[10, 20],
    places: &[None, Some(AtomicLoc::Do)],
};

/// Threads that hold these places.
fn threads_of(
    alloc: Global,
    places: &[Option<AtomicLoc>],
) -> Result<Sequence<Thread<AtomicLoc>>, OutOfMemory> {
    let mut threads = Sequence::new(alloc);
    for place in places {
        threads.push(Thread {
            replies: Replies::new(),
            place: *place,
            notes: ShortList::new(),
        })?;
    }
    Ok(threads)
}

/// The form of keys and threads, in a box: whoever holds two drops two values, and not each of their lists.
fn boxed_form(
    alloc: Global,
    keys: &Sequence<u8>,
    threads: &[Thread<AtomicLoc>],
) -> Result<Box<AtomicForm>, OutOfMemory> {
    Ok(Box::new(alloc, Atomic.form(alloc, keys, threads)?)?)
}

/// The form of keys and places.
fn form_of(alloc: Global, held: &Held) -> Result<Box<AtomicForm>, OutOfMemory> {
    let keys = keys_of(alloc, held.keys)?;
    let threads = threads_of(alloc, held.places)?;
    boxed_form(alloc, &keys, threads.as_slice())
}

/// Keys and places have the form of `HELD`, or not, as is expected.
fn compare_forms(alloc: Global, held: &Held, expected: bool) -> Result<(), Broken> {
    let form = form_of(alloc, held)?;
    let other = form_of(alloc, HELD)?;
    ensure((*form == *other) == expected, held.case)
}

fn compared_forms(alloc: Global) -> Result<(), Broken> {
    compare_forms(alloc, HELD, true)?;
    compare_forms(alloc, OTHER_KEYS, false)?;
    compare_forms(alloc, OTHER_PLACES, false)
}

#[test]
fn other_keys_and_places_have_other_forms(rt: HostRuntime) -> Result<(), Broken> {
    match compared_forms(rt.alloc()) {
        Ok(()) => Ok(()),
        Err(_) => compared_forms(rt.alloc()),
    }
}

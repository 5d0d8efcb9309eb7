//! Places at which an access only reads.

use ellen::{Base, Ellen, EllenLoc, HelpLoc, Resume, SearchLoc, UpdateWord};
use sched_program::{Op, Sequence};
use std::alloc::Global;
use std::test::Fail;
use tree_machine::{Encode, Machine, Side};

const WHOLE: Ellen = Ellen {
    mark: true,
    iflag: true,
};

const CHILD: EllenLoc = EllenLoc::Search(SearchLoc::Child {
    above: None,
    parent: 0,
    update: UpdateWord::Untouched,
});

const IFLAG: EllenLoc = EllenLoc::Search(SearchLoc::IFlag {
    parent: 0,
    update: UpdateWord::Untouched,
    leaf: 1,
});

/// An operation that carries out what a record says, with no backtrack awaited.
fn helping(alloc: Global, at: HelpLoc) -> EllenLoc {
    let resume = Resume {
        stack: Sequence::new(alloc),
        base: Base::Delete,
    };
    EllenLoc::Help(at, resume)
}

#[test]
fn a_search_only_reads(rt: HostRuntime) -> Result<(), Fail> {
    assert!(rt; WHOLE.only_reads(&WHOLE.begin(Op::Find(5))));
    assert!(rt; WHOLE.only_reads(&CHILD));
    Ok(())
}

#[test]
fn children_of_a_delete_are_only_read(rt: HostRuntime) -> Result<(), Fail> {
    let right = helping(rt.alloc(), HelpLoc::Right(0));
    assert!(rt; WHOLE.only_reads(&right));
    let other = HelpLoc::Other {
        record: 0,
        side: Side::Left,
    };
    let other = helping(rt.alloc(), other);
    assert!(rt; WHOLE.only_reads(&other));
    Ok(())
}

#[test]
fn an_exchange_may_write(rt: HostRuntime) -> Result<(), Fail> {
    assert!(rt; !WHOLE.only_reads(&IFLAG));
    let mark = helping(rt.alloc(), HelpLoc::Mark(0));
    assert!(rt; !WHOLE.only_reads(&mark));
    Ok(())
}

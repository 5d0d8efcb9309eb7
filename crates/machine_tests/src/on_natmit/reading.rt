//! Places at which an access only reads.

use crate::on_natmit::follow::{BELOW_1, WHOLE};
use natmit::{Mode, NatMitLoc, Path};
use sched_program::Op;
use std::test::Fail;
use tree_machine::{Encode, Machine, Side};

/// The path to a child of node 6, to which a tagged word led.
const PAST_A_TAG: Path = Path {
    ancestor: 0,
    successor: 1,
    parent: 6,
};

const READS: [NatMitLoc; 5] = [
    NatMitLoc::Begin { mode: Mode::Plain },
    NatMitLoc::Down {
        path: BELOW_1,
        leaf: 6,
        tag: false,
        mode: Mode::Plain,
    },
    NatMitLoc::Look {
        path: PAST_A_TAG,
        leaf: 5,
    },
    NatMitLoc::CleanRead {
        path: PAST_A_TAG,
        mode: Mode::Owner(5),
    },
    NatMitLoc::Sibling {
        path: PAST_A_TAG,
        side: Side::Right,
        mode: Mode::Owner(5),
    },
];

#[test]
fn a_search_only_reads(rt: HostRuntime) -> Result<(), Fail> {
    assert!(rt; WHOLE.only_reads(&WHOLE.begin(Op::Find(5))));
    for place in READS {
        assert!(rt; WHOLE.only_reads(&place));
    }
    Ok(())
}

const FLAG: NatMitLoc = NatMitLoc::Flag {
    path: PAST_A_TAG,
    leaf: 5,
};

const TAG: NatMitLoc = NatMitLoc::Tag {
    path: PAST_A_TAG,
    side: Side::Right,
    mode: Mode::Owner(5),
};

const PUT: NatMitLoc = NatMitLoc::Put {
    path: PAST_A_TAG,
    leaf: 5,
};

#[test]
fn an_exchange_may_write(rt: HostRuntime) -> Result<(), Fail> {
    for place in [FLAG, TAG, PUT] {
        assert!(rt; !WHOLE.only_reads(&place));
    }
    Ok(())
}

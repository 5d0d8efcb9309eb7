//! The variant without the tag.

use crate::on_natmit::follow::{BELOW_8, Row, Seen, is_followed};
use natmit::{Mode, NatMit, NatMitLoc};
use std::test::Fail;
use tree_machine::Side;

const WITHOUT_TAG: NatMit = NatMit { tag: false };

/// Over 10 and 20, T0 deletes 10 and T1 inserts 25 and looks for it. T1 puts the key below node 8, which T0 has cut
/// off.
const LOST_INSERT: &str =
    r#"{"version":1,"tree":"nm-no-tag","initial":[10,20],"threads":[[{"op":"delete","key":10}],[{"op":"insert","key":25},{"op":"find","key":25}]]}"#;

const LOST_INSERT_ROWS: [Row; 9] = [
    (
        0,
        5,
        Seen::At(
            0,
            NatMitLoc::Sibling {
                path: BELOW_8,
                side: Side::Right,
                mode: Mode::Owner(5),
            },
        ),
    ),
    (0, 1, Seen::Word(8, Side::Right, (false, false, 7))),
    (1, 2, Seen::Busy(1)),
    (0, 1, Seen::Replied(0, true)),
    (0, 0, Seen::Word(6, Side::Left, (false, false, 7))),
    (1, 2, Seen::Replied(1, true)),
    (1, 0, Seen::Word(8, Side::Right, (false, false, 10))),
    (1, 2, Seen::Replied(1, false)),
    (1, 0, Seen::Ordered(true)),
];

/// Over 20, 10, 40 and 30 (leaf 7 and node 10 below node 8, node 12 and leaf 9 below node 10), T0 deletes 40 and
/// inserts 45, T1 deletes 10 and puts node 10 back after T0 has cut it off: 45 is below it, on the left of 40.
const LOST_DELETE: &str =
    r#"{"version":1,"tree":"nm-no-tag","initial":[20,10,40,30],"threads":[[{"op":"delete","key":40},{"op":"insert","key":45}],[{"op":"delete","key":10}]]}"#;

const LOST_DELETE_ROWS: [Row; 8] = [
    (
        0,
        7,
        Seen::At(
            0,
            NatMitLoc::Swing {
                ancestor: 8,
                successor: 10,
                flag: false,
                node: 12,
                mode: Mode::Owner(9),
            },
        ),
    ),
    (
        1,
        6,
        Seen::At(
            1,
            NatMitLoc::Swing {
                ancestor: 6,
                successor: 8,
                flag: false,
                node: 10,
                mode: Mode::Owner(7),
            },
        ),
    ),
    (0, 1, Seen::Replied(0, true)),
    (0, 0, Seen::Word(8, Side::Right, (false, false, 12))),
    (0, 5, Seen::Replied(0, true)),
    (0, 0, Seen::Ordered(true)),
    (1, 1, Seen::Word(6, Side::Left, (false, false, 10))),
    (1, 0, Seen::Ordered(false)),
];

#[test]
fn an_insert_is_lost(rt: HostRuntime) -> Result<(), Fail> {
    assert!(rt; is_followed(rt.alloc(), WITHOUT_TAG, LOST_INSERT, &LOST_INSERT_ROWS));
    Ok(())
}

#[test]
fn a_delete_is_lost_and_with_it_the_order(rt: HostRuntime) -> Result<(), Fail> {
    assert!(rt; is_followed(rt.alloc(), WITHOUT_TAG, LOST_DELETE, &LOST_DELETE_ROWS));
    Ok(())
}

//! An insert and a delete that help another delete, and an insert that helps none.

use crate::on_natmit::follow::{
    BELOW_1, BELOW_6, BELOW_8, BELOW_10, Row, Seen, WHOLE, is_followed,
};
use natmit::{Mode, NatMitLoc};
use std::test::Fail;
use tree_machine::Side;

/// Over the key 10 (leaf 5 below node 6), T0 deletes 10 and T1 inserts 5. The insert finds the leaf flagged, and
/// cuts it off.
const INSERT_HELPS: &str =
    r#"{"version":1,"tree":"nm","initial":[10],"threads":[[{"op":"delete","key":10}],[{"op":"insert","key":5}]]}"#;

const INSERT_HELPS_ROWS: [Row; 20] = [
    (0, 3, Seen::Word(6, Side::Left, (true, false, 5))),
    (
        1,
        2,
        Seen::At(
            1,
            NatMitLoc::Put {
                path: BELOW_6,
                leaf: 5,
            },
        ),
    ),
    (
        1,
        1,
        Seen::At(
            1,
            NatMitLoc::Look {
                path: BELOW_6,
                leaf: 5,
            },
        ),
    ),
    (1, 0, Seen::Word(6, Side::Left, (true, false, 5))),
    (
        1,
        1,
        Seen::At(
            1,
            NatMitLoc::CleanRead {
                path: BELOW_6,
                mode: Mode::Plain,
            },
        ),
    ),
    (
        1,
        1,
        Seen::At(
            1,
            NatMitLoc::Tag {
                path: BELOW_6,
                side: Side::Right,
                mode: Mode::Plain,
            },
        ),
    ),
    (1, 1, Seen::Word(6, Side::Right, (false, true, 3))),
    (
        1,
        1,
        Seen::At(
            1,
            NatMitLoc::Swing {
                ancestor: 1,
                successor: 6,
                flag: false,
                node: 3,
                mode: Mode::Plain,
            },
        ),
    ),
    (1, 1, Seen::Word(1, Side::Left, (false, false, 3))),
    (1, 0, Seen::At(1, NatMitLoc::Begin { mode: Mode::Plain })),
    (
        1,
        1,
        Seen::At(
            1,
            NatMitLoc::Put {
                path: BELOW_1,
                leaf: 3,
            },
        ),
    ),
    (1, 1, Seen::Word(1, Side::Left, (false, false, 8))),
    (1, 0, Seen::Word(8, Side::Left, (false, false, 7))),
    (1, 0, Seen::Word(8, Side::Right, (false, false, 3))),
    (1, 0, Seen::Replied(1, true)),
    (
        0,
        3,
        Seen::At(
            0,
            NatMitLoc::Swing {
                ancestor: 1,
                successor: 6,
                flag: false,
                node: 3,
                mode: Mode::Owner(5),
            },
        ),
    ),
    (
        0,
        1,
        Seen::At(
            0,
            NatMitLoc::Begin {
                mode: Mode::Owner(5),
            },
        ),
    ),
    (0, 0, Seen::Word(1, Side::Left, (false, false, 8))),
    (
        0,
        1,
        Seen::At(
            0,
            NatMitLoc::Down {
                path: BELOW_1,
                leaf: 8,
                tag: false,
                mode: Mode::Owner(5),
            },
        ),
    ),
    (0, 1, Seen::Replied(0, true)),
];

/// T1 deletes 10 too, and inserts it again: leaf 7, which is not the leaf that T0 flagged.
const DELETE_HELPS: &str =
    r#"{"version":1,"tree":"nm","initial":[10],"threads":[[{"op":"delete","key":10}],[{"op":"delete","key":10},{"op":"insert","key":10}]]}"#;

const DELETE_HELPS_ROWS: [Row; 12] = [
    (
        1,
        2,
        Seen::At(
            1,
            NatMitLoc::Flag {
                path: BELOW_6,
                leaf: 5,
            },
        ),
    ),
    (0, 3, Seen::Word(6, Side::Left, (true, false, 5))),
    (
        1,
        1,
        Seen::At(
            1,
            NatMitLoc::Look {
                path: BELOW_6,
                leaf: 5,
            },
        ),
    ),
    (
        1,
        1,
        Seen::At(
            1,
            NatMitLoc::CleanRead {
                path: BELOW_6,
                mode: Mode::Plain,
            },
        ),
    ),
    (1, 4, Seen::Word(1, Side::Left, (false, false, 3))),
    (1, 1, Seen::Replied(1, false)),
    (1, 2, Seen::Replied(1, true)),
    (1, 0, Seen::Word(8, Side::Left, (false, false, 7))),
    (
        0,
        4,
        Seen::At(
            0,
            NatMitLoc::Begin {
                mode: Mode::Owner(5),
            },
        ),
    ),
    (0, 0, Seen::Word(1, Side::Left, (false, false, 8))),
    (0, 2, Seen::Replied(0, true)),
    (0, 0, Seen::Word(8, Side::Left, (false, false, 7))),
];

/// Over 10 and 20, T1 inserts 25 at leaf 7. T0 inserts 30 there before it (node 10), and deletes 10, which tags the
/// word of node 10: another node than T1's leaf, so T1 does not help.
const LOOK_AT_ANOTHER_NODE: &str =
    r#"{"version":1,"tree":"nm","initial":[10,20],"threads":[[{"op":"insert","key":30},{"op":"delete","key":10}],[{"op":"insert","key":25}]]}"#;

const LOOK_AT_ANOTHER_NODE_ROWS: [Row; 8] = [
    (
        1,
        3,
        Seen::At(
            1,
            NatMitLoc::Put {
                path: BELOW_8,
                leaf: 7,
            },
        ),
    ),
    (0, 4, Seen::Word(8, Side::Right, (false, false, 10))),
    (0, 6, Seen::Word(8, Side::Right, (false, true, 10))),
    (
        1,
        1,
        Seen::At(
            1,
            NatMitLoc::Look {
                path: BELOW_8,
                leaf: 7,
            },
        ),
    ),
    (1, 1, Seen::At(1, NatMitLoc::Begin { mode: Mode::Plain })),
    (
        1,
        4,
        Seen::At(
            1,
            NatMitLoc::Put {
                path: BELOW_10,
                leaf: 7,
            },
        ),
    ),
    (1, 1, Seen::Word(10, Side::Left, (false, false, 12))),
    (1, 0, Seen::Replied(1, true)),
];

#[test]
fn an_insert_helps(rt: HostRuntime) -> Result<(), Fail> {
    assert!(rt; is_followed(rt.alloc(), WHOLE, INSERT_HELPS, &INSERT_HELPS_ROWS));
    Ok(())
}

#[test]
fn a_delete_helps_and_owns_its_leaf_alone(rt: HostRuntime) -> Result<(), Fail> {
    assert!(rt; is_followed(rt.alloc(), WHOLE, DELETE_HELPS, &DELETE_HELPS_ROWS));
    Ok(())
}

#[test]
fn another_node_is_not_helped(rt: HostRuntime) -> Result<(), Fail> {
    assert!(rt;
        is_followed(
            rt.alloc(),
            WHOLE,
            LOOK_AT_ANOTHER_NODE,
            &LOOK_AT_ANOTHER_NODE_ROWS
        )
    );
    Ok(())
}

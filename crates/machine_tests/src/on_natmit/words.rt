//! Exchanges that meet flagged and tagged words.

use crate::on_natmit::follow::{BELOW_6, BELOW_8, BELOW_10, Row, Seen, WHOLE, is_followed};
use natmit::{Mode, NatMitLoc};
use std::test::Fail;
use tree_machine::Side;

/// Over 10 and 20 (leaves 5 and 7 below node 8, that below node 6), T0 deletes 10 and T1 inserts 25. The insert meets
/// the tagged word of leaf 7: its sibling is flagged, so leaf 7 itself moves up.
const PUT_AT_A_TAG: &str =
    r#"{"version":1,"tree":"nm","initial":[10,20],"threads":[[{"op":"delete","key":10}],[{"op":"insert","key":25}]]}"#;

const PUT_AT_A_TAG_ROWS: [Row; 13] = [
    (0, 6, Seen::Word(8, Side::Right, (false, true, 7))),
    (
        1,
        3,
        Seen::At(
            1,
            NatMitLoc::Put {
                path: BELOW_8,
                leaf: 7,
            },
        ),
    ),
    (
        1,
        1,
        Seen::At(
            1,
            NatMitLoc::Look {
                path: BELOW_8,
                leaf: 7,
            },
        ),
    ),
    (
        1,
        1,
        Seen::At(
            1,
            NatMitLoc::CleanRead {
                path: BELOW_8,
                mode: Mode::Plain,
            },
        ),
    ),
    (
        1,
        1,
        Seen::At(
            1,
            NatMitLoc::Tag {
                path: BELOW_8,
                side: Side::Right,
                mode: Mode::Plain,
            },
        ),
    ),
    (
        1,
        2,
        Seen::At(
            1,
            NatMitLoc::Swing {
                ancestor: 6,
                successor: 8,
                flag: false,
                node: 7,
                mode: Mode::Plain,
            },
        ),
    ),
    (1, 1, Seen::Word(6, Side::Left, (false, false, 7))),
    (
        1,
        2,
        Seen::At(
            1,
            NatMitLoc::Put {
                path: BELOW_6,
                leaf: 7,
            },
        ),
    ),
    (1, 1, Seen::Word(6, Side::Left, (false, false, 10))),
    (1, 0, Seen::Replied(1, true)),
    (
        0,
        1,
        Seen::At(
            0,
            NatMitLoc::Swing {
                ancestor: 6,
                successor: 8,
                flag: false,
                node: 7,
                mode: Mode::Owner(5),
            },
        ),
    ),
    (0, 1, Seen::Word(6, Side::Left, (false, false, 10))),
    (0, 3, Seen::Replied(0, true)),
];

/// T1 deletes 20, and meets the same word.
const FLAG_AT_A_TAG: &str =
    r#"{"version":1,"tree":"nm","initial":[10,20],"threads":[[{"op":"delete","key":10}],[{"op":"delete","key":20}]]}"#;

const FLAG_AT_A_TAG_ROWS: [Row; 10] = [
    (
        1,
        3,
        Seen::At(
            1,
            NatMitLoc::Flag {
                path: BELOW_8,
                leaf: 7,
            },
        ),
    ),
    (0, 6, Seen::Word(8, Side::Right, (false, true, 7))),
    (
        1,
        1,
        Seen::At(
            1,
            NatMitLoc::Look {
                path: BELOW_8,
                leaf: 7,
            },
        ),
    ),
    (1, 0, Seen::Word(8, Side::Right, (false, true, 7))),
    (
        1,
        1,
        Seen::At(
            1,
            NatMitLoc::CleanRead {
                path: BELOW_8,
                mode: Mode::Plain,
            },
        ),
    ),
    (1, 4, Seen::Word(6, Side::Left, (false, false, 7))),
    (1, 3, Seen::Word(6, Side::Left, (true, false, 7))),
    (1, 4, Seen::Word(1, Side::Left, (false, false, 3))),
    (1, 0, Seen::Replied(1, true)),
    (0, 3, Seen::Replied(0, true)),
];

/// Both flag their leaf before either tags: the tag keeps the flag, which goes up with the leaf.
const TAG_AT_A_FLAG_ROWS: [Row; 13] = [
    (0, 4, Seen::Word(8, Side::Left, (true, false, 5))),
    (1, 4, Seen::Word(8, Side::Right, (true, false, 7))),
    (0, 2, Seen::Word(8, Side::Right, (true, true, 7))),
    (
        0,
        1,
        Seen::At(
            0,
            NatMitLoc::Swing {
                ancestor: 6,
                successor: 8,
                flag: true,
                node: 7,
                mode: Mode::Owner(5),
            },
        ),
    ),
    (0, 1, Seen::Word(6, Side::Left, (true, false, 7))),
    (0, 0, Seen::Replied(0, true)),
    (1, 2, Seen::Word(8, Side::Left, (true, true, 5))),
    (
        1,
        2,
        Seen::At(
            1,
            NatMitLoc::Begin {
                mode: Mode::Owner(7),
            },
        ),
    ),
    (1, 0, Seen::Word(6, Side::Left, (true, false, 7))),
    (
        1,
        2,
        Seen::At(
            1,
            NatMitLoc::CleanRead {
                path: BELOW_6,
                mode: Mode::Owner(7),
            },
        ),
    ),
    (
        1,
        1,
        Seen::At(
            1,
            NatMitLoc::Tag {
                path: BELOW_6,
                side: Side::Right,
                mode: Mode::Owner(7),
            },
        ),
    ),
    (1, 3, Seen::Word(1, Side::Left, (false, false, 3))),
    (1, 0, Seen::Replied(1, true)),
];

/// Over 10, 20 and 30 (leaf 5 and node 10 below node 8, leaves 7 and 9 below node 10), T1 is about to cut off node 10
/// when T0 tags the word that points there. T1's exchange fails; it searches again, and passes the tag, so that its
/// ancestor stays above the tagged word.
const SWING_AT_A_TAG: &str =
    r#"{"version":1,"tree":"nm","initial":[10,20,30],"threads":[[{"op":"delete","key":10}],[{"op":"delete","key":30}]]}"#;

const SWING_AT_A_TAG_ROWS: [Row; 11] = [
    (
        1,
        8,
        Seen::At(
            1,
            NatMitLoc::Swing {
                ancestor: 8,
                successor: 10,
                flag: false,
                node: 7,
                mode: Mode::Owner(9),
            },
        ),
    ),
    (0, 6, Seen::Word(8, Side::Right, (false, true, 10))),
    (
        1,
        1,
        Seen::At(
            1,
            NatMitLoc::Begin {
                mode: Mode::Owner(9),
            },
        ),
    ),
    (1, 0, Seen::Word(8, Side::Right, (false, true, 10))),
    (
        1,
        3,
        Seen::At(
            1,
            NatMitLoc::Down {
                path: BELOW_8,
                leaf: 10,
                tag: true,
                mode: Mode::Owner(9),
            },
        ),
    ),
    (
        1,
        1,
        Seen::At(
            1,
            NatMitLoc::CleanRead {
                path: BELOW_10,
                mode: Mode::Owner(9),
            },
        ),
    ),
    (
        1,
        3,
        Seen::At(
            1,
            NatMitLoc::Swing {
                ancestor: 6,
                successor: 8,
                flag: false,
                node: 7,
                mode: Mode::Owner(9),
            },
        ),
    ),
    (1, 1, Seen::Word(6, Side::Left, (false, false, 7))),
    (1, 0, Seen::Replied(1, true)),
    (
        0,
        2,
        Seen::At(
            0,
            NatMitLoc::Begin {
                mode: Mode::Owner(5),
            },
        ),
    ),
    (0, 2, Seen::Replied(0, true)),
];

#[test]
fn exchanges_compare_whole_words(rt: HostRuntime) -> Result<(), Fail> {
    assert!(rt; is_followed(rt.alloc(), WHOLE, PUT_AT_A_TAG, &PUT_AT_A_TAG_ROWS));
    assert!(rt; is_followed(rt.alloc(), WHOLE, FLAG_AT_A_TAG, &FLAG_AT_A_TAG_ROWS));
    assert!(rt; is_followed(rt.alloc(), WHOLE, SWING_AT_A_TAG, &SWING_AT_A_TAG_ROWS));
    Ok(())
}

#[test]
fn a_tag_keeps_the_flag(rt: HostRuntime) -> Result<(), Fail> {
    assert!(rt; is_followed(rt.alloc(), WHOLE, FLAG_AT_A_TAG, &TAG_AT_A_FLAG_ROWS));
    Ok(())
}

//! Runs of one operation alone.

use crate::on_natmit::follow::{Broken, Row, Seen, WHOLE, ends, is_followed};
use std::test::Fail;

/// Programs of one operation, with its number of steps and its reply.
const LONE: [(&str, usize, bool); 8] = [
    (
        r#"{"version":1,"tree":"nm","initial":[],"threads":[[{"op":"insert","key":5}]]}"#,
        2,
        true,
    ),
    (
        r#"{"version":1,"tree":"nm","initial":[],"threads":[[{"op":"find","key":5}]]}"#,
        1,
        false,
    ),
    (
        r#"{"version":1,"tree":"nm","initial":[10],"threads":[[{"op":"delete","key":10}]]}"#,
        7,
        true,
    ),
    (
        r#"{"version":1,"tree":"nm","initial":[10],"threads":[[{"op":"delete","key":5}]]}"#,
        2,
        false,
    ),
    (
        r#"{"version":1,"tree":"nm","initial":[10],"threads":[[{"op":"insert","key":10}]]}"#,
        2,
        false,
    ),
    (
        r#"{"version":1,"tree":"nm","initial":[10],"threads":[[{"op":"find","key":10}]]}"#,
        2,
        true,
    ),
    (
        r#"{"version":1,"tree":"nm","initial":[10],"threads":[[{"op":"insert","key":5}]]}"#,
        3,
        true,
    ),
    (
        r#"{"version":1,"tree":"nm","initial":[10,20],"threads":[[{"op":"delete","key":20}]]}"#,
        8,
        true,
    ),
];

#[test]
fn an_operation_alone_ends(rt: HostRuntime) -> Result<(), Fail> {
    for (text, steps, reply) in LONE {
        let rows: [Row; 2] = [
            (0, steps - 1, Seen::Ordered(true)),
            (0, 1, Seen::Replied(0, reply)),
        ];
        assert!(rt; is_followed(rt.alloc(), WHOLE, text, &rows), "{text}");
        let more: [Row; 1] = [(0, steps + 1, Seen::Ordered(true))];
        assert!(rt;
            ends(rt.alloc(), WHOLE, text, &more) == Err(Broken::NotEnabled),
            "{text}"
        );
    }
    Ok(())
}

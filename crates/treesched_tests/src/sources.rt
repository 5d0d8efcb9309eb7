//! Programs that the tests are about, as they are written.

/// Two threads that each insert 1.
pub const TWO_INSERTS: &[u8] =
    br#"{"version":1,"tree":"atomic","initial":[],"threads":[[{"op":"insert","key":1}],[{"op":"insert","key":1}]]}"#;

/// `TWO_INSERTS`, where the second insert waits for the first.
pub const TWO_IN_TURN: &[u8] =
    br#"{"version":2,"tree":"atomic","initial":[],"threads":[[{"op":"insert","key":1}],[{"op":"insert","key":1,"after":[0,1]}]]}"#;

/// The text of `TWO_IN_TURN` with version 1, in which none waits.
pub const TWO_AT_ONCE: &[u8] =
    br#"{"version":1,"tree":"atomic","initial":[],"threads":[[{"op":"insert","key":1}],[{"op":"insert","key":1,"after":[0,1]}]]}"#;

/// Three threads that each insert 1.
pub const THREE_INSERTS: &[u8] =
    br#"{"version":1,"tree":"atomic","initial":[],"threads":[[{"op":"insert","key":1}],[{"op":"insert","key":1}],[{"op":"insert","key":1}]]}"#;

/// `THREE_INSERTS`, where the last insert waits for the first.
pub const LAST_IN_TURN: &[u8] =
    br#"{"version":2,"tree":"atomic","initial":[],"threads":[[{"op":"insert","key":1}],[{"op":"insert","key":1}],[{"op":"insert","key":1,"after":[0,1]}]]}"#;

/// Two threads that each find 5 in an empty tree.
pub const TWO_FINDS: &[u8] =
    br#"{"version":1,"tree":"ellen","initial":[],"threads":[[{"op":"find","key":5}],[{"op":"find","key":5}]]}"#;

/// `TWO_FINDS`, where the second find waits for the first.
pub const FINDS_IN_TURN: &[u8] =
    br#"{"version":2,"tree":"ellen","initial":[],"threads":[[{"op":"find","key":5}],[{"op":"find","key":5,"after":[0,1]}]]}"#;

/// A delete beside an insert on Ellen's tree.
pub const ELLEN_INSERT: &[u8] =
    br#"{"version":1,"tree":"ellen","initial":[10],"threads":[[{"op":"delete","key":10}],[{"op":"insert","key":5}]]}"#;

/// A delete beside an insert on the tree of Natarajan and Mittal.
pub const NM_INSERT: &[u8] =
    br#"{"version":1,"tree":"nm","initial":[10],"threads":[[{"op":"delete","key":10}],[{"op":"insert","key":5}]]}"#;

/// A delete beside an insert and a find on Ellen's tree.
pub const ELLEN: &[u8] =
    br#"{"version":1,"tree":"ellen","initial":[10],"threads":[[{"op":"delete","key":10}],[{"op":"insert","key":5},{"op":"find","key":5}]]}"#;

/// `ELLEN` without the mark.
pub const ELLEN_NO_MARK: &[u8] =
    br#"{"version":1,"tree":"ellen-no-mark","initial":[10],"threads":[[{"op":"delete","key":10}],[{"op":"insert","key":5},{"op":"find","key":5}]]}"#;

/// `ELLEN` without the flag of an insert.
pub const ELLEN_NO_IFLAG: &[u8] =
    br#"{"version":1,"tree":"ellen-no-iflag","initial":[10],"threads":[[{"op":"delete","key":10}],[{"op":"insert","key":5},{"op":"find","key":5}]]}"#;

/// `ELLEN`, where the insert waits for the delete.
pub const ELLEN_IN_TURN: &[u8] =
    br#"{"version":2,"tree":"ellen","initial":[10],"threads":[[{"op":"delete","key":10}],[{"op":"insert","key":5,"after":[0,1]},{"op":"find","key":5}]]}"#;

/// `ELLEN_NO_IFLAG`, where the insert waits for the delete.
pub const ELLEN_NO_IFLAG_IN_TURN: &[u8] =
    br#"{"version":2,"tree":"ellen-no-iflag","initial":[10],"threads":[[{"op":"delete","key":10}],[{"op":"insert","key":5,"after":[0,1]},{"op":"find","key":5}]]}"#;

/// `ELLEN_NO_MARK`, where the insert waits for the delete.
pub const ELLEN_NO_MARK_IN_TURN: &[u8] =
    br#"{"version":2,"tree":"ellen-no-mark","initial":[10],"threads":[[{"op":"delete","key":10}],[{"op":"insert","key":5,"after":[0,1]},{"op":"find","key":5}]]}"#;

/// A delete beside an insert and a find on the tree of Natarajan and Mittal.
pub const NM: &[u8] =
    br#"{"version":1,"tree":"nm","initial":[10,20],"threads":[[{"op":"delete","key":10}],[{"op":"insert","key":25},{"op":"find","key":25}]]}"#;

/// `NM` without the tag.
pub const NM_NO_TAG: &[u8] =
    br#"{"version":1,"tree":"nm-no-tag","initial":[10,20],"threads":[[{"op":"delete","key":10}],[{"op":"insert","key":25},{"op":"find","key":25}]]}"#;

/// `NM`, where the insert waits for the delete.
pub const NM_IN_TURN: &[u8] =
    br#"{"version":2,"tree":"nm","initial":[10,20],"threads":[[{"op":"delete","key":10}],[{"op":"insert","key":25,"after":[0,1]},{"op":"find","key":25}]]}"#;

/// `NM_NO_TAG`, where the insert waits for the delete.
pub const NM_NO_TAG_IN_TURN: &[u8] =
    br#"{"version":2,"tree":"nm-no-tag","initial":[10,20],"threads":[[{"op":"delete","key":10}],[{"op":"insert","key":25,"after":[0,1]},{"op":"find","key":25}]]}"#;

//! Texts that are no programs, by the fault that is reported for them, each with what it shows.

/// Texts that are no JSON, each with what it shows.
pub const NOT_JSON: &[(&str, &str)] = &[
    ("no bytes", r#""#),
    (
        "the first 40 bytes",
        r#"{"version":1,"tree":"atomic","initial":["#,
    ),
    (
        "more after the line feed",
        "{\"version\":1,\"tree\":\"atomic\",\"initial\":[],\"threads\":[[{\"op\":\"insert\",\"key\":1}],[{\"op\":\"insert\",\"key\":1}]]}\nx",
    ),
    (
        "a byte order mark",
        "\u{feff}{\"version\":1,\"tree\":\"atomic\",\"initial\":[],\"threads\":[[{\"op\":\"insert\",\"key\":1}],[{\"op\":\"insert\",\"key\":1}]]}",
    ),
    (
        "a number with leading zeros",
        r#"{"version":1,"tree":"atomic","initial":[],"threads":[[{"op":"insert","key":007}]]}"#,
    ),
];

/// Texts whose value is no object.
pub const NOT_OBJECT: &[(&str, &str)] = &[("a list", r#"[]"#), ("a number", r#"1"#)];

/// Texts whose first fault is their version.
pub const OF_VERSION: &[(&str, &str)] = &[
    ("no member", r#"{}"#),
    (
        "no version",
        r#"{"tree":"atomic","initial":[],"threads":[[{"op":"insert","key":1}],[{"op":"insert","key":1}]]}"#,
    ),
    (
        "version 2 with a point",
        r#"{"version":2.0,"tree":"atomic","initial":[],"threads":[[{"op":"insert","key":1}],[{"op":"insert","key":1}]]}"#,
    ),
    (
        "version 3",
        r#"{"version":3,"tree":"atomic","initial":[],"threads":[[{"op":"insert","key":1}],[{"op":"insert","key":1}]]}"#,
    ),
    (
        "a version with a point",
        r#"{"version":1.0,"tree":"atomic","initial":[],"threads":[[{"op":"insert","key":1}],[{"op":"insert","key":1}]]}"#,
    ),
    (
        "a version in quotes",
        r#"{"version":"1","tree":"atomic","initial":[],"threads":[[{"op":"insert","key":1}],[{"op":"insert","key":1}]]}"#,
    ),
    (
        "a version before all others",
        r#"{"version":0,"tree":"oak","initial":[7,7],"threads":[[{"op":"insert","key":1}],[{"op":"insert","key":1}]]}"#,
    ),
];

/// Texts whose first fault is their tree.
pub const OF_TREE: &[(&str, &str)] = &[
    (
        "no tree",
        r#"{"version":1,"initial":[],"threads":[[{"op":"insert","key":1}],[{"op":"insert","key":1}]]}"#,
    ),
    (
        "another tree",
        r#"{"version":1,"tree":"oak","initial":[],"threads":[[{"op":"insert","key":1}],[{"op":"insert","key":1}]]}"#,
    ),
    (
        "a tree in capitals",
        r#"{"version":1,"tree":"Atomic","initial":[],"threads":[[{"op":"insert","key":1}],[{"op":"insert","key":1}]]}"#,
    ),
    (
        "a tree that is a number",
        r#"{"version":1,"tree":1,"initial":[],"threads":[[{"op":"insert","key":1}],[{"op":"insert","key":1}]]}"#,
    ),
    (
        "a tree before the keys",
        r#"{"version":1,"tree":"oak","initial":[100],"threads":[[{"op":"insert","key":1}],[{"op":"insert","key":1}]]}"#,
    ),
];

/// Texts whose first fault is in their initial keys.
pub const OF_INITIAL: &[(&str, &str)] = &[
    (
        "no initial keys",
        r#"{"version":1,"tree":"atomic","threads":[[{"op":"insert","key":1}],[{"op":"insert","key":1}]]}"#,
    ),
    (
        "initial keys that are no list",
        r#"{"version":1,"tree":"atomic","initial":{},"threads":[[{"op":"insert","key":1}],[{"op":"insert","key":1}]]}"#,
    ),
    (
        "a float",
        r#"{"version":1,"tree":"atomic","initial":[5.0],"threads":[[{"op":"insert","key":1}],[{"op":"insert","key":1}]]}"#,
    ),
    (
        "an initial key 100",
        r#"{"version":1,"tree":"atomic","initial":[100],"threads":[[{"op":"insert","key":1}],[{"op":"insert","key":1}]]}"#,
    ),
    (
        "a list as a key",
        r#"{"version":1,"tree":"atomic","initial":[[]],"threads":[[{"op":"insert","key":1}],[{"op":"insert","key":1}]]}"#,
    ),
    (
        "thirteen initial keys",
        r#"{"version":1,"tree":"atomic","initial":[0,1,2,3,4,5,6,7,8,9,10,11,12],"threads":[[{"op":"insert","key":1}],[{"op":"insert","key":1}]]}"#,
    ),
    (
        "thirteen initial keys, one of them twice",
        r#"{"version":1,"tree":"atomic","initial":[0,0,1,2,3,4,5,6,7,8,9,10,11],"threads":[[{"op":"insert","key":1}],[{"op":"insert","key":1}]]}"#,
    ),
];

/// Texts whose first fault is an initial key that occurs twice.
pub const OF_INITIAL_TWICE: &[(&str, &str)] = &[
    (
        "a key twice",
        r#"{"version":1,"tree":"atomic","initial":[7,7],"threads":[[{"op":"insert","key":1}],[{"op":"insert","key":1}]]}"#,
    ),
    (
        "a key twice, not side by side",
        r#"{"version":1,"tree":"atomic","initial":[7,8,9,7],"threads":[[{"op":"insert","key":1}],[{"op":"insert","key":1}]]}"#,
    ),
    (
        "a key twice, and a key 100",
        r#"{"version":1,"tree":"atomic","initial":[7,7],"threads":[[{"op":"insert","key":100}],[{"op":"insert","key":1}]]}"#,
    ),
    (
        "a key twice, and no threads",
        r#"{"version":1,"tree":"atomic","initial":[7,7]}"#,
    ),
];

/// Texts whose first fault is their list of threads.
pub const OF_THREADS: &[(&str, &str)] = &[
    (
        "no threads",
        r#"{"version":1,"tree":"atomic","initial":[]}"#,
    ),
    (
        "threads that are no list",
        r#"{"version":1,"tree":"atomic","initial":[],"threads":{}}"#,
    ),
    (
        "an empty list of threads",
        r#"{"version":1,"tree":"atomic","initial":[],"threads":[]}"#,
    ),
    (
        "five threads",
        r#"{"version":1,"tree":"atomic","initial":[],"threads":[[{"op":"insert","key":1}],[{"op":"insert","key":1}],[{"op":"insert","key":1}],[{"op":"insert","key":1}],[{"op":"insert","key":1}]]}"#,
    ),
    (
        "five threads, one empty",
        r#"{"version":1,"tree":"atomic","initial":[],"threads":[[],[{"op":"insert","key":1}],[{"op":"insert","key":1}],[{"op":"insert","key":1}],[{"op":"insert","key":1}]]}"#,
    ),
];

/// Texts whose first fault is a thread's list of operations.
pub const OF_OPS: &[(&str, &str)] = &[
    (
        "an empty thread",
        r#"{"version":1,"tree":"atomic","initial":[],"threads":[[{"op":"insert","key":1}],[]]}"#,
    ),
    (
        "a thread that is no list",
        r#"{"version":1,"tree":"atomic","initial":[],"threads":[[{"op":"insert","key":1}],{}]}"#,
    ),
    (
        "seven operations in a thread",
        r#"{"version":1,"tree":"atomic","initial":[],"threads":[[{"op":"insert","key":1},{"op":"insert","key":1},{"op":"insert","key":1},{"op":"insert","key":1},{"op":"insert","key":1},{"op":"insert","key":1},{"op":"insert","key":1}]]}"#,
    ),
    (
        "four threads of four operations",
        r#"{"version":1,"tree":"atomic","initial":[],"threads":[[{"op":"insert","key":1},{"op":"insert","key":1},{"op":"insert","key":1},{"op":"insert","key":1}],[{"op":"insert","key":1},{"op":"insert","key":1},{"op":"insert","key":1},{"op":"insert","key":1}],[{"op":"insert","key":1},{"op":"insert","key":1},{"op":"insert","key":1},{"op":"insert","key":1}],[{"op":"insert","key":1},{"op":"insert","key":1},{"op":"insert","key":1},{"op":"insert","key":1}]]}"#,
    ),
    (
        "a strange word before an empty thread",
        r#"{"version":1,"tree":"atomic","initial":[],"threads":[[{"op":"put","key":1}],[]]}"#,
    ),
];

/// Texts whose first fault is an operation's word.
pub const OF_OP: &[(&str, &str)] = &[
    (
        "a strange word",
        r#"{"version":1,"tree":"atomic","initial":[],"threads":[[{"op":"put","key":1}],[{"op":"insert","key":1}]]}"#,
    ),
    (
        "a word in capitals",
        r#"{"version":1,"tree":"atomic","initial":[],"threads":[[{"op":"Find","key":1}]]}"#,
    ),
    (
        "no word",
        r#"{"version":1,"tree":"atomic","initial":[],"threads":[[{"key":1}]]}"#,
    ),
    (
        "an operation that is no object",
        r#"{"version":1,"tree":"atomic","initial":[],"threads":[[[]]]}"#,
    ),
    (
        "a key 100 before a strange word",
        r#"{"version":1,"tree":"atomic","initial":[],"threads":[[{"op":"insert","key":100}],[{"op":"insert","key":1},{"op":"put","key":1}]]}"#,
    ),
];

/// Texts whose first fault is an operation's key.
pub const OF_KEY: &[(&str, &str)] = &[
    (
        "a key 100",
        r#"{"version":1,"tree":"atomic","initial":[],"threads":[[{"op":"insert","key":1}],[{"op":"insert","key":1},{"op":"insert","key":100}]]}"#,
    ),
    (
        "no key",
        r#"{"version":1,"tree":"atomic","initial":[],"threads":[[{"op":"insert"}]]}"#,
    ),
    (
        "a key below 0",
        r#"{"version":1,"tree":"atomic","initial":[],"threads":[[{"op":"insert","key":-1}]]}"#,
    ),
    (
        "a key -0",
        r#"{"version":1,"tree":"atomic","initial":[],"threads":[[{"op":"insert","key":-0}]]}"#,
    ),
    (
        "a key with an exponent",
        r#"{"version":1,"tree":"atomic","initial":[],"threads":[[{"op":"insert","key":1e1}]]}"#,
    ),
    (
        "a key in quotes",
        r#"{"version":1,"tree":"atomic","initial":[],"threads":[[{"op":"insert","key":"5"}]]}"#,
    ),
    (
        "a key of 2^64",
        r#"{"version":1,"tree":"atomic","initial":[],"threads":[[{"op":"insert","key":18446744073709551616}]]}"#,
    ),
];

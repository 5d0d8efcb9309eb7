//! Deletes that meet another operation, each with the lines of its steps.

/// A delete finds its parent flagged by an insert, helps it, takes its flag back and begins again.
pub const BACKTRACK: (&str, &str) = (
    r#"{"version":1,"tree":"ellen","initial":[10],"threads":[[{"op":"delete","key":10}],[{"op":"insert","key":5}]]}"#,
    "\
0 Child - 0 U
0 Update 0:U 5
0 Child 0:U 5 U
0 DFlag 0:U 5 U 3
1 Child - 0 U
1 Update 0:U 5
1 Child 0:U 5 U
1 IFlag 5 U 3
1 InsChild 0 [] insert | 5: 101 IFLAG0 3 4 | 6: 5 | 7: 10 | 8: 10 U 6 7 | Ins 5 3 8
0 Mark 1 [] delete | 0: 102 DFLAG1 5 2 | Del 0 5 3 U
0 InsChild 0 [1] delete
0 InsClean 0 [1] delete | 5: 101 IFLAG0 8 4
0 Back 1 [] delete | 5: 101 CLEAN0 8 4
0 Update - 0 | 0: 102 CLEAN1 5 2
1 InsClean 0 [] insert
1 true
0 Child - 0 CLEAN1
0 Update 0:CLEAN1 5
0 Child 0:CLEAN1 5 CLEAN0
0 Update 5:CLEAN0 8
0 Child 5:CLEAN0 8 U
0 DFlag 5:CLEAN0 8 U 7
0 Mark 2 [] delete | 5: 101 DFLAG2 8 4 | Del 5 8 7 U
0 Right 2 [] delete | 8: 10 MARK2 6 7
0 Other 2 left [] delete
0 Splice 2 6 [] delete
0 DelClean 2 [] delete | 5: 101 DFLAG2 6 4
0 true | 5: 101 CLEAN2 6 4
",
);

/// A delete finds its parent flagged by another delete: it awaits its backtrack while it helps to the end. Both splice,
/// and the second splice fails.
pub const NESTED_DELETES: (&str, &str) = (
    r#"{"version":1,"tree":"ellen","initial":[10,20,15],"threads":[[{"op":"delete","key":20}],[{"op":"delete","key":10}]]}"#,
    "\
0 Child - 0 U
0 Update 0:U 5
0 Child 0:U 5 U
0 Update 5:U 8
0 Child 5:U 8 U
0 DFlag 5:U 8 U 6
1 Child - 0 U
1 Update 0:U 5
1 Child 0:U 5 U
1 Update 5:U 8
1 Child 5:U 8 U
1 Update 8:U 11
1 Child 8:U 11 U
1 DFlag 8:U 11 U 10
1 Mark 0 [] delete | 8: 20 DFLAG0 11 6 | Del 8 11 10 U
0 Mark 1 [] delete | 5: 101 DFLAG1 8 4 | Del 5 8 6 U
0 Mark 0 [1] delete
0 Right 0 [1] delete | 11: 15 MARK0 10 9
1 Right 0 [] delete
0 Other 0 right [1] delete
1 Other 0 right [] delete
0 Splice 0 9 [1] delete
1 Splice 0 9 [] delete
0 DelClean 0 [1] delete | 8: 20 DFLAG0 9 6
1 DelClean 0 [] delete
0 Back 1 [] delete | 8: 20 CLEAN0 9 6
1 true
0 Update - 0 | 5: 101 CLEAN1 8 4
0 Child - 0 U
0 Update 0:U 5
0 Child 0:U 5 CLEAN1
0 Update 5:CLEAN1 8
0 Child 5:CLEAN1 8 CLEAN0
0 DFlag 5:CLEAN1 8 CLEAN0 6
0 Mark 2 [] delete | 5: 101 DFLAG2 8 4 | Del 5 8 6 CLEAN0
0 Right 2 [] delete | 8: 20 MARK2 9 6
0 Other 2 left [] delete
0 Splice 2 9 [] delete
0 DelClean 2 [] delete | 5: 101 DFLAG2 9 4
0 true | 5: 101 CLEAN2 9 4
",
);

/// A delete decides to help another delete, does it all and begins again; the owner comes behind.
pub const DELETE_HELPS_DELETE: (&str, &str) = (
    r#"{"version":1,"tree":"ellen","initial":[10,20],"threads":[[{"op":"delete","key":10}],[{"op":"delete","key":20}]]}"#,
    "\
0 Child - 0 U
0 Update 0:U 5
0 Child 0:U 5 U
0 Update 5:U 8
0 Child 5:U 8 U
0 DFlag 5:U 8 U 7
0 Mark 0 [] delete | 5: 101 DFLAG0 8 4 | Del 5 8 7 U
1 Child - 0 U
1 Update 0:U 5
1 Child 0:U 5 DFLAG0
1 Update 5:DFLAG0 8
1 Child 5:DFLAG0 8 U
1 Mark 0 [] again
1 Right 0 [] again | 8: 20 MARK0 7 6
1 Other 0 right [] again
1 Splice 0 6 [] again
1 DelClean 0 [] again | 5: 101 DFLAG0 6 4
1 Update - 0 | 5: 101 CLEAN0 6 4
0 Right 0 [] delete
0 Other 0 right [] delete
0 Splice 0 6 [] delete
0 DelClean 0 [] delete
0 true
1 Child - 0 U
1 Update 0:U 5
1 Child 0:U 5 CLEAN0
1 DFlag 0:U 5 CLEAN0 6
1 Mark 1 [] delete | 0: 102 DFLAG1 5 2 | Del 0 5 6 CLEAN0
1 Right 1 [] delete | 5: 101 MARK1 6 4
1 Other 1 right [] delete
1 Splice 1 4 [] delete
1 DelClean 1 [] delete | 0: 102 DFLAG1 4 2
1 true | 0: 102 CLEAN1 4 2
",
);

/// A delete whose flag fails helps the one that it found, which an insert keeps from its mark: both take the flag back,
/// and the helper finds that of a third delete there.
pub const HELPER_BACKTRACKS: (&str, &str) = (
    r#"{"version":1,"tree":"ellen","initial":[10,20],"threads":[[{"op":"delete","key":10}],[{"op":"delete","key":20}],[{"op":"insert","key":15}],[{"op":"delete","key":20}]]}"#,
    "\
0 Child - 0 U
0 Update 0:U 5
0 Child 0:U 5 U
0 Update 5:U 8
0 Child 5:U 8 U
0 DFlag 5:U 8 U 7
1 Child - 0 U
1 Update 0:U 5
1 Child 0:U 5 U
1 Update 5:U 8
1 Child 5:U 8 U
1 DFlag 5:U 8 U 6
0 Mark 0 [] delete | 5: 101 DFLAG0 8 4 | Del 5 8 7 U
1 Mark 0 [] again
2 Child - 0 U
2 Update 0:U 5
2 Child 0:U 5 DFLAG0
2 Update 5:DFLAG0 8
2 Child 5:DFLAG0 8 U
2 IFlag 8 U 7
2 InsChild 1 [] insert | 8: 20 IFLAG1 7 6 | 9: 15 | 10: 10 | 11: 15 U 10 9 | Ins 8 7 11
1 InsChild 1 [0] again
1 InsClean 1 [0] again | 8: 20 IFLAG1 11 6
1 Back 0 [] again | 8: 20 CLEAN1 11 6
0 Back 0 [] delete
0 Update - 0 | 5: 101 CLEAN0 8 4
3 Child - 0 U
3 Update 0:U 5
3 Child 0:U 5 CLEAN0
3 Update 5:CLEAN0 8
3 Child 5:CLEAN0 8 CLEAN1
3 DFlag 5:CLEAN0 8 CLEAN1 6
3 Mark 2 [] delete | 5: 101 DFLAG2 8 4 | Del 5 8 6 CLEAN1
1 Update - 0
2 InsClean 1 [] insert
2 true
3 Right 2 [] delete | 8: 20 MARK2 11 6
3 Other 2 left [] delete
3 Splice 2 11 [] delete
3 DelClean 2 [] delete | 5: 101 DFLAG2 11 4
3 true | 5: 101 CLEAN2 11 4
",
);

/// A delete whose flag fails at a clean word of another record begins again.
pub const LATE_DELETE: (&str, &str) = (
    r#"{"version":1,"tree":"ellen","initial":[10],"threads":[[{"op":"delete","key":10}],[{"op":"delete","key":10}]]}"#,
    "\
0 Child - 0 U
0 Update 0:U 5
0 Child 0:U 5 U
0 DFlag 0:U 5 U 3
1 Child - 0 U
1 Update 0:U 5
1 Child 0:U 5 U
1 DFlag 0:U 5 U 3
0 Mark 0 [] delete | 0: 102 DFLAG0 5 2 | Del 0 5 3 U
0 Right 0 [] delete | 5: 101 MARK0 3 4
0 Other 0 right [] delete
0 Splice 0 4 [] delete
0 DelClean 0 [] delete | 0: 102 DFLAG0 4 2
0 true | 0: 102 CLEAN0 4 2
1 Update - 0
1 Child - 0 CLEAN0
1 false
",
);

/// A helper of a delete comes when the next delete has flagged the same grandparent, and leaves that flag.
pub const LATE_DELETE_HELPER: (&str, &str) = (
    r#"{"version":1,"tree":"ellen","initial":[10,20,15],"threads":[[{"op":"delete","key":20},{"op":"delete","key":15}],[{"op":"delete","key":20}]]}"#,
    "\
0 Child - 0 U
0 Update 0:U 5
0 Child 0:U 5 U
0 Update 5:U 8
0 Child 5:U 8 U
0 DFlag 5:U 8 U 6
0 Mark 0 [] delete | 5: 101 DFLAG0 8 4 | Del 5 8 6 U
1 Child - 0 U
1 Update 0:U 5
1 Child 0:U 5 DFLAG0
1 Update 5:DFLAG0 8
1 Child 5:DFLAG0 8 U
1 Mark 0 [] again
1 Right 0 [] again | 8: 20 MARK0 11 6
1 Other 0 left [] again
1 Splice 0 11 [] again
1 DelClean 0 [] again | 5: 101 DFLAG0 11 4
0 Right 0 [] delete
0 Other 0 left [] delete
0 Splice 0 11 [] delete
0 DelClean 0 [] delete
0 true | 5: 101 CLEAN0 11 4
0 Child - 0 U
0 Update 0:U 5
0 Child 0:U 5 CLEAN0
0 Update 5:CLEAN0 11
0 Child 5:CLEAN0 11 U
0 DFlag 5:CLEAN0 11 U 9
0 Mark 1 [] delete | 5: 101 DFLAG1 11 4 | Del 5 11 9 U
1 Update - 0
0 Right 1 [] delete | 11: 15 MARK1 10 9
0 Other 1 left [] delete
0 Splice 1 10 [] delete
0 DelClean 1 [] delete | 5: 101 DFLAG1 10 4
0 true | 5: 101 CLEAN1 10 4
",
);

/// The splice of a helper comes when the grandparent has yet another child, and leaves it.
pub const LATE_SPLICE: (&str, &str) = (
    r#"{"version":1,"tree":"ellen","initial":[10,20],"threads":[[{"op":"delete","key":10},{"op":"insert","key":30}],[{"op":"delete","key":20}]]}"#,
    "\
0 Child - 0 U
0 Update 0:U 5
0 Child 0:U 5 U
0 Update 5:U 8
0 Child 5:U 8 U
0 DFlag 5:U 8 U 7
0 Mark 0 [] delete | 5: 101 DFLAG0 8 4 | Del 5 8 7 U
1 Child - 0 U
1 Update 0:U 5
1 Child 0:U 5 DFLAG0
1 Update 5:DFLAG0 8
1 Child 5:DFLAG0 8 U
1 Mark 0 [] again
1 Right 0 [] again | 8: 20 MARK0 7 6
1 Other 0 right [] again
1 Splice 0 6 [] again
0 Right 0 [] delete
0 Other 0 right [] delete
0 Splice 0 6 [] delete
0 DelClean 0 [] delete | 5: 101 DFLAG0 6 4
0 true | 5: 101 CLEAN0 6 4
0 Child - 0 U
0 Update 0:U 5
0 Child 0:U 5 CLEAN0
0 IFlag 5 CLEAN0 6
0 InsChild 1 [] insert | 5: 101 IFLAG1 6 4 | 9: 30 | 10: 20 | 11: 30 U 10 9 | Ins 5 6 11
0 InsClean 1 [] insert | 5: 101 IFLAG1 11 4
1 DelClean 0 [] again
0 true | 5: 101 CLEAN1 11 4
1 Update - 0
",
);

/// A delete decides to help the insert that has flagged its parent.
pub const DELETE_HELPS_INSERT: (&str, &str) = (
    r#"{"version":1,"tree":"ellen","initial":[10,20],"threads":[[{"op":"insert","key":15}],[{"op":"delete","key":20}]]}"#,
    "\
0 Child - 0 U
0 Update 0:U 5
0 Child 0:U 5 U
0 Update 5:U 8
0 Child 5:U 8 U
0 IFlag 8 U 7
0 InsChild 0 [] insert | 8: 20 IFLAG0 7 6 | 9: 15 | 10: 10 | 11: 15 U 10 9 | Ins 8 7 11
1 Child - 0 U
1 Update 0:U 5
1 Child 0:U 5 U
1 Update 5:U 8
1 Child 5:U 8 IFLAG0
1 InsChild 0 [] again
",
);

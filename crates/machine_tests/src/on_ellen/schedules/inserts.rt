//! Operations that write nothing, and inserts that meet another operation, each with the lines of its steps.

/// Operations that write nothing.
pub const REPLIES: (&str, &str) = (
    r#"{"version":1,"tree":"ellen","initial":[10],"threads":[[{"op":"find","key":10},{"op":"insert","key":10},{"op":"delete","key":20}]]}"#,
    "\
0 Child - 0 U
0 Update 0:U 5
0 Child 0:U 5 U
0 true
0 Child - 0 U
0 Update 0:U 5
0 Child 0:U 5 U
0 false
0 Child - 0 U
0 Update 0:U 5
0 Child 0:U 5 U
0 false
",
);

/// An insert whose flag fails, and one that finds the flag before it decides, help the insert and begin again.
pub const INSERTS_HELP_INSERT: (&str, &str) = (
    r#"{"version":1,"tree":"ellen","initial":[],"threads":[[{"op":"insert","key":5}],[{"op":"insert","key":7}],[{"op":"insert","key":9}]]}"#,
    "\
0 Child - 0 U
0 IFlag 0 U 1
1 Child - 0 U
1 IFlag 0 U 1
0 InsChild 0 [] insert | 0: 102 IFLAG0 1 2 | 3: 5 | 4: 101 | 5: 101 U 3 4 | Ins 0 1 5
2 Child - 0 IFLAG0
2 InsChild 0 [] again
1 InsChild 0 [] again
1 InsClean 0 [] again | 0: 102 IFLAG0 5 2
1 Update - 0 | 0: 102 CLEAN0 5 2
0 InsClean 0 [] insert
0 true
1 Child - 0 CLEAN0
1 Update 0:CLEAN0 5
1 Child 0:CLEAN0 5 U
1 IFlag 5 U 3
1 InsChild 1 [] insert | 5: 101 IFLAG1 3 4 | 6: 7 | 7: 5 | 8: 7 U 7 6 | Ins 5 3 8
1 InsClean 1 [] insert | 5: 101 IFLAG1 8 4
1 true | 5: 101 CLEAN1 8 4
2 InsClean 0 [] again
2 Update - 0
",
);

/// An insert whose flag fails at a clean word of another record begins again.
pub const LATE_INSERT: (&str, &str) = (
    r#"{"version":1,"tree":"ellen","initial":[],"threads":[[{"op":"insert","key":5}],[{"op":"insert","key":7}]]}"#,
    "\
0 Child - 0 U
0 IFlag 0 U 1
1 Child - 0 U
1 IFlag 0 U 1
0 InsChild 0 [] insert | 0: 102 IFLAG0 1 2 | 3: 5 | 4: 101 | 5: 101 U 3 4 | Ins 0 1 5
0 InsClean 0 [] insert | 0: 102 IFLAG0 5 2
0 true | 0: 102 CLEAN0 5 2
1 Update - 0
",
);

/// A helper of an insert comes when the next insert has flagged the same parent, and leaves that flag.
pub const LATE_INSERT_HELPER: (&str, &str) = (
    r#"{"version":1,"tree":"ellen","initial":[10,20],"threads":[[{"op":"insert","key":15},{"op":"insert","key":30}],[{"op":"insert","key":12}]]}"#,
    "\
0 Child - 0 U
0 Update 0:U 5
0 Child 0:U 5 U
0 Update 5:U 8
0 Child 5:U 8 U
0 IFlag 8 U 7
0 InsChild 0 [] insert | 8: 20 IFLAG0 7 6 | 9: 15 | 10: 10 | 11: 15 U 10 9 | Ins 8 7 11
1 Child - 0 U
1 Update 0:U 5
1 Child 0:U 5 U
1 Update 5:U 8
1 Child 5:U 8 IFLAG0
1 InsChild 0 [] again
1 InsClean 0 [] again | 8: 20 IFLAG0 11 6
0 InsClean 0 [] insert
0 true | 8: 20 CLEAN0 11 6
0 Child - 0 U
0 Update 0:U 5
0 Child 0:U 5 U
0 Update 5:U 8
0 Child 5:U 8 CLEAN0
0 IFlag 8 CLEAN0 6
0 InsChild 1 [] insert | 8: 20 IFLAG1 11 6 | 12: 30 | 13: 20 | 14: 30 U 13 12 | Ins 8 6 14
1 Update - 0
0 InsClean 1 [] insert | 8: 20 IFLAG1 11 14
0 true | 8: 20 CLEAN1 11 14
",
);

/// The child exchange of an insert's helper comes when the new node is spliced out again, and leaves the child.
pub const LATE_CHILD: (&str, &str) = (
    r#"{"version":1,"tree":"ellen","initial":[],"threads":[[{"op":"insert","key":5},{"op":"delete","key":5}],[{"op":"insert","key":7}]]}"#,
    "\
0 Child - 0 U
0 IFlag 0 U 1
1 Child - 0 U
1 IFlag 0 U 1
0 InsChild 0 [] insert | 0: 102 IFLAG0 1 2 | 3: 5 | 4: 101 | 5: 101 U 3 4 | Ins 0 1 5
1 InsChild 0 [] again
0 InsClean 0 [] insert | 0: 102 IFLAG0 5 2
0 true | 0: 102 CLEAN0 5 2
0 Child - 0 CLEAN0
0 Update 0:CLEAN0 5
0 Child 0:CLEAN0 5 U
0 DFlag 0:CLEAN0 5 U 3
0 Mark 1 [] delete | 0: 102 DFLAG1 5 2 | Del 0 5 3 U
0 Right 1 [] delete | 5: 101 MARK1 3 4
0 Other 1 right [] delete
0 Splice 1 4 [] delete
0 DelClean 1 [] delete | 0: 102 DFLAG1 4 2
1 InsClean 0 [] again
1 Update - 0
0 true | 0: 102 CLEAN1 4 2
",
);

/// An insert finds its parent marked, and helps the delete from there.
pub const INSERT_HELPS_MARK: (&str, &str) = (
    r#"{"version":1,"tree":"ellen","initial":[10,20],"threads":[[{"op":"delete","key":10}],[{"op":"insert","key":15}]]}"#,
    "\
0 Child - 0 U
0 Update 0:U 5
0 Child 0:U 5 U
0 Update 5:U 8
0 Child 5:U 8 U
0 DFlag 5:U 8 U 7
0 Mark 0 [] delete | 5: 101 DFLAG0 8 4 | Del 5 8 7 U
0 Right 0 [] delete | 8: 20 MARK0 7 6
1 Child - 0 U
1 Update 0:U 5
1 Child 0:U 5 DFLAG0
1 Update 5:DFLAG0 8
1 Child 5:DFLAG0 8 MARK0
1 Right 0 [] again
1 Other 0 right [] again
0 Other 0 right [] delete
0 Splice 0 6 [] delete
0 DelClean 0 [] delete | 5: 101 DFLAG0 6 4
0 true | 5: 101 CLEAN0 6 4
1 Splice 0 6 [] again
1 DelClean 0 [] again
1 Update - 0
",
);

/// An insert decides to help the delete that has flagged its parent as a grandparent.
pub const INSERT_HELPS_DELETE: (&str, &str) = (
    r#"{"version":1,"tree":"ellen","initial":[10,20,15],"threads":[[{"op":"delete","key":10}],[{"op":"insert","key":30}]]}"#,
    "\
0 Child - 0 U
0 Update 0:U 5
0 Child 0:U 5 U
0 Update 5:U 8
0 Child 5:U 8 U
0 Update 8:U 11
0 Child 8:U 11 U
0 DFlag 8:U 11 U 10
0 Mark 0 [] delete | 8: 20 DFLAG0 11 6 | Del 8 11 10 U
1 Child - 0 U
1 Update 0:U 5
1 Child 0:U 5 U
1 Update 5:U 8
1 Child 5:U 8 DFLAG0
1 Mark 0 [] again
1 Right 0 [] again | 11: 15 MARK0 10 9
",
);

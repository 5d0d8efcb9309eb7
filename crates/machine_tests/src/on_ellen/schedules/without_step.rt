//! What each variant does without its step, with the lines of its steps.

/// Without the mark an insert goes under a parent that is spliced out.
pub const WITHOUT_MARK: (&str, &str) = (
    r#"{"version":1,"tree":"ellen","initial":[10],"threads":[[{"op":"delete","key":10}],[{"op":"insert","key":5},{"op":"find","key":5}]]}"#,
    "\
0 Child - 0 U
0 Update 0:U 5
0 Child 0:U 5 U
0 DFlag 0:U 5 U 3
0 Right 0 [] delete | 0: 102 DFLAG0 5 2 | Del 0 5 3 U
0 Other 0 right [] delete
0 Splice 0 4 [] delete
1 Child - 0 DFLAG0
1 Update 0:DFLAG0 5
0 DelClean 0 [] delete | 0: 102 DFLAG0 4 2
1 Child 0:DFLAG0 5 U
1 IFlag 5 U 3
1 InsChild 1 [] insert | 5: 101 IFLAG1 3 4 | 6: 5 | 7: 10 | 8: 10 U 6 7 | Ins 5 3 8
1 InsClean 1 [] insert | 5: 101 IFLAG1 8 4
1 true | 5: 101 CLEAN1 8 4
1 Child - 0 DFLAG0
1 false
",
);

/// Without the mark a helper of a delete marks nothing either.
pub const HELP_WITHOUT_MARK: (&str, &str) = (
    r#"{"version":1,"tree":"ellen","initial":[10],"threads":[[{"op":"delete","key":10}],[{"op":"delete","key":10}]]}"#,
    "\
0 Child - 0 U
0 Update 0:U 5
0 Child 0:U 5 U
0 DFlag 0:U 5 U 3
0 Right 0 [] delete | 0: 102 DFLAG0 5 2 | Del 0 5 3 U
1 Child - 0 DFLAG0
1 Update 0:DFLAG0 5
1 Child 0:DFLAG0 5 U
1 Right 0 [] again
",
);

/// Without the flag an insert goes under a parent that is marked.
pub const WITHOUT_FLAG: (&str, &str) = (
    r#"{"version":1,"tree":"ellen","initial":[10],"threads":[[{"op":"delete","key":10}],[{"op":"insert","key":5},{"op":"find","key":5}]]}"#,
    "\
0 Child - 0 U
0 Update 0:U 5
0 Child 0:U 5 U
0 DFlag 0:U 5 U 3
0 Mark 0 [] delete | 0: 102 DFLAG0 5 2 | Del 0 5 3 U
1 Child - 0 DFLAG0
1 Update 0:DFLAG0 5
1 Child 0:DFLAG0 5 U
0 Right 0 [] delete | 5: 101 MARK0 3 4
0 Other 0 right [] delete
0 Splice 0 4 [] delete
0 DelClean 0 [] delete | 0: 102 DFLAG0 4 2
1 InsOnly 5 3
1 true | 5: 101 MARK0 8 4 | 6: 5 | 7: 10 | 8: 10 U 6 7
1 Child - 0 DFLAG0
1 false
",
);

/// Without the flag an insert that finds another child begins again.
pub const LATE_WITHOUT_FLAG: (&str, &str) = (
    r#"{"version":1,"tree":"ellen","initial":[],"threads":[[{"op":"insert","key":5}],[{"op":"insert","key":7}]]}"#,
    "\
0 Child - 0 U
0 InsOnly 0 1
1 Child - 0 U
1 InsOnly 0 1
0 true | 0: 102 U 5 2 | 3: 5 | 4: 101 | 5: 101 U 3 4
1 Update - 0
",
);

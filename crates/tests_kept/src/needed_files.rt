//! The files of a preprocessed source, and what is justified.

use crate::needed::{Row, UNIQUE, is_written};
use tests_memory::Fail;

/// Two functions of two files.
const FILES: &str = "\
# 10 \"modes.c\"
int up(int a,int b){return a&&b;}
# 3 \"low.h\"
int low(int c){if(c)return 1;return 0;}
";

const NONE: &str = "test,call,arguments,inputs,expect,output\n";

/// All of one file, and one way through the other.
const FULL: &str = "\
test,call,arguments,inputs,expect,output
t1,up,1 1,,,
t1,up,0 0,,,
t1,up,1 0,,,
t1,low,1,,,
";

/// One way through each.
const ONE_WAY: &str = "\
test,call,arguments,inputs,expect,output
t1,up,1 1,,,
t1,low,1,,,
";

/// The second condition alone is not shown.
const BOTH_WAYS: &str = "\
test,call,arguments,inputs,expect,output
t1,up,1 1,,,
t1,up,0 0,,,
t1,low,1,,,
t1,low,0,,,
";

static ROWS: [Row<'static>; 11] = [
    // All files, and each alone.
    Row {
        words: UNIQUE,
        source: FILES,
        tests: NONE,
        status: 1,
        lines: "\
E1 modes.c:10 (2:5) missing
E2 low.h:3 (4:5) missing
X1 modes.c:10 (2:21) missing
X2 low.h:3 (4:21) missing
X3 low.h:3 (4:30) missing
S1 modes.c:10 (2:21) missing
S2 low.h:3 (4:16) missing
S3 low.h:3 (4:21) missing
S4 low.h:3 (4:30) missing
D1T modes.c:10 (2:28) missing needs TT=T
D1F modes.c:10 (2:28) missing needs TF=F
D1C1 modes.c:10 (2:28) missing needs TT=T and F-=F
  T F a
  T - b
D1C2 modes.c:10 (2:31) missing needs TT=T and TF=F
  T T a
  T F b
D2T low.h:3 (4:19) missing needs T=T
D2F low.h:3 (4:19) missing needs F=F
D2C1 low.h:3 (4:19) missing needs T=T and F=F
  T F c
want D1 TT=T for D1T D1C1
want D1 F-=F for D1F D1C1
want D1 TF=F for D1C2
want D2 T=T for D2T D2C1
want D2 F=F for D2F D2C1
missing 16 wanted 5 stale 0
status 1
",
    },
    Row {
        words: "needs|s.c|t.csv|--of|modes.c",
        source: FILES,
        tests: NONE,
        status: 1,
        lines: "\
E1 modes.c:10 (2:5) missing
X1 modes.c:10 (2:21) missing
S1 modes.c:10 (2:21) missing
D1T modes.c:10 (2:28) missing needs TT=T
D1F modes.c:10 (2:28) missing needs TF=F
D1C1 modes.c:10 (2:28) missing needs TT=T and F-=F
  T F a
  T - b
D1C2 modes.c:10 (2:31) missing needs TT=T and TF=F
  T T a
  T F b
want D1 TT=T for D1T D1C1
want D1 F-=F for D1F D1C1
want D1 TF=F for D1C2
missing 7 wanted 3 stale 0; 9 more in other files
status 1
",
    },
    Row {
        words: "needs|s.c|t.csv|--of|low.h",
        source: FILES,
        tests: NONE,
        status: 1,
        lines: "\
E2 low.h:3 (4:5) missing
X2 low.h:3 (4:21) missing
X3 low.h:3 (4:30) missing
S2 low.h:3 (4:16) missing
S3 low.h:3 (4:21) missing
S4 low.h:3 (4:30) missing
D2T low.h:3 (4:19) missing needs T=T
D2F low.h:3 (4:19) missing needs F=F
D2C1 low.h:3 (4:19) missing needs T=T and F=F
  T F c
want D2 T=T for D2T D2C1
want D2 F=F for D2F D2C1
missing 9 wanted 2 stale 0; 7 more in other files
status 1
",
    },
    // One that is met in part, and one that is met.
    Row {
        words: "needs|s.c|t.csv|--of|low.h",
        source: FILES,
        tests: FULL,
        status: 1,
        lines: "\
X3 low.h:3 (4:30) missing
S4 low.h:3 (4:30) missing
D2F low.h:3 (4:19) missing needs F=F
D2C1 low.h:3 (4:19) missing needs F=F beside T=T by t1
  F c
want D2 F=F for D2F D2C1
missing 4 wanted 1 stale 0; 7 more in other files
status 1
",
    },
    Row {
        words: "needs|s.c|t.csv|--of|modes.c",
        source: FILES,
        tests: FULL,
        status: 0,
        lines: "\
missing 0 wanted 0 stale 0; 9 more in other files
status 0
",
    },
    // What is justified is not wanted, and what is shown is stale: in all files, and in each alone.
    Row {
        words: "needs|s.c|t.csv|--justify|RIGHT",
        source: FILES,
        tests: ONE_WAY,
        status: 1,
        lines: "\
X3 low.h:3 (4:30) missing
S4 low.h:3 (4:30) missing
D1F modes.c:10 (2:28) missing needs TF=F
D1C1 modes.c:10 (2:28) missing needs F-=F beside TT=T by t1
  F a
  - b
D2F low.h:3 (4:19) missing needs F=F
want D1 F-=F for D1F D1C1
want D2 F=F for D2F
missing 5 wanted 2 stale 1
status 1
",
    },
    Row {
        words: "needs|s.c|t.csv|--justify|RIGHT|--of|modes.c",
        source: FILES,
        tests: ONE_WAY,
        status: 1,
        lines: "\
D1F modes.c:10 (2:28) missing needs TF=F
D1C1 modes.c:10 (2:28) missing needs F-=F beside TT=T by t1
  F a
  - b
want D1 F-=F for D1F D1C1
missing 2 wanted 1 stale 0; 9 more in other files
status 1
",
    },
    Row {
        words: "needs|s.c|t.csv|--justify|RIGHT|--of|low.h",
        source: FILES,
        tests: ONE_WAY,
        status: 1,
        lines: "\
X3 low.h:3 (4:30) missing
S4 low.h:3 (4:30) missing
D2F low.h:3 (4:19) missing needs F=F
want D2 F=F for D2F
missing 3 wanted 1 stale 1; 7 more in other files
status 1
",
    },
    // Nothing is missing.
    Row {
        words: "needs|s.c|t.csv|--justify|RIGHT",
        source: FILES,
        tests: BOTH_WAYS,
        status: 1,
        lines: "\
missing 0 wanted 0 stale 2
status 1
",
    },
    Row {
        words: "needs|s.c|t.csv|--justify|RIGHT|--of|modes.c",
        source: FILES,
        tests: BOTH_WAYS,
        status: 0,
        lines: "\
missing 0 wanted 0 stale 0; 9 more in other files
status 0
",
    },
    Row {
        words: "needs|s.c|t.csv|--justify|RIGHT|--of|low.h",
        source: FILES,
        tests: BOTH_WAYS,
        status: 1,
        lines: "\
missing 0 wanted 0 stale 2; 7 more in other files
status 1
",
    },
];

#[test]
fn files_have_their_own_lines(rt: HostRuntime) -> Result<(), Fail> {
    for row in &ROWS {
        let (words, lines) = (row.words, row.lines);
        assert!(rt; is_written(&rt, rt.alloc(), row)?, "{words} {lines}");
    }
    Ok(())
}

//! What `functions`, `needs` and `results` write. Each text that is expected was worked out by
//! hand.

use crate::run::{gives, of_tests};
use crate::text::{SOURCE, TESTS};
use std::alloc::Global;
use std::thread::Threads;
use tests_memory::Fail;

const TWO_TESTS: &str = "\
test,call,arguments,inputs,expect,output
t1,f,1 1,,,
t2,f,0 0,,,
";

/// `f` stands in line 7 of m.c, and `g`, which no test calls, in line 3 of h.h.
const MARKED: &str =
    "# 7 \"m.c\"\nint f(int a,int b){return a&&b;}\n# 3 \"h.h\"\nint g(void){return 1;}\n";

const ALL: &str = "\
f 1:5
  entries     1 of 1  100 %
  exits       1 of 1  100 %
  statements  1 of 1  100 %
  outcomes    2 of 2  100 %
  conditions  2 of 2  100 %
all: 7 of 7 met, 0 justified, 0 stale, 0 missing
status 0
";

/// `TT=T` and `F-=F` show the first condition alone.
const MISSING: &str = "\
f 1:5
  entries     1 of 1  100 %
  exits       1 of 1  100 %
  statements  1 of 1  100 %
  outcomes    2 of 2  100 %
  conditions  1 of 2   50 %
all: 6 of 7 met, 0 justified, 0 stale, 1 missing
status 1
";

const OF_ONE: &str = "\
f m.c:7 (2:5)
  entries     1 of 1  100 %
  exits       1 of 1  100 %
  statements  1 of 1  100 %
  outcomes    2 of 2  100 %
  conditions  2 of 2  100 %
all of m.c: 7 of 7 met, 0 justified, 0 stale, 0 missing; 3 more in other files
status 0
";

const OF_OTHER: &str = "\
g h.h:3 (4:5)
  entries     0 of 1    0 %
  exits       0 of 1    0 %
  statements  0 of 1    0 %
all of h.h: 0 of 3 met, 0 justified, 0 stale, 3 missing; 7 more in other files
status 1
";

/// Of the second condition alone nothing is shown: it is false in no evaluated vector.
const NEEDED: &str = "\
D1C2 1:30 missing needs TF=F beside TT=T by t1
  T a
  F b
want D1 TF=F for D1C2
missing 1 wanted 1 stale 0
status 1
";

const NEEDED_OF_OTHER: &str = "\
E2 h.h:3 (4:5) missing
X2 h.h:3 (4:13) missing
S2 h.h:3 (4:13) missing
missing 3 wanted 0 stale 0; 7 more in other files
status 1
";

const QUOTIENT: &str = "# 7 \"m.c\"\nint f(int a,int b){return a/b;}\n";

const QUOTIENT_TESTS: &str = "\
test,call,arguments,inputs,expect,output
t1,f,6 2,,2,
t2,f,6 3,,2,
t2,f,1 0,,,
";

/// `6 / 2` is 3, and division by 0 has no value.
const CALLS: &str = "\
test t1 fail values 3 output
  call 1 f 6 2 returned 3 expected 2
test t2 trap-division values 2 output
  call 1 f 6 3 returned 2
  call 2 f 1 0 trap-division after S1 m.c:7 (2:20) began
    return a/b;
tests 2 passed 0
";

/// The words, the source, its tests, the status, and what is put on the output and on the errors'
/// sink.
static ROWS: [(&str, &str, &str, u8, &str, &str); 12] = [
    ("needs|s.c|t.csv", SOURCE, TWO_TESTS, 1, NEEDED, ""),
    (
        "needs|s.c|t.csv|--of|h.h",
        MARKED,
        TESTS,
        1,
        NEEDED_OF_OTHER,
        "",
    ),
    ("results|s.c|t.csv", QUOTIENT, QUOTIENT_TESTS, 1, CALLS, ""),
    (
        "results|s.c|t.csv|--workers|64",
        QUOTIENT,
        QUOTIENT_TESTS,
        1,
        CALLS,
        "",
    ),
    ("functions|s.c|t.csv", SOURCE, TESTS, 0, ALL, ""),
    ("functions|s.c|t.csv|--workers=1", SOURCE, TESTS, 0, ALL, ""),
    ("functions|s.c|t.csv", SOURCE, TWO_TESTS, 1, MISSING, ""),
    (
        "functions|s.c|t.csv|--mode|masking",
        SOURCE,
        TWO_TESTS,
        1,
        MISSING,
        "",
    ),
    ("functions|s.c|t.csv|--of|m.c", MARKED, TESTS, 0, OF_ONE, ""),
    (
        "functions|--of=h.h|s.c|t.csv",
        MARKED,
        TESTS,
        1,
        OF_OTHER,
        "",
    ),
    (
        "functions|s.c|t.csv|--of|m",
        MARKED,
        TESTS,
        3,
        "",
        "mcdc: source: nothing of m\n",
    ),
    (
        "functions|s.c|t.csv|--of|s.c",
        SOURCE,
        TESTS,
        3,
        "",
        "mcdc: source: nothing of s.c\n",
    ),
];

fn is_written<R: Threads + Sync>(
    rt: &R,
    alloc: Global,
    row: &(&str, &str, &str, u8, &str, &str),
) -> Result<bool, Fail> {
    let (words, source, tests, status, out, diag) = *row;
    let setting = of_tests(words, source.as_bytes(), tests.as_bytes());
    gives(
        rt,
        alloc,
        &setting,
        (status, out.as_bytes(), diag.as_bytes()),
    )
}

#[test]
fn counted(rt: HostRuntime) -> Result<(), Fail> {
    for row in &ROWS {
        let (words, _, _, _, out, _) = *row;
        assert!(rt; is_written(&rt, rt.alloc(), row)?, "{words} {out}");
    }
    Ok(())
}

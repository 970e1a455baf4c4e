//! Which tests `reduce` keeps, and what for. Each text that is expected was worked out by hand.

use crate::run::{gives, gives_by, of_tests};
use crate::text::{HEADER, SOURCE, TESTS};
use mc_cover::SkippingCloser;
use std::alloc::Global;
use std::thread::Threads;
use tests_memory::Fail;

const FOUR_TESTS: &str = "\
test,call,arguments,inputs,expect,output
t1,f,1 1,,,
t2,f,1 0,,,
t3,f,0 1,,,
t4,f,0 0,,,
";

const THREE_OF_FOUR: &str = "\
keep t1 for D1T
keep t2 for D1C2
keep t3 for D1C1
kept 3 of 4
";

/// One that did not pass counts as any other.
const FAILED: &str = "\
test,call,arguments,inputs,expect,output
t1,f,1 1,,0,
";

/// The first two conditions are `a` and `b`, the last two `a` and `c`.
const TWICE: &str = "int f(int a,int b,int c){return (a&&b)||(a&&c);}";

const EIGHT_TESTS: &str = "\
test,call,arguments,inputs,expect,output
t1,f,0 0 0,,,
t2,f,0 0 1,,,
t3,f,0 1 0,,,
t4,f,0 1 1,,,
t5,f,1 0 0,,,
t6,f,1 0 1,,,
t7,f,1 1 0,,,
t8,f,1 1 1,,,
";

/// By unique cause nothing shows the third condition.
const UNIQUE: &str = "\
keep t1 for D1C1
keep t5 for D1C2
keep t6 for D1C4
keep t7 for D1C1
kept 4 of 8
";

/// By masking `TFTT=T` and `F-F-=F` show it, of which the first is that of t6 alone.
const MASKING: &str = "\
keep t1 for D1C1
keep t5 for D1C2
keep t6 for D1C3
keep t7 for D1C1
kept 4 of 8
";

/// The words, the source, its tests, the status and what is written.
static ROWS: [(&str, &str, &str, u8, &str); 10] = [
    ("reduce|s.c|t.csv", SOURCE, FOUR_TESTS, 0, THREE_OF_FOUR),
    (
        "reduce|s.c|t.csv|--workers|1",
        SOURCE,
        FOUR_TESTS,
        0,
        THREE_OF_FOUR,
    ),
    (
        "reduce|s.c|t.csv|--workers|64",
        SOURCE,
        FOUR_TESTS,
        0,
        THREE_OF_FOUR,
    ),
    (
        "reduce|s.c|t.csv|--mode|masking",
        SOURCE,
        FOUR_TESTS,
        0,
        THREE_OF_FOUR,
    ),
    ("reduce|s.c|t.csv", SOURCE, HEADER, 0, "kept 0 of 0\n"),
    (
        "reduce|s.c|t.csv",
        SOURCE,
        FAILED,
        1,
        "keep t1 for E1\nkept 1 of 1\n",
    ),
    (
        "reduce|s.c|t.csv|--fuel|1",
        SOURCE,
        FAILED,
        1,
        "keep t1 for E1\nkept 1 of 1\n",
    ),
    ("reduce|s.c|t.csv", TWICE, EIGHT_TESTS, 0, UNIQUE),
    (
        "reduce|s.c|t.csv|--mode|masking",
        TWICE,
        EIGHT_TESTS,
        0,
        MASKING,
    ),
    (
        "reduce|s.c|t.csv|--mode=masking|--workers|64",
        TWICE,
        EIGHT_TESTS,
        0,
        MASKING,
    ),
];

// Whether these words write this, and nothing on the errors' sink.
fn is_written<R: Threads + Sync>(
    rt: &R,
    alloc: Global,
    row: &(&str, &str, &str, u8, &str),
) -> Result<bool, Fail> {
    let (words, source, tests, status, out) = *row;
    let setting = of_tests(words, source.as_bytes(), tests.as_bytes());
    gives(rt, alloc, &setting, (status, out.as_bytes(), b""))
}

#[test]
fn reduced(rt: HostRuntime) -> Result<(), Fail> {
    for row in &ROWS {
        let (words, _, _, _, out) = *row;
        assert!(rt; is_written(&rt, rt.alloc(), row)?, "{words} {out}");
    }
    Ok(())
}

// What t1 showed is not asked for where its bits are left out, and t3 shows no more than t2.
#[test]
fn reduced_without_first(rt: HostRuntime) -> Result<(), Fail> {
    let closer = SkippingCloser {
        skipped: [0_u32].to_vec(rt.alloc())?,
    };
    let setting = of_tests("reduce|s.c|t.csv", SOURCE.as_bytes(), TESTS.as_bytes());
    let out = b"keep t2 for E1\nkept 1 of 3\n";
    let is_wanted = gives_by(&rt, rt.alloc(), &setting, &closer, (0, out, b""));
    drop(closer);
    assert!(rt; is_wanted?);
    Ok(())
}

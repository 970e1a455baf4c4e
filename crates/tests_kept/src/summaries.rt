//! What `selfload` writes of its program, and the words of these commands that are refused. Each
//! text that is expected was written out by hand.

use crate::run::{gives, of_tests};
use station_replies::usage_text;
use std::alloc::Global;
use std::thread::Threads;
use tests_memory::Fail;

/// `a<b&&c<d` has every outcome and condition, and so has `a<b||c<d`.
const ONE: &str = "\
selfload 1
tests 16 passed 16
entries met 1 justified 0 stale 0 missing 0 of 1
exits met 1 justified 0 stale 0 missing 0 of 1
statements met 5 justified 0 stale 0 missing 0 of 5
labels met 0 justified 0 stale 0 missing 0 of 0
outcomes met 4 justified 0 stale 0 missing 0 of 4
conditions met 3 justified 0 stale 0 missing 0 of 3
status 0
";

const TWO: &str = "\
selfload 2
tests 32 passed 32
entries met 2 justified 0 stale 0 missing 0 of 2
exits met 2 justified 0 stale 0 missing 0 of 2
statements met 10 justified 0 stale 0 missing 0 of 10
labels met 0 justified 0 stale 0 missing 0 of 0
outcomes met 8 justified 0 stale 0 missing 0 of 8
conditions met 6 justified 0 stale 0 missing 0 of 6
status 0
";

/// In `(a<b||b<c)&&c<d` both `b<c` and `c<d` would need a `c` that is 1 and 0: `b<c` never decides.
const THREE: &str = "\
selfload 3
tests 48 passed 48
entries met 3 justified 0 stale 0 missing 0 of 3
exits met 3 justified 0 stale 0 missing 0 of 3
statements met 15 justified 0 stale 0 missing 0 of 15
labels met 0 justified 0 stale 0 missing 0 of 0
outcomes met 12 justified 0 stale 0 missing 0 of 12
conditions met 9 justified 0 stale 0 missing 1 of 10
status 1
";

/// `!(a<b&&b<c)||c<d` is true for all numbers that are 0 or 1.
const FOUR: &str = "\
selfload 4
tests 64 passed 64
entries met 4 justified 0 stale 0 missing 0 of 4
exits met 4 justified 0 stale 0 missing 0 of 4
statements met 20 justified 0 stale 0 missing 0 of 20
labels met 0 justified 0 stale 0 missing 0 of 0
outcomes met 15 justified 0 stale 0 missing 1 of 16
conditions met 10 justified 0 stale 0 missing 4 of 14
status 1
";

const MOST: &str = "\
selfload 200
tests 3200 passed 3200
entries met 200 justified 0 stale 0 missing 0 of 200
exits met 200 justified 0 stale 0 missing 0 of 200
statements met 1000 justified 0 stale 0 missing 0 of 1000
labels met 0 justified 0 stale 0 missing 0 of 0
outcomes met 750 justified 0 stale 0 missing 50 of 800
conditions met 500 justified 0 stale 0 missing 200 of 700
status 1
";

/// Words, and the summary. The status is 0 whatever is missing.
static SUMMARIES: [(&str, &str); 8] = [
    ("selfload|1", ONE),
    ("selfload|1|--workers|1", ONE),
    ("selfload|1|--workers|4", ONE),
    ("selfload|--workers=64|1", ONE),
    ("selfload|2", TWO),
    ("selfload|3", THREE),
    ("selfload|4|--workers|1", FOUR),
    ("selfload|4|--workers|64", FOUR),
];

/// The same of the largest program.
static LARGE: [(&str, &str); 3] = [
    ("selfload|200|--workers|1", MOST),
    ("selfload|200", MOST),
    ("selfload|200|--workers|64", MOST),
];

/// Words that are no command.
static REFUSED: [&str; 23] = [
    "selfload",
    "selfload|0",
    "selfload|201",
    "selfload|01",
    "selfload|1|2",
    "selfload|1|--workers|0",
    "selfload|1|--workers|65",
    "selfload|1|--workers|01",
    "selfload|1|--fuel|100",
    "record|s.c",
    "record|s.c|t.csv|--mode|unique",
    "record|s.c|t.csv|--workers|65",
    "record|s.c|t.csv|--workers|0",
    "record|s.c|t.csv|--workers|01",
    "record|s.c|t.csv|--fuel|0",
    "merge|s.c|LEFT",
    "merge|s.c|LEFT|RIGHT|RIGHT",
    "merge|s.c|LEFT|RIGHT|--workers|1",
    "analyse|s.c",
    "analyse|s.c|LEFT|--mode|both",
    "analyse|s.c|LEFT|--format|xml",
    "analyse|s.c|LEFT|--workers|1",
    "analyse|s.c|LEFT|--fuel|1",
];

// No file is asked for by these words.
fn is_written<R: Threads + Sync>(
    rt: &R,
    alloc: Global,
    words: &str,
    want: (u8, &[u8], &[u8]),
) -> Result<bool, Fail> {
    let setting = of_tests(words, b"", b"");
    gives(rt, alloc, &setting, want)
}

#[test]
fn summaries(rt: HostRuntime) -> Result<(), Fail> {
    for (words, out) in &SUMMARIES {
        assert!(rt;
            is_written(&rt, rt.alloc(), words, (0, out.as_bytes(), b""))?,
            "{words}"
        );
    }
    Ok(())
}

#[test]
fn the_largest_summary(rt: HostRuntime) -> Result<(), Fail> {
    for (words, out) in &LARGE {
        assert!(rt;
            is_written(&rt, rt.alloc(), words, (0, out.as_bytes(), b""))?,
            "{words}"
        );
    }
    Ok(())
}

#[test]
fn words_that_are_refused(rt: HostRuntime) -> Result<(), Fail> {
    let usage = usage_text(rt.alloc())?;
    for words in &REFUSED {
        assert!(rt;
            is_written(&rt, rt.alloc(), words, (2, b"", &usage))?,
            "{words}"
        );
    }
    drop(usage);
    Ok(())
}

//! What is kept where the closer leaves out tests: their states, and none of their bits. Each text
//! that is expected was written out by hand.

use crate::run::{gives_by, of_tests};
use crate::text::{BODY, HEAD, SOURCE, TESTS, WITHOUT_FIRST};
use mc_cover::SkippingCloser;
use std::alloc::Global;
use std::thread::Threads;
use tests_memory::Fail;

const WITHOUT_SECOND: &str = "\
tests 3
test t1 pass
test t2 pass
test t3 pass
bit 0 0000000000000005
bit 1 0000000000000005
bit 2 0000000000000005
bit 3 0000000000000001
bit 4 0000000000000000
bit 5 0000000000000004
end
";

const WITHOUT_ANY: &str = "\
tests 3
test t1 pass
test t2 pass
test t3 pass
bit 0 0000000000000000
bit 1 0000000000000000
bit 2 0000000000000000
bit 3 0000000000000000
bit 4 0000000000000000
bit 5 0000000000000000
end
";

const SELFLOAD_WITHOUT_ANY: &str = "\
selfload 1
tests 16 passed 16
entries met 0 justified 0 stale 0 missing 1 of 1
exits met 0 justified 0 stale 0 missing 1 of 1
statements met 0 justified 0 stale 0 missing 5 of 5
labels met 0 justified 0 stale 0 missing 0 of 0
outcomes met 0 justified 0 stale 0 missing 4 of 4
conditions met 0 justified 0 stale 0 missing 3 of 3
status 1
";

const RECORD: &str = "record|s.c|t.csv";

/// The numbers of the tests that are left out, the words, and what is written: its first lines and
/// the others.
static ROWS: [(&[u32], &str, &str, &str); 6] = [
    (&[0], RECORD, HEAD, WITHOUT_FIRST),
    (&[0], "record|s.c|t.csv|--workers|64", HEAD, WITHOUT_FIRST),
    (&[1], RECORD, HEAD, WITHOUT_SECOND),
    (&[3, 2, 1, 0], RECORD, HEAD, WITHOUT_ANY),
    (&[3, 4096], RECORD, HEAD, BODY),
    (
        &[0, 1, 2, 3, 4, 5, 6, 7, 8, 9, 10, 11, 12, 13, 14, 15],
        "selfload|1",
        SELFLOAD_WITHOUT_ANY,
        "",
    ),
];

fn is_closed<R: Threads + Sync>(
    rt: &R,
    alloc: Global,
    closer: &SkippingCloser,
    words: &str,
    out: &str,
) -> Result<bool, Fail> {
    let setting = of_tests(words, SOURCE.as_bytes(), TESTS.as_bytes());
    gives_by(rt, alloc, &setting, closer, (0, out.as_bytes(), b""))
}

fn is_left_out<R: Threads + Sync>(
    rt: &R,
    alloc: Global,
    skipped: &[u32],
    words: &str,
    out: &str,
) -> Result<bool, Fail> {
    let closer = SkippingCloser {
        skipped: skipped.to_vec(alloc)?,
    };
    let is_wanted = is_closed(rt, alloc, &closer, words, out);
    drop(closer);
    is_wanted
}

// Whether a run whose closer leaves out these tests writes this.
fn is_written<R: Threads + Sync>(
    rt: &R,
    alloc: Global,
    skipped: &[u32],
    words: &str,
    first: &str,
    others: &str,
) -> Result<bool, Fail> {
    let out = format!(in alloc; "{first}{others}")?;
    let is_wanted = is_left_out(rt, alloc, skipped, words, out.as_str());
    drop(out);
    is_wanted
}

#[test]
fn kept_without_tests(rt: HostRuntime) -> Result<(), Fail> {
    for (skipped, words, first, others) in &ROWS {
        assert!(rt;
            is_written(&rt, rt.alloc(), skipped, words, first, others)?,
            "{words} {others}"
        );
    }
    Ok(())
}

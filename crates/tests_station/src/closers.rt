//! What is written where the closer leaves out tests. They run all the same, and nothing that they
//! evaluate counts. Each text that is expected was written out by hand.

use crate::run::{SOURCE, TESTS, gives_by, of_files};
use mc_cover::SkippingCloser;
use mc_port::OpenGate;
use std::alloc::Global;
use std::thread::Threads;
use tests_memory::Fail;

const VECTORS: &str = "vectors|s.c|t.csv";

const REPORT: &str = "report|s.c|t.csv";

const REPORT_BY_MANY: &str = "report|s.c|t.csv|--workers|64";

const TEST_LINES: &str = "\
test t1 pass values 1 output
test t2 pass values 0 output
test t3 pass values 0 output
";

const HEAD: &str = "\
mcdc report unique
source sha256 8200d2384991a90c0fb5f6a208a7f0176cae5c6443e46177ef6bfd44c40d4caf
";

const WITHOUT_FIRST: &str = "\
E1 1:5 met by t2
X1 1:20 met by t2
S1 1:20 met by t2
D1T 1:27 missing
D1F 1:27 met by t2
D1C1 1:27 missing
D1C2 1:30 missing
entries met 1 justified 0 stale 0 missing 0 of 1
exits met 1 justified 0 stale 0 missing 0 of 1
statements met 1 justified 0 stale 0 missing 0 of 1
labels met 0 justified 0 stale 0 missing 0 of 0
outcomes met 1 justified 0 stale 0 missing 1 of 2
conditions met 0 justified 0 stale 0 missing 2 of 2
status 1
";

const WITHOUT_SECOND: &str = "\
E1 1:5 met by t1
X1 1:20 met by t1
S1 1:20 met by t1
D1T 1:27 met by t1
D1F 1:27 met by t3
D1C1 1:27 met TT=T by t1 F-=F by t3
D1C2 1:30 missing
entries met 1 justified 0 stale 0 missing 0 of 1
exits met 1 justified 0 stale 0 missing 0 of 1
statements met 1 justified 0 stale 0 missing 0 of 1
labels met 0 justified 0 stale 0 missing 0 of 0
outcomes met 2 justified 0 stale 0 missing 0 of 2
conditions met 1 justified 0 stale 0 missing 1 of 2
status 1
";

const WITHOUT_LAST: &str = "\
E1 1:5 met by t1
X1 1:20 met by t1
S1 1:20 met by t1
D1T 1:27 met by t1
D1F 1:27 met by t2
D1C1 1:27 missing
D1C2 1:30 met TT=T by t1 TF=F by t2
entries met 1 justified 0 stale 0 missing 0 of 1
exits met 1 justified 0 stale 0 missing 0 of 1
statements met 1 justified 0 stale 0 missing 0 of 1
labels met 0 justified 0 stale 0 missing 0 of 0
outcomes met 2 justified 0 stale 0 missing 0 of 2
conditions met 1 justified 0 stale 0 missing 1 of 2
status 1
";

const WITHOUT_ANY: &str = "\
E1 1:5 missing
X1 1:20 missing
S1 1:20 missing
D1T 1:27 missing
D1F 1:27 missing
D1C1 1:27 missing
D1C2 1:30 missing
entries met 0 justified 0 stale 0 missing 1 of 1
exits met 0 justified 0 stale 0 missing 1 of 1
statements met 0 justified 0 stale 0 missing 1 of 1
labels met 0 justified 0 stale 0 missing 0 of 0
outcomes met 0 justified 0 stale 0 missing 2 of 2
conditions met 0 justified 0 stale 0 missing 2 of 2
status 1
";

/// The numbers of the tests that are left out, the words, the status, and what is written before
/// and after the lines of the tests.
static ROWS: [(&[u32], &str, u8, &str, &str); 8] = [
    (&[0], REPORT, 1, HEAD, WITHOUT_FIRST),
    (&[0], REPORT_BY_MANY, 1, HEAD, WITHOUT_FIRST),
    (&[0], VECTORS, 0, "", "D1 TF=F by t2\nD1 F-=F by t3\n"),
    (&[1], REPORT, 1, HEAD, WITHOUT_SECOND),
    (&[1], VECTORS, 0, "", "D1 TT=T by t1\nD1 F-=F by t3\n"),
    (&[2], REPORT, 1, HEAD, WITHOUT_LAST),
    (&[2, 0, 2, 1, 3, 4096], REPORT, 1, HEAD, WITHOUT_ANY),
    (
        &[3, 4096],
        VECTORS,
        0,
        "",
        "D1 TT=T by t1\nD1 TF=F by t2\nD1 F-=F by t3\n",
    ),
];

/// Whether a run by this closer gives this status and these texts.
fn is_closed<R: Threads + Sync>(
    rt: &R,
    alloc: Global,
    closer: &SkippingCloser,
    words: &str,
    want: (u8, &str),
) -> Result<bool, Fail> {
    let (status, out) = want;
    let setting = of_files(words, SOURCE.as_bytes(), TESTS.as_bytes(), b"[]");
    let want = (status, out.as_bytes(), b"".as_slice());
    gives_by(rt, alloc, &setting, &OpenGate::new(), closer, want)
}

/// Whether a run whose closer leaves out these tests gives what is wanted.
fn is_left_out<R: Threads + Sync>(
    rt: &R,
    alloc: Global,
    skipped: &[u32],
    words: &str,
    want: (u8, &str),
) -> Result<bool, Fail> {
    let closer = SkippingCloser {
        skipped: skipped.to_vec(alloc)?,
    };
    let is_wanted = is_closed(rt, alloc, &closer, words, want);
    drop(closer);
    is_wanted
}

/// Whether such a run gives this status, and the lines of the tests between these texts.
fn is_written<R: Threads + Sync>(
    rt: &R,
    alloc: Global,
    skipped: &[u32],
    words: &str,
    want: (u8, &str, &str),
) -> Result<bool, Fail> {
    let (status, before, after) = want;
    let out = format!(in alloc; "{before}{TEST_LINES}{after}")?;
    let is_wanted = is_left_out(rt, alloc, skipped, words, (status, out.as_str()));
    drop(out);
    is_wanted
}

#[test]
fn tests_that_the_closer_leaves_out(rt: HostRuntime) -> Result<(), Fail> {
    for (skipped, words, status, before, after) in &ROWS {
        let want = (*status, *before, *after);
        assert!(rt;
            is_written(&rt, rt.alloc(), skipped, words, want)?,
            "{words} {after}"
        );
    }
    Ok(())
}

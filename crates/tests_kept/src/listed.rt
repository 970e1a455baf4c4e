//! Which mark `list` gives each line of a source. Each text that is expected was worked out by
//! hand.

use crate::run::{gives, gives_by, of_tests};
use crate::text::{SOURCE, TESTS};
use mc_cover::SkippingCloser;
use std::alloc::Global;
use std::thread::Threads;
use tests_memory::Fail;

const TWO_TESTS: &str = "\
test,call,arguments,inputs,expect,output
t1,f,1 1,,,
t2,f,0 0,,,
";

const HEADER: &str = "test,call,arguments,inputs,expect,output\n";

/// `D1C2` is the `b` in the third line.
const LINES: &str = "int f(int a,int b){\nreturn a\n&&b;}\n";

/// Lines end with CR and LF, the last one with its last byte, and a comment is no UTF-8.
const BYTES: &[u8] = b"int f(int a){\r\n  if(a)\r\n    return 1;\r\n\r\n  return/*\xe9*/ 0;\r\n}";

const ONE_TEST: &str = "test,call,arguments,inputs,expect,output\nt1,f,1,,,\n";

const BYTES_LISTED: &[u8] = b"      1 + | int f(int a){\r
      2 ! |   if(a)\r
      3 + |     return 1;\r
      4   | \r
      5 ! |   return/*\xe9*/ 0;\r
      6   | }";

const MET: &str = "      1 + | int f(int a,int b){return a&&b;}";

const MISSING: &str = "      1 ! | int f(int a,int b){return a&&b;}";

const JUSTIFIED: &str = "      1 + | int f(int a,int b){
      2 + | return a
      3 j | &&b;}
";

const STALE: &str = "      1 + | int f(int a,int b){
      2 + | return a
      3 ~ | &&b;}
";

const NOT_JUSTIFIED: &str = "      1 + | int f(int a,int b){
      2 + | return a
      3 ! | &&b;}
";

const UNTESTED: &str = "      1 ! | int f(int a,int b){
      2 ! | return a
      3 ! | &&b;}
";

/// The words, the source, its tests, the status and what is written.
static ROWS: [(&str, &str, &str, u8, &str); 11] = [
    ("list|s.c|t.csv", SOURCE, TESTS, 0, MET),
    ("list|s.c|t.csv|--workers|1", SOURCE, TESTS, 0, MET),
    ("list|s.c|t.csv|--workers|64", SOURCE, TESTS, 0, MET),
    ("list|s.c|t.csv|--mode|masking", SOURCE, TESTS, 0, MET),
    ("list|s.c|t.csv", SOURCE, TWO_TESTS, 1, MISSING),
    ("list|s.c|t.csv", "", HEADER, 0, ""),
    (
        "list|s.c|t.csv|--justify|j.json",
        LINES,
        TWO_TESTS,
        0,
        JUSTIFIED,
    ),
    ("list|s.c|t.csv|--justify=j.json", LINES, TESTS, 1, STALE),
    ("list|s.c|t.csv", LINES, TWO_TESTS, 1, NOT_JUSTIFIED),
    ("list|s.c|t.csv", LINES, HEADER, 1, UNTESTED),
    (
        "list|s.c|t.csv",
        LINES,
        TESTS,
        0,
        "      1 + | int f(int a,int b){
      2 + | return a
      3 + | &&b;}
",
    ),
];

// Whether these words write this, and nothing on the errors' sink.
fn is_written<R: Threads + Sync>(
    rt: &R,
    alloc: Global,
    row: &(&str, &str, &str, u8, &str),
) -> Result<bool, Fail> {
    let (words, source, tests, status, out) = *row;
    let setting = of_tests(words, source.as_bytes(), tests.as_bytes());
    gives(rt, alloc, &setting, (status, out.as_bytes(), b""))
}

#[test]
fn listed(rt: HostRuntime) -> Result<(), Fail> {
    for row in &ROWS {
        let (words, _, _, _, out) = *row;
        assert!(rt; is_written(&rt, rt.alloc(), row)?, "{words} {out}");
    }
    Ok(())
}

#[test]
fn listed_byte_for_byte(rt: HostRuntime) -> Result<(), Fail> {
    let setting = of_tests("list|s.c|t.csv", BYTES, ONE_TEST.as_bytes());
    assert!(rt; gives(&rt, rt.alloc(), &setting, (1, BYTES_LISTED, b""))?);
    Ok(())
}

// Without the bits of t1 no test makes the decision true.
#[test]
fn listed_without_first(rt: HostRuntime) -> Result<(), Fail> {
    let closer = SkippingCloser {
        skipped: [0_u32].to_vec(rt.alloc())?,
    };
    let setting = of_tests("list|s.c|t.csv", SOURCE.as_bytes(), TESTS.as_bytes());
    let want = (1, MISSING.as_bytes(), &b""[..]);
    let is_wanted = gives_by(&rt, rt.alloc(), &setting, &closer, want);
    drop(closer);
    assert!(rt; is_wanted?);
    Ok(())
}

//! What `record` writes. Each text that is expected was written out by hand.

use crate::run::{gives, of_tests};
use crate::text::{BODY, EMPTY, HEAD, HEADER, SOURCE, TESTS, many_record, many_tests};
use std::alloc::Global;
use std::thread::Threads;
use tests_memory::Fail;

const RECORD: &str = "record|s.c|t.csv";

const EXPECTING: &str =
    "test,call,arguments,inputs,expect,output\nt1,f,1 1,,,\nt2,f,1 0,,7,\nt3,f,0 1,,,\n";

const ONE_FAILS: &str = "\
tests 3
test t1 pass
test t2 fail
test t3 pass
bit 0 0000000000000007
bit 1 0000000000000007
bit 2 0000000000000007
bit 3 0000000000000001
bit 4 0000000000000002
bit 5 0000000000000004
end
";

/// Words, tests, the status, and the record from the number of tests on.
static ROWS: [(&str, &str, u8, &str); 6] = [
    (RECORD, TESTS, 0, BODY),
    ("record|s.c|t.csv|--workers|1", TESTS, 0, BODY),
    ("record|s.c|t.csv|--workers|64", TESTS, 0, BODY),
    ("record|--fuel|100|s.c|t.csv|--workers=2", TESTS, 0, BODY),
    (RECORD, EXPECTING, 1, ONE_FAILS),
    (RECORD, HEADER, 0, EMPTY),
];

fn is_recorded<R: Threads + Sync>(
    rt: &R,
    alloc: Global,
    words: &str,
    tests: &str,
    want: (u8, &str),
) -> Result<bool, Fail> {
    let (status, body) = want;
    let record = format!(in alloc; "{HEAD}{body}")?;
    let setting = of_tests(words, SOURCE.as_bytes(), tests.as_bytes());
    let is_wanted = gives(rt, alloc, &setting, (status, record.as_bytes(), b""));
    drop(record);
    is_wanted
}

#[test]
fn kept_tests(rt: HostRuntime) -> Result<(), Fail> {
    for (words, tests, status, body) in &ROWS {
        let want = (*status, *body);
        assert!(rt;
            is_recorded(&rt, rt.alloc(), words, tests, want)?,
            "{words} {body}"
        );
    }
    Ok(())
}

/// Words of one record, by few workers and by many.
static WORKERS: [&str; 3] = [
    RECORD,
    "record|s.c|t.csv|--workers|1",
    "record|s.c|t.csv|--workers|64",
];

fn are_recorded<R: Threads + Sync>(
    rt: &R,
    alloc: Global,
    words: &str,
    tests: &str,
) -> Result<bool, Fail> {
    let record = many_record(alloc)?;
    let setting = of_tests(words, SOURCE.as_bytes(), tests.as_bytes());
    let is_wanted = gives(rt, alloc, &setting, (0, record.as_bytes(), b""));
    drop(record);
    is_wanted
}

#[test]
fn many_kept_tests(rt: HostRuntime) -> Result<(), Fail> {
    let tests = many_tests(rt.alloc(), 0, 130)?;
    for words in &WORKERS {
        assert!(rt;
            are_recorded(&rt, rt.alloc(), words, tests.as_str())?,
            "{words}"
        );
    }
    Ok(())
}

//! Runs by one worker and by many: they write the same.

use crate::generated::{many_tests, push_lines};
use crate::row::{is_justified_by, is_written_by};
use crate::run::{REPORT, SOURCE, TESTS, gives, of_files};
use crate::{endings, justified, worked};
use std::alloc::Global;
use std::thread::Threads;
use tests_memory::Fail;

/// More than most of these runs have tests; without the option there are four.
const SOME: u32 = 3;

const MOST: u32 = 64;

#[test]
fn one_worker_or_some_write_each_row(rt: HostRuntime) -> Result<(), Fail> {
    for row in worked::ROWS.split('~') {
        assert!(rt; is_written_by(&rt, rt.alloc(), row, 1)?, "{row}");
        assert!(rt; is_written_by(&rt, rt.alloc(), row, SOME)?, "{row}");
    }
    Ok(())
}

#[test]
fn many_workers_write_each_row(rt: HostRuntime) -> Result<(), Fail> {
    for row in worked::ROWS.split('~') {
        assert!(rt; is_written_by(&rt, rt.alloc(), row, MOST)?, "{row}");
    }
    Ok(())
}

#[test]
fn one_worker_or_many_end_each_test(rt: HostRuntime) -> Result<(), Fail> {
    for row in endings::ROWS.split('~') {
        assert!(rt; is_written_by(&rt, rt.alloc(), row, 1)?, "{row}");
        assert!(rt; is_written_by(&rt, rt.alloc(), row, MOST)?, "{row}");
    }
    Ok(())
}

#[test]
fn one_worker_or_many_write_each_justified_row(rt: HostRuntime) -> Result<(), Fail> {
    for row in justified::ROWS.split('~') {
        assert!(rt; is_justified_by(&rt, rt.alloc(), row, 1)?, "{row}");
        assert!(rt; is_justified_by(&rt, rt.alloc(), row, MOST)?, "{row}");
    }
    Ok(())
}

/// Words of one report, by one worker and by the most that there can be.
static SAME: [&str; 4] = [
    "report|s.c|t.csv|--workers|1",
    "report|s.c|t.csv|--workers|64",
    "report|--workers=64|s.c|t.csv|--mode|unique",
    "report|s.c|--workers|2|t.csv|--fuel|8",
];

#[test]
fn one_worker_or_many_write_one_report(rt: HostRuntime) -> Result<(), Fail> {
    for words in &SAME {
        let setting = of_files(words, SOURCE.as_bytes(), TESTS.as_bytes(), b"[]");
        let want = (0, REPORT.as_bytes(), b"".as_slice());
        assert!(rt; gives(&rt, rt.alloc(), &setting, want)?, "{words}");
    }
    Ok(())
}

/// What the report of 130 tests has before the lines of the tests, and what after them.
const HEAD: &str = "\
mcdc report unique
source sha256 8200d2384991a90c0fb5f6a208a7f0176cae5c6443e46177ef6bfd44c40d4caf
";

const VERDICTS: &str = "\
E1 1:5 met by t1
X1 1:20 met by t1
S1 1:20 met by t1
D1T 1:27 met by t3
D1F 1:27 met by t1
D1C1 1:27 met TT=T by t3 F-=F by t2
D1C2 1:30 met TT=T by t3 TF=F by t1
entries met 1 justified 0 stale 0 missing 0 of 1
exits met 1 justified 0 stale 0 missing 0 of 1
statements met 1 justified 0 stale 0 missing 0 of 1
labels met 0 justified 0 stale 0 missing 0 of 0
outcomes met 2 justified 0 stale 0 missing 0 of 2
conditions met 2 justified 0 stale 0 missing 0 of 2
status 0
";

fn report_of_tests(alloc: Global) -> Result<String, Fail> {
    let mut out = String::from_str(alloc, HEAD)?;
    push_lines(alloc, &mut out)?;
    out.push_str(VERDICTS)?;
    Ok(out)
}

/// Numbers of workers, each in the words of a report.
static REPORTS: [&str; 6] = [
    "report|s.c|t.csv|--workers|1",
    "report|s.c|t.csv|--workers|2",
    "report|s.c|t.csv|--workers|3",
    "report|s.c|t.csv",
    "report|s.c|t.csv|--workers|63",
    "report|s.c|t.csv|--workers|64",
];

fn is_reported<R: Threads + Sync>(
    rt: &R,
    alloc: Global,
    words: &str,
    tests: &str,
) -> Result<bool, Fail> {
    let out = report_of_tests(alloc)?;
    let mut setting = of_files(words, SOURCE.as_bytes(), tests.as_bytes(), b"[]");
    setting.room = 65536;
    let is_wanted = gives(rt, alloc, &setting, (0, out.as_bytes(), b""));
    drop(out);
    is_wanted
}

#[test]
fn the_least_tests_whoever_runs_them(rt: HostRuntime) -> Result<(), Fail> {
    let tests = many_tests(rt.alloc(), 130)?;
    for words in &REPORTS {
        assert!(rt;
            is_reported(&rt, rt.alloc(), words, tests.as_str())?,
            "{words}"
        );
    }
    Ok(())
}

//! Reports that are written, made by hand from the definitions.
ghost use Rattle.mc_report.specs.Report.{IsReport};
ghost use Rattle.mc_report.specs.Seen.{report_of};

use crate::make::{Test, report};
use mc_port::MemorySink;
use mc_report::{Report, ReportFault, put_lines, status, summary_lines, write_text};
use mc_typed::{Ending, TestState};
use std::alloc::Global;
use std::process::Abort;
use std::test::Fail;

/// Tests, the text of their report, and its status.
struct Row<'a> {
    tests: &'a [Test<'a>],
    text: &'a str,
    status: u8,
}

/// The call with the arguments (1, 1).
const BOTH: Test<'static> = Test {
    bits: &[0, 1, 2, 3],
    state: TestState::Pass,
    value: 1,
};

/// (1, 0)
const FIRST: Test<'static> = Test {
    bits: &[0, 1, 2, 4],
    state: TestState::Pass,
    value: 0,
};

/// (0, 1), or (0, 0)
const NEITHER: Test<'static> = Test {
    bits: &[0, 1, 2, 5],
    state: TestState::Pass,
    value: 0,
};

/// Two calls with (1, 1) and two units of fuel: the first returns, the second finds none left. What
/// happened before counts.
const STOPPED: Test<'static> = Test {
    bits: &[0, 1, 2, 3],
    state: TestState::Ended(Ending::Fuel),
    value: 1,
};

/// Tests by which all is met.
pub(crate) const ALL_MET: &[Test<'static>] = &[BOTH, FIRST, NEITHER];

/// All is met; a condition is missing; all is met, by a test that did not pass; no test is run.
static ROWS: [Row<'static>; 4] = [
    Row {
        tests: ALL_MET,
        text: "mcdc report unique
source sha256 8200d2384991a90c0fb5f6a208a7f0176cae5c6443e46177ef6bfd44c40d4caf
test t1 pass values 1 output
test t2 pass values 0 output
test t3 pass values 0 output
E1 1:5 met by t1
X1 1:20 met by t1
S1 1:20 met by t1
D1T 1:27 met by t1
D1F 1:27 met by t2
D1C1 1:27 met TT=T by t1 F-=F by t3
D1C2 1:30 met TT=T by t1 TF=F by t2
entries met 1 justified 0 stale 0 missing 0 of 1
exits met 1 justified 0 stale 0 missing 0 of 1
statements met 1 justified 0 stale 0 missing 0 of 1
labels met 0 justified 0 stale 0 missing 0 of 0
outcomes met 2 justified 0 stale 0 missing 0 of 2
conditions met 2 justified 0 stale 0 missing 0 of 2
status 0
",
        status: 0,
    },
    Row {
        tests: &[BOTH, NEITHER],
        text: "mcdc report unique
source sha256 8200d2384991a90c0fb5f6a208a7f0176cae5c6443e46177ef6bfd44c40d4caf
test t1 pass values 1 output
test t2 pass values 0 output
E1 1:5 met by t1
X1 1:20 met by t1
S1 1:20 met by t1
D1T 1:27 met by t1
D1F 1:27 met by t2
D1C1 1:27 met TT=T by t1 F-=F by t2
D1C2 1:30 missing
entries met 1 justified 0 stale 0 missing 0 of 1
exits met 1 justified 0 stale 0 missing 0 of 1
statements met 1 justified 0 stale 0 missing 0 of 1
labels met 0 justified 0 stale 0 missing 0 of 0
outcomes met 2 justified 0 stale 0 missing 0 of 2
conditions met 1 justified 0 stale 0 missing 1 of 2
status 1
",
        status: 1,
    },
    Row {
        tests: &[STOPPED, FIRST, NEITHER],
        text: "mcdc report unique
source sha256 8200d2384991a90c0fb5f6a208a7f0176cae5c6443e46177ef6bfd44c40d4caf
test t1 fuel values 1 output
test t2 pass values 0 output
test t3 pass values 0 output
E1 1:5 met by t1
X1 1:20 met by t1
S1 1:20 met by t1
D1T 1:27 met by t1
D1F 1:27 met by t2
D1C1 1:27 met TT=T by t1 F-=F by t3
D1C2 1:30 met TT=T by t1 TF=F by t2
entries met 1 justified 0 stale 0 missing 0 of 1
exits met 1 justified 0 stale 0 missing 0 of 1
statements met 1 justified 0 stale 0 missing 0 of 1
labels met 0 justified 0 stale 0 missing 0 of 0
outcomes met 2 justified 0 stale 0 missing 0 of 2
conditions met 2 justified 0 stale 0 missing 0 of 2
status 1
",
        status: 1,
    },
    Row {
        tests: &[],
        text: "mcdc report unique
source sha256 8200d2384991a90c0fb5f6a208a7f0176cae5c6443e46177ef6bfd44c40d4caf
E1 1:5 missing
X1 1:20 missing
S1 1:20 missing
D1T 1:27 missing
D1F 1:27 missing
D1C1 1:27 missing
D1C2 1:30 missing
entries met 0 justified 0 stale 0 missing 1 of 1
exits met 0 justified 0 stale 0 missing 1 of 1
statements met 0 justified 0 stale 0 missing 1 of 1
labels met 0 justified 0 stale 0 missing 0 of 0
outcomes met 0 justified 0 stale 0 missing 2 of 2
conditions met 0 justified 0 stale 0 missing 2 of 2
status 1
",
        status: 1,
    },
];

fn check(rt: &impl Abort, alloc: Global, row: &Row<'_>, report: &Report<'_>) -> Result<(), Fail>
    requires { IsReport (report_of report.now) }
{
    assert_eq!(rt; status(report), row.status);
    let mut out = MemorySink::new(alloc, 2000, Vec::new(alloc))?;
    assert_eq!(rt; write_text(alloc, report, &mut out), Ok(()));
    assert!(rt; out.bytes() == row.text.as_bytes());
    Ok(())
}

#[test]
fn reports_of_rows(rt: HostRuntime) -> Result<(), Fail> {
    let alloc = rt.alloc();
    for row in &ROWS {
        let report = report(&rt, alloc, row.tests)?;
        let checked = check(&rt, alloc, row, &report);
        drop(report);
        checked?;
    }
    Ok(())
}

/// The summary of the first report, as that of a program of two functions.
static SUMMARY: &str = "selfload 2
tests 3 passed 3
entries met 1 justified 0 stale 0 missing 0 of 1
exits met 1 justified 0 stale 0 missing 0 of 1
statements met 1 justified 0 stale 0 missing 0 of 1
labels met 0 justified 0 stale 0 missing 0 of 0
outcomes met 2 justified 0 stale 0 missing 0 of 2
conditions met 2 justified 0 stale 0 missing 0 of 2
status 0
";

fn check_summary(rt: &impl Abort, alloc: Global, report: &Report<'_>) -> Result<(), Fail>
    requires { IsReport (report_of report.now) }
{
    let lines = summary_lines(alloc, 2, report)?;
    let mut out = MemorySink::new(alloc, 2000, Vec::new(alloc))?;
    assert_eq!(rt; put_lines(&lines, &mut out), Ok(()));
    assert!(rt; out.bytes() == SUMMARY.as_bytes());
    Ok(())
}

#[test]
fn a_report_is_summed_up(rt: HostRuntime) -> Result<(), Fail> {
    let alloc = rt.alloc();
    let report = report(&rt, alloc, ALL_MET)?;
    let checked = check_summary(&rt, alloc, &report);
    drop(report);
    checked
}

/// Puts that fail, how many bytes each takes before, and how many bytes the sink then has of the
/// first report, which has 19 lines and 655 bytes. The first line has 19, the last one 9.
static STOPS: [(u32, u32, usize); 4] = [(1, 0, 0), (2, 0, 19), (2, 7, 26), (19, 0, 646)];

fn check_stop(
    rt: &impl Abort,
    alloc: Global,
    report: &Report<'_>,
    text: &[u8],
    stop: (u32, u32, usize),
) -> Result<(), Fail>
    requires { IsReport (report_of report.now) }
{
    let (put, takes, kept) = stop;
    let mut out = MemorySink::new(alloc, 2000, vec![in alloc; (put, takes)]?)?;
    assert_eq!(rt; write_text(alloc, report, &mut out), Err(ReportFault::Put));
    assert!(rt; kept <= text.len());
    let first = &text[..kept];
    assert!(rt; out.bytes() == first);
    Ok(())
}

fn check_stops(rt: &impl Abort, alloc: Global, report: &Report<'_>, text: &[u8]) -> Result<(), Fail>
    requires { IsReport (report_of report.now) }
{
    for stop in &STOPS {
        check_stop(rt, alloc, report, text, *stop)?;
    }
    Ok(())
}

/// Each line is a put: a sink that fails at one has the lines before it.
#[test]
fn a_line_is_a_put(rt: HostRuntime) -> Result<(), Fail> {
    let alloc = rt.alloc();
    let row = &ROWS[0];
    let report = report(&rt, alloc, row.tests)?;
    let checked = check_stops(&rt, alloc, &report, row.text.as_bytes());
    drop(report);
    checked
}

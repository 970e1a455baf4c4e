//! Reports in their other forms, as bytes.
ghost use Rattle.std.specs.Prelude.{All, IsUtf8};
ghost use Rattle.mc_report.specs.Report.{IsReport};
ghost use Rattle.mc_report.specs.Seen.{report_of};

use crate::make::report;
use crate::rows::ALL_MET;
use mc_port::MemorySink;
use mc_report::{Report, ReportFault, write_csv, write_json};
use serde_json::Value;
use std::alloc::Global;
use std::process::Abort;
use std::test::Fail;

/// By hand; the lines for one outcome and one condition are those of the manual.
static CSV: &str = "id,line,column,verdict,first,first_test,second,second_test,text,reason
E1,1,5,met,,t1,,,f,
X1,1,20,met,,t1,,,return a&&b;,
S1,1,20,met,,t1,,,return a&&b;,
D1T,1,27,met,,t1,,,a&&b,
D1F,1,27,met,,t2,,,a&&b,
D1C1,1,27,met,TT=T,t1,F-=F,t3,a,
D1C2,1,30,met,TT=T,t1,TF=F,t2,b,
";

fn check_csv(rt: &impl Abort, alloc: Global, report: &Report<'_>) -> Result<(), Fail>
    requires { IsReport (report_of report.now) }
{
    let mut out = MemorySink::new(alloc, 2000, Vec::new(alloc))?;
    assert_eq!(rt; write_csv(alloc, report, &mut out), Ok(()));
    assert!(rt; out.bytes() == CSV.as_bytes());
    Ok(())
}

/// The second put is the row of the first obligation. The header has 71 bytes.
fn check_stop(rt: &impl Abort, alloc: Global, report: &Report<'_>) -> Result<(), Fail>
    requires { IsReport (report_of report.now) }
{
    let mut out = MemorySink::new(alloc, 2000, vec![in alloc; (2, 0)]?)?;
    assert_eq!(rt; write_csv(alloc, report, &mut out), Err(ReportFault::Put));
    assert_eq!(rt; out.bytes().len(), 71);
    Ok(())
}

fn check_rows(rt: &impl Abort, alloc: Global, report: &Report<'_>) -> Result<(), Fail>
    requires { IsReport (report_of report.now) }
{
    check_csv(rt, alloc, report)?;
    check_stop(rt, alloc, report)
}

/// What `serde_json` reads again has the status 0.
fn check_json(rt: &impl Abort, alloc: Global, report: &Report<'_>) -> Result<(), Fail>
    requires report { IsReport (report_of report.now) }
    requires names { All IsUtf8 (report_of report.now).names }
{
    let mut out = MemorySink::new(alloc, 4000, Vec::new(alloc))?;
    assert_eq!(rt; write_json(alloc, report, &mut out), Ok(()));
    let value = Value::from_slice(alloc, out.bytes())?;
    assert_eq!(rt; value.get("status").and_then(Value::as_u64), Some(0));
    Ok(())
}

#[test]
fn rows_of_fields(rt: HostRuntime) -> Result<(), Fail> {
    let alloc = rt.alloc();
    let report = report(&rt, alloc, ALL_MET)?;
    let checked = check_rows(&rt, alloc, &report);
    drop(report);
    checked
}

#[test]
fn json_is_read_again(rt: HostRuntime) -> Result<(), Fail> {
    let alloc = rt.alloc();
    let report = report(&rt, alloc, ALL_MET)?;
    let checked = check_json(&rt, alloc, &report);
    drop(report);
    checked
}

//! The report as rows of comma-separated fields.
ghost use Rattle.std.specs.Prelude.{◌≡◌, ◌≤◌, ◌<◌, ◌^◌, ◌++◌, ◌∷◌, [], length, IfOk, OnOk};
ghost use Rattle.std.specs.List.{concat};
ghost use Rattle.csv.specs.Writing.{default_writer, row_text};
ghost use Rattle.mc_report.specs.Csv.{csv_header, csv_lines, csv_row, csv_rows};
ghost use Rattle.mc_report.specs.Report.{AreJudged, IsJudged, IsReport};
ghost use Rattle.mc_report.specs.Seen.{bytes_of, report_of};
ghost use Rattle.mc_report.specs.Written.{Writes};
ghost use Rattle.mc_report.specs.steps.Starts.{AreStarts};

mod fields;

use crate::fault::ReportFault;
use crate::places::line_starts;
use crate::report::Report;
use crate::row::row_bytes;
use fields::csv_fields;
use mc_oblige::{Obligation, Verdict};
use mc_port::{Sink, put_lines};
use std::alloc::{AllocError, Global};

/// The names of the fields, as a row.
#[tactic(auto, unfolding(csv::specs::Writing::escaped, csv::specs::Writing::fields_text, csv::specs::Writing::is_blank))]
fn header(alloc: Global) -> Result<Vec<u8>, AllocError>
    ensures { IfOk result (λ row. row.items ≡ row_text default_writer csv_header) }
{
    b"id,line,column,verdict,first,first_test,second,second_test,text,reason\n".to_vec(alloc)
}

fn push_row(
    alloc: Global,
    lines: &mut Vec<Vec<u8>>,
    report: &Report<'_>,
    starts: &[u32],
    obligation: &Obligation,
    verdict: &Verdict,
) -> Result<(), AllocError>
    requires short { length (report_of report.now).source < 2 ^ 31 }
    requires starts { let source = (report_of report.now).source in
        AreStarts source (length source) starts.now }
    requires judged { let r = report_of report.now in
        IsJudged (length r.names) r.decisions obligation.now verdict.now }
    ensures { OnOk result (bytes_of lines.new.items ≡ bytes_of lines.old.items
        ++ csv_row (report_of report.now) obligation.now verdict.now ∷ []) }
{
    let row = csv_fields(alloc, report, starts, obligation, verdict)?;
    lines.push(row_bytes(alloc, &row)?)?;
    Ok(())
}

/// Adds a row for each obligation.
fn push_rows(alloc: Global, lines: &mut Vec<Vec<u8>>, report: &Report<'_>) -> Result<(), AllocError>
    requires short { length (report_of report.now).source < 2 ^ 31 }
    requires judged { let r = report_of report.now in
        AreJudged (length r.names) r.decisions r.obligations r.verdicts }
    ensures { OnOk result (bytes_of lines.new.items ≡ bytes_of lines.old.items
        ++ (let r = report_of report.now in csv_rows r r.obligations r.verdicts)) }
{
    let starts = line_starts(alloc, report.source)?;
    let mut obligations = report.obligations.as_slice();
    let mut verdicts = report.verdicts.as_slice();
    while let [obligation, later_obligations @ ..] = obligations {
        let [verdict, later_verdicts @ ..] = verdicts else {
            unreachable!();
        };
        push_row(alloc, lines, report, &starts, obligation, verdict)?;
        obligations = later_obligations;
        verdicts = later_verdicts;
    }
    Ok(())
}

/// The rows of the report: a header, and one for each obligation, in their order. A row is the
/// obligation's name, its line and column, the verdict, for a condition the first vector, the first
/// or only test, the second vector and its test, the source where it stands, and the reason; what
/// does not apply is empty.
pub fn csv_report_lines(alloc: Global, report: &Report<'_>) -> Result<Vec<Vec<u8>>, AllocError>
    requires { IsReport (report_of report.now) }
    ensures { IfOk result (λ lines. bytes_of lines.items ≡ csv_lines (report_of report.now)) }
{
    let mut lines = Vec::new(alloc);
    lines.push(header(alloc)?)?;
    push_rows(alloc, &mut lines, report)?;
    Ok(lines)
}

/// Writes the report as rows of comma-separated fields. All of them are made, and all memory taken,
/// before the first `put`; a row is one `put`, whatever its fields hold.
pub fn write_csv<K: Sink>(
    alloc: Global,
    report: &Report<'_>,
    out: &mut K,
) -> Result<(), ReportFault>
    requires { IsReport (report_of report.now) }
    ensures text { Writes (K.written out.old) (K.written out.new) (K.faults out.old)
        (K.faults out.new) (concat (csv_lines (report_of report.now))) result }
    ensures later { K.faults out.old ≤ K.faults out.new }
{
    match csv_report_lines(alloc, report) {
        Ok(lines) => match put_lines(&lines, out) {
            Ok(()) => Ok(()),
            Err(_) => Err(ReportFault::Put),
        },
        Err(_) => Err(ReportFault::OutOfMemory),
    }
}

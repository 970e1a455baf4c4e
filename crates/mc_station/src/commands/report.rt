//! The command `report`.
ghost use Rattle.std.specs.Prelude.{◌≡◌, All, IfOk, IsUtf8};
ghost use Rattle.mc_oblige.specs.Shown.{HasEvent};
ghost use Rattle.mc_report.specs.Report.{IsReport};
ghost use Rattle.mc_report.specs.Seen.{report_of};
ghost use Rattle.mc_report.specs.Status.{status_of};
ghost use Rattle.mc_report.specs.Forms.{lines_in_form};
ghost use Rattle.station_replies.specs.Reply.{written};
ghost use Rattle.mc_station.specs.Replied.{seen_reply};
ghost use Rattle.mc_station.specs.Ran.{AreTold};
ghost use Rattle.mc_station.specs.Seen.{AreReasons, HasItsTree, seen_accepted, seen_tested};
ghost use Rattle.mc_station.specs.commands.Report.{IsReportOn};

use crate::accepted::Accepted;
use crate::digest::digest_of;
use crate::reply::Reply;
use crate::tested::Tested;
use mc_core::Matrix;
use mc_oblige::{Justification, Mode, judge, obligations};
use mc_report::{Form, Report, lines_in, status};
use std::alloc::{AllocError, Global};
use std::mem::forget;

/// The lines of a report in a form, with its status.
pub fn written_report<'a>(
    alloc: Global,
    form: Form,
    report: Report<'_>,
) -> Result<Reply<'a>, AllocError>
    requires report { IsReport (report_of report) }
    requires names { All IsUtf8 (report_of report).names }
    ensures { IfOk result (λ reply. let r = report_of report.entry in
        seen_reply reply ≡ written (status_of r) (lines_in_form form r)) }
{
    let number = status(&report);
    let lines = lines_in(alloc, form, &report);
    drop(report);
    Ok(Reply::of_lines(alloc, number, lines?))
}

/// A report on the events of a matrix, whose conditions are shown by this kind of independence.
pub fn report_on<'a>(
    alloc: Global,
    mode: Mode,
    accepted: Accepted<'a>,
    matrix: &Matrix,
    tests: Tested,
    justifications: &[Justification],
) -> Result<Report<'a>, AllocError>
    requires instrumented { HasItsTree accepted }
    requires told { AreTold (seen_accepted accepted) matrix.now (seen_tested tests) }
    requires reasons { AreReasons accepted justifications.now }
    ensures made { IfOk result (λ report. let a = seen_accepted accepted.entry in
        IsReportOn (HasEvent a.map matrix.now) mode a (seen_tested tests)
        justifications.now (report_of report)) }
    ensures map { IfOk result (λ report. report.map ≡ accepted.entry.map) }
    ensures whole { IfOk result (λ report. IsReport (report_of report)) }
    ensures texts { IfOk result (λ report. All IsUtf8 (report_of report).names) }
{
    let Accepted { source, tree, map } = accepted;
    forget(tree);
    let obligations = obligations(alloc, &map)?;
    let verdicts = judge(alloc, &map, matrix, mode, justifications)?;
    Ok(Report {
        source,
        digest: digest_of(source),
        mode,
        names: tests.names,
        states: tests.states,
        results: tests.results,
        map,
        obligations,
        verdicts,
    })
}

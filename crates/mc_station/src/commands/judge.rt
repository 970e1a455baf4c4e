//! The commands that judge the obligations: `report`, `analyse`, `list`, `functions` and
//! `needs`.
ghost use Rattle.std.specs.Prelude.{◌≡◌, ◌≤◌, All, IfOk, IsUtf8, length};
ghost use Rattle.mc_command.specs.Seen.{seen_judging, seen_telling};
ghost use Rattle.mc_limits.specs.Limits.{most_source_bytes};
ghost use Rattle.mc_oblige.specs.Shown.{HasEvent};
ghost use Rattle.mc_probe.specs.BitMaps.{map_of};
ghost use Rattle.mc_report.specs.Report.{IsReport};
ghost use Rattle.mc_report.specs.Seen.{report_of};
ghost use Rattle.mc_station.specs.Ran.{AreTold, IsJudgedBy};
ghost use Rattle.mc_station.specs.Replied.{seen_reply};
ghost use Rattle.mc_station.specs.Seen.{AreReasons, HasItsTree, HasTokens, seen_accepted, seen_tested};
ghost use Rattle.mc_station.specs.commands.Report.{JudgesOn, TellsOf};

use crate::accepted::Accepted;
use crate::commands::functions::functions;
use crate::commands::list::listing;
use crate::commands::needs::needs;
use crate::commands::report::{report_on, written_report};
use crate::reply::Reply;
use crate::tested::Tested;
use mc_command::{Judging, Telling};
use mc_core::Matrix;
use mc_oblige::Justification;
use mc_report::Report;
use std::alloc::{AllocError, Global};

// What is told of a report.
fn told<'a>(
    alloc: Global,
    telling: Telling<'_>,
    report: Report<'a>,
    matrix: &Matrix,
) -> Result<Reply<'a>, AllocError>
    requires report { IsReport (report_of report) }
    requires names { All IsUtf8 (report_of report).names }
    requires short { length report.source.now ≤ most_source_bytes }
    requires tokens { HasTokens report.source.now }
    requires judged { IsJudgedBy matrix.now (map_of report.map) (report_of report) }
    ensures { IfOk result (λ reply. let m = map_of report.entry.map in
        TellsOf (HasEvent m matrix.now) (seen_telling telling.entry) m (report_of report.entry)
        (seen_reply reply)) }
{
    match telling {
        Telling::Report(form) => written_report(alloc, form, report),
        Telling::Listing => Ok(listing(alloc, report)),
        Telling::Functions { of } => {
            let reply = functions(alloc, of, &report);
            drop(report);
            reply
        }
        Telling::Needs { of } => {
            let reply = needs(alloc, of, &report, matrix);
            drop(report);
            reply
        }
    }
}

/// The reply of a command that judges the obligations, by the events of a matrix.
pub fn judge<'a>(
    alloc: Global,
    asked: Judging<'_>,
    accepted: Accepted<'a>,
    matrix: &Matrix,
    tests: Tested,
    justifications: &[Justification],
) -> Result<Reply<'a>, AllocError>
    requires instrumented { HasItsTree accepted }
    requires told { AreTold (seen_accepted accepted) matrix.now (seen_tested tests) }
    requires reasons { AreReasons accepted justifications.now }
    ensures { IfOk result (λ reply. let a = seen_accepted accepted.entry in
        JudgesOn (HasEvent a.map matrix.now) (seen_judging asked.entry) a
        (seen_tested tests) justifications.now (seen_reply reply)) }
{
    let report = report_on(alloc, asked.mode, accepted, matrix, tests, justifications)?;
    told(alloc, asked.telling, report, matrix)
}

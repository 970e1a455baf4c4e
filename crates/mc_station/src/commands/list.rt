//! The command `list`.
ghost use Rattle.std.specs.Prelude.{◌≡◌, ◌≤◌, length};
ghost use Rattle.mc_limits.specs.Limits.{most_source_bytes};
ghost use Rattle.mc_report.specs.Report.{IsReport};
ghost use Rattle.mc_report.specs.Seen.{report_of};
ghost use Rattle.mc_report.specs.Status.{status_of};
ghost use Rattle.station_replies.specs.Reply.{written};
ghost use Rattle.mc_station.specs.Output.{listing_pieces};
ghost use Rattle.mc_station.specs.Replied.{seen_reply};

use crate::reply::Reply;
use mc_report::{Report, status};
use std::alloc::Global;

/// The lines of the source of a report, each with the mark of its worst verdict, and its status.
pub fn listing<'a>(alloc: Global, report: Report<'a>) -> Reply<'a>
    requires report { IsReport (report_of report) }
    requires short { length report.source.now ≤ most_source_bytes }
    ensures { let r = report_of report.entry in seen_reply result
        ≡ written (status_of r) (listing_pieces r.source r.obligations r.verdicts) }
{
    let number = status(&report);
    let Report {
        source,
        digest: _,
        mode: _,
        names,
        states,
        results,
        map,
        obligations,
        verdicts,
    } = report;
    drop((names, states, results));
    drop(map);
    Reply::of_listing(alloc, number, source, obligations, verdicts)
}

//! The counts of obligations as a JSON object.
ghost use Rattle.std.specs.Prelude.{◌≡◌, ◌++◌, length, OnOk};
ghost use Rattle.serde_json.specs.Written.{compact_text};
ghost use Rattle.mc_report.specs.Counts.{kind_word};
ghost use Rattle.mc_report.specs.Json.{count_data, counts_data};
ghost use Rattle.mc_report.specs.Seen.{report_of};
ghost use Rattle.mc_report.specs.steps.Members.{member_text};

use crate::counts::{counted, total};
use crate::json_form::members::{push_key, push_number};
use crate::kind::Kind;
use crate::report::Report;
use mc_oblige::VerdictState;
use std::alloc::{AllocError, Global};

fn push_count(
    alloc: Global,
    line: &mut Vec<u8>,
    kind: Kind,
    report: &Report<'_>,
) -> Result<(), AllocError>
    requires { let r = report_of report.now in length r.verdicts ≡ length r.obligations }
    ensures { OnOk result (line.new.items ≡ line.old.items
        ++ (let r = report_of report.now in
        compact_text (count_data kind r.obligations r.verdicts))) }
{
    let obligations = report.obligations.as_slice();
    let verdicts = report.verdicts.as_slice();
    let justified = counted(kind, VerdictState::Justified, obligations, verdicts);
    let met = counted(kind, VerdictState::Met, obligations, verdicts);
    let missing = counted(kind, VerdictState::Missing, obligations, verdicts);
    let stale = counted(kind, VerdictState::Stale, obligations, verdicts);
    line.push(b'{')?;
    push_number(alloc, line, false, "justified", justified as u64)?;
    push_number(alloc, line, true, "met", met as u64)?;
    push_number(alloc, line, true, "missing", missing as u64)?;
    push_number(alloc, line, true, "stale", stale as u64)?;
    push_number(alloc, line, true, "total", total(kind, obligations) as u64)?;
    line.push(b'}')?;
    Ok(())
}

fn push_kind(
    alloc: Global,
    line: &mut Vec<u8>,
    later: bool,
    kind: Kind,
    report: &Report<'_>,
) -> Result<(), AllocError>
    requires { let r = report_of report.now in length r.verdicts ≡ length r.obligations }
    ensures { OnOk result (line.new.items ≡ line.old.items
        ++ (let r = report_of report.now in
        member_text later (kind_word kind) (count_data kind r.obligations r.verdicts))) }
{
    push_key(alloc, line, later, kind.word())?;
    push_count(alloc, line, kind, report)
}

/// Adds the counts of each kind of obligation, the kinds in the order of their words.
pub(crate) fn push_counts(
    alloc: Global,
    line: &mut Vec<u8>,
    report: &Report<'_>,
) -> Result<(), AllocError>
    requires { let r = report_of report.now in length r.verdicts ≡ length r.obligations }
    ensures { OnOk result (line.new.items ≡ line.old.items
        ++ (let r = report_of report.now in compact_text (counts_data r.obligations r.verdicts))) }
{
    line.push(b'{')?;
    push_kind(alloc, line, false, Kind::Conditions, report)?;
    push_kind(alloc, line, true, Kind::Entries, report)?;
    push_kind(alloc, line, true, Kind::Exits, report)?;
    push_kind(alloc, line, true, Kind::Labels, report)?;
    push_kind(alloc, line, true, Kind::Outcomes, report)?;
    push_kind(alloc, line, true, Kind::Statements, report)?;
    line.push(b'}')?;
    Ok(())
}

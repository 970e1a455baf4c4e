//! Obligations as JSON objects.
ghost use Rattle.std.specs.Prelude.{◌≡◌, ◌<◌, ◌^◌, ◌++◌, ◌∷◌, [], false, true, codes, length, map, slice_get, All, IsUtf8, OnOk};
ghost use Rattle.serde_json.specs.Data.{array, null, string};
ghost use Rattle.serde_json.specs.View.{items_of};
ghost use Rattle.serde_json.specs.Written.{comma_if, compact_text, items_text};
ghost use Rattle.mc_probe.specs.Mapped.{mapped_of};
ghost use Rattle.mc_report.specs.Json.{by_data, obligation_data, obligations_data, reason_data, shown_data};
ghost use Rattle.mc_report.specs.Lines.{decision_in, name_of, path_vector};
ghost use Rattle.mc_report.specs.Report.{AreJudged, HasPath, IsJudged, IsOfKind, IsReason};
ghost use Rattle.mc_report.specs.Seen.{report_of};
ghost use Rattle.mc_report.specs.steps.Members.{member_text};
ghost use Rattle.mc_report.specs.steps.Starts.{AreStarts};

use crate::evidence::{Pair, decision_of};
use crate::json_form::members::{push_comma, push_key, push_null, push_number, push_string};
use crate::places::{line_starts, place_at};
use crate::quoted::text_of;
use crate::report::Report;
use crate::words::verdict_word;
use evidence_texts::{name_of, path_vector};
use mc_oblige::{Evidence, Obligation, ObligationId, Reason, Verdict, id_text};
use mc_probe::MappedDecision;
use mc_typed::Name;
use std::alloc::{AllocError, Global};

/// The name of a test, as text.
fn name_text(names: &[Name], test: u32) -> &str
    requires there { test < length names.now }
    requires text { All IsUtf8 names.now }
    ensures { result.now ≡ name_of names.now test }
{
    text_of(name_of(names, test))
}

/// Adds the member for the vector of a path of decision `d`.
fn push_path(
    alloc: Global,
    line: &mut Vec<u8>,
    decisions: &[MappedDecision],
    d: u32,
    path: u32,
) -> Result<(), AllocError>
    requires { HasPath (slice_get (map mapped_of decisions.now) d) path }
    ensures { OnOk result (line.new.items ≡ line.old.items
        ++ member_text true (codes "vector")
        (string (path_vector (slice_get (map mapped_of decisions.now) d) path))) }
{
    let vector = path_vector(alloc, decisions, d, path)?;
    push_string(alloc, line, true, "vector", text_of(vector.as_slice()))
}

/// Adds a test with the vector that it evaluates.
fn push_vector(
    alloc: Global,
    line: &mut Vec<u8>,
    name: &str,
    decisions: &[MappedDecision],
    d: u32,
    path: u32,
) -> Result<(), AllocError>
    requires { HasPath (slice_get (map mapped_of decisions.now) d) path }
    ensures { OnOk result (line.new.items ≡ line.old.items
        ++ compact_text (by_data name.now
        (string (path_vector (slice_get (map mapped_of decisions.now) d) path)))) }
{
    line.push(b'{')?;
    push_string(alloc, line, false, "test", name)?;
    push_path(alloc, line, decisions, d, path)?;
    line.push(b'}')?;
    Ok(())
}

/// Adds the vectors of a pair, each with its test, as a list.
fn push_pair(
    alloc: Global,
    line: &mut Vec<u8>,
    names: &[Name],
    decisions: &[MappedDecision],
    pair: Pair,
) -> Result<(), AllocError>
    requires first { HasPath (slice_get (map mapped_of decisions.now) pair.d) pair.first }
    requires second { HasPath (slice_get (map mapped_of decisions.now) pair.d) pair.second }
    requires first_test { pair.first_test < length names.now }
    requires second_test { pair.second_test < length names.now }
    requires text { All IsUtf8 names.now }
    ensures { OnOk result (line.new.items ≡ line.old.items
        ++ compact_text (array (items_of (shown_data names.now
        (slice_get (map mapped_of decisions.now) pair.d)
        (Evidence.Pair pair.first pair.first_test pair.second pair.second_test))))) }
{
    let first = name_text(names, pair.first_test);
    let second = name_text(names, pair.second_test);
    line.push(b'[')?;
    push_vector(alloc, line, first, decisions, pair.d, pair.first)?;
    line.push(b',')?;
    push_vector(alloc, line, second, decisions, pair.d, pair.second)?;
    line.push(b']')?;
    Ok(())
}

/// Adds a test without a vector, as a list.
fn push_one(alloc: Global, line: &mut Vec<u8>, name: &str) -> Result<(), AllocError>
    ensures { OnOk result (line.new.items ≡ line.old.items
        ++ compact_text (array (items_of (by_data name.now null ∷ [])))) }
{
    line.push(b'[')?;
    push_test(alloc, line, name)?;
    line.push(b']')?;
    Ok(())
}

/// Adds a test that shows an obligation without a vector.
fn push_test(alloc: Global, line: &mut Vec<u8>, name: &str) -> Result<(), AllocError>
    ensures { OnOk result (line.new.items
        ≡ line.old.items ++ compact_text (by_data name.now null)) }
{
    line.push(b'{')?;
    push_string(alloc, line, false, "test", name)?;
    push_null(alloc, line, true, "vector")?;
    line.push(b'}')?;
    Ok(())
}

/// Adds the list of what shows an obligation.
fn push_shown(
    alloc: Global,
    line: &mut Vec<u8>,
    names: &[Name],
    decisions: &[MappedDecision],
    id: ObligationId,
    evidence: Evidence,
) -> Result<(), AllocError>
    requires kind { IsOfKind (length names.now) (map mapped_of decisions.now) id evidence }
    requires text { All IsUtf8 names.now }
    ensures { OnOk result (line.new.items ≡ line.old.items
        ++ compact_text (array (items_of (shown_data names.now
        (decision_in (map mapped_of decisions.now) id) evidence)))) }
{
    match evidence {
        Evidence::Absent => line.extend_from_slice(b"[]"),
        Evidence::One { test } => push_one(alloc, line, name_text(names, test)),
        Evidence::Pair {
            first,
            first_test,
            second,
            second_test,
        } => {
            let pair = Pair {
                d: decision_of(id),
                first,
                first_test,
                second,
                second_test,
            };
            push_pair(alloc, line, names, decisions, pair)
        }
    }
}

/// Adds the list of what shows an obligation of the report.
fn push_by(
    alloc: Global,
    line: &mut Vec<u8>,
    report: &Report<'_>,
    obligation: &Obligation,
    verdict: &Verdict,
) -> Result<(), AllocError>
    requires judged { let r = report_of report.now in
        IsJudged (length r.names) r.decisions obligation.now verdict.now }
    requires text { All IsUtf8 (report_of report.now).names }
    ensures { OnOk result (line.new.items ≡ line.old.items
        ++ (let r = report_of report.now in
        compact_text (array (items_of (shown_data r.names
        (decision_in r.decisions obligation.now.id) verdict.now.evidence))))) }
{
    let names = report.names.as_slice();
    let decisions = report.map.decisions.as_slice();
    push_shown(
        alloc,
        line,
        names,
        decisions,
        obligation.id,
        verdict.evidence,
    )
}

/// Adds the member for the reason of a justification.
fn push_reason(alloc: Global, line: &mut Vec<u8>, reason: &Option<Reason>) -> Result<(), AllocError>
    requires { IsReason reason.now }
    ensures { OnOk result (line.new.items
        ≡ line.old.items ++ member_text true (codes "reason") (reason_data reason.now)) }
{
    match reason {
        Some(reason) => push_string(alloc, line, true, "reason", text_of(reason.bytes())),
        None => push_null(alloc, line, true, "reason"),
    }
}

fn push_obligation(
    alloc: Global,
    line: &mut Vec<u8>,
    report: &Report<'_>,
    starts: &[u32],
    obligation: &Obligation,
    verdict: &Verdict,
) -> Result<(), AllocError>
    requires short { length (report_of report.now).source < 2 ^ 31 }
    requires starts { let source = (report_of report.now).source in
        AreStarts source (length source) starts.now }
    requires judged { let r = report_of report.now in
        IsJudged (length r.names) r.decisions obligation.now verdict.now }
    requires text { All IsUtf8 (report_of report.now).names }
    ensures { OnOk result (line.new.items ≡ line.old.items
        ++ compact_text (obligation_data (report_of report.now) obligation.now verdict.now)) }
{
    let id = id_text(alloc, obligation.id)?;
    let place = place_at(report.source, starts, obligation.span.start);
    line.push(b'{')?;
    push_key(alloc, line, false, "by")?;
    push_by(alloc, line, report, obligation, verdict)?;
    push_number(alloc, line, true, "column", u64::from(place.column))?;
    push_string(alloc, line, true, "id", id.as_str())?;
    push_number(alloc, line, true, "line", u64::from(place.line))?;
    push_reason(alloc, line, &verdict.reason)?;
    push_string(alloc, line, true, "verdict", verdict_word(verdict.state))?;
    line.push(b'}')?;
    Ok(())
}

/// Adds the obligations, and the end of their list.
fn push_all(alloc: Global, line: &mut Vec<u8>, report: &Report<'_>) -> Result<(), AllocError>
    requires short { length (report_of report.now).source < 2 ^ 31 }
    requires judged { let r = report_of report.now in
        AreJudged (length r.names) r.decisions r.obligations r.verdicts }
    requires text { All IsUtf8 (report_of report.now).names }
    ensures { OnOk result (line.new.items ≡ line.old.items
        ++ (let r = report_of report.now in
        items_text false (items_of (obligations_data r r.obligations r.verdicts)))) }
{
    let starts = line_starts(alloc, report.source)?;
    let mut later = false;
    let mut obligations = report.obligations.as_slice();
    let mut verdicts = report.verdicts.as_slice();
    while let [obligation, later_obligations @ ..] = obligations {
        let [verdict, later_verdicts @ ..] = verdicts else {
            unreachable!();
        };
        push_comma(line, later)?;
        push_obligation(alloc, line, report, &starts, obligation, verdict)?;
        later = true;
        obligations = later_obligations;
        verdicts = later_verdicts;
    }
    line.push(b']')?;
    Ok(())
}

/// Adds the list of obligations.
pub(crate) fn push_obligations(
    alloc: Global,
    line: &mut Vec<u8>,
    report: &Report<'_>,
) -> Result<(), AllocError>
    requires short { length (report_of report.now).source < 2 ^ 31 }
    requires judged { let r = report_of report.now in
        AreJudged (length r.names) r.decisions r.obligations r.verdicts }
    requires text { All IsUtf8 (report_of report.now).names }
    ensures { OnOk result (line.new.items ≡ line.old.items
        ++ (let r = report_of report.now in
        compact_text (array (items_of (obligations_data r r.obligations r.verdicts))))) }
{
    line.push(b'[')?;
    push_all(alloc, line, report)
}

//! The lines of obligations.
ghost use Rattle.std.specs.Prelude.{◌≡◌, ◌<◌, ◌^◌, ◌++◌, ◌∷◌, [], length, IfOk, OnOk, string_bytes};
ghost use Rattle.mc_report.specs.Lines.{obligation_text, place_text, verdict_line, verdict_lines};
ghost use Rattle.mc_report.specs.Report.{AreJudged, IsJudged};
ghost use Rattle.mc_report.specs.Seen.{bytes_of, report_of};
ghost use Rattle.mc_report.specs.steps.Starts.{AreStarts};

use crate::evidence::{push_evidence, push_reason};
use crate::places::{line_starts, place_at};
use crate::report::Report;
use crate::words::verdict_word;
use mc_lex::Place;
use mc_oblige::{Obligation, Verdict, VerdictState, id_text};
use std::alloc::{AllocError, Global};

fn obligation_text(
    alloc: Global,
    id: &str,
    place: Place,
    state: VerdictState,
) -> Result<String, AllocError>
    ensures { IfOk result (λ text.
        string_bytes text ≡ obligation_text id.now place.line place.column state) }
{
    let line = place.line;
    let column = place.column;
    let word = verdict_word(state);
    format!(in alloc; "{id} {line}:{column} {word}")
}

/// Which obligation it is, where it stands, and its verdict.
fn place_text(
    alloc: Global,
    source: &[u8],
    starts: &[u32],
    obligation: &Obligation,
    state: VerdictState,
) -> Result<String, AllocError>
    requires short { length source.now < 2 ^ 31 }
    requires starts { AreStarts source.now (length source.now) starts.now }
    ensures { IfOk result (λ text. string_bytes text ≡ place_text source.now obligation.now state) }
{
    let id = id_text(alloc, obligation.id)?;
    let place = place_at(source, starts, obligation.span.start);
    obligation_text(alloc, id.as_str(), place, state)
}

fn verdict_line(
    alloc: Global,
    report: &Report<'_>,
    starts: &[u32],
    obligation: &Obligation,
    verdict: &Verdict,
) -> Result<Vec<u8>, AllocError>
    requires short { length (report_of report.now).source < 2 ^ 31 }
    requires starts { let source = (report_of report.now).source in
        AreStarts source (length source) starts.now }
    requires judged { let r = report_of report.now in
        IsJudged (length r.names) r.decisions obligation.now verdict.now }
    ensures { IfOk result (λ line.
        line.items ≡ verdict_line (report_of report.now) obligation.now verdict.now) }
{
    let place = place_text(alloc, report.source, starts, obligation, verdict.state)?;
    let mut line = Vec::new(alloc);
    line.extend_from_slice(place.as_bytes())?;
    push_evidence(
        &mut line,
        &report.names,
        &report.map.decisions,
        obligation.id,
        verdict.evidence,
    )?;
    push_reason(alloc, &mut line, &verdict.reason)?;
    line.push(b'\n')?;
    Ok(line)
}

fn push_verdict(
    alloc: Global,
    lines: &mut Vec<Vec<u8>>,
    report: &Report<'_>,
    starts: &[u32],
    obligation: &Obligation,
    verdict: &Verdict,
) -> Result<(), AllocError>
    requires short { length (report_of report.now).source < 2 ^ 31 }
    requires starts { let source = (report_of report.now).source in
        AreStarts source (length source) starts.now }
    requires judged { let r = report_of report.now in
        IsJudged (length r.names) r.decisions obligation.now verdict.now }
    ensures { OnOk result (bytes_of lines.new.items ≡ bytes_of lines.old.items
        ++ verdict_line (report_of report.now) obligation.now verdict.now ∷ []) }
{
    let line = verdict_line(alloc, report, starts, obligation, verdict)?;
    lines.push(line)?;
    Ok(())
}

/// Adds a line for each obligation.
pub(crate) fn push_verdicts(
    alloc: Global,
    lines: &mut Vec<Vec<u8>>,
    report: &Report<'_>,
) -> Result<(), AllocError>
    requires short { length (report_of report.now).source < 2 ^ 31 }
    requires judged { let r = report_of report.now in
        AreJudged (length r.names) r.decisions r.obligations r.verdicts }
    ensures { OnOk result (bytes_of lines.new.items ≡ bytes_of lines.old.items
        ++ (let r = report_of report.now in verdict_lines r r.obligations r.verdicts)) }
{
    let starts = line_starts(alloc, report.source)?;
    let mut obligations = report.obligations.as_slice();
    let mut verdicts = report.verdicts.as_slice();
    while let [obligation, later_obligations @ ..] = obligations {
        let [verdict, later_verdicts @ ..] = verdicts else {
            unreachable!();
        };
        push_verdict(alloc, lines, report, &starts, obligation, verdict)?;
        obligations = later_obligations;
        verdicts = later_verdicts;
    }
    Ok(())
}

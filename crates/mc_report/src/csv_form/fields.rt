//! The fields of a row.
ghost use Rattle.std.specs.Prelude.{◌≡◌, ◌<◌, ◌^◌, ◌++◌, ◌∷◌, [], decimal, length, map, slice_get, IfOk, OnOk, string_bytes};
ghost use Rattle.csv.specs.Records.{fields_of, partial_of};
ghost use Rattle.mc_lex.specs.Lines.{line_of, column_of};
ghost use Rattle.mc_probe.specs.Mapped.{mapped_of};
ghost use Rattle.mc_report.specs.Csv.{csv_fields, reason_field, shown_fields};
ghost use Rattle.mc_report.specs.Lines.{decision_in};
ghost use Rattle.mc_report.specs.Report.{HasPath, IsJudged, IsOfKind};
ghost use Rattle.mc_report.specs.Seen.{report_of};
ghost use Rattle.mc_report.specs.Words.{id_text, verdict_word};
ghost use Rattle.mc_report.specs.steps.Starts.{AreStarts};

use crate::evidence::{Pair, decision_of};
use crate::places::place_at;
use crate::report::Report;
use crate::row::push_field;
use crate::words::verdict_word;
use csv::ByteRecord;
use evidence_texts::{name_of, path_vector};
use mc_oblige::{Evidence, Obligation, ObligationId, Reason, Verdict, VerdictState, id_text};
use mc_probe::MappedDecision;
use mc_typed::Name;
use std::alloc::{AllocError, Global};

fn push_number(alloc: Global, row: &mut ByteRecord, value: u32) -> Result<(), AllocError>
    requires { partial_of row.old ≡ [] }
    ensures fields { OnOk result (fields_of row.new ≡ fields_of row.old ++ decimal value ∷ []) }
    ensures partial { OnOk result (partial_of row.new ≡ []) }
{
    let text = format!(in alloc; "{value}")?;
    push_field(row, text.as_bytes())
}

/// Adds which obligation it is, where it stands, and its verdict.
fn push_place(
    alloc: Global,
    row: &mut ByteRecord,
    source: &[u8],
    starts: &[u32],
    obligation: &Obligation,
    state: VerdictState,
) -> Result<(), AllocError>
    requires short { length source.now < 2 ^ 31 }
    requires starts { AreStarts source.now (length source.now) starts.now }
    requires partial { partial_of row.old ≡ [] }
    ensures fields { OnOk result (fields_of row.new ≡ fields_of row.old
        ++ id_text obligation.now.id
        ∷ decimal (line_of source.now obligation.now.span.start)
        ∷ decimal (column_of source.now obligation.now.span.start)
        ∷ verdict_word state ∷ []) }
    ensures partial { OnOk result (partial_of row.new ≡ []) }
{
    let id = id_text(alloc, obligation.id)?;
    let place = place_at(source, starts, obligation.span.start);
    push_field(row, id.as_bytes())?;
    push_number(alloc, row, place.line)?;
    push_number(alloc, row, place.column)?;
    push_field(row, verdict_word(state).as_bytes())
}

/// Adds the fields of what shows an obligation by one test alone, or by none where the name is
/// empty.
fn push_test(row: &mut ByteRecord, test: &[u8]) -> Result<(), AllocError>
    requires { partial_of row.old ≡ [] }
    ensures fields { OnOk result (fields_of row.new
        ≡ fields_of row.old ++ [] ∷ test.now ∷ [] ∷ [] ∷ []) }
    ensures partial { OnOk result (partial_of row.new ≡ []) }
{
    push_field(row, b"")?;
    push_field(row, test)?;
    push_field(row, b"")?;
    push_field(row, b"")
}

/// Adds the vectors and the tests of a pair.
fn push_pair(
    alloc: Global,
    row: &mut ByteRecord,
    names: &[Name],
    decisions: &[MappedDecision],
    pair: Pair,
) -> Result<(), AllocError>
    requires first { HasPath (slice_get (map mapped_of decisions.now) pair.d) pair.first }
    requires second { HasPath (slice_get (map mapped_of decisions.now) pair.d) pair.second }
    requires first_test { pair.first_test < length names.now }
    requires second_test { pair.second_test < length names.now }
    requires partial { partial_of row.old ≡ [] }
    ensures fields { OnOk result (fields_of row.new ≡ fields_of row.old
        ++ shown_fields names.now (slice_get (map mapped_of decisions.now) pair.d)
        (Evidence.Pair pair.first pair.first_test pair.second pair.second_test)) }
    ensures partial { OnOk result (partial_of row.new ≡ []) }
{
    let first = path_vector(alloc, decisions, pair.d, pair.first)?;
    let second = path_vector(alloc, decisions, pair.d, pair.second)?;
    push_field(row, &first)?;
    push_field(row, name_of(names, pair.first_test))?;
    push_field(row, &second)?;
    push_field(row, name_of(names, pair.second_test))
}

/// Adds what shows an obligation: the least test, or for a condition each vector of the pair with
/// its least test.
fn push_shown(
    alloc: Global,
    row: &mut ByteRecord,
    names: &[Name],
    decisions: &[MappedDecision],
    id: ObligationId,
    evidence: Evidence,
) -> Result<(), AllocError>
    requires kind { IsOfKind (length names.now) (map mapped_of decisions.now) id evidence }
    requires partial { partial_of row.old ≡ [] }
    ensures fields { OnOk result (fields_of row.new ≡ fields_of row.old
        ++ shown_fields names.now (decision_in (map mapped_of decisions.now) id) evidence) }
    ensures partial { OnOk result (partial_of row.new ≡ []) }
{
    match evidence {
        Evidence::Absent => push_test(row, b""),
        Evidence::One { test } => push_test(row, name_of(names, test)),
        Evidence::Pair {
            first,
            first_test,
            second,
            second_test,
        } => {
            let pair = Pair {
                d: decision_of(id),
                first,
                first_test,
                second,
                second_test,
            };
            push_pair(alloc, row, names, decisions, pair)
        }
    }
}

fn reason_field(reason: &Option<Reason>) -> &[u8]
    ensures { result.now ≡ reason_field reason.now }
{
    match reason {
        Some(reason) => reason.bytes(),
        None => b"",
    }
}

/// The fields of an obligation.
pub(crate) fn csv_fields(
    alloc: Global,
    report: &Report<'_>,
    starts: &[u32],
    obligation: &Obligation,
    verdict: &Verdict,
) -> Result<ByteRecord, AllocError>
    requires short { length (report_of report.now).source < 2 ^ 31 }
    requires starts { let source = (report_of report.now).source in
        AreStarts source (length source) starts.now }
    requires judged { let r = report_of report.now in
        IsJudged (length r.names) r.decisions obligation.now verdict.now }
    ensures { IfOk result (λ row.
        fields_of row ≡ csv_fields (report_of report.now) obligation.now verdict.now) }
{
    let mut row = ByteRecord::new(alloc);
    push_place(
        alloc,
        &mut row,
        report.source,
        starts,
        obligation,
        verdict.state,
    )?;
    push_shown(
        alloc,
        &mut row,
        &report.names,
        &report.map.decisions,
        obligation.id,
        verdict.evidence,
    )?;
    push_field(&mut row, obligation.text(report.source))?;
    push_field(&mut row, reason_field(&verdict.reason))?;
    Ok(row)
}

//! The lines that count obligations.
ghost use Rattle.std.specs.Prelude.{◌≡◌, ◌++◌, ◌∷◌, [], length, if◌then◌else◌, IfOk, OnOk, string_bytes};
ghost use Rattle.mc_report.specs.Counts.{count_line, count_lines, counted, is_kind, is_verdict, total};
ghost use Rattle.mc_report.specs.Seen.{bytes_of, report_of};

use crate::kind::Kind;
use crate::report::Report;
use mc_oblige::{Obligation, Verdict, VerdictState};
use std::alloc::{AllocError, Global};

fn is_verdict(one: VerdictState, other: VerdictState) -> bool
    ensures { result ≡ is_verdict one other }
{
    match (one, other) {
        (VerdictState::Met, VerdictState::Met) => true,
        (VerdictState::Justified, VerdictState::Justified) => true,
        (VerdictState::Stale, VerdictState::Stale) => true,
        (VerdictState::Missing, VerdictState::Missing) => true,
        _ => false,
    }
}

/// How many obligations of the kind have this verdict.
pub(crate) fn counted(
    kind: Kind,
    state: VerdictState,
    obligations: &[Obligation],
    verdicts: &[Verdict],
) -> usize
    requires { length verdicts.now ≡ length obligations.now }
    ensures { result ≡ counted kind state obligations.now verdicts.now }
{
    let mut count = 0;
    let mut obligations_left = obligations;
    let mut verdicts_left = verdicts;
    while let [obligation, later_obligations @ ..] = obligations_left {
        let [verdict, later_verdicts @ ..] = verdicts_left else {
            unreachable!();
        };
        count += one_where(kind.has(obligation.id) && is_verdict(state, verdict.state));
        obligations_left = later_obligations;
        verdicts_left = later_verdicts;
    }
    count
}

/// 1 where it holds, else 0.
pub(crate) fn one_where(holds: bool) -> usize
    ensures { result ≡ (if holds then 1 else 0) }
{
    if holds { 1 } else { 0 }
}

/// How many obligations there are of the kind.
pub(crate) fn total(kind: Kind, obligations: &[Obligation]) -> usize
    ensures { result ≡ total kind obligations.now }
{
    let mut count = 0;
    for obligation in obligations {
        count += one_where(kind.has(obligation.id));
    }
    count
}

fn count_line(
    alloc: Global,
    kind: Kind,
    obligations: &[Obligation],
    verdicts: &[Verdict],
) -> Result<String, AllocError>
    requires { length verdicts.now ≡ length obligations.now }
    ensures { IfOk result (λ line.
        string_bytes line ≡ count_line kind obligations.now verdicts.now) }
{
    let word = kind.word();
    let met = counted(kind, VerdictState::Met, obligations, verdicts);
    let justified = counted(kind, VerdictState::Justified, obligations, verdicts);
    let stale = counted(kind, VerdictState::Stale, obligations, verdicts);
    let missing = counted(kind, VerdictState::Missing, obligations, verdicts);
    let total = total(kind, obligations);
    format!(in alloc;
        "{word} met {met} justified {justified} stale {stale} missing {missing} of {total}\n"
    )
}

fn push_count(
    alloc: Global,
    lines: &mut Vec<Vec<u8>>,
    kind: Kind,
    report: &Report<'_>,
) -> Result<(), AllocError>
    requires { let r = report_of report.now in length r.verdicts ≡ length r.obligations }
    ensures { OnOk result (bytes_of lines.new.items ≡ bytes_of lines.old.items
        ++ (let r = report_of report.now in count_line kind r.obligations r.verdicts) ∷ []) }
{
    let line = count_line(alloc, kind, &report.obligations, &report.verdicts)?;
    lines.push(line.as_bytes().to_vec(alloc)?)?;
    Ok(())
}

/// Adds a line for each kind of obligation.
pub(crate) fn push_counts(
    alloc: Global,
    lines: &mut Vec<Vec<u8>>,
    report: &Report<'_>,
) -> Result<(), AllocError>
    requires { let r = report_of report.now in length r.verdicts ≡ length r.obligations }
    ensures { OnOk result (bytes_of lines.new.items ≡ bytes_of lines.old.items
        ++ (let r = report_of report.now in count_lines r.obligations r.verdicts)) }
{
    push_count(alloc, lines, Kind::Entries, report)?;
    push_count(alloc, lines, Kind::Exits, report)?;
    push_count(alloc, lines, Kind::Statements, report)?;
    push_count(alloc, lines, Kind::Labels, report)?;
    push_count(alloc, lines, Kind::Outcomes, report)?;
    push_count(alloc, lines, Kind::Conditions, report)
}

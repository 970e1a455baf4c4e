//! The lines of the obligations that are asked about.
ghost use Rattle.std.specs.Prelude.{◌≡◌, ◌++◌, Some, length, map, slice_get, OnOk};
ghost use Rattle.needed_paths.specs.declared.need.Need.TheVariants.{Beside, Both};
ghost use Rattle.mc_probe.specs.Mapped.{mapped_of};
ghost use Rattle.needs_lines.specs.Needed.{head_line, need_text};
ghost use Rattle.needs_lines.specs.Report.{IsOf, decision_of};
ghost use Rattle.needs_lines.specs.Seen.{report_of};

use crate::report::NeedsReport;
use evidence_texts::{push_name, push_path};
use mc_oblige::{Obligation, ObligationId, id_text};
use mc_probe::MappedDecision;
use mc_typed::Name;
use needed_paths::Need;
use std::alloc::{AllocError, Global};

/// Adds one vector, and the evaluated one beside it with its test.
fn push_beside(
    line: &mut Vec<u8>,
    names: &[Name],
    decisions: &[MappedDecision],
    d: u32,
    path: u32,
    partner: u32,
    test: u32,
) -> Result<(), AllocError>
    requires { IsOf (length names.now) (slice_get (map mapped_of decisions.now) d)
        (Some (Beside path partner test)) }
    ensures { OnOk result (line.new.items ≡ line.old.items
        ++ need_text names.now (slice_get (map mapped_of decisions.now) d)
        (Some (Beside path partner test))) }
{
    line.extend_from_slice(b" needs")?;
    push_path(line, decisions, d, path)?;
    line.extend_from_slice(b" beside")?;
    push_path(line, decisions, d, partner)?;
    push_name(line, names, test)
}

/// Adds two vectors.
fn push_both(
    line: &mut Vec<u8>,
    names: &[Name],
    decisions: &[MappedDecision],
    d: u32,
    first: u32,
    second: u32,
) -> Result<(), AllocError>
    requires { IsOf (length names.now) (slice_get (map mapped_of decisions.now) d)
        (Some (Both first second)) }
    ensures { OnOk result (line.new.items ≡ line.old.items
        ++ need_text names.now (slice_get (map mapped_of decisions.now) d)
        (Some (Both first second))) }
{
    line.extend_from_slice(b" needs")?;
    push_path(line, decisions, d, first)?;
    line.extend_from_slice(b" and")?;
    push_path(line, decisions, d, second)
}

/// Adds what an obligation of decision `d` needs.
fn push_vectors(
    line: &mut Vec<u8>,
    names: &[Name],
    decisions: &[MappedDecision],
    d: u32,
    need: Option<Need>,
) -> Result<(), AllocError>
    requires { IsOf (length names.now) (slice_get (map mapped_of decisions.now) d) need }
    ensures { OnOk result (line.new.items ≡ line.old.items
        ++ need_text names.now (slice_get (map mapped_of decisions.now) d) need) }
{
    match need {
        None => Ok(()),
        Some(Need::Vector { path }) => {
            line.extend_from_slice(b" needs")?;
            push_path(line, decisions, d, path)
        }
        Some(
            Need::Beside {
                path,
                partner,
                test,
            },
        ) => push_beside(line, names, decisions, d, path, partner, test),
        Some(Need::Both { first, second }) => {
            push_both(line, names, decisions, d, first, second)
        }
    }
}

/// Adds what the obligation needs.
fn push_need(
    line: &mut Vec<u8>,
    names: &[Name],
    decisions: &[MappedDecision],
    id: ObligationId,
    need: Option<Need>,
) -> Result<(), AllocError>
    requires { IsOf (length names.now) (decision_of (map mapped_of decisions.now) id) need }
    ensures { OnOk result (line.new.items ≡ line.old.items
        ++ need_text names.now (decision_of (map mapped_of decisions.now) id) need) }
{
    match id {
        ObligationId::Outcome(d, _) => push_vectors(line, names, decisions, d, need),
        ObligationId::Condition(d, _) => push_vectors(line, names, decisions, d, need),
        _ => Ok(()),
    }
}

/// Adds which obligation it is, its place, and what it needs.
pub(crate) fn push_head(
    alloc: Global,
    text: &mut Vec<u8>,
    report: &NeedsReport<'_>,
    obligation: &Obligation,
    need: Option<Need>,
) -> Result<(), AllocError>
    requires { let r = report_of report.now in
        IsOf (length r.names) (decision_of r.decisions obligation.now.id) need }
    ensures { OnOk result (text.new.items ≡ text.old.items
        ++ head_line (report_of report.now) obligation.now need) }
{
    let id = id_text(alloc, obligation.id)?;
    text.extend_from_slice(id.as_bytes())?;
    text.push(b' ')?;
    report
        .places
        .push_place(alloc, text, obligation.span.start)?;
    text.extend_from_slice(b" missing")?;
    push_need(text, report.names, report.decisions, obligation.id, need)?;
    text.push(b'\n')?;
    Ok(())
}

//! The lines of what is needed.
ghost use Rattle.std.specs.Prelude.{◌≡◌, ◌++◌, Some, if◌then◌else◌, [], length, map, slice_get, IfOk, OnOk};
ghost use Rattle.std.specs.List.{concat};
ghost use Rattle.std.specs.List.Sorted.{IsNonDecreasingBy};
ghost use Rattle.mc_probe.specs.Mapped.{mapped_of};
ghost use Rattle.needs_lines.specs.Report.{AreOf, IsOf, IsReport, decision_of};
ghost use Rattle.needs_lines.specs.Seen.{report_of};
ghost use Rattle.needs_lines.specs.Text.{asked_lines, decision_lines, lines_below, needs_lines, obligation_lines};

use crate::conditions::push_conditions;
use crate::needed::push_head;
use crate::remarks::push_remarks;
use crate::report::NeedsReport;
use crate::wanted::push_wanted;
use mc_oblige::{Obligation, ObligationId};
use mc_probe::MappedDecision;
use needed_paths::Need;
use std::alloc::{AllocError, Global};

/// Adds the conditions of a decision with the values that are asked of them, and the remarks.
fn push_of_decision(
    alloc: Global,
    text: &mut Vec<u8>,
    report: &NeedsReport<'_>,
    mapped: &MappedDecision,
    need: Need,
) -> Result<(), AllocError>
    requires tokens { IsNonDecreasingBy (λ t. t.start) report.now.tokens.now }
    requires need { let r = report_of report.now in
        IsOf (length r.names) (Some (mapped_of mapped.now)) (Some need) }
    ensures { OnOk result (text.new.items ≡ text.old.items
        ++ concat (decision_lines (report_of report.now) (Some (mapped_of mapped.now)) (Some need))) }
{
    push_conditions(alloc, text, report.places.text(), mapped, need)?;
    push_remarks(alloc, text, report.tokens, &mapped.decision.conditions)?;
    Ok(())
}

/// Adds what stands below the line of an obligation of decision `d` that is a condition.
fn push_decision(
    alloc: Global,
    text: &mut Vec<u8>,
    report: &NeedsReport<'_>,
    d: u32,
    need: Option<Need>,
) -> Result<(), AllocError>
    requires tokens { IsNonDecreasingBy (λ t. t.start) report.now.tokens.now }
    requires need { let r = report_of report.now in
        IsOf (length r.names) (slice_get r.decisions d) need }
    ensures { OnOk result (text.new.items ≡ text.old.items
        ++ (let r = report_of report.now in
        concat (decision_lines r (slice_get r.decisions d) need))) }
{
    match need {
        Some(need) => { push_of_decision(alloc, text, report, &report.decisions[d as usize], need) }
        None => Ok(()),
    }
}

/// Adds what stands below the line of an obligation.
fn push_below(
    alloc: Global,
    text: &mut Vec<u8>,
    report: &NeedsReport<'_>,
    id: ObligationId,
    need: Option<Need>,
) -> Result<(), AllocError>
    requires tokens { IsNonDecreasingBy (λ t. t.start) report.now.tokens.now }
    requires need { let r = report_of report.now in
        IsOf (length r.names) (decision_of r.decisions id) need }
    ensures { OnOk result (text.new.items ≡ text.old.items
        ++ concat (lines_below (report_of report.now) id need)) }
{
    match id {
        ObligationId::Condition(d, _) => push_decision(alloc, text, report, d, need),
        _ => Ok(()),
    }
}

/// Adds the lines of an obligation that is asked about.
fn push_obligation(
    alloc: Global,
    text: &mut Vec<u8>,
    report: &NeedsReport<'_>,
    obligation: &Obligation,
    need: Option<Need>,
) -> Result<(), AllocError>
    requires tokens { IsNonDecreasingBy (λ t. t.start) report.now.tokens.now }
    requires need { let r = report_of report.now in
        IsOf (length r.names) (decision_of r.decisions obligation.now.id) need }
    ensures { OnOk result (text.new.items ≡ text.old.items
        ++ concat (obligation_lines (report_of report.now) obligation.now need)) }
{
    push_head(alloc, text, report, obligation, need)?;
    push_below(alloc, text, report, obligation.id, need)
}

/// Adds the lines of an obligation, where it is asked about.
fn push_if(
    alloc: Global,
    text: &mut Vec<u8>,
    report: &NeedsReport<'_>,
    obligation: &Obligation,
    is_asked: bool,
    need: Option<Need>,
) -> Result<(), AllocError>
    requires tokens { IsNonDecreasingBy (λ t. t.start) report.now.tokens.now }
    requires need { let r = report_of report.now in
        IsOf (length r.names) (decision_of r.decisions obligation.now.id) need }
    ensures { OnOk result (text.new.items ≡ text.old.items
        ++ concat (if is_asked then obligation_lines (report_of report.now) obligation.now need
        else [])) }
{
    if is_asked {
        push_obligation(alloc, text, report, obligation, need)
    } else {
        Ok(())
    }
}

/// Adds the lines of all obligations that are asked about.
fn push_asked(alloc: Global, text: &mut Vec<u8>, report: &NeedsReport<'_>) -> Result<(), AllocError>
    requires tokens { IsNonDecreasingBy (λ t. t.start) report.now.tokens.now }
    requires each { let r = report_of report.now in
        AreOf (length r.names) r.decisions r.obligations r.asked r.needs.each }
    ensures { OnOk result (text.new.items ≡ text.old.items
        ++ (let r = report_of report.now in
        concat (asked_lines r r.obligations r.asked r.needs.each))) }
{
    let mut obligations = report.obligations;
    let mut asked = report.asked;
    let mut needs = report.needs.each.as_slice();
    while let [obligation, later_obligations @ ..] = obligations {
        let [is_asked, later_asked @ ..] = asked else {
            unreachable!();
        };
        let [need, later_needs @ ..] = needs else {
            unreachable!();
        };
        push_if(alloc, text, report, obligation, *is_asked, *need)?;
        obligations = later_obligations;
        asked = later_asked;
        needs = later_needs;
    }
    Ok(())
}

/// The lines of what the missing obligations need that are asked about: for each of them in order
/// which it is, where it stands and which vectors it needs; below a condition those of its decision
/// with their values, and why it may be that no input reaches a vector. Then the wanted vectors.
/// Each line ends with LF. They are one text, since they are many.
#[tactic(auto, using(crate::proofs::Joined::joined))]
pub fn needs_lines(alloc: Global, report: &NeedsReport<'_>) -> Result<Vec<u8>, AllocError>
    requires { IsReport (report_of report.now) }
    ensures { IfOk result (λ text. text.items ≡ concat (needs_lines (report_of report.now))) }
{
    let mut text = Vec::new(alloc);
    push_asked(alloc, &mut text, report)?;
    push_wanted(alloc, &mut text, report.decisions, &report.needs.wanted)?;
    Ok(text)
}

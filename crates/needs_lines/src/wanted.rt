//! The lines of wanted vectors.
ghost use Rattle.std.specs.Prelude.{◌≡◌, ◌++◌, All, map, slice_get, OnOk};
ghost use Rattle.std.specs.List.{concat};
ghost use Rattle.evidence_texts.specs.Paths.{HasPath};
ghost use Rattle.mc_probe.specs.Mapped.{mapped_of};
ghost use Rattle.needs_lines.specs.Wanted.{condition_name, outcome_name, wanted_line};

use evidence_texts::push_path;
use mc_oblige::{ObligationId, id_text};
use mc_probe::MappedDecision;
use needed_paths::Wanted;
use std::alloc::{AllocError, Global};

/// Adds the outcome of decision `d` that the vector is the first to have.
fn push_outcome(
    alloc: Global,
    line: &mut Vec<u8>,
    d: u32,
    outcome: Option<bool>,
) -> Result<(), AllocError>
    ensures { OnOk result (line.new.items ≡ line.old.items ++ outcome_name d outcome) }
{
    let Some(outcome) = outcome else {
        return Ok(());
    };
    let name = id_text(alloc, ObligationId::Outcome(d, outcome))?;
    line.push(b' ')?;
    line.extend_from_slice(name.as_bytes())
}

/// Adds the condition of decision `d` that the vector was put on the list for.
fn push_condition(
    alloc: Global,
    line: &mut Vec<u8>,
    d: u32,
    condition: Option<u32>,
) -> Result<(), AllocError>
    ensures { OnOk result (line.new.items ≡ line.old.items ++ condition_name d condition) }
{
    let Some(k) = condition else {
        return Ok(());
    };
    let name = id_text(alloc, ObligationId::Condition(d, k))?;
    line.push(b' ')?;
    line.extend_from_slice(name.as_bytes())
}

fn push_one(
    alloc: Global,
    text: &mut Vec<u8>,
    decisions: &[MappedDecision],
    wanted: Wanted,
) -> Result<(), AllocError>
    requires { HasPath (slice_get (map mapped_of decisions.now) wanted.decision) wanted.path }
    ensures { OnOk result (text.new.items ≡ text.old.items
        ++ wanted_line (map mapped_of decisions.now) wanted) }
{
    let number = u64::from(wanted.decision) + 1;
    let decision = format!(in alloc; "want D{number}")?;
    text.extend_from_slice(decision.as_bytes())?;
    push_path(text, decisions, wanted.decision, wanted.path)?;
    text.extend_from_slice(b" for")?;
    push_outcome(alloc, text, wanted.decision, wanted.outcome)?;
    push_condition(alloc, text, wanted.decision, wanted.condition)?;
    text.push(b'\n')?;
    Ok(())
}

/// Adds a line for each wanted vector.
pub(crate) fn push_wanted(
    alloc: Global,
    text: &mut Vec<u8>,
    decisions: &[MappedDecision],
    all: &[Wanted],
) -> Result<(), AllocError>
    requires { All (λ w. HasPath (slice_get (map mapped_of decisions.now) w.decision) w.path)
        all.now }
    ensures { OnOk result (text.new.items ≡ text.old.items
        ++ concat (map (wanted_line (map mapped_of decisions.now)) all.now)) }
{
    for wanted in all {
        push_one(alloc, text, decisions, *wanted)?;
    }
    Ok(())
}

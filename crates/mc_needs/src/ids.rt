//! The obligations that are asked, in the order in which vectors are wanted for them.
ghost use Rattle.std.specs.Prelude.{◌≡◌, ◌++◌, IfOk};
ghost use Rattle.mc_needs.specs.Asked.{asked_conditions, asked_outcomes};
ghost use Rattle.mc_needs.specs.steps.Ids.{condition_if, outcome_if};

use mc_oblige::{Obligation, ObligationId};
use std::alloc::{AllocError, Global};

/// First the conditions that are asked, and then the outcomes.
pub(crate) fn asked_ids(
    alloc: Global,
    obligations: &[Obligation],
    asked: &[bool],
) -> Result<Vec<ObligationId>, AllocError>
    ensures { IfOk result (λ v. v.items
        ≡ asked_conditions obligations.now asked.now ++ asked_outcomes obligations.now asked.now) }
{
    let mut ids = Vec::new(alloc);
    add_conditions(&mut ids, obligations, asked)?;
    add_outcomes(&mut ids, obligations, asked)?;
    Ok(ids)
}

fn add_conditions(
    ids: &mut Vec<ObligationId>,
    obligations: &[Obligation],
    asked: &[bool],
) -> Result<(), AllocError>
    ensures { IfOk result (λ _.
        ids.new.items ≡ ids.old.items ++ asked_conditions obligations.now asked.now) }
{
    let mut left = obligations;
    let mut asked_left = asked;
    while let [obligation, later @ ..] = left {
        let [is_asked, later_asked @ ..] = asked_left else {
            return Ok(());
        };
        add_condition(ids, obligation.id, *is_asked)?;
        left = later;
        asked_left = later_asked;
    }
    Ok(())
}

fn add_outcomes(
    ids: &mut Vec<ObligationId>,
    obligations: &[Obligation],
    asked: &[bool],
) -> Result<(), AllocError>
    ensures { IfOk result (λ _.
        ids.new.items ≡ ids.old.items ++ asked_outcomes obligations.now asked.now) }
{
    let mut left = obligations;
    let mut asked_left = asked;
    while let [obligation, later @ ..] = left {
        let [is_asked, later_asked @ ..] = asked_left else {
            return Ok(());
        };
        add_outcome(ids, obligation.id, *is_asked)?;
        left = later;
        asked_left = later_asked;
    }
    Ok(())
}

/// Appends the obligation, if it is a condition and is asked.
fn add_condition(
    ids: &mut Vec<ObligationId>,
    id: ObligationId,
    is_asked: bool,
) -> Result<(), AllocError>
    ensures { IfOk result (λ _. ids.new.items ≡ ids.old.items ++ condition_if is_asked id) }
{
    if is_asked && matches!(id, ObligationId::Condition(..)) {
        ids.push(id)?;
    }
    Ok(())
}

/// Appends the obligation, if it is an outcome and is asked.
fn add_outcome(
    ids: &mut Vec<ObligationId>,
    id: ObligationId,
    is_asked: bool,
) -> Result<(), AllocError>
    ensures { IfOk result (λ _. ids.new.items ≡ ids.old.items ++ outcome_if is_asked id) }
{
    if is_asked && matches!(id, ObligationId::Outcome(..)) {
        ids.push(id)?;
    }
    Ok(())
}

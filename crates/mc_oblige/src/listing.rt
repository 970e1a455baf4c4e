//! The list of a program's obligations.
ghost use Rattle.std.specs.Prelude.{◌≡◌, ◌≤◌, ◌++◌, map, length, true, false, IfOk};
ghost use Rattle.mc_limits.specs.Limits.{most_bits};
ghost use Rattle.decide_rules.specs.Seen.{decision_of};
ghost use Rattle.mc_probe.specs.Mapped.{mapped_of};
ghost use Rattle.mc_probe.specs.BitMaps.{map_of};
ghost use Rattle.mc_oblige.specs.Obligations.{of_places, of_decision, of_decisions, obligations_of};

use crate::obligation::{Obligation, ObligationId};
use crate::places::{Kind, add_places};
use mc_probe::{BitMap, MappedDecision};
use std::alloc::{AllocError, Global};

/// The obligations of a program with this map: those of its entries, exits, counted statements and
/// labels, and then for each decision its two outcomes, true first, and its conditions.
pub fn obligations(alloc: Global, map: &BitMap) -> Result<Vec<Obligation>, AllocError>
    ensures { IfOk result (λ v. v.items ≡ obligations_of (map_of map.now)) }
{
    let mut all = Vec::new(alloc);
    add_events(&mut all, map)?;
    add_decisions(&mut all, &map.decisions)?;
    Ok(all)
}

/// Appends the obligations of entries, exits, statements and labels.
fn add_events(all: &mut Vec<Obligation>, map: &BitMap) -> Result<(), AllocError>
    ensures { IfOk result (λ _. all.new.items ≡ all.old.items ++ of_places (map_of map.now)) }
{
    add_places(all, Kind::Entry, &map.entries)?;
    add_places(all, Kind::Exit, &map.exits)?;
    add_places(all, Kind::Statement, &map.statements)?;
    add_places(all, Kind::Label, &map.labels)?;
    Ok(())
}

/// Appends the obligations of the decisions.
fn add_decisions(all: &mut Vec<Obligation>, decisions: &[MappedDecision]) -> Result<(), AllocError>
    requires { length decisions.now ≤ most_bits }
    ensures { IfOk result (λ _.
        all.new.items ≡ all.old.items ++ of_decisions 0 (map mapped_of decisions.now)) }
{
    for (d, mapped) in decisions.iter().enumerate() {
        add_decision(all, d as u32, mapped)?;
    }
    Ok(())
}

/// Appends the obligations of decision `d`.
fn add_decision(
    all: &mut Vec<Obligation>,
    d: u32,
    mapped: &MappedDecision,
) -> Result<(), AllocError>
    ensures { IfOk result (λ _.
        all.new.items ≡ all.old.items ++ of_decision d (decision_of mapped.now.decision)) }
{
    let span = mapped.decision.root;
    all.push(Obligation {
        id: ObligationId::Outcome(d, true),
        span,
    })?;
    all.push(Obligation {
        id: ObligationId::Outcome(d, false),
        span,
    })?;
    add_places(all, Kind::Condition(d), &mapped.decision.conditions)
}

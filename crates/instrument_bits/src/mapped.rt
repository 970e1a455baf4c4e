//! The decisions with their bits.
ghost use Rattle.std.specs.Prelude.{◌≡◌, ◌+◌, ◌-◌, ◌<◌, ◌≤◌, ◌^◌, ◌++◌, ◌∷◌, [], min, map, length, All, IfOk, IfErr};
ghost use Rattle.mc_cond.specs.Tree.{tree_of, size, IsNumbered};
ghost use Rattle.mc_paths.specs.Paths.{count_of};
ghost use Rattle.decide_rules.specs.Seen.{decision_of};
ghost use Rattle.mc_probe.specs.Maps as maps;
ghost use Rattle.mc_probe.specs.Mapped.{mapped_of};
ghost use Rattle.instrument_bits.specs.Faults.{most_bits, paths_of, HasFewPaths};
ghost use Rattle.instrument_bits.specs.steps.Numbered.{based, IsOne, IsRefused, IsReady};

use crate::fault::InstrumentFault;
use decide_rules::Decision;
use mc_paths::{NumberFault, Numbering, number};
use mc_probe::MappedDecision;
use std::alloc::{AllocError, Global};

/// How many bits a program has at most.
pub(crate) const MOST_BITS: u64 = mc_limits::MOST_BITS as u64;

/// Decisions with their bits, and how many bits there are with them. Where there are more than
/// a program has, not all decisions stand in the list.
#[derive(Drop)]
pub(crate) struct Numbered {
    pub decisions: Vec<MappedDecision>,
    pub bits: u64,
}

/// Numbers the paths of all decisions. `first` is the bit of the first path.
pub(crate) fn number_decisions(
    alloc: Global,
    first: u64,
    mut decisions: Vec<Decision>,
) -> Result<Numbered, InstrumentFault>
    requires { All IsReady decisions.items }
    ensures few { IfOk result (λ n. All HasFewPaths (map decision_of decisions.items)) }
    ensures bits { IfOk result (λ n. n.bits
        ≡ min (first + paths_of (map decision_of decisions.items)) (2 ^ 64 - 1)) }
    ensures based { IfOk result (λ n. n.bits ≤ most_bits → map mapped_of n.decisions.items
        ≡ based first (map decision_of decisions.items)) }
    ensures refused { IfErr result (IsRefused (map decision_of decisions.items)) }
{
    let mut mapped = Vec::new(alloc);
    let mut bits = first;
    decisions.reverse();
    while let Some(decision) = decisions.pop() {
        match add(alloc, &mut mapped, bits, decision) {
            Ok(after) => bits = after,
            Err(fault) => return Err(fault),
        }
    }
    Ok(Numbered {
        decisions: mapped,
        bits,
    })
}

/// Numbers the paths of the next decision, and gives how many bits there are with it.
fn add(
    alloc: Global,
    mapped: &mut Vec<MappedDecision>,
    bits: u64,
    decision: Decision,
) -> Result<u64, InstrumentFault>
    requires { IsReady decision }
    ensures few { IfOk result (λ b. HasFewPaths (decision_of decision)) }
    ensures bits { IfOk result (λ b. b
        ≡ min (bits + count_of (tree_of decision.tree)) (2 ^ 64 - 1)) }
    ensures based { IfOk result (λ b. b ≤ most_bits → map mapped_of mapped.new.items
        ≡ map mapped_of mapped.old.items
        ++ record { decision = decision_of decision; base = bits } ∷ []) }
    ensures refused { IfErr result (IsOne (decision_of decision)) }
{
    match number(alloc, &decision.tree) {
        Ok(numbering) => {
            let after = bits.saturating_add(u64::from(numbering.count()));
            if after <= MOST_BITS {
                keep(mapped, decision, numbering, bits as u32)?;
            } else {
                drop(numbering);
                drop(decision);
            }
            Ok(after)
        }
        Err(NumberFault::TooManyPaths { count }) => Err(InstrumentFault::TooManyPaths {
            at: decision.root.start,
            count,
        }),
        Err(NumberFault::OutOfMemory) => Err(InstrumentFault::OutOfMemory),
    }
}

fn keep(
    mapped: &mut Vec<MappedDecision>,
    decision: Decision,
    numbering: Numbering,
    base: u32,
) -> Result<(), AllocError>
    requires same { tree_of numbering ≡ tree_of decision.tree }
    requires ready { IsReady decision }
    ensures { IfOk result (λ _. map mapped_of mapped.new.items
        ≡ map mapped_of mapped.old.items
        ++ record { decision = decision_of decision; base = base } ∷ []) }
{
    let kept = MappedDecision {
        decision,
        numbering,
        base,
    };
    mapped.push(kept)?;
    Ok(())
}

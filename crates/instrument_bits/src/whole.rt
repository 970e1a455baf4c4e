//! The map of all bits of a program.
ghost use Rattle.std.specs.Prelude.{◌≡◌, ◌+◌, ◌-◌, ◌^◌, min, map, length, All, IfOk, IfErr};
ghost use Rattle.mc_cond.specs.Tree as conditions;
ghost use Rattle.mc_typed.specs.Views.{program_of};
ghost use Rattle.decide_rules.specs.Decisions.{AreDecisions};
ghost use Rattle.decide_rules.specs.Seen.{decision_of};
ghost use Rattle.mc_probe.specs.BitMaps.{map_of};
ghost use Rattle.mc_probe.specs.Maps.{IsMapOf};
ghost use Rattle.instrument_bits.specs.Faults.{HasFewPaths, IsFault};

use crate::fault::InstrumentFault;
use crate::mapped::{MOST_BITS, number_decisions};
use crate::places::{Places, list_places};
use decide_rules::Decision;
use mc_probe::BitMap;
use mc_typed::Program;
use std::alloc::Global;

/// How many places there are; 2^64 - 1 where there are more.
fn count_places(places: &Places) -> u64
    ensures { result ≡ min (length places.now.entries.items + length places.now.exits.items
        + length places.now.statements.items + length places.now.labels.items) (2 ^ 64 - 1) }
{
    let entries = places.entries.len() as u64;
    let exits = places.exits.len() as u64;
    let statements = places.statements.len() as u64;
    let labels = places.labels.len() as u64;
    entries
        .saturating_add(exits)
        .saturating_add(statements)
        .saturating_add(labels)
}

/// The map of a program's bits. `decisions` are the program's.
///
/// Takes memory in proportion to the places of the program and to its decisions.
pub fn map_of_bits(
    alloc: Global,
    program: &Program<'_>,
    decisions: Vec<Decision>,
) -> Result<BitMap, InstrumentFault>
    requires decisions { AreDecisions (program_of program.now).functions
        (map decision_of decisions.items) }
    requires numbered { All (λ d. conditions.IsNumbered (conditions.tree_of d.tree))
        decisions.items }
    ensures is_map { IfOk result (λ m. IsMapOf (program_of program.now) (map_of m)) }
    ensures decisions { IfOk result (λ m. map (λ d. d.decision) (map_of m).decisions
        ≡ map decision_of decisions.items) }
    ensures few { IfOk result (λ m. All HasFewPaths (map decision_of decisions.items)) }
    ensures refused { IfErr result
        (IsFault (program_of program.now) (map decision_of decisions.items)) }
{
    let places = list_places(alloc, program)?;
    let first = count_places(&places);
    let numbered = match number_decisions(alloc, first, decisions) {
        Ok(numbered) => numbered,
        Err(fault) => return Err(fault),
    };
    if numbered.bits > MOST_BITS {
        return Err(InstrumentFault::TooManyBits {
            count: numbered.bits,
        });
    }
    Ok(BitMap {
        entries: places.entries,
        exits: places.exits,
        statements: places.statements,
        labels: places.labels,
        decisions: numbered.decisions,
        bits: numbered.bits as u32,
    })
}

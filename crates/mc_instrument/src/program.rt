//! A whole program with its probes: its objects, and each function in turn.
ghost use Rattle.std.specs.Prelude.{◌≡◌, map, All, IfOk, IfErr};
ghost use Rattle.mc_cond.specs.Tree as conditions;
ghost use Rattle.mc_typed.specs.Plans.{Fits, Plan};
ghost use Rattle.mc_typed.specs.Sound.{IsSound};
ghost use Rattle.mc_typed.specs.Views.{program_of};
ghost use Rattle.decide_rules.specs.Decisions.{AreDecisions};
ghost use Rattle.decide_rules.specs.Seen.{decision_of};
ghost use Rattle.mc_meaning.specs.Tests.{plain_run};
ghost use Rattle.mc_probe.specs.BitMaps.{map_of};
ghost use Rattle.mc_probe.specs.Erase.{erase};
ghost use Rattle.mc_probe.specs.Maps.{IsMapOf};
ghost use Rattle.mc_probe.specs.Table.{instrumented, IsInstrumented};
ghost use Rattle.mc_probe.specs.Tests.{run_of};
ghost use Rattle.mc_probe.specs.Trees.{tree_of};
ghost use Rattle.laws_simulation.specs.Simulation.{RunsAs};
ghost use Rattle.instrument_bits.specs.Faults.{HasFewPaths, IsFault};

use crate::copies::functions::all_functions;
use decide_rules::Decision;
use instrument_bits::{InstrumentFault, map_of_bits};
use instrument_copies::{all_structures, static_objects};
use mc_probe::{BitMap, Instrumented};
use mc_typed::Program;
use std::alloc::{AllocError, Global};

/// The program with its probes, and the map of its bits. `decisions` are the program's.
///
/// The tree has exactly the probes that its table puts. Without them it is the program, and for
/// every plan that fits it runs as the program does: with the same ending, values, output and fuel
/// left. What it hits are the bits of what the program's run lists, in that order.
///
/// Takes memory in proportion to the program and its bits. A constant that stands in others is
/// looked at once for each of them, so the time grows with the program's size and its height.
pub fn instrument<'a>(
    alloc: Global,
    program: &Program<'a>,
    decisions: Vec<Decision>,
) -> Result<(Instrumented<'a>, BitMap), InstrumentFault>
    requires decisions { AreDecisions (program_of program.now).functions
        (map decision_of decisions.items) }
    requires numbered { All (λ d. conditions.IsNumbered (conditions.tree_of d.tree))
        decisions.items }
    ensures instrumented { IfOk result (λ r.
        IsInstrumented (program_of program.now) (map_of r.1) (tree_of r.0)) }
    ensures decisions { IfOk result (λ r. map (λ d. d.decision) (map_of r.1).decisions
        ≡ map decision_of decisions.items) }
    ensures erases { IfOk result (λ r. erase (tree_of r.0).program ≡ program_of program.now) }
    ensures runs { IfOk result (λ r. (plan : Plan) → Fits plan (program_of program.now)
        → RunsAs (map_of r.1) (plain_run (program_of program.now) plan)
        (run_of (tree_of r.0) plan)) }
    ensures few { IfOk result (λ r. All HasFewPaths (map decision_of decisions.items)) }
    ensures refused { IfErr result
        (IsFault (program_of program.now) (map decision_of decisions.items)) }
{
    let map = match map_of_bits(alloc, program, decisions) {
        Ok(map) => map,
        Err(fault) => return Err(fault),
    };
    let tree = with_probes(alloc, program, &map)?;
    Ok((tree, map))
}

/// The program with the probes that the table puts.
fn with_probes<'a>(
    alloc: Global,
    program: &Program<'a>,
    bit_map: &BitMap,
) -> Result<Instrumented<'a>, AllocError>
    requires { IsMapOf (program_of program.now) (map_of bit_map.now) }
    ensures tree { IfOk result (λ c. tree_of c
        ≡ instrumented (map_of bit_map.now) (program_of program.now)) }
    ensures sound { IfOk result (λ _. IsSound (program_of program.now)) }
{
    let functions = all_functions(alloc, bit_map, program.functions())?;
    let statics = static_objects(alloc, program.statics())?;
    let structures = all_structures(alloc, program.structures())?;
    let copy = Program::new(functions, statics, structures);
    Ok(Instrumented::new(copy, bit_map.bits))
}

//! The states of tests, which are run for these alone.
ghost use Rattle.std.specs.Prelude.{◌≡◌, ◌≤◌, All, IfOk, map};
ghost use Rattle.mc_limits.specs.Limits.{most_bits};
ghost use Rattle.mc_probe.specs.Erase.{erase};
ghost use Rattle.mc_probe.specs.Trees.{tree_of};
ghost use Rattle.mc_typed.specs.Plans.{Fits, plan_of};
ghost use Rattle.mc_runner.specs.Recorded.{told_by};

use crate::results::state;
use hit_sink::ListProbe;
use mc_interp::Machine;
use mc_probe::Instrumented;
use mc_typed::{TestPlan, TestState};
use std::alloc::{AllocError, Global};

/// Runs the tests, and gives the state of each, in their order. Nothing is recorded of their hits.
pub fn test_states(
    alloc: Global,
    program: &Instrumented<'_>,
    plans: &[TestPlan],
) -> Result<Vec<TestState>, AllocError>
    requires bits { program.now.bits ≤ most_bits }
    requires fit { All (λ plan. Fits (plan_of plan) (erase (tree_of program.now).program))
        plans.now }
    ensures { IfOk result (λ v. v.items
        ≡ map (λ plan. (told_by (tree_of program.now) plan).state) (map plan_of plans.now)) }
{
    let mut machine = Machine::new(alloc, program)?;
    let states = states_by(alloc, &mut machine, plans);
    drop(machine);
    states
}

/// The same by a machine that has the program.
fn states_by(
    alloc: Global,
    machine: &mut Machine<'_, '_>,
    plans: &[TestPlan],
) -> Result<Vec<TestState>, AllocError>
    requires bits { machine.old.program.bits ≤ most_bits }
    requires fit { All (λ plan. Fits (plan_of plan) (erase (tree_of machine.old.program).program))
        plans.now }
    ensures { IfOk result (λ v. v.items
        ≡ map (λ plan. (told_by (tree_of machine.old.program) plan).state)
        (map plan_of plans.now)) }
{
    // There is no room for hits, so none is kept.
    let mut probe = ListProbe::new(alloc, 0)?;
    let mut states = Vec::new(alloc);
    for plan in plans {
        states.push(state_by(machine, &mut probe, plan))?;
    }
    Ok(states)
}

/// The state of a test that the machine runs.
fn state_by(machine: &mut Machine<'_, '_>, probe: &mut ListProbe, plan: &TestPlan) -> TestState
    requires bits { machine.old.program.bits ≤ most_bits }
    requires fits { Fits (plan_of plan.now) (erase (tree_of machine.old.program).program) }
    ensures program { machine.new.program ≡ machine.old.program }
    ensures state { result ≡ (told_by (tree_of machine.old.program) (plan_of plan.now)).state }
{
    let ending = machine.run(plan, probe);
    state(&plan.calls, ending, machine.done(), machine.output())
}

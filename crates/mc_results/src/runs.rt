//! The runs of one worker.
ghost use Rattle.std.specs.Prelude.{◌≡◌, ◌<◌, ◌≤◌, All, get_or, length, IfOk};
ghost use Rattle.mc_limits.specs.Limits.{most_bits};
ghost use Rattle.mc_probe.specs.Erase.{erase};
ghost use Rattle.mc_probe.specs.Trees.{tree_of};
ghost use Rattle.mc_typed.specs.Plans.{Fits, plan_of};
ghost use Rattle.interp_trail.specs.Seen.{trace_of};
ghost use Rattle.mc_results.specs.Traced.{traced_by};
ghost use Rattle.mc_results.specs.Seen.{CanWork, IsAt, traced_in};
ghost use Rattle.interp_trail.specs.Traced.{Traced};

use crate::task::Task;
use crate::told::told;
use interp_trail::{TestTrace, TrailProbe};
use mc_interp::Machine;
use mc_port::Gate;
use mc_typed::TestPlan;
use std::alloc::{AllocError, Global};
use std::sync::atomic::Ordering;

/// Runs tests until none is left. Each trace comes with the number of its test.
pub(crate) fn work<G: Gate>(
    alloc: Global,
    task: &Task<'_, '_>,
    gate: &G,
) -> Result<Vec<(u32, TestTrace)>, AllocError>
    requires { CanWork task.now }
    ensures { IfOk result (λ v. All (IsAt (traced_in task.now)) v.items) }
{
    let mut machine = Machine::new(alloc, task.program)?;
    let traces = run_claimed(alloc, &mut machine, task, gate);
    drop(machine);
    traces
}

/// The same by a machine that has the program.
fn run_claimed<G: Gate>(
    alloc: Global,
    machine: &mut Machine<'_, '_>,
    task: &Task<'_, '_>,
    gate: &G,
) -> Result<Vec<(u32, TestTrace)>, AllocError>
    requires can { CanWork task.now }
    requires program { machine.old.program ≡ task.now.program.now }
    ensures { IfOk result (λ v. All (IsAt (traced_in task.now)) v.items) }
{
    let plans = task.plans;
    let mut trail = TrailProbe::new(alloc, task.layout)?;
    let mut traces = Vec::new(alloc);
    for _turn in 0..plans.len() {
        let test = task.next.fetch_add(1, Ordering::SeqCst);
        if test as usize >= plans.len() {
            return Ok(traces);
        }
        gate.pass(test);
        let trace = run_test(alloc, machine, &mut trail, &plans[test as usize])?;
        traces.push((test, trace))?;
    }
    Ok(traces)
}

/// The trace of a test that is run alone, by a machine of its own.
pub(crate) fn run_alone(
    alloc: Global,
    task: &Task<'_, '_>,
    test: usize,
) -> Result<TestTrace, AllocError>
    requires can { CanWork task.now }
    requires test { test < length task.now.plans.now }
    ensures { IfOk result (λ t. (u : Traced) → trace_of t ≡ get_or (traced_in task.now) test u) }
{
    let plans = task.plans;
    let mut machine = Machine::new(alloc, task.program)?;
    let mut trail = TrailProbe::new(alloc, task.layout)?;
    let trace = run_test(alloc, &mut machine, &mut trail, &plans[test])?;
    drop(machine);
    Ok(trace)
}

/// Runs a test from the initial values of the static objects.
fn run_test(
    alloc: Global,
    machine: &mut Machine<'_, '_>,
    trail: &mut TrailProbe,
    plan: &TestPlan,
) -> Result<TestTrace, AllocError>
    requires bits { machine.old.program.bits ≤ most_bits }
    requires fits { Fits (plan_of plan.now) (erase (tree_of machine.old.program).program) }
    ensures program { machine.new.program ≡ machine.old.program }
    ensures layout { trail.new.layout ≡ trail.old.layout }
    ensures told { IfOk result (λ t. trace_of t
        ≡ traced_by trail.old.layout (tree_of machine.old.program) (plan_of plan.now)) }
{
    trail.start();
    let ending = machine.run(plan, trail);
    let stop = trail.stop(ending)?;
    told(alloc, machine, plan, ending, stop)
}

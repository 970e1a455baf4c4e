//! What is told of a test.
ghost use Rattle.std.specs.Prelude.{◌≡◌, map, IfOk};
ghost use Rattle.mc_typed.specs.Plans.{plan_call_of, plan_of};
ghost use Rattle.mc_meaning.specs.Seen.{told_of};
ghost use Rattle.mc_meaning.specs.Tests.{are_met, state_of};
ghost use Rattle.mc_interp.specs.Machines.{done_of};
ghost use Rattle.mc_runner.specs.Recorded.{told_from};

use mc_interp::{CallDone, Machine};
use mc_meaning::TestResult;
use mc_typed::{Call, Ending, TestPlan, TestState};
use runner_steps::{Comparison, state_where};
use std::alloc::{AllocError, Global};

/// What is told of the last run of the machine, which was that of this test and ended so.
pub(crate) fn told(
    alloc: Global,
    machine: &Machine<'_, '_>,
    plan: &TestPlan,
    ending: Ending,
) -> Result<TestResult, AllocError>
    ensures { IfOk result (λ r. told_of r
        ≡ told_from (plan_of plan.now) ending machine.now.done machine.now.output) }
{
    let done = machine.done();
    let output = machine.output();
    let values = values_of(alloc, done)?;
    Ok(TestResult {
        ending,
        values,
        output: output.to_vec(alloc)?,
        state: state(&plan.calls, ending, done, output),
    })
}

/// The value of each call.
fn values_of(alloc: Global, done: &[CallDone]) -> Result<Vec<Option<i128>>, AllocError>
    ensures { IfOk result (λ v. v.items ≡ map (λ d. d.value) (map done_of done.now)) }
{
    let mut values = Vec::new(alloc);
    for call in done {
        values.push(call.value)?;
    }
    Ok(values)
}

/// The state of a test whose run ended so.
pub(crate) fn state(calls: &[Call], ending: Ending, done: &[CallDone], output: &[i32]) -> TestState
    ensures { result
        ≡ state_of (map plan_call_of calls.now) ending (map done_of done.now) output.now }
{
    state_where(ending, are_met(calls, done, output))
}

/// Whether each call meets what is expected of it.
fn are_met(calls: &[Call], done: &[CallDone], output: &[i32]) -> bool
    ensures { result
        ≡ are_met (map plan_call_of calls.now) (map done_of done.now) 0 output.now }
{
    let mut compared = Comparison::new(calls, output);
    let mut left = done;
    while let [call, later @ ..] = left {
        compared = compared.after(call.value, call.output_end);
        left = later;
    }
    compared.is_met()
}

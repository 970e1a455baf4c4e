//! What is told of the last run of a machine.
ghost use Rattle.std.specs.Prelude.{◌≡◌, ◌++◌, ◌∷◌, [], map, IfOk, OnOk};
ghost use Rattle.mc_typed.specs.Plans.{plan_call_of, plan_of};
ghost use Rattle.mc_meaning.specs.Tests.{are_met};
ghost use Rattle.mc_interp.specs.Machines.{done_of};
ghost use Rattle.interp_trail.specs.Seen.{returned_of, trace_of};
ghost use Rattle.mc_results.specs.Traced.{traced_from};

use interp_trail::{ReturnedCall, Stop, TestTrace};
use mc_interp::{CallDone, Machine};
use mc_typed::{Call, Ending, TestPlan};
use runner_steps::{Comparison, state_where};
use std::alloc::{AllocError, Global};

fn push_call(calls: &mut Vec<ReturnedCall>, call: CallDone) -> Result<(), AllocError>
    ensures { OnOk result (map returned_of calls.new.items
        ≡ map returned_of calls.old.items ++ done_of call ∷ []) }
{
    calls.push(ReturnedCall {
        value: call.value,
        output_end: call.output_end,
    })?;
    Ok(())
}

/// The calls that returned, to keep, and whether each call meets what is expected of it.
fn returned(
    alloc: Global,
    calls: &[Call],
    done: &[CallDone],
    output: &[i32],
) -> Result<(Vec<ReturnedCall>, bool), AllocError>
    ensures kept { IfOk result (λ r. map returned_of r.0.items ≡ map done_of done.now) }
    ensures met { IfOk result (λ r.
        r.1 ≡ are_met (map plan_call_of calls.now) (map done_of done.now) 0 output.now) }
{
    let mut kept = Vec::new(alloc);
    let mut compared = Comparison::new(calls, output);
    let mut left = done;
    while let [call, later @ ..] = left {
        push_call(&mut kept, *call)?;
        compared = compared.after(call.value, call.output_end);
        left = later;
    }
    Ok((kept, compared.is_met()))
}

/// What is told of the last run of the machine, which was that of this test, ended so and stopped
/// there.
pub(crate) fn told(
    alloc: Global,
    machine: &Machine<'_, '_>,
    plan: &TestPlan,
    ending: Ending,
    stop: Option<Stop>,
) -> Result<TestTrace, AllocError>
    ensures { IfOk result (λ t. trace_of t
        ≡ traced_from (plan_of plan.now) ending machine.now.done machine.now.output stop) }
{
    let output = machine.output();
    let (done, are_met) = returned(alloc, &plan.calls, machine.done(), output)?;
    let kept = output.to_vec(alloc)?;
    Ok(TestTrace {
        ending,
        done,
        output: kept,
        state: state_where(ending, are_met),
        stop,
    })
}

//! A test whose records are being read.
ghost use Rattle.std.specs.Prelude.{◌≡◌, ◌≤◌, ◌&&◌, ℕ, IfOk, length, nat_le};
ghost use Rattle.mc_limits.specs.Limits.{most_calls, most_expected, most_inputs};
ghost use Rattle.mc_typed.specs.Plans.{outputs_of, plan_of};
ghost use Rattle.plan_fields.specs.Seen.{seen_output};
ghost use Rattle.mc_tests.specs.Seen.{IsCounted, seen_draft, seen_line};
ghost use Rattle.mc_tests.specs.Tests.{is_small, test_of};
ghost use Rattle.mc_tests.specs.steps.Adding.{extended};

use crate::line::Line;
use mc_limits::{MOST_CALLS, MOST_EXPECTED, MOST_INPUTS};
use mc_typed::{Call, Inputs, Name, TestPlan};
use std::alloc::{AllocError, Global};

const MAX_CALLS: usize = MOST_CALLS as usize;

const MAX_INPUTS: usize = MOST_INPUTS as usize;

const MAX_OUTPUTS: usize = MOST_EXPECTED as usize;

/// The name, the calls and the inputs that a test has so far, and how many outputs its calls
/// expect.
#[derive(Drop)]
pub(crate) struct Draft {
    pub name: Vec<u8>,
    pub calls: Vec<Call>,
    pub inputs: Vec<i32>,
    pub outputs: usize,
}

// How many outputs are expected.
fn expected(output: &Option<Vec<i32>>) -> usize
    ensures { result ≡ length (outputs_of (seen_output output.now)) }
{
    match output {
        Some(numbers) => numbers.len(),
        None => 0,
    }
}

fn keeps_limits(calls: usize, inputs: usize, outputs: usize) -> bool
    ensures { result ≡ (nat_le calls most_calls && nat_le inputs most_inputs
        && nat_le outputs most_expected) }
{
    calls <= MAX_CALLS && inputs <= MAX_INPUTS && outputs <= MAX_OUTPUTS
}

/// Whether a test of this record alone keeps the limits. Takes no memory.
#[tactic(auto, using(crate::proofs::Counts::alone))]
pub(crate) fn fits_alone(line: &Line<'_>) -> bool
    ensures { (fuel : ℕ) → result ≡ is_small (test_of fuel (seen_line line.now)) }
{
    keeps_limits(1, line.inputs.len(), expected(&line.call.output))
}

/// A test of this record alone.
pub(crate) fn start(alloc: Global, line: Line<'_>) -> Result<Draft, AllocError>
    ensures counted { IfOk result (λ d. IsCounted d) }
    ensures draft { (fuel : ℕ) → IfOk result (λ d.
        seen_draft fuel d ≡ test_of fuel (seen_line line.entry)) }
{
    let name = line.name.to_vec(alloc)?;
    let outputs = expected(&line.call.output);
    let mut calls = Vec::new(alloc);
    calls.push(line.call)?;
    Ok(Draft {
        name,
        calls,
        inputs: line.inputs,
        outputs,
    })
}

/// Whether the test keeps the limits with one more record. Takes no memory.
pub(crate) fn has_room(draft: &Draft, line: &Line<'_>) -> bool
    requires counted { IsCounted draft.now }
    requires few { draft.now.outputs ≤ most_expected }
    ensures { (fuel : ℕ) → result
        ≡ is_small (extended (seen_draft fuel draft.now) (seen_line line.now)) }
{
    keeps_limits(
        draft.calls.len() + 1,
        draft.inputs.len() + line.inputs.len(),
        draft.outputs + expected(&line.call.output),
    )
}

/// The test with one more record.
pub(crate) fn extend(draft: Draft, line: Line<'_>) -> Result<Draft, AllocError>
    requires counted { IsCounted draft }
    requires few { draft.outputs ≤ most_expected }
    ensures counted { IfOk result (λ d. IsCounted d) }
    ensures draft { (fuel : ℕ) → IfOk result (λ d.
        seen_draft fuel d ≡ extended (seen_draft fuel draft) (seen_line line.entry)) }
{
    let Draft {
        name,
        mut calls,
        mut inputs,
        outputs,
    } = draft;
    inputs.extend_from_slice(&line.inputs)?;
    let more = expected(&line.call.output);
    calls.push(line.call)?;
    Ok(Draft {
        name,
        calls,
        inputs,
        outputs: outputs + more,
    })
}

/// The plan of the test. Takes no memory.
pub(crate) fn to_plan(draft: Draft, fuel: u32) -> TestPlan
    ensures { plan_of result ≡ seen_draft fuel draft }
{
    TestPlan {
        name: Name::new(draft.name),
        calls: draft.calls,
        inputs: Inputs::new(draft.inputs),
        fuel,
    }
}

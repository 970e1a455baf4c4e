//! What the plans of a file hold.
use mc_tests::read_tests;
use mc_typed::{Call, Program, TestPlan};
use std::alloc::Global;

// Three tests. The first has three calls, which share the inputs 1 2 3.
const FILE: &[u8] = b"test,call,arguments,inputs,expect,output
one,f,1 -2,1 2,0,
one,v,3,3,,5 -5
one,z,,,-7,none
two.a,z,,,,
one_,f,0 0,-2147483648 2147483647,18446744073709551615,0
";

/// The number of the function, the arguments, and the value and the outputs that are expected.
type CallRow = (u32, &'static [i128], Option<i128>, Option<&'static [i32]>);

/// A test's name, inputs and calls.
type PlanRow = (&'static [u8], &'static [i32], &'static [CallRow]);

static PLANS: [PlanRow; 3] = [
    (
        b"one",
        &[1, 2, 3],
        &[
            (0, &[1, -2], Some(0), None),
            (1, &[3], None, Some(&[5, -5])),
            (2, &[], Some(-7), Some(&[])),
        ],
    ),
    (b"two.a", &[], &[(2, &[], None, None)]),
    (
        b"one_",
        &[-2147483648, 2147483647],
        &[(0, &[0, 0], Some(18446744073709551615), Some(&[0]))],
    ),
];

fn is_same_output(found: &Option<Vec<i32>>, want: Option<&[i32]>) -> bool {
    match (found, want) {
        (Some(found), Some(want)) => found.as_slice() == want,
        (None, None) => true,
        _ => false,
    }
}

fn is_same_call(call: &Call, row: &CallRow) -> bool {
    let (function, arguments, expect, output) = row;
    call.function == *function
        && call.arguments.as_slice() == *arguments
        && call.expect == *expect
        && is_same_output(&call.output, *output)
}

fn is_same_plan(plan: &TestPlan, row: &PlanRow) -> bool {
    let (name, inputs, calls) = row;
    if plan.calls.len() != calls.len() {
        return false;
    }
    for (call, row) in plan.calls.iter().zip(calls.iter()) {
        if !is_same_call(call, row) {
            return false;
        }
    }
    plan.name.bytes() == *name && plan.inputs.numbers() == *inputs && plan.fuel == 100000000
}

fn are_same(plans: &[TestPlan]) -> bool {
    if plans.len() != PLANS.len() {
        return false;
    }
    for (plan, row) in plans.iter().zip(&PLANS) {
        if !is_same_plan(plan, row) {
            return false;
        }
    }
    true
}

/// Whether the plans of the file hold what its records say.
pub(crate) fn are_read(alloc: Global, program: &Program<'_>) -> bool {
    match read_tests(alloc, FILE, program, 100000000) {
        Ok(plans) => {
            let same = are_same(&plans);
            drop(plans);
            same
        }
        Err(_) => false,
    }
}

//! Whether a call meets what is expected of it.
ghost use Rattle.std.specs.Prelude.{◌≡◌, ◌&&◌, option_map};
ghost use Rattle.mc_value.specs.Arithmetic as arithmetic;
ghost use Rattle.mc_typed.specs.Plans.{plan_call_of};
ghost use Rattle.mc_meaning.specs.Tests.{same_numbers, is_value, is_output};

use mc_typed::Call;

/// Whether the call returned the value and appended the numbers that are expected.
pub(crate) fn is_met(call: &Call, value: Option<i128>, numbers: &[i32]) -> bool
    ensures { result ≡ (is_value (plan_call_of call.now).expect value
        && is_output (plan_call_of call.now).output numbers.now) }
{
    is_value(call.expect, value) && is_output(&call.output, numbers)
}

/// Whether a call returned the value that is expected, where one is. Takes no memory.
pub fn is_value(expected: Option<i128>, value: Option<i128>) -> bool
    ensures { result ≡ is_value expected value }
{
    match (expected, value) {
        (None, _) => true,
        (Some(_), None) => false,
        (Some(expected), Some(value)) => are_equal(expected, value),
    }
}

/// Whether a call appended the numbers that are expected, where some are. Takes no memory.
pub fn is_output(expected: &Option<Vec<i32>>, numbers: &[i32]) -> bool
    ensures { result ≡ is_output (option_map (λ o. o.items) expected.now) numbers.now }
{
    match expected {
        Some(expected) => same_numbers(expected, numbers),
        None => true,
    }
}

fn same_numbers(one: &[i32], other: &[i32]) -> bool
    ensures { result ≡ same_numbers one.now other.now }
{
    let mut left = one;
    let mut right = other;
    while let [a, later @ ..] = left {
        let [b, rest @ ..] = right else {
            return false;
        };
        if !are_equal(i128::from(*a), i128::from(*b)) {
            return false;
        }
        left = later;
        right = rest;
    }
    right.is_empty()
}

fn are_equal(one: i128, other: i128) -> bool
    ensures { result ≡ arithmetic.are_equal one other }
{
    one == other
}

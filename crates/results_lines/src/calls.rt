//! The lines of calls that returned.
ghost use Rattle.std.specs.Prelude.{◌≡◌, ◌++◌, IfOk, OnOk, option_map};
ghost use Rattle.mc_typed.specs.Plans.{plan_call_of};
ghost use Rattle.results_lines.specs.Calls.{both_text, call_text, expected_text, given_text, output_text, returned_line};
ghost use Rattle.results_lines.specs.Seen.{source_of};

use crate::source::Source;
use crate::words::{push_arguments, push_numbers};
use mc_typed::Call;
use runner_steps::{is_output, is_value};
use std::alloc::{AllocError, Global};
use told_lines::{push_output, push_value};

/// The front of the line of a call: its number, its function, and its arguments.
pub(crate) fn call_text(
    alloc: Global,
    source: &Source<'_>,
    number: usize,
    call: &Call,
) -> Result<Vec<u8>, AllocError>
    ensures { IfOk result (λ line. line.items
        ≡ call_text (source_of source.now) number (plan_call_of call.now)) }
{
    let front = format!(in alloc; "  call {number} ")?;
    let mut line = front.into_bytes();
    line.extend_from_slice(source.name_of(call.function))?;
    push_arguments(alloc, &mut line, &call.arguments)?;
    Ok(line)
}

/// Adds the value that was expected, where another one came.
fn push_expected(
    alloc: Global,
    line: &mut Vec<u8>,
    expected: Option<i128>,
    value: Option<i128>,
) -> Result<(), AllocError>
    ensures { OnOk result (line.new.items ≡ line.old.items ++ expected_text expected value) }
{
    if is_value(expected, value) {
        return Ok(());
    }
    line.extend_from_slice(b" expected")?;
    push_value(alloc, line, expected)
}

/// Adds the output of a call, where it has one.
pub(crate) fn push_given(
    alloc: Global,
    line: &mut Vec<u8>,
    output: &[i32],
) -> Result<(), AllocError>
    ensures { OnOk result (line.new.items ≡ line.old.items ++ given_text output.now) }
{
    if output.is_empty() {
        return Ok(());
    }
    line.extend_from_slice(b" output")?;
    push_output(alloc, line, output)
}

/// Adds the numbers that came and those that were expected.
fn push_both(
    alloc: Global,
    line: &mut Vec<u8>,
    output: &[i32],
    expected: &[i32],
) -> Result<(), AllocError>
    ensures { OnOk result (line.new.items ≡ line.old.items ++ both_text output.now expected.now) }
{
    line.extend_from_slice(b" output")?;
    push_numbers(alloc, line, output)?;
    line.extend_from_slice(b" expected")?;
    push_numbers(alloc, line, expected)
}

/// Adds the output of a call, and what was expected, where other numbers came.
fn push_call_output(
    alloc: Global,
    line: &mut Vec<u8>,
    expected: &Option<Vec<i32>>,
    output: &[i32],
) -> Result<(), AllocError>
    ensures { OnOk result (line.new.items ≡ line.old.items
        ++ output_text (option_map (λ o. o.items) expected.now) output.now) }
{
    let met = is_output(expected, output);
    match expected {
        Some(numbers) if !met => push_both(alloc, line, output, numbers),
        _ => push_given(alloc, line, output),
    }
}

/// The line of a call that returned.
pub(crate) fn returned_line(
    alloc: Global,
    source: &Source<'_>,
    number: usize,
    call: &Call,
    value: Option<i128>,
    output: &[i32],
) -> Result<Vec<u8>, AllocError>
    ensures { IfOk result (λ line. line.items
        ≡ returned_line (source_of source.now) number (plan_call_of call.now) value output.now) }
{
    let mut line = call_text(alloc, source, number, call)?;
    line.extend_from_slice(b" returned")?;
    push_value(alloc, &mut line, value)?;
    push_expected(alloc, &mut line, call.expect, value)?;
    push_call_output(alloc, &mut line, &call.output, output)?;
    line.push(b'\n')?;
    Ok(line)
}

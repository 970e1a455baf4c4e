//! The line of a test, as in a report, and how many tests passed.
ghost use Rattle.std.specs.Prelude.{◌≡◌, ◌++◌, count_by, flat_map, map, IfOk, OnOk};
ghost use Rattle.interp_trail.specs.Seen.{returned_of, trace_of};
ghost use Rattle.interp_trail.specs.Traced.{told_of};
ghost use Rattle.results_lines.specs.Tests.{passed, passed_line, result_text, run_line, states_of};
ghost use Rattle.results_lines.specs.Words.{value_text};

use interp_trail::{ReturnedCall, TestTrace};
use mc_typed::Name;
use std::alloc::{AllocError, Global};
use told_lines::{passed, passed_text, push_output, push_value, test_text};

/// The line of a test: its name, its state, the values of its calls, and its output.
pub(crate) fn run_line(alloc: Global, name: &Name, trace: &TestTrace) -> Result<Vec<u8>, AllocError>
    ensures { IfOk result (λ line. line.items
        ≡ run_line name.now (trace_of trace.now).state (told_of (trace_of trace.now))) }
{
    let mut line = test_text(alloc, name, trace.state)?;
    push_result(alloc, &mut line, trace)?;
    line.push(b'\n')?;
    Ok(line)
}

fn push_result(alloc: Global, line: &mut Vec<u8>, trace: &TestTrace) -> Result<(), AllocError>
    ensures { OnOk result (line.new.items
        ≡ line.old.items ++ result_text (told_of (trace_of trace.now))) }
{
    line.extend_from_slice(b" values")?;
    push_values(alloc, line, &trace.done)?;
    line.extend_from_slice(b" output")?;
    push_output(alloc, line, &trace.output)
}

fn push_values(alloc: Global, line: &mut Vec<u8>, done: &[ReturnedCall]) -> Result<(), AllocError>
    ensures { OnOk result (line.new.items ≡ line.old.items
        ++ flat_map value_text (map (λ d. d.value) (map returned_of done.now))) }
{
    let mut left = done;
    while let [call, later @ ..] = left {
        push_value(alloc, line, call.value)?;
        left = later;
    }
    Ok(())
}

fn passed_count(traces: &[TestTrace]) -> usize
    ensures { result ≡ count_by passed (states_of (map trace_of traces.now)) }
{
    let mut count = 0;
    let mut left = traces;
    while let [trace, later @ ..] = left {
        if passed(trace.state) {
            count += 1;
        }
        left = later;
    }
    count
}

/// The line on how many tests there are, and how many passed.
pub(crate) fn passed_line(alloc: Global, traces: &[TestTrace]) -> Result<Vec<u8>, AllocError>
    ensures { IfOk result (λ line.
        line.items ≡ passed_line (states_of (map trace_of traces.now))) }
{
    let tests = traces.len();
    let passed = passed_count(traces);
    passed_text(alloc, tests, passed)
}

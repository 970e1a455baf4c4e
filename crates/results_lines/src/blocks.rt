//! The lines of one test.
ghost use Rattle.std.specs.Prelude.{◌≡◌, ◌++◌, ◌∷◌, [], map, drop, take, OnOk};
ghost use Rattle.mc_port.specs.Lines.{bytes_of};
ghost use Rattle.mc_typed.specs.Plans.{plan_call_of, plan_of};
ghost use Rattle.interp_trail.specs.Seen.{trace_of};
ghost use Rattle.results_lines.specs.Calls.{returned_line};
ghost use Rattle.results_lines.specs.Lines.{call_lines, last_lines, test_block};
ghost use Rattle.results_lines.specs.Seen.{source_of};

use crate::calls::returned_line;
use crate::source::Source;
use crate::stops::push_stopped;
use crate::tests::run_line;
use interp_trail::{ReturnedCall, TestTrace};
use mc_typed::{Call, TestPlan};
use runner_steps::part;
use std::alloc::{AllocError, Global};

fn push_returned(
    alloc: Global,
    lines: &mut Vec<Vec<u8>>,
    source: &Source<'_>,
    number: usize,
    call: &Call,
    returned: ReturnedCall,
    begin: u32,
    output: &[i32],
) -> Result<(), AllocError>
    ensures { OnOk result (bytes_of lines.new.items ≡ bytes_of lines.old.items
        ++ returned_line (source_of source.now) number (plan_call_of call.now) returned.value
        (drop begin (take returned.output_end output.now)) ∷ []) }
{
    let numbers = part(output, begin, returned.output_end);
    let line = returned_line(alloc, source, number, call, returned.value, numbers)?;
    lines.push(line)?;
    Ok(())
}

fn from(output: &[i32], begin: usize) -> &[i32]
    ensures { result.now ≡ drop begin output.now }
{
    &output[begin.min(output.len())..]
}

/// Adds the lines of the call in which the run stopped, where it did.
fn push_last(
    alloc: Global,
    lines: &mut Vec<Vec<u8>>,
    source: &Source<'_>,
    number: usize,
    call: &Call,
    begin: u32,
    trace: &TestTrace,
) -> Result<(), AllocError>
    ensures { OnOk result (bytes_of lines.new.items ≡ bytes_of lines.old.items
        ++ last_lines (source_of source.now) number (plan_call_of call.now) begin
        (trace_of trace.now) (trace_of trace.now).stop) }
{
    match trace.stop {
        Some(stop) => {
            let output = from(&trace.output, begin as usize);
            push_stopped(
                alloc,
                lines,
                source,
                number,
                call,
                output,
                trace.ending,
                stop,
            )
        }
        None => Ok(()),
    }
}

/// Adds a line for each call that was made, in order.
fn push_calls(
    alloc: Global,
    lines: &mut Vec<Vec<u8>>,
    source: &Source<'_>,
    calls: &[Call],
    trace: &TestTrace,
) -> Result<(), AllocError>
    ensures { OnOk result (bytes_of lines.new.items ≡ bytes_of lines.old.items
        ++ call_lines (source_of source.now) 1 (map plan_call_of calls.now) 0
        (trace_of trace.now).done (trace_of trace.now)) }
{
    let mut number = 1;
    let mut begin = 0;
    let mut calls_left = calls;
    let mut done_left: &[ReturnedCall] = &trace.done;
    while let [call, later_calls @ ..] = calls_left {
        let [returned, later_done @ ..] = done_left else {
            return push_last(alloc, lines, source, number, call, begin, trace);
        };
        push_returned(
            alloc,
            lines,
            source,
            number,
            call,
            *returned,
            begin,
            &trace.output,
        )?;
        number += 1;
        begin = returned.output_end;
        calls_left = later_calls;
        done_left = later_done;
    }
    Ok(())
}

/// Adds the line of a test, and those of its calls.
pub(crate) fn push_block(
    alloc: Global,
    lines: &mut Vec<Vec<u8>>,
    source: &Source<'_>,
    plan: &TestPlan,
    trace: &TestTrace,
) -> Result<(), AllocError>
    ensures { OnOk result (bytes_of lines.new.items ≡ bytes_of lines.old.items
        ++ test_block (source_of source.now) (plan_of plan.now) (trace_of trace.now)) }
{
    let line = run_line(alloc, &plan.name, trace)?;
    lines.push(line)?;
    push_calls(alloc, lines, source, &plan.calls, trace)
}

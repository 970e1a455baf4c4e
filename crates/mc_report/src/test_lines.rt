//! The lines of tests.
ghost use Rattle.std.specs.Prelude.{◌≡◌, ◌++◌, ◌∷◌, [], length, map, flat_map, OnOk};
ghost use Rattle.mc_meaning.specs.Seen.{told_of};
ghost use Rattle.mc_report.specs.Lines.{kept_line, kept_lines, result_text, run_line, run_lines, test_lines};
ghost use Rattle.mc_report.specs.Report.{HasEach};
ghost use Rattle.mc_report.specs.Seen.{bytes_of, report_of};
ghost use Rattle.mc_report.specs.Words.{value_text};

use crate::report::Report;
use mc_meaning::TestResult;
use mc_typed::{Name, TestState};
use std::alloc::{AllocError, Global};
use told_lines::{push_output, push_value, test_text};

fn push_values(alloc: Global, line: &mut Vec<u8>, values: &[Option<i128>]) -> Result<(), AllocError>
    ensures { OnOk result (line.new.items ≡ line.old.items ++ flat_map value_text values.now) }
{
    let mut left = values;
    while let [value, later @ ..] = left {
        push_value(alloc, line, *value)?;
        left = later;
    }
    Ok(())
}

/// Adds what the run of a test gave.
fn push_result(alloc: Global, line: &mut Vec<u8>, run: &TestResult) -> Result<(), AllocError>
    ensures { OnOk result (line.new.items ≡ line.old.items ++ result_text (told_of run.now)) }
{
    line.extend_from_slice(b" values")?;
    push_values(alloc, line, &run.values)?;
    line.extend_from_slice(b" output")?;
    push_output(alloc, line, &run.output)
}

fn push_run(
    alloc: Global,
    lines: &mut Vec<Vec<u8>>,
    name: &Name,
    state: TestState,
    run: &TestResult,
) -> Result<(), AllocError>
    ensures { OnOk result (bytes_of lines.new.items
        ≡ bytes_of lines.old.items ++ run_line name.now state (told_of run.now) ∷ []) }
{
    let mut line = test_text(alloc, name, state)?;
    push_result(alloc, &mut line, run)?;
    line.push(b'\n')?;
    lines.push(line)?;
    Ok(())
}

/// Adds a line for each test with its result.
pub(crate) fn push_runs(
    alloc: Global,
    lines: &mut Vec<Vec<u8>>,
    names: &[Name],
    states: &[TestState],
    runs: &[TestResult],
) -> Result<(), AllocError>
    requires states { length states.now ≡ length names.now }
    requires runs { length runs.now ≡ length names.now }
    ensures { OnOk result (bytes_of lines.new.items ≡ bytes_of lines.old.items
        ++ run_lines names.now states.now (map told_of runs.now)) }
{
    let mut names_left = names;
    let mut states_left = states;
    let mut runs_left = runs;
    while let [name, later_names @ ..] = names_left {
        let [state, later_states @ ..] = states_left else {
            unreachable!();
        };
        let [run, later_runs @ ..] = runs_left else {
            unreachable!();
        };
        push_run(alloc, lines, name, *state, run)?;
        names_left = later_names;
        states_left = later_states;
        runs_left = later_runs;
    }
    Ok(())
}

fn push_kept(
    alloc: Global,
    lines: &mut Vec<Vec<u8>>,
    name: &Name,
    state: TestState,
) -> Result<(), AllocError>
    ensures { OnOk result (bytes_of lines.new.items
        ≡ bytes_of lines.old.items ++ kept_line name.now state ∷ []) }
{
    let mut line = test_text(alloc, name, state)?;
    line.push(b'\n')?;
    lines.push(line)?;
    Ok(())
}

fn push_all_kept(
    alloc: Global,
    lines: &mut Vec<Vec<u8>>,
    names: &[Name],
    states: &[TestState],
) -> Result<(), AllocError>
    requires { length states.now ≡ length names.now }
    ensures { OnOk result (bytes_of lines.new.items
        ≡ bytes_of lines.old.items ++ kept_lines names.now states.now) }
{
    let mut names_left = names;
    let mut states_left = states;
    while let [name, later_names @ ..] = names_left {
        let [state, later_states @ ..] = states_left else {
            unreachable!();
        };
        push_kept(alloc, lines, name, *state)?;
        names_left = later_names;
        states_left = later_states;
    }
    Ok(())
}

/// Adds a line for each test.
pub(crate) fn push_tests(
    alloc: Global,
    lines: &mut Vec<Vec<u8>>,
    report: &Report<'_>,
) -> Result<(), AllocError>
    requires states { length (report_of report.now).states ≡ length (report_of report.now).names }
    requires results { HasEach (length (report_of report.now).names)
        (report_of report.now).results }
    ensures { OnOk result (bytes_of lines.new.items ≡ bytes_of lines.old.items
        ++ (let r = report_of report.now in test_lines r.names r.states r.results)) }
{
    match &report.results {
        Some(runs) => push_runs(alloc, lines, &report.names, &report.states, runs),
        None => push_all_kept(alloc, lines, &report.names, &report.states),
    }
}

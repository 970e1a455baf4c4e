//! Tests as JSON objects.
ghost use Rattle.std.specs.Prelude.{◌≡◌, ◌++◌, false, length, map, IsUtf8, OnOk};
ghost use Rattle.serde_json.specs.Data.{array};
ghost use Rattle.serde_json.specs.View.{items_of};
ghost use Rattle.serde_json.specs.Written.{comma_if, compact_text, items_text};
ghost use Rattle.mc_meaning.specs.Seen.{told_of};
ghost use Rattle.mc_report.specs.Json.{all_kept_data, kept_data, number_data, run_data, runs_data, tests_data, value_data};
ghost use Rattle.mc_report.specs.Report.{HasEach};
ghost use Rattle.mc_report.specs.Seen.{report_of};
ghost use Rattle.mc_report.specs.steps.Texts.{AreTexts};

use crate::json_form::members::{push_comma, push_integer, push_key, push_null, push_string};
use crate::quoted::text_of;
use crate::report::Report;
use mc_meaning::TestResult;
use mc_typed::{Name, TestState};
use report_words::state_word;
use std::alloc::{AllocError, Global};

/// Adds what a call returned.
fn push_value(
    alloc: Global,
    line: &mut Vec<u8>,
    later: bool,
    value: Option<i128>,
) -> Result<(), AllocError>
    ensures { OnOk result (line.new.items
        ≡ line.old.items ++ (comma_if later ++ compact_text (value_data value))) }
{
    push_comma(line, later)?;
    match value {
        Some(number) => push_integer(alloc, line, number),
        None => line.extend_from_slice(b"null"),
    }
}

/// Adds the values, and the end of their list.
fn push_values(alloc: Global, line: &mut Vec<u8>, values: &[Option<i128>]) -> Result<(), AllocError>
    ensures { OnOk result (line.new.items
        ≡ line.old.items ++ items_text false (items_of (map value_data values.now))) }
{
    let mut later = false;
    let mut left = values;
    while let [value, rest @ ..] = left {
        push_value(alloc, line, later, *value)?;
        later = true;
        left = rest;
    }
    line.push(b']')?;
    Ok(())
}

fn push_number(
    alloc: Global,
    line: &mut Vec<u8>,
    later: bool,
    number: i32,
) -> Result<(), AllocError>
    ensures { OnOk result (line.new.items
        ≡ line.old.items ++ (comma_if later ++ compact_text (number_data number))) }
{
    push_comma(line, later)?;
    push_integer(alloc, line, i128::from(number))
}

/// Adds the numbers of an output, and the end of their list.
fn push_output(alloc: Global, line: &mut Vec<u8>, output: &[i32]) -> Result<(), AllocError>
    ensures { OnOk result (line.new.items
        ≡ line.old.items ++ items_text false (items_of (map number_data output.now))) }
{
    let mut later = false;
    let mut left = output;
    while let [number, rest @ ..] = left {
        push_number(alloc, line, later, *number)?;
        later = true;
        left = rest;
    }
    line.push(b']')?;
    Ok(())
}

/// Adds a test with its result.
fn push_run(
    alloc: Global,
    line: &mut Vec<u8>,
    name: &Name,
    state: TestState,
    run: &TestResult,
) -> Result<(), AllocError>
    requires { IsUtf8 name.now }
    ensures { OnOk result (line.new.items
        ≡ line.old.items ++ compact_text (run_data name.now state (told_of run.now))) }
{
    line.push(b'{')?;
    push_string(alloc, line, false, "name", text_of(name.bytes()))?;
    push_key(alloc, line, true, "output")?;
    line.push(b'[')?;
    push_output(alloc, line, &run.output)?;
    push_string(alloc, line, true, "state", state_word(state))?;
    push_key(alloc, line, true, "values")?;
    line.push(b'[')?;
    push_values(alloc, line, &run.values)?;
    line.push(b'}')?;
    Ok(())
}

/// Adds the tests with their results, and the end of their list.
fn push_runs(
    alloc: Global,
    line: &mut Vec<u8>,
    names: &[Name],
    states: &[TestState],
    runs: &[TestResult],
) -> Result<(), AllocError>
    requires states { length states.now ≡ length names.now }
    requires runs { length runs.now ≡ length names.now }
    requires text { AreTexts names.now }
    ensures { OnOk result (line.new.items ≡ line.old.items
        ++ items_text false (items_of (runs_data names.now states.now (map told_of runs.now)))) }
{
    let mut later = false;
    let mut names_left = names;
    let mut states_left = states;
    let mut runs_left = runs;
    while let [name, later_names @ ..] = names_left {
        let [state, later_states @ ..] = states_left else {
            unreachable!();
        };
        let [run, later_runs @ ..] = runs_left else {
            unreachable!();
        };
        push_comma(line, later)?;
        push_run(alloc, line, name, *state, run)?;
        later = true;
        names_left = later_names;
        states_left = later_states;
        runs_left = later_runs;
    }
    line.push(b']')?;
    Ok(())
}

/// Adds a test of which no result is kept.
fn push_kept(
    alloc: Global,
    line: &mut Vec<u8>,
    name: &Name,
    state: TestState,
) -> Result<(), AllocError>
    requires { IsUtf8 name.now }
    ensures { OnOk result (line.new.items
        ≡ line.old.items ++ compact_text (kept_data name.now state)) }
{
    line.push(b'{')?;
    push_string(alloc, line, false, "name", text_of(name.bytes()))?;
    push_null(alloc, line, true, "output")?;
    push_string(alloc, line, true, "state", state_word(state))?;
    push_null(alloc, line, true, "values")?;
    line.push(b'}')?;
    Ok(())
}

/// Adds the tests of which no results are kept, and the end of their list.
fn push_all_kept(
    alloc: Global,
    line: &mut Vec<u8>,
    names: &[Name],
    states: &[TestState],
) -> Result<(), AllocError>
    requires states { length states.now ≡ length names.now }
    requires text { AreTexts names.now }
    ensures { OnOk result (line.new.items ≡ line.old.items
        ++ items_text false (items_of (all_kept_data names.now states.now))) }
{
    let mut later = false;
    let mut names_left = names;
    let mut states_left = states;
    while let [name, later_names @ ..] = names_left {
        let [state, later_states @ ..] = states_left else {
            unreachable!();
        };
        push_comma(line, later)?;
        push_kept(alloc, line, name, *state)?;
        later = true;
        names_left = later_names;
        states_left = later_states;
    }
    line.push(b']')?;
    Ok(())
}

/// Adds the tests, and the end of their list.
fn push_all(alloc: Global, line: &mut Vec<u8>, report: &Report<'_>) -> Result<(), AllocError>
    requires states { length (report_of report.now).states ≡ length (report_of report.now).names }
    requires results { HasEach (length (report_of report.now).names)
        (report_of report.now).results }
    requires text { AreTexts (report_of report.now).names }
    ensures { OnOk result (line.new.items ≡ line.old.items
        ++ (let r = report_of report.now in
        items_text false (items_of (tests_data r.names r.states r.results)))) }
{
    match &report.results {
        Some(runs) => push_runs(alloc, line, &report.names, &report.states, runs),
        None => push_all_kept(alloc, line, &report.names, &report.states),
    }
}

/// Adds the list of tests.
pub(crate) fn push_tests(
    alloc: Global,
    line: &mut Vec<u8>,
    report: &Report<'_>,
) -> Result<(), AllocError>
    requires states { length (report_of report.now).states ≡ length (report_of report.now).names }
    requires results { HasEach (length (report_of report.now).names)
        (report_of report.now).results }
    requires text { AreTexts (report_of report.now).names }
    ensures { OnOk result (line.new.items ≡ line.old.items
        ++ (let r = report_of report.now in
        compact_text (array (items_of (tests_data r.names r.states r.results))))) }
{
    line.push(b'[')?;
    push_all(alloc, line, report)
}

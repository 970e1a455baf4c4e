//! A run of the tests of a source.
ghost use Rattle.std.specs.Prelude.{◌≡◌, ◌≤◌, IfSome, option_map};
ghost use Rattle.clap.specs.Words.{found_of, rows_of};
ghost use Rattle.mc_command.specs.Command.{most_workers_of, run_in};
ghost use Rattle.mc_limits.specs.Limits.{most_fuel, most_workers};
ghost use Rattle.mc_command.specs.Values.{fuel_in, usual_workers, workers_in};
ghost use Rattle.mc_command.specs.Seen.{AreFewFor, IsWithin, RunIsInRange, TaskIsInRange, seen_run, seen_task};

use crate::number::read_number;
use crate::task::Task;
use crate::values::text_at;
use clap::ArgMatches;
use mc_limits::{MOST_FUEL, MOST_WORKERS, USUAL_FUEL};

/// The workers of a run where `--workers` is not given.
const USUAL_WORKERS: u32 = 4;

/// The most workers beside whom a watcher looks, who counts as one more.
pub const MOST_WATCHED_WORKERS: u32 = MOST_WORKERS - 1;

/// The tests that are run, and what for.
#[derive(Clone, Copy)]
pub struct Run<'w> {
    /// The name of the tests file.
    pub tests: &'w str,
    /// How many workers share the tests, from 1 to `MOST_WORKERS`, or to `MOST_WATCHED_WORKERS`
    /// where they are watched.
    pub workers: u32,
    /// The fuel of each test, from 1 to `MOST_FUEL`.
    pub fuel: u32,
    /// What the tests are run for.
    pub task: Task<'w>,
}

/// How many workers share the tests, `most` at most: `[--workers N]`.
pub(crate) fn read_workers(values: &ArgMatches<'_>, most: u32) -> Option<u32>
    requires { usual_workers ≤ most }
    ensures value { result ≡ workers_in most (rows_of (found_of values.now)) }
    ensures in_range { IfSome result (IsWithin 1 most) }
{
    match text_at(values, "workers") {
        None => Some(USUAL_WORKERS),
        Some(text) => read_number(text, 1, most),
    }
}

// The most workers of a run for a task.
fn most_workers_of(task: Task<'_>) -> u32
    ensures value { result ≡ most_workers_of (seen_task task.entry) }
    ensures few { AreFewFor task.entry result }
    ensures usual { usual_workers ≤ result }
    ensures most { result ≤ most_workers }
{
    match task {
        Task::Watch { .. } => MOST_WATCHED_WORKERS,
        Task::OnMatrix(_) | Task::Mutate | Task::Trace => MOST_WORKERS,
    }
}

// The fuel of each test: `[--fuel N]`.
fn read_fuel(values: &ArgMatches<'_>) -> Option<u32>
    ensures value { result ≡ fuel_in (rows_of (found_of values.now)) }
    ensures in_range { IfSome result (IsWithin 1 most_fuel) }
{
    match text_at(values, "fuel") {
        None => Some(USUAL_FUEL),
        Some(text) => read_number(text, 1, MOST_FUEL),
    }
}

/// The run that a task asks for: `TESTS [--workers N] [--fuel N]`. Its numbers are in range.
pub fn read_run<'w>(values: &ArgMatches<'w>, task: Task<'w>) -> Option<Run<'w>>
    requires { TaskIsInRange task }
    ensures value { option_map seen_run result
        ≡ run_in (seen_task task.entry) (rows_of (found_of values.now)) }
    ensures in_range { IfSome result RunIsInRange }
{
    let tests = text_at(values, "tests")?;
    let workers = read_workers(values, most_workers_of(task))?;
    let fuel = read_fuel(values)?;
    Some(Run {
        tests,
        workers,
        fuel,
        task,
    })
}

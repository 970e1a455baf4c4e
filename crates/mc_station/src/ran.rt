//! Running the tests of a source.
ghost use Rattle.std.specs.Prelude.{◌≡◌, ◌≤◌, IfOk, map};
ghost use Rattle.mc_limits.specs.Limits.{most_workers};
ghost use Rattle.mc_tests.specs.Seen.{seen_plans};
ghost use Rattle.mc_station.specs.Tests.{names, status_where};
ghost use Rattle.mc_station.specs.Seen.{ArePlanned, HasItsTree, IsOpened, seen_accepted, seen_tested};
ghost use Rattle.mc_station.specs.Ran.{IsRun, seen_ran};

use crate::accepted::Accepted;
use crate::means::Means;
use crate::opened::Opened;
use crate::tested::Tested;
use mc_core::Matrix;
use mc_cover::Closer;
use mc_meaning::TestResult;
use mc_port::Gate;
use mc_report::all_passed;
use mc_runner::run_tests;
use mc_typed::{Name, TestPlan, TestState};
use std::alloc::{AllocError, Global};
use std::thread::Threads;

/// What the tests gave when they were run.
#[derive(Drop)]
pub struct Ran {
    pub matrix: Matrix,
    pub names: Vec<Name>,
    pub states: Vec<TestState>,
    pub results: Vec<TestResult>,
}

impl Ran {
    /// The matrix, and what is told of the tests.
    pub fn into_parts(self) -> (Matrix, Tested)
        ensures matrix { result.0 ≡ self.matrix }
        ensures tests { seen_tested result.1 ≡ seen_ran self }
    {
        let Ran {
            matrix,
            names,
            states,
            results,
        } = self;
        let tests = Tested {
            names,
            states,
            results: Some(results),
        };
        (matrix, tests)
    }
}

/// The names of the tests.
pub fn names(alloc: Global, plans: &[TestPlan]) -> Result<Vec<Name>, AllocError>
    ensures { IfOk result (λ all. all.items ≡ names (seen_plans plans.now)) }
{
    let mut all = Vec::new(alloc);
    for plan in plans {
        all.push(Name::new(plan.name.bytes().to_vec(alloc)?))?;
    }
    Ok(all)
}

// The states of the tests.
fn states(alloc: Global, results: &[TestResult]) -> Result<Vec<TestState>, AllocError>
    ensures { IfOk result (λ all. all.items ≡ map (λ r. r.state) results.now) }
{
    results.iter().map(|test| test.state).collect(alloc)
}

/// 0 where all tests passed, else 1.
pub fn number_of(states: &[TestState]) -> u8
    ensures { result ≡ status_where states.now }
{
    if all_passed(states) { 0 } else { 1 }
}

/// Runs the tests by this number of workers, which record in the shared words, and closes these.
pub fn run_all<R: Threads + Sync, G: Gate, C: Closer>(
    alloc: Global,
    means: Means<'_, R, G, C>,
    workers: u32,
    accepted: &Accepted<'_>,
    plans: &[TestPlan],
    opened: Opened,
) -> Result<Ran, AllocError>
    requires workers { (1 ≤ workers) × (workers ≤ most_workers) }
    requires instrumented { HasItsTree accepted.now }
    requires planned { ArePlanned accepted.now plans.now }
    requires opened { IsOpened accepted.now plans.now opened }
    ensures { IfOk result (IsRun (C.skipped means.entry.closer.now) (seen_accepted accepted.now)
        (seen_plans plans.now)) }
{
    let Opened { cover, pass } = opened;
    let tree = &accepted.tree;
    match run_tests(
        means.rt, alloc, &cover, pass, tree, plans, workers, means.gate,
    ) {
        Ok((pass, results)) => {
            let matrix = means.closer.close(cover, pass);
            gathered(alloc, matrix, plans, results)
        }
        Err(error) => {
            drop(cover);
            Err(error)
        }
    }
}

/// What the tests gave, with their names and states.
pub fn gathered(
    alloc: Global,
    matrix: Matrix,
    plans: &[TestPlan],
    results: Vec<TestResult>,
) -> Result<Ran, AllocError>
    ensures matrix { IfOk result (λ ran. ran.matrix ≡ matrix) }
    ensures results { IfOk result (λ ran. ran.results ≡ results) }
    ensures names { IfOk result (λ ran. ran.names.items ≡ names (seen_plans plans.now)) }
    ensures states { IfOk result (λ ran.
        ran.states.items ≡ map (λ r. r.state) results.items) }
{
    let names = names(alloc, plans)?;
    let states = states(alloc, &results)?;
    Ok(Ran {
        matrix,
        names,
        states,
        results,
    })
}

//! Runs of tests by workers in threads of their own.
ghost use Rattle.std.specs.Prelude.{◌≡◌, ◌<◌, ◌≤◌, ℕ, All, length, map, slice_index_or, IfOk, Result, vec_len};
ghost use Rattle.std.specs.declared.alloc.AllocError.{AllocError};
ghost use Rattle.mc_limits.specs.Limits.{most_tests, most_workers};
ghost use Rattle.mc_cover.specs.Model.{IsOf};
ghost use Rattle.mc_cover.specs.Views.{opener};
ghost use Rattle.cover_recorder.specs.Crew.{HasAll};
ghost use Rattle.mc_meaning.specs.Seen.{told_of};
ghost use Rattle.mc_probe.specs.Erase.{erase};
ghost use Rattle.mc_probe.specs.Trees.{tree_of};
ghost use Rattle.mc_typed.specs.Plans.{Fits, plan_of};
ghost use Rattle.mc_runner.specs.declared.done.Done.{Done};
ghost use Rattle.mc_runner.specs.declared.job.Job.{Job};
ghost use Rattle.mc_runner.specs.Jobs.{IsHired, CanWork, IsDone, does_of};
ghost use Rattle.mc_runner.specs.Recorded.{told_by};

use crate::done::Done;
use crate::job::Job;
use mc_core::Shape;
use mc_cover::{Cover, Pass};
use mc_meaning::TestResult;
use mc_port::Gate;
use mc_probe::Instrumented;
use mc_typed::{Ending, TestPlan, TestState};
use runner_steps::workers_for;
use std::alloc::{AllocError, Global};
use std::thread;
use std::thread::Threads;

/// Runs the tests on the program by this number of workers, each with a machine of its own in a
/// thread of its own where one can be made; but by no more workers than there are tests, since each
/// takes time and memory for its machine. A worker claims a test, passes the gate with its number,
/// and runs it from the initial values of the static objects. The pass that comes back has every
/// test claimed once, and exactly the hits of the tests' runs. The results stand in the order of
/// the tests. Machines and passes are made before the first test. After a refusal the pass is gone.
pub fn run_tests<R: Threads + Sync, G: Gate>(
    rt: &R,
    alloc: Global,
    cover: &Cover,
    pass: Pass,
    program: &Instrumented<'_>,
    plans: &[TestPlan],
    workers: u32,
    gate: &G,
) -> Result<(Pass, Vec<TestResult>), AllocError>
    requires own { IsOf cover.now pass }
    requires fresh { pass.view ≡ opener cover.now.shape }
    requires shape { cover.now.shape
        ≡ record { bits = program.now.bits; tests = length plans.now } }
    requires fit { All (λ plan. Fits (plan_of plan) (erase (tree_of program.now).program))
        plans.now }
    requires few { length plans.now ≤ most_tests }
    requires workers { (1 ≤ workers) × (workers ≤ most_workers) }
    ensures pass { IfOk result (λ r.
        HasAll (does_of (tree_of program.now) (map plan_of plans.now)) cover.now r.0) }
    ensures results { IfOk result (λ r. map told_of r.1.items
        ≡ map (told_by (tree_of program.now)) (map plan_of plans.now)) }
{
    let workers = workers_for(workers, plans.len());
    run_by(rt, alloc, cover, pass, program, plans, workers, gate)
}

/// The same by exactly this number of workers.
fn run_by<R: Threads + Sync, G: Gate>(
    rt: &R,
    alloc: Global,
    cover: &Cover,
    mut pass: Pass,
    program: &Instrumented<'_>,
    plans: &[TestPlan],
    workers: u32,
    gate: &G,
) -> Result<(Pass, Vec<TestResult>), AllocError>
    requires own { IsOf cover.now pass }
    requires fresh { pass.view ≡ opener cover.now.shape }
    requires shape { cover.now.shape
        ≡ record { bits = program.now.bits; tests = length plans.now } }
    requires fit { All (λ plan. Fits (plan_of plan) (erase (tree_of program.now).program))
        plans.now }
    requires few { length plans.now ≤ most_tests }
    requires workers { (1 ≤ workers) × (workers ≤ most_workers) }
    ensures pass { IfOk result (λ r.
        HasAll (does_of (tree_of program.now) (map plan_of plans.now)) cover.now r.0) }
    ensures results { IfOk result (λ r. map told_of r.1.items
        ≡ map (told_by (tree_of program.now)) (map plan_of plans.now)) }
{
    let mut results = untold(alloc, plans.len())?;
    let shape = Shape {
        bits: program.bits(),
        tests: plans.len() as u32,
    };
    let jobs = hire(alloc, cover, &mut pass, program, shape, workers)?;
    let mut done = work_all(rt, alloc, plans, gate, jobs)?;
    while let Some(one) = done.pop() {
        one?.join(cover, &mut pass, &mut results);
    }
    Ok((pass, results))
}

/// The places of the results. What stands in them is told of no test.
pub(crate) fn untold(alloc: Global, count: usize) -> Result<Vec<TestResult>, AllocError>
    ensures { IfOk result (λ v. vec_len v ≡ count) }
{
    let mut results = Vec::with_capacity(alloc, count)?;
    for _place in 0..count {
        results.push_reserved(TestResult {
            ending: Ending::Returned,
            values: Vec::new(alloc),
            output: Vec::new(alloc),
            state: TestState::Fail,
        });
    }
    Ok(results)
}

/// The jobs of this number of workers. The cover has this shape.
pub(crate) fn hire<'c, 'p, 'a>(
    alloc: Global,
    cover: &'c Cover,
    pass: &mut Pass,
    program: &'p Instrumented<'a>,
    shape: Shape,
    workers: u32,
) -> Result<Vec<Job<'c, 'p, 'a>>, AllocError>
    requires own { IsOf cover.now pass.old }
    requires fresh { pass.old.view ≡ opener cover.now.shape }
    requires shape { shape ≡ cover.now.shape }
    requires workers { workers ≤ most_workers }
    ensures own { pass.new.cover ≡ pass.old.cover }
    ensures opener { IfOk result (λ _.
        pass.new.view ≡ record (opener cover.now.shape) { forks = workers }) }
    ensures count { IfOk result (λ v. vec_len v ≡ workers) }
    ensures hired { IfOk result (λ v.
        All (IsHired cover.now program.now (opener cover.now.shape)) v.items) }
{
    let mut jobs = Vec::with_capacity(alloc, workers as usize)?;
    for _worker in 0..workers {
        jobs.push_reserved(Job::new(alloc, cover, pass, program, shape)?);
    }
    Ok(jobs)
}

/// Each job, in a thread of its own where one can be made.
pub(crate) fn work_all<'c, 'p, 'a, R: Threads + Sync, G: Gate>(
    rt: &R,
    alloc: Global,
    plans: &[TestPlan],
    gate: &G,
    jobs: Vec<Job<'c, 'p, 'a>>,
) -> Result<Vec<Result<Done, AllocError>>, AllocError>
    requires ready { All (CanWork plans.now) jobs.items }
    ensures count { IfOk result (λ v. vec_len v ≡ vec_len jobs.entry) }
    ensures done { IfOk result (λ v. (i : ℕ) (j : Job) (d : Result Done AllocError) →
        i < vec_len jobs.entry →
        IfOk (slice_index_or v.items i d)
        (IsDone plans.now (slice_index_or jobs.entry.items i j))) }
{
    thread::map_vec(
        rt,
        jobs,
        &|job: Job<'_, '_, '_>| -> Result<Done, AllocError>
            requires { CanWork plans.now job }
            ensures { IfOk result (IsDone plans.entry.now job.entry) }
        { job.work(alloc, plans, gate) },
    )
}

//! Runs of tests that are looked at while they go on.
ghost use Rattle.std.specs.Prelude.{◌≡◌, ◌<◌, ◌≤◌, All, length, map, IfOk, vec_len, vec_capacity};
ghost use Rattle.std.specs.Thread.{IsSync};
ghost use Rattle.mc_core.specs.Shape.{word_count};
ghost use Rattle.mc_limits.specs.Limits.{most_looks, most_tests, most_workers};
ghost use Rattle.mc_cover.specs.Model.{IsOf};
ghost use Rattle.mc_cover.specs.Views.{opener};
ghost use Rattle.cover_recorder.specs.Crew.{HasAll};
ghost use Rattle.mc_meaning.specs.Seen.{told_of};
ghost use Rattle.mc_probe.specs.Erase.{erase};
ghost use Rattle.mc_probe.specs.Trees.{tree_of};
ghost use Rattle.mc_typed.specs.Plans.{Fits, plan_of};
ghost use Rattle.mc_watch.specs.Watched.{CanWatch, HasLooked, IsWatched};
ghost use Rattle.mc_runner.specs.Jobs.{CanWork, AreDone, does_of};
ghost use Rattle.mc_runner.specs.Recorded.{told_by};

use crate::done::Done;
use crate::job::Job;
use crate::workers::{hire, untold, work_all};
use mc_core::Shape;
use mc_cover::{Cover, Pass, fork, join};
use mc_meaning::TestResult;
use mc_port::Gate;
use mc_probe::Instrumented;
use mc_typed::TestPlan;
use mc_watch::watch;
use std::alloc::{AllocError, Global};
use std::thread;
use std::thread::Threads;

/// Runs the tests as `run_tests` does, and beside the workers a watcher, which claims no test and
/// makes this number of looks at the words. The counts of the looks stand in their order. After a
/// refusal the pass is gone.
pub fn watch_tests<R: Threads + Sync, G: Gate>(
    rt: &R,
    alloc: Global,
    cover: &Cover,
    mut pass: Pass,
    program: &Instrumented<'_>,
    plans: &[TestPlan],
    workers: u32,
    looks: u32,
    gate: &G,
) -> Result<(Pass, Vec<TestResult>, Vec<u32>), AllocError>
    requires own { IsOf cover.now pass }
    requires fresh { pass.view ≡ opener cover.now.shape }
    requires shape { cover.now.shape
        ≡ record { bits = program.now.bits; tests = length plans.now } }
    requires fit { All (λ plan. Fits (plan_of plan) (erase (tree_of program.now).program))
        plans.now }
    requires few { length plans.now ≤ most_tests }
    requires workers { (1 ≤ workers) × (workers < most_workers) }
    requires looks { (1 ≤ looks) × (looks ≤ most_looks) }
    ensures pass { IfOk result (λ r.
        HasAll (does_of (tree_of program.now) (map plan_of plans.now)) cover.now r.0) }
    ensures results { IfOk result (λ r. map told_of r.1.items
        ≡ map (told_by (tree_of program.now)) (map plan_of plans.now)) }
    ensures watched { IfOk result (λ r.
        IsWatched cover.now.shape r.0.view looks r.2.items) }
{
    let mut results = untold(alloc, plans.len())?;
    let counts = Vec::with_capacity(alloc, looks as usize)?;
    let shape = Shape {
        bits: program.bits(),
        tests: plans.len() as u32,
    };
    let jobs = hire(alloc, cover, &mut pass, program, shape, workers)?;
    let watcher = fork(cover, &mut pass);
    let (watched, mut done) = watch_and_work(
        rt, alloc, cover, watcher, looks, counts, plans, gate, jobs,
    )?;
    let (watcher, counts) = watched;
    while let Some(one) = done.pop() {
        one?.join(cover, &mut pass, &mut results);
    }
    join(cover, &mut pass, watcher);
    Ok((pass, results, counts))
}

/// The looks of the watcher, and beside them each job.
fn watch_and_work<'c, 'p, 'a, R: Threads + Sync, G: Gate>(
    rt: &R,
    alloc: Global,
    cover: &Cover,
    watcher: Pass,
    looks: u32,
    counts: Vec<u32>,
    plans: &[TestPlan],
    gate: &G,
    jobs: Vec<Job<'c, 'p, 'a>>,
) -> Result<((Pass, Vec<u32>), Vec<Result<Done, AllocError>>), AllocError>
    requires watcher { CanWatch cover.now watcher looks (vec_len counts) (vec_capacity counts) }
    requires ready { All (CanWork plans.now) jobs.items }
    ensures own { IfOk result (λ r. r.0.0.cover ≡ watcher.cover) }
    ensures looked { IfOk result (λ r. HasLooked (word_count cover.now.shape) looks
        watcher.view r.0.0.view r.0.1.items) }
    ensures count { IfOk result (λ r. vec_len r.1 ≡ vec_len jobs.entry) }
    ensures done { IfOk result (λ r.
        AreDone plans.now (vec_len jobs.entry) jobs.entry.items r.1.items) }
{
    let (watched, done) = thread::join(
        rt,
        || -> (Pass, Vec<u32>)
            requires { CanWatch cover.now watcher looks (vec_len counts) (vec_capacity counts) }
            ensures { (result.0.cover ≡ watcher.cover)
                × HasLooked (word_count cover.entry.now.shape) looks
                watcher.view result.0.view result.1.items }
        { watch(cover, watcher, looks, counts, gate) },
        || -> Result<Vec<Result<Done, AllocError>>, AllocError>
            requires { IsSync R.row × All (CanWork plans.now) jobs.items }
            ensures { IfOk result (λ v. (vec_len v ≡ vec_len jobs.entry)
                × AreDone plans.entry.now (vec_len jobs.entry) jobs.entry.items v.items) }
        { work_all(rt, alloc, plans, gate, jobs) },
    );
    Ok((watched, done?))
}

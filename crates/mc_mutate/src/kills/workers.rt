//! Runs of tests on mutants, by workers in threads of their own.
ghost use Rattle.std.specs.Prelude.{◌≡◌, ◌<◌, ◌≤◌, ◌*◌, ℕ, All, length, map, slice_index_or, IfOk, Result, vec_len};
ghost use Rattle.std.specs.declared.alloc.AllocError.{AllocError};
ghost use Rattle.mc_limits.specs.Limits.{most_mutants, most_tests, most_workers};
ghost use Rattle.mc_typed.specs.Plans.{Fits, plan_of};
ghost use Rattle.mc_typed.specs.Sound.{IsSound};
ghost use Rattle.mc_typed.specs.Views.{program_of};
ghost use Rattle.decide_rules.specs.Decisions.{AreDecisions};
ghost use Rattle.decide_rules.specs.Seen.{decision_of};
ghost use Rattle.mc_cover.specs.Model.{IsOf, PassView};
ghost use Rattle.mc_cover.specs.Views.{opener};
ghost use Rattle.cover_recorder.specs.Crew.{HasAll};
ghost use Rattle.mc_mutate.specs.declared.kills.runs.Job.{Job};
ghost use Rattle.mc_mutate.specs.Kills.{does_of};
ghost use Rattle.mc_mutate.specs.Mutants.{count};
ghost use Rattle.mc_mutate.specs.Runs.{CanWork, IsDone, IsHired, IsReady, worker_does};

use crate::kills::original::originals;
use crate::kills::runs::{Job, Task, work};
use crate::numbers::count_mutants;
use cover_recorder::Recorder;
use decide_rules::Decision;
use mc_core::Shape;
use mc_cover::{Cover, Pass, join};
use mc_port::Gate;
use mc_typed::{Program, TestPlan};
use std::alloc::{AllocError, Global};
use std::thread;
use std::thread::Threads;

/// Runs the tests on the mutants of the program by this number of workers, each in a thread of its
/// own where one can be made. With T tests, item i is the mutant i div T + 1 under the test i mod T. A
/// worker claims an item, passes the gate with its number, runs it from the initial values of the
/// static objects, and hits bit 0 where the test kills the mutant. The pass that comes back has
/// every item claimed once, and exactly the hits of the items whose test kills. A worker keeps one
/// mutant at a time. After a refusal the pass is gone.
pub fn run_mutants<R: Threads + Sync, G: Gate>(
    rt: &R,
    alloc: Global,
    cover: &Cover,
    mut pass: Pass,
    program: &Program<'_>,
    decisions: &[Decision],
    plans: &[TestPlan],
    workers: u32,
    gate: &G,
) -> Result<Pass, AllocError>
    requires own { IsOf cover.now pass }
    requires fresh { pass.view ≡ opener cover.now.shape }
    requires shape { cover.now.shape
        ≡ record { bits = 1; tests = count (program_of program.now) * length plans.now } }
    requires decisions { AreDecisions (program_of program.now).functions
        (map decision_of decisions.now) }
    requires fit { All (λ plan. Fits (plan_of plan) (program_of program.now)) plans.now }
    requires few { (count (program_of program.now) ≤ most_mutants)
        × (length plans.now ≤ most_tests) }
    requires workers { (1 ≤ workers) × (workers ≤ most_workers) }
    ensures { IfOk result (λ p.
        HasAll (does_of (program_of program.now) (map plan_of plans.now)) cover.now p) }
{
    sound(program);
    let shape = Shape {
        bits: 1,
        tests: count_mutants(decisions, program) * plans.len() as u32,
    };
    let kept = originals(alloc, program, plans)?;
    let task = Task {
        program,
        plans,
        originals: &kept,
    };
    run_task(rt, alloc, cover, pass, shape, &task, workers, gate)
}

/// Runs what the workers share, by this number of them. The cover has this shape.
#[tactic(auto, using(crate::proofs::Joined::all_ready))]
fn run_task<R: Threads + Sync, G: Gate>(
    rt: &R,
    alloc: Global,
    cover: &Cover,
    mut pass: Pass,
    shape: Shape,
    task: &Task<'_, '_>,
    workers: u32,
    gate: &G,
) -> Result<Pass, AllocError>
    requires own { IsOf cover.now pass }
    requires fresh { pass.view ≡ opener cover.now.shape }
    requires shape { shape ≡ cover.now.shape }
    requires can { CanWork task.now cover.now }
    requires workers { (1 ≤ workers) × (workers ≤ most_workers) }
    ensures { IfOk result (HasAll (worker_does task.now) cover.now) }
{
    let jobs = hire(alloc, cover, &mut pass, shape, task, workers)?;
    let mut done = work_all(rt, alloc, gate, jobs)?;
    while let Some(one) = done.pop() {
        join(cover, &mut pass, one?);
    }
    Ok(pass)
}

/// A program is sound.
fn sound(program: &Program<'_>)
    ensures { IsSound (program_of program.now) }
{
    let _functions = program.functions();
}

/// The jobs of this number of workers. The cover has this shape.
fn hire<'c, 'k, 't, 'a>(
    alloc: Global,
    cover: &'c Cover,
    pass: &mut Pass,
    shape: Shape,
    task: &'k Task<'t, 'a>,
    workers: u32,
) -> Result<Vec<Job<'c, 'k, 't, 'a>>, AllocError>
    requires own { IsOf cover.now pass.old }
    requires fresh { pass.old.view ≡ opener cover.now.shape }
    requires shape { shape ≡ cover.now.shape }
    requires workers { workers ≤ most_workers }
    ensures own { pass.new.cover ≡ pass.old.cover }
    ensures opener { IfOk result (λ _.
        pass.new.view ≡ record (opener cover.now.shape) { forks = workers }) }
    ensures count { IfOk result (λ v. vec_len v ≡ workers) }
    ensures hired { IfOk result (λ v. All (IsHired cover.now task.now) v.items) }
{
    let mut jobs = Vec::with_capacity(alloc, workers as usize)?;
    for _worker in 0..workers {
        let recorder = Recorder::fork(alloc, cover, pass, shape)?;
        jobs.push_reserved(Job { recorder, task });
    }
    Ok(jobs)
}

/// The work of each job, in a thread of its own where one can be made.
fn work_all<'c, 'k, 't, 'a, R: Threads + Sync, G: Gate>(
    rt: &R,
    alloc: Global,
    gate: &G,
    jobs: Vec<Job<'c, 'k, 't, 'a>>,
) -> Result<Vec<Result<Pass, AllocError>>, AllocError>
    requires ready { All IsReady jobs.items }
    ensures count { IfOk result (λ v. vec_len v ≡ vec_len jobs.entry) }
    ensures done { IfOk result (λ v. (i : ℕ) (j : Job) (p : Result PassView AllocError) →
        i < vec_len jobs.entry →
        IfOk (slice_index_or v.items i p) (IsDone (slice_index_or jobs.entry.items i j))) }
{
    thread::map_vec(
        rt,
        jobs,
        &|job: Job<'_, '_, '_, '_>| -> Result<Pass, AllocError>
            requires { IsReady job }
            ensures { IfOk result (IsDone job.entry) }
        { work(alloc, gate, job) },
    )
}

//! Runs of tests, by workers in threads of their own.
ghost use Rattle.std.specs.Prelude.{◌≡◌, ◌<◌, ◌≤◌, ℕ, All, map, replicate, slice_index_or, vec_len, IfOk};
ghost use Rattle.mc_limits.specs.Limits.{most_bits, most_workers};
ghost use Rattle.interp_trail.specs.Layouts.{layout_of};
ghost use Rattle.mc_probe.specs.BitMaps.{map_of};
ghost use Rattle.mc_probe.specs.Erase.{erase};
ghost use Rattle.mc_probe.specs.Trees.{tree_of};
ghost use Rattle.mc_typed.specs.Plans.{Fits, plan_of};
ghost use Rattle.interp_trail.specs.Seen.{trace_of};
ghost use Rattle.mc_results.specs.Traced.{all_traced};
ghost use Rattle.mc_results.specs.Seen.{ArePart, CanWork, Part, traced_in};
ghost use Rattle.mc_results.specs.declared.task.Task.{Task};

use crate::gathered::{gathered, in_order};
use crate::runs::work;
use crate::task::Task;
use interp_trail::{Layout, TestTrace};
use mc_port::Gate;
use mc_probe::{BitMap, Instrumented};
use mc_typed::TestPlan;
use runner_steps::workers_for;
use std::alloc::{AllocError, Global};
use std::sync::atomic::AtomicU32;
use std::thread;
use std::thread::Threads;

/// Runs the tests on the program by this number of workers, each with a machine of its own in a
/// thread of its own where one can be made; but by no more workers than there are tests. A worker
/// claims a test, passes the gate with its number, and runs it from the initial values of the
/// static objects. The map is that of the program's bits. The traces stand in the order of the
/// tests.
pub fn trace_tests<R: Threads + Sync, G: Gate>(
    rt: &R,
    alloc: Global,
    program: &Instrumented<'_>,
    bit_map: &BitMap,
    plans: &[TestPlan],
    workers: u32,
    gate: &G,
) -> Result<Vec<TestTrace>, AllocError>
    requires bits { program.now.bits ≤ most_bits }
    requires fit { All (λ plan. Fits (plan_of plan) (erase (tree_of program.now).program))
        plans.now }
    requires workers { (1 ≤ workers) × (workers ≤ most_workers) }
    ensures { IfOk result (λ v. map trace_of v.items
        ≡ all_traced (layout_of (map_of bit_map.now)) (tree_of program.now)
        (map plan_of plans.now)) }
{
    let layout = Layout::of(bit_map);
    trace_all(rt, alloc, program, layout, plans, workers, gate)
}

/// The same with the layout of the program's bits.
fn trace_all<R: Threads + Sync, G: Gate>(
    rt: &R,
    alloc: Global,
    program: &Instrumented<'_>,
    layout: Layout,
    plans: &[TestPlan],
    workers: u32,
    gate: &G,
) -> Result<Vec<TestTrace>, AllocError>
    requires bits { program.now.bits ≤ most_bits }
    requires fit { All (λ plan. Fits (plan_of plan) (erase (tree_of program.now).program))
        plans.now }
    requires workers { (1 ≤ workers) × (workers ≤ most_workers) }
    ensures { IfOk result (λ v. map trace_of v.items
        ≡ all_traced layout (tree_of program.now) (map plan_of plans.now)) }
{
    let workers = workers_for(workers, plans.len());
    let next = AtomicU32::new(0);
    let task = Task {
        program,
        layout,
        plans,
        next: &next,
    };
    run_task(rt, alloc, &task, workers, gate)
}

/// Runs what the workers share, by so many of them.
fn run_task<R: Threads + Sync, G: Gate>(
    rt: &R,
    alloc: Global,
    task: &Task<'_, '_>,
    workers: u32,
    gate: &G,
) -> Result<Vec<TestTrace>, AllocError>
    requires { CanWork task.now }
    ensures { IfOk result (λ v. map trace_of v.items ≡ traced_in task.now) }
{
    let jobs = hire(alloc, task, workers)?;
    let parts = work_all(rt, alloc, jobs, gate)?;
    let slots = gathered(alloc, task.plans.len(), parts)?;
    in_order(alloc, task, slots)
}

/// What the workers share, once for each of them.
fn hire<'t, 'a>(
    alloc: Global,
    task: &Task<'t, 'a>,
    workers: u32,
) -> Result<Vec<Task<'t, 'a>>, AllocError>
    ensures { IfOk result (λ v. v.items ≡ replicate workers task.now) }
{
    let mut jobs = Vec::with_capacity(alloc, workers as usize)?;
    for _worker in 0..workers {
        jobs.push_reserved(*task);
    }
    Ok(jobs)
}

/// What each worker comes to, in a thread of its own where one can be made.
fn work_all<'t, 'a, R: Threads + Sync, G: Gate>(
    rt: &R,
    alloc: Global,
    jobs: Vec<Task<'t, 'a>>,
    gate: &G,
) -> Result<Vec<Result<Vec<(u32, TestTrace)>, AllocError>>, AllocError>
    requires ready { All CanWork jobs.items }
    ensures count { IfOk result (λ v. vec_len v ≡ vec_len jobs.entry) }
    ensures parts { IfOk result (λ v. (i : ℕ) (j : Task) (p : Part) → i < vec_len jobs.entry →
        ArePart (traced_in (slice_index_or jobs.entry.items i j)) (slice_index_or v.items i p)) }
{
    thread::map_vec(
        rt,
        jobs,
        &|job: Task<'_, '_>| -> Result<Vec<(u32, TestTrace)>, AllocError>
            requires { CanWork job }
            ensures { ArePart (traced_in job.entry) result }
        { work(alloc, &job, gate) },
    )
}

//! The interleaving core: workers that claim tests and hit their bits, one atomic step at a time.
ghost use Rattle.std.specs.Prelude.{◌≡◌, ℕ, ◌+◌, ◌<◌, ◌≤◌, ◌↔◌, ◌^◌, List, length, min, All, Contains, IfOk, OnOk, map, vec_len, true, false};
ghost use Rattle.mc_limits.specs.Limits.{most_words, most_workers};
ghost use Rattle.mc_core.specs.Shape.{word_count};
ghost use Rattle.mc_core.specs.Matrix.{Holds, with_pair};
ghost use Rattle.mc_core.specs.Schedule.{core_of, run, start, script_of, scripts_of, worker_of, workers_of, fresh_workers, next_bit, last_claim};
ghost use Rattle.mc_core.specs.Schedule as machine;
ghost use Rattle.mc_core.specs.Counts.{times, once_below};
ghost use Rattle.mc_core.specs.Progress.{all_claims, ended_count, all_hits, IsInOrder, IsReady};

use crate::matrix::Matrix;
use crate::shape::Shape;
use std::alloc::{AllocError, Global};

/// The state after some steps.
#[derive(Drop)]
pub struct CoreState {
    /// How many numbers were drawn.
    pub draws: u32,
    pub matrix: Matrix,
    pub workers: Vec<CoreWorker>,
}

/// One worker.
#[derive(Drop)]
pub struct CoreWorker {
    /// Its tests, in the order of their claims.
    pub claimed: Vec<u32>,
    /// How many bits of the last claimed test are still to be hit.
    pub rest: u32,
    /// Whether it drew a number that is not a test.
    pub ended: bool,
}

/// Lets the workers take one atomic step for each number of the schedule, in its order.
/// `scripts` has the bits of each test in the order in which they are hit.
/// A step of an ended or unknown worker changes nothing.
pub fn run_schedule(
    alloc: Global,
    shape: Shape,
    scripts: &[Vec<u32>],
    workers: u32,
    schedule: &[u32],
) -> Result<CoreState, AllocError>
    requires small { word_count shape ≤ most_words }
    requires tests { length scripts.now ≡ shape.tests }
    requires scripts { All (λ v. (vec_len v < 2 ^ 31) × All (λ b. b < shape.bits) v.items)
        scripts.now }
    requires workers { (1 ≤ workers) × (workers ≤ most_workers) }
    requires steps { length schedule.now < 2 ^ 31 }
    ensures state { IfOk result (λ s.
        core_of s ≡ run (scripts_of scripts.now) (start shape workers) schedule.now) }
    // each draw claimed a test or ended a worker
    ensures draws { IfOk result (λ s.
        s.draws ≡ length (all_claims (workers_of s)) + ended_count (workers_of s)) }
    // the numbers drawn below the tests are claimed once, and no other
    ensures claims { IfOk result (λ s. (n : ℕ) →
        times n (all_claims (workers_of s)) ≡ once_below n (min s.draws shape.tests)) }
    // the pairs of finished tests, and those already hit of each worker's last test
    ensures pairs { IfOk result (λ s. (b t : ℕ) →
        Holds s.matrix b t ↔ Contains (all_hits (scripts_of scripts.now) (workers_of s)) (b, t)) }
    // whatever the schedule
    ensures finished { IfOk result (λ s. All (λ w. w.ended ≡ true) (workers_of s) → (b t : ℕ) →
        Holds s.matrix b t ↔ Contains (script_of (scripts_of scripts.now) t) b) }
{
    let mut state = started(alloc, shape, workers)?;
    for number in schedule {
        step(&mut state, scripts, *number)?;
    }
    Ok(state)
}

// The state before the first step.
fn started(alloc: Global, shape: Shape, workers: u32) -> Result<CoreState, AllocError>
    requires small { word_count shape ≤ most_words }
    ensures { IfOk result (λ s. core_of s ≡ start shape workers) }
{
    Ok(CoreState {
        draws: 0,
        matrix: Matrix::zero(alloc, shape)?,
        workers: idle_workers(alloc, workers)?,
    })
}

// This number of workers without a claim.
fn idle_workers(alloc: Global, count: u32) -> Result<Vec<CoreWorker>, AllocError>
    ensures { IfOk result (λ v. map worker_of v.items ≡ fresh_workers count) }
{
    let mut workers = Vec::new(alloc);
    for _number in 0..count {
        workers.push(CoreWorker {
            claimed: Vec::new(alloc),
            rest: 0,
            ended: false,
        })?;
    }
    Ok(workers)
}

// One step of a worker.
fn step(state: &mut CoreState, scripts: &[Vec<u32>], number: u32) -> Result<(), AllocError>
    requires tests { length scripts.now ≡ state.old.matrix.shape.tests }
    requires scripts { All
        (λ v. (vec_len v < 2 ^ 31) × All (λ b. b < state.old.matrix.shape.bits) v.items)
        scripts.now }
    requires draws { state.old.draws < 2 ^ 31 }
    requires ready { IsReady (scripts_of scripts.now) (core_of state.old) }
    ensures { OnOk result
        (core_of state.new ≡ machine.step (scripts_of scripts.now) (core_of state.old) number) }
{
    let Some(worker) = state.workers.get_mut(number as usize) else {
        return Ok(());
    };
    if worker.ended {
        return Ok(());
    }
    if worker.rest > 0 {
        hit(&mut state.matrix, worker, scripts);
        return Ok(());
    }
    let drawn = state.draws;
    state.draws += 1;
    claim(worker, scripts, drawn)
}

// Hits the next bit of the worker's last test.
fn hit(matrix: &mut Matrix, worker: &mut CoreWorker, scripts: &[Vec<u32>])
    requires tests { length scripts.now ≡ matrix.old.shape.tests }
    requires scripts { All (λ v. All (λ b. b < matrix.old.shape.bits) v.items) scripts.now }
    requires rest { 0 < worker.old.rest }
    requires ready { IsInOrder (scripts_of scripts.now) matrix.old.shape.tests
        (worker_of worker.old) }
    ensures matrix { matrix.new ≡ with_pair matrix.old
        (next_bit (scripts_of scripts.now) (worker_of worker.old))
        (last_claim (worker_of worker.old)) }
    ensures worker { worker_of worker.new ≡ machine.after_hit (worker_of worker.old) }
{
    let test = worker.claimed[worker.claimed.len() - 1];
    let script = &scripts[test as usize];
    let bit = script[script.len() - worker.rest as usize];
    matrix.set(bit, test);
    worker.rest -= 1;
}

// The number is claimed where it is a test; any other ends the worker.
fn claim(worker: &mut CoreWorker, scripts: &[Vec<u32>], drawn: u32) -> Result<(), AllocError>
    requires scripts { All (λ v. vec_len v < 2 ^ 31) scripts.now }
    requires done { (worker.old.rest ≡ 0) × (worker.old.ended ≡ false) }
    ensures { OnOk result (worker_of worker.new ≡ machine.after_claim
        (scripts_of scripts.now) (length scripts.now) drawn (worker_of worker.old)) }
{
    if drawn as usize >= scripts.len() {
        worker.ended = true;
        return Ok(());
    }
    worker.claimed.push(drawn)?;
    worker.rest = scripts[drawn as usize].len() as u32;
    Ok(())
}

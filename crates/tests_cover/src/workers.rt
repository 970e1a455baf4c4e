//! Workers in threads of their own, which record by scripts. They stand outside the tests, so that
//! a wrong body of theirs is refused.
ghost use Rattle.std.specs.Prelude.{◌≡◌, ◌<◌, ◌≤◌, ◌+◌, length, Contains, IfOk, vec_len};
ghost use Rattle.mc_cover.specs.Views.{opener};
ghost use Rattle.mc_cover.specs.Model.{IsOf};
ghost use Rattle.tests_cover.specs.Workers.{IsRunning, IsDone, AllRunning, AllDone};

use mc_core::{Matrix, Shape};
use mc_cover::{Closer, Cover, Pass, Role, claim, fork, hit, join, open};
use std::alloc::{AllocError, Global};
use std::thread;
use std::thread::Threads;

// Test t hits the bits t * f mod `bits`, for each factor f.
fn run_test(cover: &Cover, pass: &mut Pass, bits: u32, factors: &[u32], test: u32)
    requires own { IsOf cover.now pass.old }
    requires claimed { Contains pass.old.view.claims test }
    requires bits { (0 < bits) × (bits ≡ cover.now.shape.bits) }
    requires test { test < cover.now.shape.tests }
    ensures { pass.new
        ≡ record pass.old { view = record pass.old.view { hits = pass.new.view.hits } } }
{
    for factor in factors {
        hit(cover, pass, test.wrapping_mul(*factor) % bits, test);
    }
}

// Claims tests until none is left.
fn work(cover: &Cover, pass: &mut Pass, bits: u32, factors: &[u32])
    requires running { IsRunning cover.now pass.old }
    requires bits { (0 < bits) × (bits ≡ cover.now.shape.bits) }
    ensures { IsDone cover.now pass.new }
{
    while let Some(test) = claim(cover, pass) {
        run_test(cover, pass, bits, factors, test);
    }
}

// Each pass in a thread of its own.
fn work_all<R: Threads + Sync>(
    rt: &R,
    cover: &Cover,
    passes: &mut [Pass],
    bits: u32,
    factors: &[u32],
)
    requires passes { (0 < length passes.old) × AllRunning cover.now passes.old }
    requires bits { (0 < bits) × (bits ≡ cover.now.shape.bits) }
    ensures { AllDone cover.now passes.new × (length passes.new ≡ length passes.old) }
{
    let threads = passes.len();
    thread::for_each_mut(
        rt,
        passes,
        threads,
        &|_, pass| { work(cover, pass, bits, factors) },
    );
}

fn fork_all(
    alloc: Global,
    cover: &Cover,
    pass: &mut Pass,
    workers: u32,
) -> Result<Vec<Pass>, AllocError>
    requires own { IsOf cover.now pass.old }
    requires fresh { (pass.old.view ≡ opener cover.now.shape) × (workers ≤ 64) }
    ensures opener { IfOk result (λ _. (pass.new.cover ≡ pass.old.cover)
        × (pass.new.view ≡ record (opener cover.now.shape) { forks = workers })) }
    ensures passes { IfOk result (λ v. (vec_len v ≡ workers) × AllRunning cover.now v.items) }
{
    let mut passes = Vec::with_capacity(alloc, workers as usize)?;
    for _worker in 0..workers {
        passes.push_reserved(fork(cover, pass));
    }
    Ok(passes)
}

fn join_all(cover: &Cover, pass: &mut Pass, mut passes: Vec<Pass>)
    requires own { pass.old.cover ≡ cover.now.cover }
    requires opener { (pass.old.view.role ≡ Role.Opener)
        × (pass.old.view.joined + vec_len passes ≡ pass.old.view.forks) }
    requires passes { AllDone cover.now passes.items }
    ensures { (pass.new.cover ≡ pass.old.cover) × (pass.new.view.role ≡ Role.Opener)
        × (pass.new.view.forks ≡ pass.new.view.joined) }
{
    while let Some(other) = passes.pop() {
        join(cover, pass, other);
    }
}

/// The matrix of all tests, recorded by this number of workers.
pub fn record_all<R: Threads + Sync, C: Closer>(
    rt: &R,
    alloc: Global,
    shape: Shape,
    workers: u32,
    factors: &[u32],
    closer: &C,
) -> Option<Matrix>
    requires bits { 0 < shape.bits }
    requires workers { (0 < workers) × (workers ≤ 64) }
{
    let (cover, mut pass) = open(alloc, shape).ok()?;
    let mut passes = fork_all(alloc, &cover, &mut pass, workers).ok()?;
    work_all(rt, &cover, passes.as_mut_slice(), shape.bits, factors);
    join_all(&cover, &mut pass, passes);
    Some(closer.close(cover, pass))
}

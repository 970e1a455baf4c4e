//! The traces of workers, in the order of the tests.
ghost use Rattle.std.specs.Prelude.{◌≡◌, ◌<◌, All, List, None, get_or, length, map, replicate, IfOk};
ghost use Rattle.interp_trail.specs.Seen.{trace_of};
ghost use Rattle.mc_results.specs.Seen.{ArePart, AreRight, CanWork, IsAt, IsRight, traced_in};
ghost use Rattle.interp_trail.specs.Traced.{Traced};

use crate::runs::run_alone;
use crate::task::Task;
use interp_trail::TestTrace;
use std::alloc::{AllocError, Global};

/// Room for the trace of each test.
fn no_traces(alloc: Global, count: usize) -> Result<Vec<Option<TestTrace>>, AllocError>
    ensures { IfOk result (λ v. v.items ≡ replicate count None) }
{
    let mut slots = Vec::with_capacity(alloc, count)?;
    for _test in 0..count {
        slots.push_reserved(None);
    }
    Ok(slots)
}

/// Puts a trace in the place of its test.
#[tactic(auto, using(crate::proofs::Right::put_right))]
fn put_one(slots: &mut Vec<Option<TestTrace>>, test: u32, trace: TestTrace)
    ensures { (all : List Traced) → AreRight all slots.old.items → IsAt all (test, trace) →
        AreRight all slots.new.items }
{
    if (test as usize) < slots.len() {
        slots[test as usize] = Some(trace);
    }
}

/// Puts each trace of a worker in the place of its test.
fn put(slots: &mut Vec<Option<TestTrace>>, part: Vec<(u32, TestTrace)>)
    ensures { (all : List Traced) → AreRight all slots.old.items → All (IsAt all) part.items →
        AreRight all slots.new.items }
{
    for (test, trace) in part {
        put_one(slots, test, trace);
    }
}

/// The traces of all workers, each in the place of its test, of which there are so many.
pub(crate) fn gathered(
    alloc: Global,
    count: usize,
    parts: Vec<Result<Vec<(u32, TestTrace)>, AllocError>>,
) -> Result<Vec<Option<TestTrace>>, AllocError>
    ensures { IfOk result (λ v. (all : List Traced) → length all ≡ count →
        All (ArePart all) parts.items → AreRight all v.items) }
{
    let mut slots = no_traces(alloc, count)?;
    let mut left = parts;
    while let Some(part) = left.pop() {
        put(&mut slots, part?);
    }
    Ok(slots)
}

/// Takes the trace of a test out of its place.
#[tactic(auto, using(crate::proofs::Right::taken_right))]
fn taken(slots: &mut Vec<Option<TestTrace>>, test: usize) -> Option<TestTrace>
    requires { test < length slots.old.items }
    ensures right { (all : List Traced) → AreRight all slots.old.items →
        AreRight all slots.new.items }
    ensures taken { (all : List Traced) (t : Traced) → AreRight all slots.old.items →
        IsRight (get_or all test t) result }
{
    slots[test].take()
}

/// The trace of a test, which is run where there is none.
fn trace_in(
    alloc: Global,
    task: &Task<'_, '_>,
    test: usize,
    slot: Option<TestTrace>,
) -> Result<TestTrace, AllocError>
    requires can { CanWork task.now }
    requires test { test < length task.now.plans.now }
    requires right { (t : Traced) → IsRight (get_or (traced_in task.now) test t) slot }
    ensures { IfOk result (λ t. (u : Traced) → trace_of t ≡ get_or (traced_in task.now) test u) }
{
    match slot {
        Some(trace) => Ok(trace),
        None => run_alone(alloc, task, test),
    }
}

/// The traces in the order of the tests. A test that no worker has run is run here.
pub(crate) fn in_order(
    alloc: Global,
    task: &Task<'_, '_>,
    slots: Vec<Option<TestTrace>>,
) -> Result<Vec<TestTrace>, AllocError>
    requires can { CanWork task.now }
    requires right { AreRight (traced_in task.now) slots.items }
    ensures { IfOk result (λ v. map trace_of v.items ≡ traced_in task.now) }
{
    let mut left = slots;
    let mut traces = Vec::new(alloc);
    for test in 0..task.plans.len() {
        let slot = taken(&mut left, test);
        traces.push(trace_in(alloc, task, test, slot)?)?;
    }
    Ok(traces)
}

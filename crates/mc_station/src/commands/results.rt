//! The command `results`.
ghost use Rattle.std.specs.Prelude.{◌≡◌, ◌≤◌, IfOk, map};
ghost use Rattle.interp_trail.specs.Seen.{trace_of};
ghost use Rattle.interp_trail.specs.Traced.{plainly_traced};
ghost use Rattle.mc_limits.specs.Limits.{most_workers};
ghost use Rattle.mc_station.specs.Replied.{seen_reply};
ghost use Rattle.mc_station.specs.Seen.{ArePlanned, HasItsTree, seen_accepted};
ghost use Rattle.mc_station.specs.commands.Results.{Traces};
ghost use Rattle.mc_tests.specs.Seen.{seen_plans};

use crate::accepted::Accepted;
use crate::means::Means;
use crate::ran::number_of;
use crate::reply::Reply;
use interp_trail::{TestTrace, test_states};
use mc_cover::Closer;
use mc_port::Gate;
use mc_results::trace_tests;
use mc_typed::TestPlan;
use results_lines::results_lines;
use std::alloc::{AllocError, Global};
use std::thread::Threads;

// The reply on what the calls did.
fn told<'a>(
    alloc: Global,
    accepted: &Accepted<'_>,
    plans: &[TestPlan],
    traces: &[TestTrace],
) -> Result<Reply<'a>, AllocError>
    requires instrumented { HasItsTree accepted.now }
    requires traces { map trace_of traces.now
        ≡ map (plainly_traced (seen_accepted accepted.now).program) (seen_plans plans.now) }
    ensures { IfOk result (λ reply. Traces (seen_accepted accepted.now) (seen_plans plans.now)
        (seen_reply reply)) }
{
    let states = test_states(alloc, traces)?;
    let lines = results_lines(alloc, accepted.source, &accepted.map, plans, traces)?;
    Ok(Reply::of_lines(alloc, number_of(&states), lines))
}

// The reply of `results`, from a source that is lent.
fn traced<'a, R: Threads + Sync, G: Gate, C: Closer>(
    alloc: Global,
    means: Means<'_, R, G, C>,
    workers: u32,
    accepted: &Accepted<'_>,
    plans: &[TestPlan],
) -> Result<Reply<'a>, AllocError>
    requires workers { (1 ≤ workers) × (workers ≤ most_workers) }
    requires instrumented { HasItsTree accepted.now }
    requires planned { ArePlanned accepted.now plans.now }
    ensures { IfOk result (λ reply. Traces (seen_accepted accepted.now) (seen_plans plans.now)
        (seen_reply reply)) }
{
    let traces = trace_tests(
        means.rt,
        alloc,
        &accepted.tree,
        &accepted.map,
        plans,
        workers,
        means.gate,
    )?;
    told(alloc, accepted, plans, &traces)
}

/// The reply of `results`: what each call of the tests did.
pub fn results<'a, R: Threads + Sync, G: Gate, C: Closer>(
    alloc: Global,
    means: Means<'_, R, G, C>,
    workers: u32,
    accepted: Accepted<'_>,
    plans: &[TestPlan],
) -> Result<Reply<'a>, AllocError>
    requires workers { (1 ≤ workers) × (workers ≤ most_workers) }
    requires instrumented { HasItsTree accepted }
    requires planned { ArePlanned accepted plans.now }
    ensures { IfOk result (λ reply. Traces (seen_accepted accepted.entry) (seen_plans plans.now)
        (seen_reply reply)) }
{
    let reply = traced(alloc, means, workers, &accepted, plans);
    accepted.leak();
    reply
}

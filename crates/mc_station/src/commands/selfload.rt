//! The command `selfload`.
ghost use Rattle.std.specs.Prelude.{◌≡◌, ◌≤◌, ℕ, List, IfOk};
ghost use Rattle.mc_command.specs.Seen.{IsWithin};
ghost use Rattle.mc_gen.specs.Source.{source_text};
ghost use Rattle.mc_gen.specs.Tests.{tests_text};
ghost use Rattle.mc_limits.specs.Limits.{most_functions, most_workers, usual_fuel};
ghost use Rattle.mc_oblige.specs.Shown.{HasEvent};
ghost use Rattle.station_replies.specs.Phases.{Reaches};
ghost use Rattle.mc_station.specs.Replied.{seen_reply};
ghost use Rattle.mc_tests.specs.Seen.{seen_plans};
ghost use Rattle.mc_station.specs.Ran.{AreTold, seen_ran};
ghost use Rattle.mc_station.specs.Seen.{ArePlanned, HasItsTree, IsOpened, seen_accepted};
ghost use Rattle.mc_station.specs.Tests.{MatrixFits, JudgesTests};
ghost use Rattle.mc_station.specs.commands.Selfload.{LoadsItself, Sums, SumsOn};

use crate::accepted::Accepted;
use crate::commands::report::report_on;
use crate::judge::{judge_tests, open_for};
use crate::means::Means;
use crate::opened::Opened;
use crate::ran::{Ran, run_all};
use crate::reply::Reply;
use crate::source::judge_source;
use mc_cover::Closer;
use mc_gen::generate;
use mc_limits::USUAL_FUEL;
use mc_oblige::Mode;
use mc_port::Gate;
use mc_report::summary_lines;
use mc_typed::TestPlan;
use std::alloc::{AllocError, Global};
use std::thread::Threads;

/// How much is run: the functions of the source, and the workers that share its tests.
#[derive(Clone, Copy)]
pub struct Load {
    pub count: u32,
    pub workers: u32,
}

// The summary of a run of the tests.
fn summary<'a>(
    alloc: Global,
    count: u32,
    accepted: Accepted<'_>,
    ran: Ran,
) -> Result<Reply<'a>, AllocError>
    requires instrumented { HasItsTree accepted }
    requires told { AreTold (seen_accepted accepted) ran.matrix (seen_ran ran) }
    ensures { IfOk result (λ reply. let a = seen_accepted accepted.entry in
        SumsOn (HasEvent a.map ran.matrix) count a (seen_ran ran)
        (seen_reply reply)) }
{
    let (matrix, tests) = ran.into_parts();
    let report = report_on(alloc, Mode::Masking, accepted, &matrix, tests, &[])?;
    let lines = summary_lines(alloc, count, &report);
    drop(report);
    Ok(Reply::of_lines(alloc, 0, lines?))
}

// Runs the tests, for which there are shared words, and sums up.
fn opened<'a, R: Threads + Sync, G: Gate, C: Closer>(
    alloc: Global,
    means: Means<'_, R, G, C>,
    load: Load,
    accepted: Accepted<'_>,
    plans: &[TestPlan],
    opened: Opened,
) -> Result<Reply<'a>, AllocError>
    requires workers { IsWithin 1 most_workers load.workers }
    requires instrumented { HasItsTree accepted }
    requires planned { ArePlanned accepted plans.now }
    requires opened { IsOpened accepted plans.now opened }
    ensures { IfOk result (λ reply. Sums (C.skipped means.entry.closer.now) load.count
        (seen_accepted accepted.entry) (seen_plans plans.now) (seen_reply reply)) }
{
    match run_all(alloc, means, load.workers, &accepted, plans, opened) {
        Ok(ran) => summary(alloc, load.count, accepted, ran),
        Err(error) => {
            drop(accepted);
            Err(error)
        }
    }
}

// What the tests lead to.
fn planned<'a, R: Threads + Sync, G: Gate, C: Closer>(
    alloc: Global,
    means: Means<'_, R, G, C>,
    load: Load,
    accepted: Accepted<'_>,
    plans: &[TestPlan],
) -> Result<Reply<'a>, AllocError>
    requires workers { IsWithin 1 most_workers load.workers }
    requires instrumented { HasItsTree accepted }
    requires planned { ArePlanned accepted plans.now }
    ensures { IfOk result (λ reply. let a = seen_accepted accepted.entry in
        Reaches (MatrixFits a (seen_plans plans.now))
        (λ _. Sums (C.skipped means.entry.closer.now) load.count a (seen_plans plans.now))
        (seen_reply reply)) }
{
    match open_for(alloc, &accepted, plans) {
        Ok(words) => opened(alloc, means, load, accepted, plans, words),
        Err(stop) => {
            drop(accepted);
            Reply::of_stop(alloc, &stop)
        }
    }
}

// What the source and its tests lead to.
fn loaded<'a, R: Threads + Sync, G: Gate, C: Closer>(
    alloc: Global,
    means: Means<'_, R, G, C>,
    load: Load,
    accepted: Accepted<'_>,
    tests: &[u8],
) -> Result<Reply<'a>, AllocError>
    requires workers { IsWithin 1 most_workers load.workers }
    requires instrumented { HasItsTree accepted }
    ensures { IfOk result (λ reply. let a = seen_accepted accepted.entry in
        Reaches (JudgesTests a.program usual_fuel tests.now)
        (λ plans. Reaches (MatrixFits a plans)
        (λ _. Sums (C.skipped means.entry.closer.now) load.count a plans))
        (seen_reply reply)) }
{
    match judge_tests(alloc, &accepted, USUAL_FUEL, tests) {
        Ok(plans) => planned(alloc, means, load, accepted, &plans),
        Err(stop) => {
            drop(accepted);
            Reply::of_stop(alloc, &stop)
        }
    }
}

/// The reply of `selfload`: a source and its tests are made, and what comes of them is summed up.
pub fn selfload<'a, R: Threads + Sync, G: Gate, C: Closer>(
    alloc: Global,
    means: Means<'_, R, G, C>,
    load: Load,
) -> Result<Reply<'a>, AllocError>
    requires count { IsWithin 1 most_functions load.count }
    requires workers { IsWithin 1 most_workers load.workers }
    ensures { IfOk result (λ reply. LoadsItself (C.skipped means.entry.closer.now) load.count
        (seen_reply reply)) }
{
    let (source, tests) = generate(alloc, load.count)?;
    match judge_source(alloc, &source) {
        Ok(accepted) => loaded(alloc, means, load, accepted, &tests),
        Err(stop) => Reply::of_stop(alloc, &stop),
    }
}

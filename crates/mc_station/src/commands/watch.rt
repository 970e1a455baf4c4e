//! The command `watch`.
ghost use Rattle.std.specs.Prelude.{◌≡◌, ◌≤◌, ◌<◌, ◌++◌, [], length, IfOk, OnOk};
ghost use Rattle.mc_core.specs.Shape.{word_count};
ghost use Rattle.mc_limits.specs.Limits.{most_words, most_workers};
ghost use Rattle.mc_port.specs.Lines.{bytes_of};
ghost use Rattle.mc_station.specs.Replied.{seen_reply};
ghost use Rattle.mc_tests.specs.Seen.{seen_plans};
ghost use Rattle.mc_limits.specs.Limits.{most_looks};
ghost use Rattle.mc_station.specs.Looked.{IsLooked};
ghost use Rattle.mc_station.specs.Ran.{IsRun};
ghost use Rattle.mc_station.specs.Seen.{ArePlanned, HasItsTree, IsOpened, seen_accepted};
ghost use Rattle.mc_station.specs.commands.Watch.{Watches, end_line, look_line, look_lines, watch_lines};

use crate::accepted::Accepted;
use crate::means::Means;
use crate::opened::Opened;
use crate::ran::{Ran, gathered, number_of};
use crate::reply::Reply;
use mc_cover::{Closer, close};
use mc_port::Gate;
use mc_runner::watch_tests;
use mc_typed::TestPlan;
use mc_watch::pairs;
use std::alloc::{AllocError, Global};
use std::thread::Threads;

// The line of a look, by its number.
fn look_line(alloc: Global, look: u32, count: u32, all: u32) -> Result<Vec<u8>, AllocError>
    ensures { IfOk result (λ line. line.items ≡ look_line look count all) }
{
    let text = format!(in alloc; "look {look} recorded {count} of {all}\n")?;
    Ok(text.into_bytes())
}

// The line on what is recorded at the end.
fn end_line(alloc: Global, count: u32, all: u32) -> Result<Vec<u8>, AllocError>
    ensures { IfOk result (λ line. line.items ≡ end_line count all) }
{
    let text = format!(in alloc; "end recorded {count} of {all}\n")?;
    Ok(text.into_bytes())
}

// A line for each look.
fn push_looks(
    alloc: Global,
    lines: &mut Vec<Vec<u8>>,
    counts: &[u32],
    all: u32,
) -> Result<(), AllocError>
    requires { length counts.now ≤ most_looks }
    ensures { OnOk result (bytes_of lines.new.items
        ≡ bytes_of lines.old.items ++ look_lines 1 counts.now all) }
{
    let mut left = counts;
    let mut look = 1;
    while let [count, later @ ..] = left {
        let line = look_line(alloc, look, *count, all)?;
        lines.push(line)?;
        look += 1;
        left = later;
    }
    Ok(())
}

fn watch_lines(
    alloc: Global,
    counts: &[u32],
    recorded: u32,
    all: u32,
) -> Result<Vec<Vec<u8>>, AllocError>
    requires { length counts.now ≤ most_looks }
    ensures { IfOk result (λ lines. bytes_of lines.items ≡ watch_lines counts.now recorded all) }
{
    let mut lines = Vec::new(alloc);
    push_looks(alloc, &mut lines, counts, all)?;
    let line = end_line(alloc, recorded, all)?;
    lines.push(line)?;
    Ok(lines)
}

// As many workers as are asked for, but no more than there are tests, and at least one.
fn needed(workers: u32, tests: usize) -> u32
    requires { (1 ≤ workers) × (workers < most_workers) }
    ensures { (1 ≤ result) × (result ≤ workers) }
{
    if tests >= workers as usize {
        workers
    } else if tests == 0 {
        1
    } else {
        tests as u32
    }
}

// Runs the tests while a watcher looks: what they gave, and what its looks counted. The matrix is
// that of all tests, whatever a closer would skip.
fn run_watched<R: Threads + Sync, G: Gate, C: Closer>(
    alloc: Global,
    means: Means<'_, R, G, C>,
    workers: u32,
    looks: u32,
    accepted: &Accepted<'_>,
    plans: &[TestPlan],
    opened: Opened,
) -> Result<(Ran, Vec<u32>), AllocError>
    requires workers { (1 ≤ workers) × (workers < most_workers) }
    requires looks { (1 ≤ looks) × (looks ≤ most_looks) }
    requires instrumented { HasItsTree accepted.now }
    requires planned { ArePlanned accepted.now plans.now }
    requires opened { IsOpened accepted.now plans.now opened }
    ensures run { IfOk result (λ r.
        IsRun [] (seen_accepted accepted.now) (seen_plans plans.now) r.0) }
    ensures looked { IfOk result (λ r. IsLooked looks r.0.matrix r.1.items) }
    ensures small { IfOk result (λ r. word_count r.0.matrix.shape ≤ most_words) }
{
    let Opened { cover, pass } = opened;
    let tree = &accepted.tree;
    let hired = needed(workers, plans.len());
    match watch_tests(
        means.rt, alloc, &cover, pass, tree, plans, hired, looks, means.gate,
    ) {
        Ok((pass, results, counts)) => {
            let matrix = close(cover, pass);
            let ran = gathered(alloc, matrix, plans, results)?;
            Ok((ran, counts))
        }
        Err(error) => {
            drop(cover);
            Err(error)
        }
    }
}

// The reply on what the looks counted.
#[tactic(auto, using(crate::proofs::Watching::few_pairs))]
fn watched<'a>(
    alloc: Global,
    accepted: &Accepted<'_>,
    plans: &[TestPlan],
    looks: u32,
    ran: &Ran,
    counts: &[u32],
) -> Result<Reply<'a>, AllocError>
    requires few { looks ≤ most_looks }
    requires planned { ArePlanned accepted.now plans.now }
    requires run { IsRun [] (seen_accepted accepted.now) (seen_plans plans.now) ran.now }
    requires looked { IsLooked looks ran.now.matrix counts.now }
    requires small { word_count ran.now.matrix.shape ≤ most_words }
    ensures { IfOk result (λ reply. Watches looks (seen_accepted accepted.now)
        (seen_plans plans.now) (seen_reply reply)) }
{
    let recorded = pairs(&ran.matrix);
    let all = accepted.map.bits * plans.len() as u32;
    let lines = watch_lines(alloc, counts, recorded, all)?;
    Ok(Reply::of_lines(alloc, number_of(&ran.states), lines))
}

/// The reply of `watch`: what running workers have recorded at each look, and at the end.
pub fn watch<'a, R: Threads + Sync, G: Gate, C: Closer>(
    alloc: Global,
    means: Means<'_, R, G, C>,
    workers: u32,
    looks: u32,
    accepted: Accepted<'_>,
    plans: &[TestPlan],
    opened: Opened,
) -> Result<Reply<'a>, AllocError>
    requires workers { (1 ≤ workers) × (workers < most_workers) }
    requires looks { (1 ≤ looks) × (looks ≤ most_looks) }
    requires instrumented { HasItsTree accepted }
    requires planned { ArePlanned accepted plans.now }
    requires opened { IsOpened accepted plans.now opened }
    ensures { IfOk result (λ reply. Watches looks (seen_accepted accepted.entry)
        (seen_plans plans.now) (seen_reply reply)) }
{
    match run_watched(alloc, means, workers, looks, &accepted, plans, opened) {
        Ok((ran, counts)) => {
            let reply = watched(alloc, &accepted, plans, looks, &ran, &counts);
            accepted.leak();
            reply
        }
        Err(error) => {
            drop(accepted);
            Err(error)
        }
    }
}

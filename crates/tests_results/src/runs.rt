//! The tests of a program, run by workers, as the lines that tell of them.
ghost use Rattle.std.specs.Prelude.{◌≤◌, ◌<◌, ◌^◌, length, All};
ghost use Rattle.mc_limits.specs.Limits.{most_workers};
ghost use Rattle.mc_probe.specs.Erase.{erase};
ghost use Rattle.mc_probe.specs.Trees.{tree_of};
ghost use Rattle.mc_typed.specs.Plans.{Fits, plan_of};
ghost use Rattle.mc_typed.specs.Views.{program_of};

use crate::fail::Fail;
use crate::reading::Runs;
use mc_decide::decisions;
use mc_instrument::instrument;
use mc_port::OpenGate;
use mc_probe::{BitMap, Instrumented};
use mc_results::trace_tests;
use mc_typed::{Program, TestPlan};
use results_lines::results_lines;
use std::alloc::Global;
use std::thread::Threads;

/// Runs the tests, and adds the lines that tell of them.
fn tell_tree<R: Threads + Sync>(
    rt: &R,
    alloc: Global,
    text: &mut Vec<u8>,
    tree: &Instrumented<'_>,
    map: &BitMap,
    plans: &[TestPlan],
    runs: Runs<'_>,
) -> Result<(), Fail>
    requires fit { All (λ plan. Fits (plan_of plan) (erase (tree_of tree.now).program)) plans.now }
    requires workers { (1 ≤ runs.workers) × (runs.workers ≤ most_workers) }
    requires short { length runs.source.now < 2 ^ 31 }
{
    if tree.bits() > 65536 {
        return Err(Fail);
    }
    let gate = OpenGate::new();
    let traces = trace_tests(rt, alloc, tree, map, plans, runs.workers, &gate)?;
    let lines = results_lines(alloc, runs.source, map, plans, &traces)?;
    for line in &lines {
        text.extend_from_slice(line)?;
    }
    Ok(())
}

/// The same of the program that gets its probes.
#[tactic(auto, using(crate::proofs::Fitting::probed_fit))]
pub(crate) fn tell_runs<R: Threads + Sync>(
    rt: &R,
    alloc: Global,
    text: &mut Vec<u8>,
    program: &Program<'_>,
    plans: &[TestPlan],
    runs: Runs<'_>,
) -> Result<(), Fail>
    requires fit { All (λ plan. Fits (plan_of plan) (program_of program.now)) plans.now }
    requires workers { (1 ≤ runs.workers) × (runs.workers ≤ most_workers) }
    requires short { length runs.source.now < 2 ^ 31 }
{
    let found = match decisions(alloc, program) {
        Ok(found) => found,
        Err(_) => return Err(Fail),
    };
    match instrument(alloc, program, found) {
        Ok((tree, map)) => {
            let told = tell_tree(rt, alloc, text, &tree, &map, plans, runs);
            drop(map);
            drop(tree);
            told
        }
        Err(_) => Err(Fail),
    }
}

//! The command `mutate`.
ghost use Rattle.std.specs.Prelude.{◌≡◌, ◌<◌, ◌≤◌, ◌+◌, ◌*◌, ◌^◌, ◌↔◌, ℕ, IfOk, length, map};
ghost use Rattle.mc_core.specs.Matrix.{Holds};
ghost use Rattle.mc_limits.specs.Limits.{most_source_bytes, most_workers};
ghost use Rattle.mutate_lines.specs.Seen.{told_of};
ghost use Rattle.mc_mutate.specs.Kills as items;
ghost use Rattle.mc_mutate.specs.Mutants.{count, mutants as mutants_of};
ghost use Rattle.mc_station.specs.Replied.{seen_reply};
ghost use Rattle.mc_tests.specs.Seen.{seen_plans};
ghost use Rattle.mc_typed.specs.Views.{program_of};
ghost use Rattle.mc_station.specs.Seen.{AreMutable, ArePlanned, HasItsTree, seen_accepted};
ghost use Rattle.mc_station.specs.Tests.{states as states_of};
ghost use Rattle.mc_station.specs.commands.Mutate.{AreKilled, Mutates, change_told, changes_told, kind_word, status_after};

use crate::accepted::Accepted;
use crate::means::Means;
use crate::ran::{names, number_of};
use crate::reply::Reply;
use crate::source::place_within;
use decide_rules::Decision;
use mc_core::{Matrix, Shape};
use mc_cover::{Closer, OpenFault, close, open};
use mc_mutate::{Change, MutantKind, change, count_mutants, run_mutants};
use mc_port::Gate;
use mc_runner::test_states;
use mc_typed::{Program, TestPlan, TestState};
use mutate_lines::{ChangeLine, killers, mutant_lines, survived};
use std::alloc::{AllocError, Global};
use std::thread::Threads;

// ---- the text

// The word for a kind of change.
fn kind_word(kind: MutantKind) -> &'static str
    ensures { result.now ≡ kind_word kind }
{
    match kind {
        MutantKind::Exchanged => "exchanged",
        MutantKind::Negated => "negated",
        MutantKind::FixedTrue => "true",
        MutantKind::FixedFalse => "false",
        MutantKind::Shifted => "shifted",
    }
}

// What is told of a change.
fn change_line(source: &[u8], change: Change) -> ChangeLine
    requires { length source.now < 2 ^ 31 }
    ensures { told_of result ≡ change_told source.now change }
{
    ChangeLine {
        place: place_within(source, change.at),
        kind: kind_word(change.kind),
    }
}

// What is told of the change in each of this number of mutants.
fn change_lines(
    alloc: Global,
    source: &[u8],
    program: &Program<'_>,
    decisions: &[Decision],
    mutants: u32,
) -> Result<Vec<ChangeLine>, AllocError>
    requires short { length source.now < 2 ^ 31 }
    requires all { mutants ≡ count (program_of program.now) }
    ensures { IfOk result (λ lines. map told_of lines.items
        ≡ map (λ m. change_told source.now m.change) (mutants_of (program_of program.now))) }
{
    let mut lines = Vec::new(alloc);
    for before in 0..mutants {
        let change = change(decisions, program, before + 1);
        lines.push(change_line(source, change))?;
    }
    Ok(lines)
}

// ---- the runs

// The matrix of one bit, which is recorded under each item whose test kills its mutant.
fn kills<R: Threads + Sync, G: Gate, C: Closer>(
    alloc: Global,
    means: Means<'_, R, G, C>,
    workers: u32,
    accepted: &Accepted<'_>,
    plans: &[TestPlan],
    decisions: &[Decision],
    mutants: u32,
) -> Result<Matrix, AllocError>
    requires workers { (1 ≤ workers) × (workers ≤ most_workers) }
    requires instrumented { HasItsTree accepted.now }
    requires planned { ArePlanned accepted.now plans.now }
    requires mutable { AreMutable accepted.now decisions.now }
    requires all { mutants ≡ count (seen_accepted accepted.now).program }
    ensures { IfOk result (λ m. (item : ℕ) → Holds m 0 item
        ↔ ((item < mutants * length plans.now)
        × items.KillsAtItem (seen_accepted accepted.now).program (seen_plans plans.now) item)) }
{
    let program = accepted.tree.program();
    let shape = Shape {
        bits: 1,
        tests: mutants * plans.len() as u32,
    };
    let (cover, pass) = match open(alloc, shape) {
        Ok(opened) => opened,
        Err(OpenFault::OutOfMemory) => return Err(AllocError),
        Err(OpenFault::TooLarge { .. }) => unreachable!(),
    };
    match run_mutants(
        means.rt, alloc, &cover, pass, program, decisions, plans, workers, means.gate,
    ) {
        Ok(pass) => Ok(close(cover, pass)),
        Err(error) => {
            drop(cover);
            Err(error)
        }
    }
}

// The least test that kills each mutant.
fn killed_by<R: Threads + Sync, G: Gate, C: Closer>(
    alloc: Global,
    means: Means<'_, R, G, C>,
    workers: u32,
    accepted: &Accepted<'_>,
    plans: &[TestPlan],
    decisions: &[Decision],
    mutants: u32,
) -> Result<Vec<Option<u32>>, AllocError>
    requires workers { (1 ≤ workers) × (workers ≤ most_workers) }
    requires instrumented { HasItsTree accepted.now }
    requires planned { ArePlanned accepted.now plans.now }
    requires mutable { AreMutable accepted.now decisions.now }
    requires all { mutants ≡ count (seen_accepted accepted.now).program }
    ensures { IfOk result (λ all.
        AreKilled (seen_accepted accepted.now).program (seen_plans plans.now) all.items) }
{
    let matrix = kills(alloc, means, workers, accepted, plans, decisions, mutants)?;
    killers(alloc, &matrix, mutants, plans.len() as u32)
}

// ---- the reply

// 0 where no mutant survives and all tests passed, else 1.
fn number_after(killers: &[Option<u32>], states: &[TestState]) -> u8
    ensures { result ≡ status_after killers.now states.now }
{
    if survived(killers) == 0 {
        number_of(states)
    } else {
        1
    }
}

// The reply on what the tests came to.
fn told<'a>(
    alloc: Global,
    accepted: &Accepted<'_>,
    plans: &[TestPlan],
    decisions: &[Decision],
    killers: &[Option<u32>],
    states: &[TestState],
) -> Result<Reply<'a>, AllocError>
    requires instrumented { HasItsTree accepted.now }
    requires mutable { AreMutable accepted.now decisions.now }
    requires killed { AreKilled (seen_accepted accepted.now).program (seen_plans plans.now)
        killers.now }
    requires states { states.now ≡ states_of (seen_accepted accepted.now).program
        (seen_plans plans.now) }
    ensures { IfOk result (λ reply. Mutates (seen_accepted accepted.now) (seen_plans plans.now)
        (seen_reply reply)) }
{
    let program = accepted.tree.program();
    let mutants = count_mutants(decisions, program);
    let names = names(alloc, plans)?;
    let changes = change_lines(alloc, accepted.source, program, decisions, mutants)?;
    let lines = mutant_lines(alloc, &names, &changes, killers)?;
    Ok(Reply::of_lines(alloc, number_after(killers, states), lines))
}

// The reply of `mutate`, from a source that is lent.
fn mutated<'a, R: Threads + Sync, G: Gate, C: Closer>(
    alloc: Global,
    means: Means<'_, R, G, C>,
    workers: u32,
    accepted: &Accepted<'_>,
    plans: &[TestPlan],
    decisions: &[Decision],
) -> Result<Reply<'a>, AllocError>
    requires workers { (1 ≤ workers) × (workers ≤ most_workers) }
    requires instrumented { HasItsTree accepted.now }
    requires planned { ArePlanned accepted.now plans.now }
    requires mutable { AreMutable accepted.now decisions.now }
    ensures { IfOk result (λ reply. Mutates (seen_accepted accepted.now) (seen_plans plans.now)
        (seen_reply reply)) }
{
    let mutants = count_mutants(decisions, accepted.tree.program());
    let states = test_states(alloc, &accepted.tree, plans)?;
    let killers = killed_by(alloc, means, workers, accepted, plans, decisions, mutants)?;
    told(alloc, accepted, plans, decisions, &killers, &states)
}

/// The reply of `mutate`: which mutants of the decisions the tests kill, and which survive.
pub fn mutate<'a, R: Threads + Sync, G: Gate, C: Closer>(
    alloc: Global,
    means: Means<'_, R, G, C>,
    workers: u32,
    accepted: Accepted<'_>,
    plans: &[TestPlan],
    decisions: &[Decision],
) -> Result<Reply<'a>, AllocError>
    requires workers { (1 ≤ workers) × (workers ≤ most_workers) }
    requires instrumented { HasItsTree accepted }
    requires planned { ArePlanned accepted plans.now }
    requires mutable { AreMutable accepted decisions.now }
    ensures { IfOk result (λ reply. Mutates (seen_accepted accepted.entry) (seen_plans plans.now)
        (seen_reply reply)) }
{
    let reply = mutated(alloc, means, workers, &accepted, plans, decisions);
    accepted.leak();
    reply
}

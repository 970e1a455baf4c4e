//! Runs of tests on one machine.
ghost use Rattle.std.specs.Prelude.{◌≡◌, ◌≤◌};
ghost use Rattle.mc_typed.specs.Plans.{Fits, plan_of};
ghost use Rattle.mc_typed.specs.Views.{program_of};
ghost use Rattle.mc_probe.specs.Erase.{erase};
ghost use Rattle.mc_probe.specs.Trees.{tree_of};
ghost use Rattle.mc_tests.specs.File.{AllFit};
ghost use Rattle.mc_tests.specs.Seen.{seen_plans};

use crate::fail::Fail;
use crate::row::Row;
use instrument_copies::bare;
use mc_decide::decisions;
use mc_instrument::instrument;
use mc_interp::{CallDone, ListProbe, Machine};
use mc_probe::{Instrumented, bare_trees_are_programs};
use mc_typed::{Call, Ending, Program, TestPlan};
use mc_value::Trap;
use std::alloc::Global;

fn words_of_trap(trap: Trap) -> &'static str {
    match trap {
        Trap::Overflow => "trap-overflow",
        Trap::Division => "trap-division",
        Trap::Shift => "trap-shift",
        Trap::Index => "trap-index",
        Trap::Unset => "trap-unset",
        Trap::NoReturn => "trap-no-return",
        Trap::InputEnd => "trap-input-end",
    }
}

fn words_of(ending: Ending) -> &'static str {
    match ending {
        Ending::Returned => "returned",
        Ending::Trap(trap) => words_of_trap(trap),
        Ending::Fuel => "fuel",
        Ending::Levels => "levels",
        Ending::Cells => "cells",
        Ending::OutputFull => "output-full",
    }
}

/// Whether the numbers from `start` to `end` are those that are expected, if any are.
fn is_output(all: &[i32], start: usize, end: usize, want: &Option<Vec<i32>>) -> bool {
    match want {
        Some(want) => start <= end && end <= all.len() && all[start..end] == want[..],
        None => true,
    }
}

/// Whether the calls that returned gave and put out what is expected of them.
fn are_met(done: &[CallDone], all: &[i32], calls: &[Call]) -> bool {
    let mut start = 0;
    for (call, done) in calls.iter().zip(done.iter()) {
        let end = done.output_end as usize;
        if call.expect.is_some() && done.value != call.expect {
            return false;
        }
        if !is_output(all, start, end, &call.output) {
            return false;
        }
        start = end;
    }
    true
}

/// Whether these are the hits that are told, with a space between each two.
fn are_hits(alloc: Global, hits: &[u32], told: &str) -> Result<bool, Fail> {
    let mut words = String::new(alloc);
    for hit in hits {
        let word = format!(in alloc; " {hit}")?;
        words.push_str(word.as_str())?;
    }
    Ok(words.as_str().strip_prefix(' ').unwrap_or("") == told)
}

/// Whether a machine that ran a test once comes to what the row says when it runs it again.
fn comes_again(
    alloc: Global,
    machine: &mut Machine<'_, '_>,
    plan: &TestPlan,
    row: &Row<'_>,
) -> Result<bool, Fail>
    requires fits { Fits (plan_of plan.now) (erase (tree_of machine.old.program).program) }
    requires bits { machine.old.program.bits ≤ 65536 }
    ensures { machine.new.program ≡ machine.old.program }
{
    let mut none = ListProbe::new(alloc, 0)?;
    let mut probe = ListProbe::new(alloc, 64)?;
    machine.run(plan, &mut none);
    let ending = machine.run(plan, &mut probe);
    let left = machine.fuel_left();
    let returned = ending == Ending::Returned;
    Ok(
        words_of(ending) == row.endings
            && row.left.unwrap_or(left) == left
            && returned == (machine.done().len() == plan.calls.len())
            && are_met(machine.done(), machine.output(), &plan.calls)
            && are_hits(alloc, probe.hits(), row.hits.unwrap_or(""))?,
    )
}

/// Whether a machine comes, test by test, to what the row says.
#[tactic(auto, using(crate::proofs::Fitting::head_fits, crate::proofs::Fitting::later_fit, crate::proofs::Fitting::bits_stay))]
fn all_come_again(
    alloc: Global,
    machine: &mut Machine<'_, '_>,
    plans: &[TestPlan],
    row: &Row<'_>,
) -> Result<bool, Fail>
    requires fit { AllFit (erase (tree_of machine.old.program).program) (seen_plans plans.now) }
    requires bits { machine.old.program.bits ≤ 65536 }
{
    let mut left = row.endings;
    for plan in plans {
        let (ending, later) = left.split_once(',').unwrap_or((left, ""));
        let one = Row {
            endings: ending,
            ..*row
        };
        if !comes_again(alloc, machine, plan, &one)? {
            return Ok(false);
        }
        left = later;
    }
    Ok(left.is_empty())
}

/// Whether one machine comes to what the row says.
fn is_run(
    alloc: Global,
    program: &Instrumented<'_>,
    plans: &[TestPlan],
    row: &Row<'_>,
) -> Result<bool, Fail>
    requires { AllFit (erase (tree_of program.now).program) (seen_plans plans.now) }
{
    if program.bits() > 65536 {
        return Err(Fail);
    }
    let mut machine = Machine::new(alloc, program)?;
    let right = all_come_again(alloc, &mut machine, plans, row);
    drop(machine);
    right
}

/// Whether the tests of the program without probes come to what the row says.
fn are_plain_right(
    alloc: Global,
    program: &Program<'_>,
    plans: &[TestPlan],
    row: &Row<'_>,
) -> Result<bool, Fail>
    requires { AllFit (program_of program.now) (seen_plans plans.now) }
{
    bare_trees_are_programs();
    let copy = bare(alloc, program)?;
    let plain = Row { hits: None, ..*row };
    let right = is_run(alloc, &copy, plans, &plain);
    drop(copy);
    right
}

/// Whether the tests of the program with its probes come to what the row says.
#[tactic(auto, using(crate::proofs::Fitting::probed_fit))]
fn are_probed_right(
    alloc: Global,
    program: &Program<'_>,
    plans: &[TestPlan],
    row: &Row<'_>,
) -> Result<bool, Fail>
    requires { AllFit (program_of program.now) (seen_plans plans.now) }
{
    let found = match decisions(alloc, program) {
        Ok(found) => found,
        Err(_) => return Err(Fail),
    };
    match instrument(alloc, program, found) {
        Ok((tree, map)) => {
            drop(map);
            let right = is_run(alloc, &tree, plans, row);
            drop(tree);
            right
        }
        Err(_) => Err(Fail),
    }
}

/// Whether the tests come to what the row says.
pub(crate) fn are_right(
    alloc: Global,
    program: &Program<'_>,
    plans: &[TestPlan],
    row: &Row<'_>,
) -> Result<bool, Fail>
    requires { AllFit (program_of program.now) (seen_plans plans.now) }
{
    let right = are_plain_right(alloc, program, plans, row)?;
    match row.hits {
        Some(_) => Ok(right && are_probed_right(alloc, program, plans, row)?),
        None => Ok(right),
    }
}

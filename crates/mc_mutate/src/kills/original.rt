//! What the runs of the program show, kept to compare those of its mutants with.
ghost use Rattle.std.specs.Prelude.{◌≡◌, ◌↔◌, All, IsTrue, IfOk, map};
ghost use Rattle.mc_typed.specs.Plans.{Fits, plan_of};
ghost use Rattle.mc_typed.specs.Sound.{IsSound};
ghost use Rattle.mc_typed.specs.Views.{program_of};
ghost use Rattle.mc_probe.specs.Bare.{bare_tree};
ghost use Rattle.mc_probe.specs.Trees.{tree_of};
ghost use Rattle.mc_interp.specs.Machines.{done_of};
ghost use Rattle.mc_mutate.specs.Kills.{shown, shown_from};
ghost use Rattle.mc_mutate.specs.Runs.{AreKept, kept_of};

use crate::kills::silent::Silent;
use instrument_copies::bare;
use mc_interp::{CallDone, Machine};
use mc_typed::{Ending, Program, TestPlan};
use std::alloc::{AllocError, Global};

/// What the run of a test on the program shows: how it ended, the value of each call that returned,
/// and the output.
#[derive(Drop)]
pub(crate) struct Original {
    ending: Ending,
    values: Vec<Option<i128>>,
    output: Vec<i32>,
}

impl Original {
    /// Keeps what the last run of the machine shows, which ended so.
    fn keep(
        alloc: Global,
        machine: &Machine<'_, '_>,
        ending: Ending,
    ) -> Result<Original, AllocError>
        ensures { IfOk result (λ o.
            kept_of o ≡ shown_from ending machine.now.done machine.now.output) }
    {
        let values = values_of(alloc, machine.done())?;
        Ok(Original {
            ending,
            values,
            output: machine.output().to_vec(alloc)?,
        })
    }

    /// Whether the last run of the machine, which ended so, shows the same. Takes no memory.
    pub(crate) fn is_shown(&self, machine: &Machine<'_, '_>, ending: Ending) -> bool
        ensures { IsTrue result
            ↔ (shown_from ending machine.now.done machine.now.output ≡ kept_of self.now) }
    {
        if !is_ending(ending, self.ending) {
            return false;
        }
        if !are_values(&self.values, machine.done()) {
            return false;
        }
        are_numbers(machine.output(), &self.output)
    }
}

fn is_ending(one: Ending, other: Ending) -> bool
    ensures { IsTrue result ↔ (one ≡ other) }
{
    one == other
}

fn are_numbers(one: &[i32], other: &[i32]) -> bool
    ensures { IsTrue result ↔ (one.now ≡ other.now) }
{
    let mut left = one;
    let mut right = other;
    while let [number, later @ ..] = left {
        let [same, rest @ ..] = right else {
            return false;
        };
        if *number != *same {
            return false;
        }
        left = later;
        right = rest;
    }
    right.is_empty()
}

/// The value of each call.
fn values_of(alloc: Global, done: &[CallDone]) -> Result<Vec<Option<i128>>, AllocError>
    ensures { IfOk result (λ v. v.items ≡ map (λ d. d.value) (map done_of done.now)) }
{
    let mut values = Vec::new(alloc);
    for call in done {
        values.push(call.value)?;
    }
    Ok(values)
}

/// Whether these are the values of the calls.
fn are_values(values: &[Option<i128>], done: &[CallDone]) -> bool
    ensures { IsTrue result ↔ (map (λ d. d.value) (map done_of done.now) ≡ values.now) }
{
    let mut values_left = values;
    let mut done_left = done;
    while let [value, later_values @ ..] = values_left {
        let [call, later_done @ ..] = done_left else {
            return false;
        };
        if *value != call.value {
            return false;
        }
        values_left = later_values;
        done_left = later_done;
    }
    done_left.is_empty()
}

/// What each test shows on the program. Takes all memory that is needed to keep it.
pub(crate) fn originals(
    alloc: Global,
    program: &Program<'_>,
    plans: &[TestPlan],
) -> Result<Vec<Original>, AllocError>
    requires sound { IsSound (program_of program.now) }
    requires fit { All (λ plan. Fits (plan_of plan) (program_of program.now)) plans.now }
    ensures { IfOk result (λ v. AreKept (program_of program.now) (map plan_of plans.now) v.items) }
{
    let copy = bare(alloc, program)?;
    let mut machine = Machine::new(alloc, &copy)?;
    let kept = keep_all(alloc, &mut machine, program, plans);
    drop(machine);
    drop(copy);
    kept
}

/// The same by a machine that has the program without probes.
fn keep_all(
    alloc: Global,
    machine: &mut Machine<'_, '_>,
    program: &Program<'_>,
    plans: &[TestPlan],
) -> Result<Vec<Original>, AllocError>
    requires copy { tree_of machine.old.program ≡ bare_tree (program_of program.now) }
    requires sound { IsSound (program_of program.now) }
    requires fit { All (λ plan. Fits (plan_of plan) (program_of program.now)) plans.now }
    ensures { IfOk result (λ v. AreKept (program_of program.now) (map plan_of plans.now) v.items) }
{
    let mut kept = Vec::new(alloc);
    for plan in plans {
        kept.push(run(alloc, machine, program, plan)?)?;
    }
    Ok(kept)
}

/// Runs a test on the program.
fn run(
    alloc: Global,
    machine: &mut Machine<'_, '_>,
    program: &Program<'_>,
    plan: &TestPlan,
) -> Result<Original, AllocError>
    requires copy { tree_of machine.old.program ≡ bare_tree (program_of program.now) }
    requires sound { IsSound (program_of program.now) }
    requires fits { Fits (plan_of plan.now) (program_of program.now) }
    ensures program { machine.new.program ≡ machine.old.program }
    ensures kept { IfOk result (λ o.
        kept_of o ≡ shown (program_of program.now) (plan_of plan.now)) }
{
    let ending = machine.run(plan, &mut Silent {});
    Original::keep(alloc, machine, ending)
}

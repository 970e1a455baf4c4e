//! The work of one worker.
ghost use Rattle.std.specs.Prelude.{◌≡◌, ◌<◌, ◌≤◌, All, length, map, IfOk};
ghost use Rattle.mc_limits.specs.Limits.{most_workers};
ghost use Rattle.mc_cover.specs.Model.{IsOf};
ghost use Rattle.mc_cover.specs.Views.{after_fork};
ghost use Rattle.cover_recorder.specs.Recorder.{Leads, bits_of, pass_of};
ghost use Rattle.cover_recorder.specs.Crew.{HasWorked};
ghost use Rattle.mc_meaning.specs.Seen.{told_of};
ghost use Rattle.mc_probe.specs.Erase.{erase};
ghost use Rattle.mc_probe.specs.Tests.{run_of};
ghost use Rattle.mc_probe.specs.Trees.{tree_of};
ghost use Rattle.mc_typed.specs.Plans.{Fits, plan_of};
ghost use Rattle.mc_runner.specs.Jobs.{IsHired, CanWork, IsFresh, IsDone, AreTold, does_of, told_all};
ghost use Rattle.mc_runner.specs.Recorded.{told_by};

use crate::done::Done;
use crate::results::told;
use cover_recorder::Recorder;
use mc_core::Shape;
use mc_cover::{Cover, Pass, Role};
use mc_interp::Machine;
use mc_meaning::TestResult;
use mc_port::Gate;
use mc_probe::Instrumented;
use mc_typed::TestPlan;
use std::alloc::{AllocError, Global};

/// What a worker takes along: the recorder of its hits, and a machine of its own.
#[derive(Drop)]
pub(crate) struct Job<'c, 'p, 'a> {
    pub(crate) recorder: Recorder<'c>,
    pub(crate) machine: Machine<'p, 'a>,
}

impl<'c, 'p, 'a> Job<'c, 'p, 'a> {
    /// The job of one more worker. The cover has this shape. Takes all memory that its runs use.
    pub(crate) fn new(
        alloc: Global,
        cover: &'c Cover,
        pass: &mut Pass,
        program: &'p Instrumented<'a>,
        shape: Shape,
    ) -> Result<Job<'c, 'p, 'a>, AllocError>
        requires own { IsOf cover.now pass.old }
        requires opener { pass.old.view.role ≡ Role.Opener }
        requires forks { pass.old.view.forks < most_workers }
        requires shape { shape ≡ cover.now.shape }
        ensures own { pass.new.cover ≡ pass.old.cover }
        ensures opener { IfOk result (λ _. pass.new.view ≡ after_fork pass.old.view) }
        ensures hired { IfOk result (λ j. IsHired cover.now program.now pass.old.view j) }
    {
        // The recorder's stamps are in use at each hit, and the end of a machine's room seldom is:
        // in this order no two workers write to one line of the cache.
        let recorder = Recorder::fork(alloc, cover, pass, shape)?;
        let machine = Machine::new(alloc, program)?;
        Ok(Job { recorder, machine })
    }

    /// Claims tests and runs them until none is left. Takes memory for the results.
    pub(crate) fn work<G: Gate>(
        self,
        alloc: Global,
        plans: &[TestPlan],
        gate: &G,
    ) -> Result<Done, AllocError>
        requires ready { CanWork plans.now self }
        ensures done { IfOk result (λ d. IsDone plans.now self.entry d) }
    {
        let Job {
            mut recorder,
            mut machine,
        } = self;
        let results = run_claimed(alloc, plans, gate, &mut machine, &mut recorder);
        drop(machine);
        Ok(Done {
            pass: recorder.into_pass(),
            results: results?,
        })
    }
}

/// The results of the tests that the worker claims, each with the number of its test.
fn run_claimed<G: Gate>(
    alloc: Global,
    plans: &[TestPlan],
    gate: &G,
    machine: &mut Machine<'_, '_>,
    recorder: &mut Recorder<'_>,
) -> Result<Vec<(u32, TestResult)>, AllocError>
    requires fresh { IsFresh recorder.old }
    requires shape { recorder.old.cover.shape
        ≡ record { bits = machine.old.program.bits; tests = length plans.now } }
    requires fit { All (λ plan. Fits (plan_of plan) (erase (tree_of machine.old.program).program))
        plans.now }
    ensures cover { recorder.new.cover ≡ recorder.old.cover }
    ensures worked { IfOk result (λ _.
        HasWorked (does_of (tree_of machine.old.program) (map plan_of plans.now))
        recorder.old.cover (pass_of recorder.new)) }
    ensures told { IfOk result (λ v.
        AreTold (told_all (tree_of machine.old.program) (map plan_of plans.now))
        recorder.new.view.claims v.items) }
{
    let mut results = Vec::new(alloc);
    while let Some(test) = recorder.claim() {
        gate.pass(test);
        let result = run_test(alloc, machine, recorder, &plans[test as usize])?;
        results.push((test, result))?;
    }
    Ok(results)
}

/// Runs a test: its hits go to the recorder, and the machine keeps its program.
fn run_test(
    alloc: Global,
    machine: &mut Machine<'_, '_>,
    recorder: &mut Recorder<'_>,
    plan: &TestPlan,
) -> Result<TestResult, AllocError>
    requires fits { Fits (plan_of plan.now) (erase (tree_of machine.old.program).program) }
    requires bits { machine.old.program.bits ≤ bits_of recorder.old }
    ensures program { machine.new.program ≡ machine.old.program }
    ensures led { Leads (run_of (tree_of machine.old.program) (plan_of plan.now)).events
        recorder.old recorder.new }
    ensures told { IfOk result (λ r.
        told_of r ≡ told_by (tree_of machine.old.program) (plan_of plan.now)) }
{
    let ending = machine.run(plan, recorder);
    told(alloc, machine, plan, ending)
}

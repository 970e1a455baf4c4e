//! The runs of one worker.
ghost use Rattle.std.specs.Prelude.{◌≡◌, ◌+◌, ◌≤◌, ◌/◌, length, IfOk, option_to_list};
ghost use Rattle.mc_typed.specs.Views.{program_of};
ghost use Rattle.cover_recorder.specs.Crew.{IsAtWork};
ghost use Rattle.mc_mutate.specs.Runs.{CanWork, HasDrawn, HasCome, IsDone, IsReady, worker_does};
ghost use Rattle.mc_mutate.specs.steps.Bared.{HasMutant};

use crate::copies::bare_mutant;
use crate::kills::original::Original;
use crate::kills::silent::Silent;
use cover_recorder::Recorder;
use hit_sink::Probe;
use mc_cover::Pass;
use mc_interp::Machine;
use mc_port::Gate;
use mc_typed::{Program, TestPlan};
use std::alloc::{AllocError, Global};

/// What the workers share: the program, the tests, and what these show on it.
#[derive(Clone, Copy)]
pub(crate) struct Task<'t, 'a> {
    pub(crate) program: &'t Program<'a>,
    pub(crate) plans: &'t [TestPlan],
    pub(crate) originals: &'t [Original],
}

/// What a worker takes along: the recorder of its hits, and what all workers share.
#[derive(Drop)]
pub(crate) struct Job<'c, 'k, 't, 'a> {
    pub(crate) recorder: Recorder<'c>,
    pub(crate) task: &'k Task<'t, 'a>,
}

/// Claims items and runs them until none is left. Takes memory for each mutant that it comes to.
pub(crate) fn work<G: Gate>(
    alloc: Global,
    gate: &G,
    job: Job<'_, '_, '_, '_>,
) -> Result<Pass, AllocError>
    requires ready { IsReady job }
    ensures worked { IfOk result (IsDone job.entry) }
{
    let Job { mut recorder, task } = job;
    let mut drawn = recorder.claim();
    while let Some(item) = drawn {
        drawn = run_mutant(alloc, task, gate, item, &mut recorder)?;
    }
    Ok(recorder.into_pass())
}

/// Makes the mutant of an item, and runs on it this item and those that are claimed after it, up to
/// the first one of another mutant.
fn run_mutant<G: Gate>(
    alloc: Global,
    task: &Task<'_, '_>,
    gate: &G,
    item: u32,
    recorder: &mut Recorder<'_>,
) -> Result<Option<u32>, AllocError>
    requires ready { CanWork task.now recorder.old.cover }
    requires drawn { HasDrawn (worker_does task.now) item recorder.old }
    ensures cover { recorder.new.cover ≡ recorder.old.cover }
    ensures come { IfOk result (λ next. HasCome (worker_does task.now) next recorder.new) }
    ensures more { IfOk result (λ next.
        length recorder.old.view.claims + length (option_to_list next)
        ≤ length recorder.new.view.claims) }
{
    let index = item / task.plans.len() as u32;
    let copy = bare_mutant(alloc, task.program, index)?;
    let mut machine = Machine::new(alloc, &copy)?;
    let next = run_items(task, gate, item, &mut machine, recorder);
    drop(machine);
    drop(copy);
    Ok(next)
}

/// Runs an item, and those that are claimed after it, up to the first one of another mutant than
/// that of the machine. Takes no memory.
fn run_items<G: Gate>(
    task: &Task<'_, '_>,
    gate: &G,
    item: u32,
    machine: &mut Machine<'_, '_>,
    recorder: &mut Recorder<'_>,
) -> Option<u32>
    requires ready { CanWork task.now recorder.old.cover }
    requires drawn { HasDrawn (worker_does task.now) item recorder.old }
    requires mutant { HasMutant (program_of task.now.program.now)
        (item / length task.now.plans.now) machine.old.program }
    ensures cover { recorder.new.cover ≡ recorder.old.cover }
    ensures come { HasCome (worker_does task.now) result recorder.new }
    ensures more { length recorder.old.view.claims + length (option_to_list result)
        ≤ length recorder.new.view.claims }
{
    let tests = task.plans.len() as u32;
    run_item(task, gate, item, machine, recorder);
    while let Some(next) = recorder.claim() {
        if next / tests != item / tests {
            return Some(next);
        }
        run_item(task, gate, next, machine, recorder);
    }
    None
}

/// Runs a test on the mutant of the machine, and hits the bit where it kills the mutant. Takes no
/// memory.
fn run_item<G: Gate>(
    task: &Task<'_, '_>,
    gate: &G,
    item: u32,
    machine: &mut Machine<'_, '_>,
    recorder: &mut Recorder<'_>,
)
    requires ready { CanWork task.now recorder.old.cover }
    requires drawn { HasDrawn (worker_does task.now) item recorder.old }
    requires mutant { HasMutant (program_of task.now.program.now)
        (item / length task.now.plans.now) machine.old.program }
    ensures program { machine.new.program ≡ machine.old.program }
    ensures cover { recorder.new.cover ≡ recorder.old.cover }
    ensures kept { recorder.new.view ≡ record recorder.old.view { hits = recorder.new.view.hits } }
    ensures at_work { IsAtWork (worker_does task.now) recorder.new.view }
{
    gate.pass(item);
    let test = (item % task.plans.len() as u32) as usize;
    let ending = machine.run(&task.plans[test], &mut Silent {});
    if !task.originals[test].is_shown(machine, ending) {
        recorder.hit(0);
    }
}

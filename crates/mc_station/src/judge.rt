//! How a stage judges the bytes of the file that it asked for.
ghost use Rattle.std.specs.Prelude.{◌≡◌, ◌≤◌, List, Result, Err, IfOk, Some, length, option_map};
ghost use Rattle.mc_tests.specs.Seen.{seen_plans};
ghost use Rattle.mc_command.specs.Command.{mutated, on_matrix, traced, watched};
ghost use Rattle.mc_command.specs.Seen.{ActionIsInRange, IsWithin, RunIsInRange, seen_action, seen_matrix_task, seen_run, seen_task};
ghost use Rattle.mc_command.specs.Values.{most_watched_workers};
ghost use Rattle.mc_oblige.specs.declared.justification.Justification.{Justification};
ghost use Rattle.mc_justify.specs.Faults.{Fault};
ghost use Rattle.mc_justify.specs.Returned.{GivesFault};
ghost use Rattle.mc_places.specs.Origins.{is_named};
ghost use Rattle.mc_limits.specs.Limits.{most_fuel, most_looks, most_source_bytes, most_workers};
ghost use Rattle.station_replies.specs.Phases.{Reads};
ghost use Rattle.station_replies.specs.Reply.{refusal};
ghost use Rattle.station_replies.specs.Seen.{Gives};
ghost use Rattle.station_replies.specs.declared.status.Status.TheVariants.{JustificationsRefused};
ghost use Rattle.mc_station.specs.Justified.{reasons_line};
ghost use Rattle.mc_station.specs.Named.{HasFile, JudgesTaken, file_of_action, file_of_task};
ghost use Rattle.mc_station.specs.Seen.{AreMutable, ArePlanned, AreReasons, IsBasis, HasItsTree, IsOpened, IsReady, seen_accepted, seen_basis, seen_stage};
ghost use Rattle.mc_station.specs.Stages.{AfterPlans, AsksUpTo, Judges, JudgesReasons, after_source, justified_by, reasons, source, tests};
ghost use Rattle.mc_station.specs.Taken.{JudgesAt, TakesAt};
ghost use Rattle.mc_station.specs.Tests.{MatrixFits, JudgesTests};
ghost use Rattle.mc_station.specs.commands.Mutate.{FewMutants};

use crate::accepted::Accepted;
use crate::basis::Basis;
use crate::commands::adapt::make_source;
use crate::opened::Opened;
use crate::records::{after_kept, after_left, after_right};
use crate::source::{decisions_again, judge_source};
use crate::stage::{Stage, with_basis};
use decide_rules::Decision;
use mc_command::{Action, MatrixTask, Run, Task};
use mc_core::Shape;
use mc_cover::{OpenFault, open};
use mc_justify::{JustifyFault, read_justifications};
use mc_limits::MOST_MUTANTS;
use mc_mutate::count_mutants;
use mc_oblige::{Justification, obligations};
use mc_places::Places;
use mc_tests::{TestFault, read_tests};
use mc_typed::TestPlan;
use station_replies::{Refusal, Stop};
use std::alloc::{AllocError, Global};

/// The tests of a tests file.
pub fn judge_tests<'a>(
    alloc: Global,
    accepted: &Accepted<'_>,
    fuel: u32,
    bytes: &[u8],
) -> Result<Vec<TestPlan>, Stop<'a>>
    requires some { 1 ≤ fuel }
    requires few { fuel ≤ most_fuel }
    ensures judges { Gives (λ plans. seen_plans plans.items)
        (JudgesTests (seen_accepted accepted.now).program fuel bytes.now) result }
    ensures planned { IfOk result (λ plans. ArePlanned accepted.now plans.items) }
{
    match read_tests(alloc, bytes, accepted.tree.program(), fuel) {
        Ok(plans) => Ok(plans),
        Err(TestFault::OutOfMemory) => Err(Stop::OutOfMemory),
        Err(fault) => Err(Stop::Refused(Refusal::Tests(fault))),
    }
}

// The decisions of an accepted source, whose mutants are few enough.
fn few_mutants<'a>(alloc: Global, accepted: &Accepted<'_>) -> Result<Vec<Decision>, Stop<'a>>
    requires { HasItsTree accepted.now }
    ensures judges { Gives (λ decisions. tt) (FewMutants (seen_accepted accepted.now)) result }
    ensures mutable { IfOk result (λ decisions. AreMutable accepted.now decisions.items) }
{
    let decisions = decisions_again(alloc, accepted)?;
    let count = count_mutants(&decisions, accepted.tree.program());
    if count > MOST_MUTANTS {
        return Err(Stop::Refused(Refusal::TooManyMutants { count }));
    }
    Ok(decisions)
}

/// The shared words of all bits under the tests, where they fit.
pub fn open_for<'a>(
    alloc: Global,
    accepted: &Accepted<'_>,
    plans: &[TestPlan],
) -> Result<Opened, Stop<'a>>
    requires { ArePlanned accepted.now plans.now }
    ensures judges { Gives (λ opened. tt)
        (MatrixFits (seen_accepted accepted.now) (seen_plans plans.now)) result }
    ensures opened { IfOk result (λ opened. IsOpened accepted.now plans.now opened) }
{
    let shape = Shape {
        bits: accepted.map.bits,
        tests: plans.len() as u32,
    };
    match open(alloc, shape) {
        Ok((cover, pass)) => Ok(Opened { cover, pass }),
        Err(OpenFault::TooLarge { words }) => Err(Stop::Refused(Refusal::TooLarge { words })),
        Err(OpenFault::OutOfMemory) => Err(Stop::OutOfMemory),
    }
}

// The stage after a source that is accepted.
fn with_source<'a>(action: Action<'a>, accepted: Accepted<'a>) -> Stage<'a>
    requires range { ActionIsInRange action }
    requires instrumented { HasItsTree accepted }
    ensures stage { seen_stage result
        ≡ after_source (seen_action action.entry) (seen_accepted accepted.entry) }
    ensures ready { IsReady result }
{
    match action {
        Action::Run(run) => Stage::Tests(run, accepted),
        Action::Write(text) => Stage::Writes(text, accepted),
        Action::Merge { left, right } => Stage::Left(left, right, accepted),
        Action::Analyse { kept, judging } => Stage::Kept(kept, judging, accepted),
    }
}

// The file of whose obligations alone something is told, where one is named.
fn file_of_task(task: Task<'_>) -> Option<&str>
    ensures { option_map (λ name. name.now) result ≡ file_of_task (seen_task task.entry) }
{
    match task {
        Task::OnMatrix(MatrixTask::Judge(judging)) => judging.telling.file(),
        _ => None,
    }
}

fn file_of_action(action: Action<'_>) -> Option<&str>
    ensures { option_map (λ name. name.now) result ≡ file_of_action (seen_action action.entry) }
{
    match action {
        Action::Run(run) => file_of_task(run.task),
        Action::Analyse { judging, .. } => judging.telling.file(),
        Action::Write(_) | Action::Merge { .. } => None,
    }
}

// Whether some line marker of an accepted source names the file.
fn is_of_file(alloc: Global, name: &str, accepted: &Accepted<'_>) -> Result<bool, AllocError>
    requires short { length accepted.now.source.now ≤ most_source_bytes }
    ensures { IfOk result (λ named. named ≡ is_named accepted.now.source.now name.now) }
{
    let places = Places::of(alloc, accepted.source)?;
    Ok(places.names(name.as_bytes()))
}

// Whether an accepted source has something of a file, or why it is refused.
fn has_named<'a>(alloc: Global, name: &'a str, accepted: &Accepted<'_>) -> Result<(), Stop<'a>>
    requires short { length accepted.now.source.now ≤ most_source_bytes }
    ensures { Gives (λ u. tt) (HasFile (Some name.now) (seen_accepted accepted.now)) result }
{
    let is_of_file = is_of_file(alloc, name, accepted)?;
    if is_of_file {
        Ok(())
    } else {
        Err(Stop::Refused(Refusal::NothingOf { name }))
    }
}

// Whether an accepted source has something of the file, where one is asked for.
fn has_file<'a>(
    alloc: Global,
    file: Option<&'a str>,
    accepted: &Accepted<'_>,
) -> Result<(), Stop<'a>>
    requires short { length accepted.now.source.now ≤ most_source_bytes }
    ensures { Gives (λ u. tt) (HasFile (option_map (λ name. name.now) file.entry)
        (seen_accepted accepted.now)) result }
{
    match file {
        Some(name) => has_named(alloc, name, accepted),
        None => Ok(()),
    }
}

// What is taken as the source of a command is accepted, or refused.
fn source_of<'a>(
    alloc: Global,
    action: Action<'a>,
    bytes: &'a [u8],
) -> Result<Accepted<'a>, Stop<'a>>
    requires short { length bytes.now ≤ most_source_bytes }
    ensures judges { Gives seen_accepted
        (JudgesTaken (seen_action action.entry) bytes.now) result }
    ensures ready { IfOk result HasItsTree }
{
    let accepted = judge_source(alloc, bytes)?;
    match has_file(alloc, file_of_action(action), &accepted) {
        Ok(()) => Ok(accepted),
        Err(stop) => {
            drop(accepted);
            Err(stop)
        }
    }
}

// The stage after the source of a command.
fn after_source<'a>(
    alloc: Global,
    name: &'a str,
    action: Action<'a>,
    bytes: &'a [u8],
) -> Result<Stage<'a>, Stop<'a>>
    requires range { ActionIsInRange action }
    requires short { length bytes.now ≤ most_source_bytes }
    ensures judges { Gives seen_stage
        (JudgesAt (source name.now (seen_action action.entry)) bytes.now) result }
    ensures ready { IfOk result IsReady }
{
    let accepted = source_of(alloc, action, bytes)?;
    Ok(with_source(action, accepted))
}

// The name of the file of justifications that a task asks for.
fn justified_by(task: MatrixTask<'_>) -> Option<&str>
    ensures { option_map (λ name. name.now) result
        ≡ justified_by (on_matrix (seen_matrix_task task.entry)) }
{
    match task {
        MatrixTask::Judge(judging) => judging.justify,
        MatrixTask::Vectors | MatrixTask::Record | MatrixTask::Reduce { .. } => None,
    }
}

// The stage after tests whose matrix is told of, where it fits.
fn with_matrix<'a>(
    alloc: Global,
    task: MatrixTask<'a>,
    workers: u32,
    accepted: Accepted<'a>,
    plans: Vec<TestPlan>,
) -> Result<Stage<'a>, Stop<'a>>
    requires workers { IsWithin 1 most_workers workers }
    requires instrumented { HasItsTree accepted }
    requires planned { ArePlanned accepted plans.items }
    ensures judges { Gives seen_stage (AfterPlans (on_matrix (seen_matrix_task task.entry))
        (seen_accepted accepted.entry) (seen_plans plans.items)) result }
    ensures ready { IfOk result IsReady }
{
    match open_for(alloc, &accepted, &plans) {
        Ok(opened) => {
            let name = justified_by(task);
            let basis = Basis::Tested(task, workers, plans, opened);
            Ok(with_basis(alloc, name, accepted, basis))
        }
        Err(stop) => {
            drop(accepted);
            Err(stop)
        }
    }
}

// The stage after tests whose matrix is looked at while they run, where it fits.
fn with_looks<'a>(
    alloc: Global,
    looks: u32,
    workers: u32,
    accepted: Accepted<'a>,
    plans: Vec<TestPlan>,
) -> Result<Stage<'a>, Stop<'a>>
    requires looks { IsWithin 1 most_looks looks }
    requires workers { IsWithin 1 most_watched_workers workers }
    requires instrumented { HasItsTree accepted }
    requires planned { ArePlanned accepted plans.items }
    ensures judges { Gives seen_stage (AfterPlans (watched looks)
        (seen_accepted accepted.entry) (seen_plans plans.items)) result }
    ensures ready { IfOk result IsReady }
{
    match open_for(alloc, &accepted, &plans) {
        Ok(opened) => {
            let basis = Basis::Watched(looks, workers, plans, opened);
            Ok(with_basis(alloc, None, accepted, basis))
        }
        Err(stop) => {
            drop(accepted);
            Err(stop)
        }
    }
}

// The stage after tests that are tried on the mutants of the program, where these are few enough.
fn with_mutants<'a>(
    alloc: Global,
    workers: u32,
    accepted: Accepted<'a>,
    plans: Vec<TestPlan>,
) -> Result<Stage<'a>, Stop<'a>>
    requires workers { IsWithin 1 most_workers workers }
    requires instrumented { HasItsTree accepted }
    requires planned { ArePlanned accepted plans.items }
    ensures judges { Gives seen_stage (AfterPlans mutated
        (seen_accepted accepted.entry) (seen_plans plans.items)) result }
    ensures ready { IfOk result IsReady }
{
    match few_mutants(alloc, &accepted) {
        Ok(decisions) => {
            let basis = Basis::Mutated(workers, plans, decisions);
            Ok(with_basis(alloc, None, accepted, basis))
        }
        Err(stop) => {
            drop(accepted);
            Err(stop)
        }
    }
}

// The stage after tests of whose calls it is told what they did, where a matrix has room for them.
fn with_traces<'a>(
    alloc: Global,
    workers: u32,
    accepted: Accepted<'a>,
    plans: Vec<TestPlan>,
) -> Result<Stage<'a>, Stop<'a>>
    requires workers { IsWithin 1 most_workers workers }
    requires instrumented { HasItsTree accepted }
    requires planned { ArePlanned accepted plans.items }
    ensures judges { Gives seen_stage (AfterPlans traced
        (seen_accepted accepted.entry) (seen_plans plans.items)) result }
    ensures ready { IfOk result IsReady }
{
    match open_for(alloc, &accepted, &plans) {
        Ok(opened) => {
            drop(opened);
            let basis = Basis::Traced(workers, plans);
            Ok(with_basis(alloc, None, accepted, basis))
        }
        Err(stop) => {
            drop(accepted);
            Err(stop)
        }
    }
}

// The stage after the tests.
fn with_plans<'a>(
    alloc: Global,
    run: Run<'a>,
    accepted: Accepted<'a>,
    plans: Vec<TestPlan>,
) -> Result<Stage<'a>, Stop<'a>>
    requires range { RunIsInRange run }
    requires instrumented { HasItsTree accepted }
    requires planned { ArePlanned accepted plans.items }
    ensures judges { Gives seen_stage (AfterPlans (seen_run run.entry).task
        (seen_accepted accepted.entry) (seen_plans plans.items)) result }
    ensures ready { IfOk result IsReady }
{
    match run.task {
        Task::OnMatrix(task) => with_matrix(alloc, task, run.workers, accepted, plans),
        Task::Watch { looks } => with_looks(alloc, looks, run.workers, accepted, plans),
        Task::Mutate => with_mutants(alloc, run.workers, accepted, plans),
        Task::Trace => with_traces(alloc, run.workers, accepted, plans),
    }
}

// The stage after the tests file.
fn after_tests<'a>(
    alloc: Global,
    run: Run<'a>,
    accepted: Accepted<'a>,
    bytes: &[u8],
) -> Result<Stage<'a>, Stop<'a>>
    requires range { RunIsInRange run }
    requires instrumented { HasItsTree accepted }
    ensures judges { Gives seen_stage
        (Judges (tests (seen_run run.entry) (seen_accepted accepted.entry)) bytes.now) result }
    ensures ready { IfOk result IsReady }
{
    match judge_tests(alloc, &accepted, run.fuel, bytes) {
        Ok(plans) => with_plans(alloc, run, accepted, plans),
        Err(stop) => {
            drop(accepted);
            Err(stop)
        }
    }
}

// Why a file of justifications is refused.
fn stop_of<'a>(alloc: Global, fault: JustifyFault<'a>) -> Stop<'a>
    ensures { (list : Result (List Justification) Fault) → GivesFault list fault.entry
        → Gives (λ js. js) (Reads list (λ f. refusal JustificationsRefused (reasons_line f)))
        (Err result) }
{
    match fault {
        JustifyFault::Json => Stop::Refused(Refusal::Justifications { word: "json" }),
        JustifyFault::Limit => Stop::Refused(Refusal::Justifications { word: "limit" }),
        JustifyFault::Shape { entry } => Stop::Refused(Refusal::Entry {
            entry,
            word: "shape",
        }),
        JustifyFault::Unknown { entry } => Stop::Refused(Refusal::Entry {
            entry,
            word: "unknown",
        }),
        JustifyFault::Quote { entry, kept, given } => match given.bytes().to_vec(alloc) {
            Ok(given) => Stop::Refused(Refusal::Quote { entry, kept, given }),
            Err(_) => Stop::OutOfMemory,
        },
        JustifyFault::Repeated { entry } => Stop::Refused(Refusal::Entry {
            entry,
            word: "repeated",
        }),
        JustifyFault::OutOfMemory => Stop::OutOfMemory,
    }
}

// The justifications of a file.
fn judge_reasons<'a>(
    alloc: Global,
    accepted: &Accepted<'a>,
    bytes: &[u8],
) -> Result<Vec<Justification>, Stop<'a>>
    requires { HasItsTree accepted.now }
    ensures judges { Gives (λ js. js.items)
        (JudgesReasons (seen_accepted accepted.now) bytes.now) result }
    ensures reasons { IfOk result (λ js. AreReasons accepted.now js.items) }
{
    let obligations = obligations(alloc, &accepted.map)?;
    match read_justifications(alloc, bytes, &obligations, accepted.source) {
        Ok(justifications) => Ok(justifications),
        Err(fault) => Err(stop_of(alloc, fault)),
    }
}

// The stage after the file of justifications.
fn after_reasons<'a>(
    alloc: Global,
    name: &'a str,
    accepted: Accepted<'a>,
    basis: Basis<'a>,
    bytes: &[u8],
) -> Result<Stage<'a>, Stop<'a>>
    requires instrumented { HasItsTree accepted }
    requires basis { IsBasis accepted basis }
    ensures judges { Gives seen_stage (Judges (reasons name.now
        (seen_accepted accepted.entry) (seen_basis basis.entry)) bytes.now) result }
    ensures ready { IfOk result IsReady }
{
    match judge_reasons(alloc, &accepted, bytes) {
        Ok(justifications) => Ok(Stage::Last(accepted, basis, justifications)),
        Err(stop) => {
            drop(accepted);
            Err(stop)
        }
    }
}

// The stage that follows where what is taken of a file is accepted, or why it is refused.
fn judge<'a>(alloc: Global, stage: Stage<'a>, bytes: &'a [u8]) -> Result<Stage<'a>, Stop<'a>>
    requires asks { AsksUpTo (seen_stage stage) (length bytes.now) }
    requires ready { IsReady stage }
    ensures judges { Gives seen_stage (JudgesAt (seen_stage stage.entry) bytes.now) result }
    ensures ready { IfOk result IsReady }
{
    match stage {
        Stage::Source(name, action) => after_source(alloc, name, action, bytes),
        Stage::Tests(run, accepted) => after_tests(alloc, run, accepted, bytes),
        Stage::Left(name, other, accepted) => after_left(alloc, name, other, accepted, bytes),
        Stage::Right(name, accepted, first) => after_right(alloc, name, accepted, first, bytes),
        Stage::Kept(name, judging, accepted) => after_kept(alloc, name, judging, accepted, bytes),
        Stage::Reasons(name, accepted, basis) => {
            after_reasons(alloc, name, accepted, basis, bytes)
        }
        Stage::Usage | Stage::Writes(..) | Stage::Last(..) | Stage::Merged(..) | Stage::Load(..) =>
            unreachable!(),
    }
}

// What is taken of the bytes of the file that a stage asks for, or why there is nothing.
#[tactic(auto, using(crate::proofs::Taking::asks_up_to, crate::proofs::Taking::made_up_to))]
fn taken<'a>(alloc: Global, stage: &Stage<'_>, bytes: Vec<u8>) -> Result<Vec<u8>, Stop<'a>>
    requires asks { AsksUpTo (seen_stage stage.now) (length bytes.items) }
    ensures takes { Gives (λ text. text.items)
        (TakesAt (seen_stage stage.now) bytes.items) result }
    ensures asks { IfOk result (λ text. AsksUpTo (seen_stage stage.now) (length text.items)) }
{
    if stage.makes_source() {
        let made = make_source(alloc, &bytes);
        drop(bytes);
        made
    } else {
        Ok(bytes)
    }
}

/// The stage that follows where the bytes of the file that a stage asks for are accepted, or why
/// they are refused. What is taken of them is kept in the slot.
pub fn accept<'a>(
    alloc: Global,
    stage: Stage<'a>,
    bytes: Vec<u8>,
    slot: &'a mut Vec<u8>,
) -> Result<Stage<'a>, Stop<'a>>
    requires asks { AsksUpTo (seen_stage stage) (length bytes.items) }
    requires ready { IsReady stage }
    ensures judges { Gives seen_stage (Judges (seen_stage stage.entry) bytes.items) result }
    ensures ready { IfOk result IsReady }
{
    match taken(alloc, &stage, bytes) {
        Ok(text) => {
            *slot = text;
            judge(alloc, stage, slot)
        }
        Err(stop) => {
            drop(stage);
            Err(stop)
        }
    }
}

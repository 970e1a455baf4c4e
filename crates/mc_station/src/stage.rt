//! The stages of the commands.
ghost use Rattle.std.specs.Prelude.{◌≡◌, None, IfOk, option_map};
ghost use Rattle.mc_command.specs.Command.{command_of};
ghost use Rattle.mc_command.specs.Line.{words_of};
ghost use Rattle.mc_command.specs.Seen.{IsWithin, seen_action, seen_matrix_task, seen_source_text};
ghost use Rattle.mc_limits.specs.Limits.{most_workers};
ghost use Rattle.mc_tests.specs.Seen.{seen_plans};
ghost use Rattle.station_replies.specs.Seen.{seen_file};
ghost use Rattle.mc_station.specs.Replied.{seen_reply};
ghost use Rattle.mc_station.specs.Seen.{ArePlanned, AreReasons, IsBasis, HasItsTree, IsOpened, IsReady, seen_accepted, seen_basis, seen_stage};
ghost use Rattle.mc_station.specs.Named.{makes_source};
ghost use Rattle.mc_station.specs.Taken.{makes_at};
ghost use Rattle.mc_station.specs.Stages.{Ends, TellsOnMatrix, Writes, after_tests, file_of, first_stage, last};

use crate::accepted::Accepted;
use crate::basis::Basis;
use crate::commands::adapt::write_source;
use crate::commands::analyse::analyse;
use crate::commands::instrument::instrument;
use crate::commands::merge::merge;
use crate::commands::mutate::mutate;
use crate::commands::results::results;
use crate::commands::selfload::{Load, selfload};
use crate::commands::watch::watch;
use crate::means::Means;
use crate::opened::Opened;
use crate::ran::run_all;
use crate::reply::Reply;
use crate::told::tell;
use mc_command::{Action, Command, Judging, MatrixTask, Run, SourceText, read_command};
use mc_cover::Closer;
use mc_oblige::Justification;
use mc_port::Gate;
use mc_record::Record;
use mc_typed::TestPlan;
use station_replies::{File, FileKind, Status, usage_text};
use std::alloc::{AllocError, Global};
use std::thread::Threads;

/// How far a command has come: what its files were accepted as so far.
#[derive(Drop)]
pub enum Stage<'a> {
    /// The words are not a command.
    Usage,
    /// The source of this name is asked for.
    Source(&'a str, Action<'a>),
    /// The source is accepted, and a text is made of it alone.
    Writes(SourceText, Accepted<'a>),
    /// The source is accepted, and the tests file is asked for.
    Tests(Run<'a>, Accepted<'a>),
    /// The source is accepted, and the first of two records is asked for.
    Left(&'a str, &'a str, Accepted<'a>),
    /// The first one is accepted, and the second one, of this name, is asked for.
    Right(&'a str, Accepted<'a>, Record),
    /// The source is accepted, and the record by which it is judged is asked for.
    Kept(&'a str, Judging<'a>, Accepted<'a>),
    /// What goes before is accepted, and the file of justifications of this name is asked for.
    Reasons(&'a str, Accepted<'a>, Basis<'a>),
    /// All files are accepted.
    Last(Accepted<'a>, Basis<'a>, Vec<Justification>),
    /// Both records are accepted, and this is the record of both.
    Merged(Record),
    /// No file is asked for: the program makes a source and its tests itself.
    Load(Load),
}

/// The stage after what the last one stands on. `justify` names the file of justifications.
pub fn with_basis<'a>(
    alloc: Global,
    justify: Option<&'a str>,
    accepted: Accepted<'a>,
    basis: Basis<'a>,
) -> Stage<'a>
    requires instrumented { HasItsTree accepted }
    requires basis { IsBasis accepted basis }
    ensures stage { seen_stage result ≡ after_tests (option_map (λ name. name.now) justify.entry)
        (seen_accepted accepted.entry) (seen_basis basis.entry) }
    ensures ready { IsReady result }
{
    match justify {
        Some(name) => Stage::Reasons(name, accepted, basis),
        None => Stage::Last(accepted, basis, Vec::new(alloc)),
    }
}

/// The first stage of what the words of a line ask for.
pub fn first_stage<'a>(alloc: Global, line: &'a [&'a str]) -> Result<Stage<'a>, AllocError>
    ensures stage { IfOk result (λ stage.
        seen_stage stage ≡ first_stage (command_of (words_of line.entry.now))) }
    ensures ready { IfOk result IsReady }
{
    match read_command(alloc, line)? {
        Some(Command::OnSource { source, action }) => Ok(Stage::Source(source, action)),
        Some(Command::Selfload { count, workers }) => Ok(Stage::Load(Load { count, workers })),
        None => Ok(Stage::Usage),
    }
}

// Whether the source of the action is made of the bytes of its file.
fn makes_source(action: Action<'_>) -> bool
    ensures { result ≡ makes_source (seen_action action.entry) }
{
    match action {
        Action::Write(SourceText::Adapted) => true,
        Action::Write(SourceText::Instrumented)
        | Action::Run(_)
        | Action::Merge { .. }
        | Action::Analyse { .. } => false,
    }
}

// What a task tells of the matrix of its tests once all of them have run.
fn tested<'a, R: Threads + Sync, G: Gate, C: Closer>(
    alloc: Global,
    means: Means<'_, R, G, C>,
    task: MatrixTask<'_>,
    workers: u32,
    accepted: Accepted<'a>,
    plans: &[TestPlan],
    opened: Opened,
    justifications: &[Justification],
) -> Result<Reply<'a>, AllocError>
    requires workers { IsWithin 1 most_workers workers }
    requires instrumented { HasItsTree accepted }
    requires planned { ArePlanned accepted plans.now }
    requires opened { IsOpened accepted plans.now opened }
    requires reasons { AreReasons accepted justifications.now }
    ensures { IfOk result (λ reply. TellsOnMatrix (C.skipped means.entry.closer.now)
        (seen_matrix_task task.entry) (seen_accepted accepted.entry) (seen_plans plans.now)
        justifications.now (seen_reply reply)) }
{
    match run_all(alloc, means, workers, &accepted, plans, opened) {
        Ok(ran) => tell(alloc, task, accepted, plans, ran, justifications),
        Err(error) => {
            drop(accepted);
            Err(error)
        }
    }
}

// The reply of a command whose files are accepted.
fn finished<'a, R: Threads + Sync, G: Gate, C: Closer>(
    alloc: Global,
    means: Means<'_, R, G, C>,
    accepted: Accepted<'a>,
    basis: Basis<'_>,
    justifications: &[Justification],
) -> Result<Reply<'a>, AllocError>
    requires instrumented { HasItsTree accepted }
    requires basis { IsBasis accepted basis }
    requires reasons { AreReasons accepted justifications.now }
    ensures { IfOk result (λ reply. Ends (C.skipped means.entry.closer.now)
        (last (seen_accepted accepted.entry) (seen_basis basis.entry) justifications.now)
        (seen_reply reply)) }
{
    match basis {
        Basis::Tested(task, workers, plans, opened) => {
            tested(
                alloc,
                means,
                task,
                workers,
                accepted,
                &plans,
                opened,
                justifications,
            )
        }
        Basis::Watched(looks, workers, plans, opened) => {
            watch(alloc, means, workers, looks, accepted, &plans, opened)
        }
        Basis::Mutated(workers, plans, decisions) => {
            mutate(alloc, means, workers, accepted, &plans, &decisions)
        }
        Basis::Traced(workers, plans) => results(alloc, means, workers, accepted, &plans),
        Basis::Recorded(asked, kept) => analyse(alloc, asked, accepted, kept, justifications),
    }
}

// The text that is made of an accepted source alone.
fn write<'a>(
    alloc: Global,
    text: SourceText,
    accepted: Accepted<'a>,
) -> Result<Reply<'a>, AllocError>
    requires instrumented { HasItsTree accepted }
    ensures { IfOk result (λ reply.
        Writes (seen_source_text text) (seen_accepted accepted.entry) (seen_reply reply)) }
{
    match text {
        SourceText::Instrumented => instrument(alloc, accepted),
        SourceText::Adapted => Ok(write_source(alloc, accepted)),
    }
}

impl<'a> Stage<'a> {
    /// The file that is asked for at this stage.
    pub fn file(&self) -> Option<File<'a>>
        ensures { option_map seen_file result ≡ file_of (seen_stage self.now) }
    {
        match self {
            Stage::Source(name, _) => Some(File {
                kind: FileKind::Source,
                name,
            }),
            Stage::Tests(run, _) => Some(File {
                kind: FileKind::Tests,
                name: run.tests,
            }),
            Stage::Left(name, ..) | Stage::Right(name, ..) | Stage::Kept(name, ..) => Some(File {
                kind: FileKind::Record,
                name,
            }),
            Stage::Reasons(name, ..) => Some(File {
                kind: FileKind::Justifications,
                name,
            }),
            Stage::Usage
            | Stage::Writes(..)
            | Stage::Last(..)
            | Stage::Merged(..)
            | Stage::Load(..) => None,
        }
    }

    /// Whether the source is made of the bytes of the file that is asked for at this stage.
    pub fn makes_source(&self) -> bool
        ensures { result ≡ makes_at (seen_stage self.now) }
    {
        match self {
            Stage::Source(_, action) => makes_source(*action),
            Stage::Usage
            | Stage::Writes(..)
            | Stage::Tests(..)
            | Stage::Left(..)
            | Stage::Right(..)
            | Stage::Kept(..)
            | Stage::Reasons(..)
            | Stage::Last(..)
            | Stage::Merged(..)
            | Stage::Load(..) => false,
        }
    }

    /// The reply of a stage that asks for no file.
    pub fn end<R: Threads + Sync, G: Gate, C: Closer>(
        self,
        alloc: Global,
        means: Means<'_, R, G, C>,
    ) -> Result<Reply<'a>, AllocError>
        requires last { file_of (seen_stage self) ≡ None }
        requires ready { IsReady self }
        ensures { IfOk result (λ reply.
            Ends (C.skipped means.entry.closer.now) (seen_stage self.entry) (seen_reply reply)) }
    {
        match self {
            Stage::Usage => {
                let text = usage_text(alloc)?;
                Ok(Reply::of_text(alloc, Status::NoCommand, text))
            }
            Stage::Writes(text, accepted) => write(alloc, text, accepted),
            Stage::Last(accepted, basis, justifications) => {
                finished(alloc, means, accepted, basis, &justifications)
            }
            Stage::Merged(both) => Ok(merge(alloc, both)),
            Stage::Load(load) => selfload(alloc, means, load),
            Stage::Source(..)
            | Stage::Tests(..)
            | Stage::Left(..)
            | Stage::Right(..)
            | Stage::Kept(..)
            | Stage::Reasons(..) => unreachable!(),
        }
    }
}

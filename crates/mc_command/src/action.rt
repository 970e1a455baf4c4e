//! What is done with a source.
ghost use Rattle.std.specs.Prelude.{◌≡◌, IfSome, option_map};
ghost use Rattle.clap.specs.Words.{found_of, rows_of};
ghost use Rattle.mc_command.specs.Command.{action_in, analyse_in, merge_in, run_action_in};
ghost use Rattle.mc_command.specs.Seen.{ActionIsInRange, seen_action};

use crate::judging::{Judging, read_report};
use crate::run::{Run, read_run};
use crate::source_text::SourceText;
use crate::task::read_task;
use crate::values::text_at;
use clap::ArgMatches;

/// What is done with a source that is accepted.
#[derive(Clone, Copy)]
pub enum Action<'w> {
    /// Its tests are run: `report`, `vectors`, `record`, `watch`, `reduce`, `mutate`, `list`
    Run(Run<'w>),
    /// A text that is made of the source alone is written: `instrument`, `adapt`
    Write(SourceText),
    /// Two records of its tests are joined: `merge`
    Merge {
        /// The name of the record whose tests come first.
        left: &'w str,
        /// The name of the other record.
        right: &'w str,
    },
    /// A record of its tests is reported on: `analyse`
    Analyse {
        /// The name of the record.
        kept: &'w str,
        /// How the obligations are judged, and what is told.
        judging: Judging<'w>,
    },
}

// `merge SOURCE LEFT RIGHT`
fn read_merge<'w>(values: &ArgMatches<'w>) -> Option<Action<'w>>
    ensures value { option_map seen_action result ≡ merge_in (rows_of (found_of values.now)) }
    ensures in_range { IfSome result ActionIsInRange }
{
    let left = text_at(values, "left")?;
    let right = text_at(values, "right")?;
    Some(Action::Merge { left, right })
}

// `analyse SOURCE RECORD [--mode M] [--justify NAME] [--format F]`
fn read_analyse<'w>(values: &ArgMatches<'w>) -> Option<Action<'w>>
    ensures value { option_map seen_action result ≡ analyse_in (rows_of (found_of values.now)) }
    ensures in_range { IfSome result ActionIsInRange }
{
    let kept = text_at(values, "record")?;
    let judging = read_report(values)?;
    Some(Action::Analyse { kept, judging })
}

// `NAME SOURCE TESTS [--workers N] [--fuel N]`, with the options of the task that has this name
fn read_run_action<'w>(name: &str, values: &ArgMatches<'w>) -> Option<Action<'w>>
    ensures value { option_map seen_action result
        ≡ run_action_in name.now (rows_of (found_of values.now)) }
    ensures in_range { IfSome result ActionIsInRange }
{
    let task = read_task(name, values)?;
    let run = read_run(values, task)?;
    Some(Action::Run(run))
}

/// The action of the command with this name. Its numbers are in range.
pub fn read_action<'w>(name: &str, values: &ArgMatches<'w>) -> Option<Action<'w>>
    ensures value { option_map seen_action result
        ≡ action_in name.now (rows_of (found_of values.now)) }
    ensures in_range { IfSome result ActionIsInRange }
{
    match name {
        "merge" => read_merge(values),
        "analyse" => read_analyse(values),
        "instrument" => Some(Action::Write(SourceText::Instrumented)),
        "adapt" => Some(Action::Write(SourceText::Adapted)),
        _ => read_run_action(name, values),
    }
}

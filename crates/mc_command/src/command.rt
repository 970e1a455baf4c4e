//! The commands, and the reading of one from a line.
ghost use Rattle.std.specs.Prelude.{◌≡◌, IfOk, IfSome, option_map};
ghost use Rattle.clap.specs.Words.{found_of, rows_of};
ghost use Rattle.mc_limits.specs.Limits.{most_functions};
ghost use Rattle.mc_command.specs.Command.{command_in, command_of, on_source_in, selfload_in};
ghost use Rattle.mc_command.specs.Line.{words_of};
ghost use Rattle.mc_command.specs.Seen.{IsInRange, IsWithin, seen_command};
ghost use Rattle.mc_command.specs.Values.{count_in};

use crate::action::{Action, read_action};
use crate::line::matches_in;
use crate::number::read_number;
use crate::run::read_workers;
use crate::values::text_at;
use clap::ArgMatches;
use mc_limits::{MOST_FUNCTIONS, MOST_WORKERS};
use std::alloc::{AllocError, Global};

/// What a command line asks for, with the names of its files as they stand there.
#[derive(Clone, Copy)]
pub enum Command<'w> {
    /// Something is done with a source.
    OnSource {
        /// The name of the source.
        source: &'w str,
        /// What is done with it.
        action: Action<'w>,
    },
    /// The program makes a source and its tests itself, runs them and sums up: `selfload`
    Selfload {
        /// How many functions the source has, from 1 to `MOST_FUNCTIONS`.
        count: u32,
        /// How many workers share the tests, from 1 to `MOST_WORKERS`.
        workers: u32,
    },
}

// `NAME SOURCE`, with the files and options of the action that has this name
fn read_on_source<'w>(name: &str, values: &ArgMatches<'w>) -> Option<Command<'w>>
    ensures value { option_map seen_command result
        ≡ on_source_in name.now (rows_of (found_of values.now)) }
    ensures in_range { IfSome result IsInRange }
{
    let source = text_at(values, "source")?;
    let action = read_action(name, values)?;
    Some(Command::OnSource { source, action })
}

// How many functions the source has that the program makes itself: `N`.
fn read_count(values: &ArgMatches<'_>) -> Option<u32>
    ensures value { result ≡ count_in (rows_of (found_of values.now)) }
    ensures in_range { IfSome result (IsWithin 1 most_functions) }
{
    let text = text_at(values, "count")?;
    read_number(text, 1, MOST_FUNCTIONS)
}

// `selfload N [--workers N]`
fn read_selfload<'w>(values: &ArgMatches<'w>) -> Option<Command<'w>>
    ensures value { option_map seen_command result ≡ selfload_in (rows_of (found_of values.now)) }
    ensures in_range { IfSome result IsInRange }
{
    let count = read_count(values)?;
    let workers = read_workers(values, MOST_WORKERS)?;
    Some(Command::Selfload { count, workers })
}

// The command with this name and these values. Its numbers are in range.
fn command_in<'w>(name: &str, values: &ArgMatches<'w>) -> Option<Command<'w>>
    ensures value { option_map seen_command result
        ≡ command_in (name.now, rows_of (found_of values.now)) }
    ensures in_range { IfSome result IsInRange }
{
    match name {
        "selfload" => read_selfload(values),
        _ => read_on_source(name, values),
    }
}

/// The command that the line asks for, or `None` exactly where its words are not a command: where
/// `clap` states no matches for them, or a value is not in its set. The numbers of the command are
/// in range. The first word of the line stands for the program's own name, whatever it is.
#[tactic(auto, unfolding(crate::specs::Command::command_of))]
pub fn read_command<'w>(
    alloc: Global,
    line: &'w [&'w str],
) -> Result<Option<Command<'w>>, AllocError>
    ensures value { IfOk result (λ o.
        option_map seen_command o ≡ command_of (words_of line.entry.now)) }
    ensures in_range { IfOk result (λ o. IfSome o IsInRange) }
{
    let Some(matches) = matches_in(alloc, line)? else {
        return Ok(None);
    };
    let Some((name, values)) = matches.subcommand() else {
        return Ok(None);
    };
    Ok(command_in(name, values))
}

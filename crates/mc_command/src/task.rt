//! What the tests are run for.
ghost use Rattle.std.specs.Prelude.{◌≡◌, IfSome, option_map};
ghost use Rattle.clap.specs.Words.{found_of, rows_of};
ghost use Rattle.mc_command.specs.Command.{task_in};
ghost use Rattle.mc_command.specs.Seen.{TaskIsInRange, seen_task};

use crate::looks::read_looks;
use crate::matrix_task::{MatrixTask, read_matrix_task};
use clap::ArgMatches;

/// What the tests of a source are run for.
#[derive(Clone, Copy)]
pub enum Task<'w> {
    /// Something is written of the matrix of what they evaluated.
    OnMatrix(MatrixTask<'w>),
    /// How many bits are recorded while the tests run: `watch`
    Watch {
        /// How often the words are looked at, from 1 to 100.
        looks: u32,
    },
    /// Which changes of the decisions the tests notice: `mutate`
    Mutate,
    /// What each of their calls did: `results`
    Trace,
}

/// The task of the command with this name. Its number is in range.
pub fn read_task<'w>(name: &str, values: &ArgMatches<'w>) -> Option<Task<'w>>
    ensures value { option_map seen_task result
        ≡ task_in name.now (rows_of (found_of values.now)) }
    ensures in_range { IfSome result TaskIsInRange }
{
    match name {
        "watch" => {
            let looks = read_looks(values)?;
            Some(Task::Watch { looks })
        }
        "mutate" => Some(Task::Mutate),
        "results" => Some(Task::Trace),
        _ => {
            let task = read_matrix_task(name, values)?;
            Some(Task::OnMatrix(task))
        }
    }
}

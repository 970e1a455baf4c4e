//! What is written of the matrix of a run.
ghost use Rattle.std.specs.Prelude.{◌≡◌, option_map};
ghost use Rattle.clap.specs.Words.{found_of, rows_of};
ghost use Rattle.mc_command.specs.Command.{matrix_task_in};
ghost use Rattle.mc_command.specs.Seen.{seen_matrix_task};

use crate::judging::{Judging, read_judged};
use crate::options::read_mode;
use clap::ArgMatches;
use report_options::Mode;

/// What is written of what the tests evaluated, once all of them have run.
#[derive(Clone, Copy)]
pub enum MatrixTask<'w> {
    /// The verdicts on the obligations: `report`, `list`, `functions`, `needs`
    Judge(Judging<'w>),
    /// The evaluated vectors of each decision: `vectors`
    Vectors,
    /// The matrix itself, to be kept in a file: `record`
    Record,
    /// Tests that show what all of them show, and none of which can go: `reduce`
    Reduce {
        /// What shows the independence of a condition.
        mode: Mode,
    },
}

/// The task of the command with this name.
pub fn read_matrix_task<'w>(name: &str, values: &ArgMatches<'w>) -> Option<MatrixTask<'w>>
    ensures { option_map seen_matrix_task result
        ≡ matrix_task_in name.now (rows_of (found_of values.now)) }
{
    match name {
        "vectors" => Some(MatrixTask::Vectors),
        "record" => Some(MatrixTask::Record),
        "reduce" => {
            let mode = read_mode(values)?;
            Some(MatrixTask::Reduce { mode })
        }
        _ => {
            let judging = read_judged(name, values)?;
            Some(MatrixTask::Judge(judging))
        }
    }
}

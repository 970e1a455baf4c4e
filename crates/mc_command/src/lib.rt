//! The words of a command line, and the commands that they are.
#![tactic(auto)]

mod action;
mod command;
mod judging;
mod line;
mod looks;
mod matrix_task;
mod number;
mod options;
mod run;
mod source_text;
mod task;
mod telling;
mod usage;
mod values;

pub use action::Action;
pub use command::{Command, read_command};
pub use judging::Judging;
pub use line::line_of;
pub use matrix_task::MatrixTask;
pub use run::{MOST_WATCHED_WORKERS, Run};
pub use source_text::SourceText;
pub use task::Task;
pub use telling::Telling;

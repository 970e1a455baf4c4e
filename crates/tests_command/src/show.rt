//! What a command is, as text.

use mc_command::{Action, Command, Judging, MatrixTask, Run, SourceText, Task, Telling};
use report_options::{Form, Mode};
use std::alloc::{AllocError, Global};

fn mode_word(mode: Mode) -> &'static str {
    match mode {
        Mode::Unique => "unique",
        Mode::Masking => "masking",
    }
}

fn form_word(form: Form) -> &'static str {
    match form {
        Form::Text => "text",
        Form::Csv => "csv",
        Form::Json => "json",
    }
}

fn push_justify(text: &mut String, justify: Option<&str>) -> Result<(), AllocError> {
    match justify {
        Some(name) => {
            text.push_str("|")?;
            text.push_str(name)
        }
        None => Ok(()),
    }
}

fn telling_word(telling: Telling<'_>) -> &'static str {
    match telling {
        Telling::Report(_) => "report|",
        Telling::Listing => "list|",
        Telling::Functions { .. } => "functions|",
        Telling::Needs { .. } => "needs|",
    }
}

// The form of a report, or the file that is named.
fn push_form(text: &mut String, telling: Telling<'_>) -> Result<(), AllocError> {
    match telling {
        Telling::Report(form) => {
            text.push_str("|")?;
            text.push_str(form_word(form))
        }
        Telling::Listing => Ok(()),
        Telling::Functions { of } | Telling::Needs { of } => push_of(text, of),
    }
}

fn push_of(text: &mut String, of: Option<&str>) -> Result<(), AllocError> {
    match of {
        Some(name) => {
            text.push_str("|of ")?;
            text.push_str(name)
        }
        None => Ok(()),
    }
}

fn push_judging(text: &mut String, judging: Judging<'_>) -> Result<(), AllocError> {
    text.push_str(telling_word(judging.telling))?;
    text.push_str(mode_word(judging.mode))?;
    push_form(text, judging.telling)?;
    push_justify(text, judging.justify)
}

fn push_matrix_task(text: &mut String, task: MatrixTask<'_>) -> Result<(), AllocError> {
    match task {
        MatrixTask::Judge(judging) => push_judging(text, judging),
        MatrixTask::Vectors => text.push_str("vectors"),
        MatrixTask::Record => text.push_str("record"),
        MatrixTask::Reduce { mode } => {
            text.push_str("reduce|")?;
            text.push_str(mode_word(mode))
        }
    }
}

fn push_task(alloc: Global, text: &mut String, task: Task<'_>) -> Result<(), AllocError> {
    match task {
        Task::OnMatrix(task) => push_matrix_task(text, task),
        Task::Watch { looks } => {
            text.push_str("watch|")?;
            push_number(alloc, text, looks)
        }
        Task::Mutate => text.push_str("mutate"),
        Task::Trace => text.push_str("results"),
    }
}

fn push_number(alloc: Global, text: &mut String, number: u32) -> Result<(), AllocError> {
    let digits = format!(in alloc; "{number}")?;
    let pushed = text.push_str(digits.as_str());
    drop(digits);
    pushed
}

fn push_run(alloc: Global, text: &mut String, run: Run<'_>) -> Result<(), AllocError> {
    text.push_str(run.tests)?;
    text.push_str("|")?;
    push_number(alloc, text, run.workers)?;
    text.push_str("|")?;
    push_number(alloc, text, run.fuel)?;
    text.push_str("|")?;
    push_task(alloc, text, run.task)
}

fn push_action(alloc: Global, text: &mut String, action: Action<'_>) -> Result<(), AllocError> {
    match action {
        Action::Run(run) => push_run(alloc, text, run),
        Action::Write(SourceText::Instrumented) => text.push_str("instrument"),
        Action::Write(SourceText::Adapted) => text.push_str("adapt"),
        Action::Merge { left, right } => {
            text.push_str("merge|")?;
            text.push_str(left)?;
            text.push_str("|")?;
            text.push_str(right)
        }
        Action::Analyse { kept, judging } => {
            text.push_str("analyse|")?;
            text.push_str(kept)?;
            text.push_str("|")?;
            push_judging(text, judging)
        }
    }
}

/// Adds the parts of the command, with `|` between them.
pub fn push_command(
    alloc: Global,
    text: &mut String,
    command: Command<'_>,
) -> Result<(), AllocError> {
    match command {
        Command::OnSource { source, action } => {
            text.push_str(source)?;
            text.push_str("|")?;
            push_action(alloc, text, action)
        }
        Command::Selfload { count, workers } => {
            text.push_str("selfload|")?;
            push_number(alloc, text, count)?;
            text.push_str("|")?;
            push_number(alloc, text, workers)
        }
    }
}

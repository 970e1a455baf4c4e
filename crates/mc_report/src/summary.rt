//! The summary of the run of a program that was made to be run.
ghost use Rattle.std.specs.Prelude.{◌≡◌, ◌++◌, ◌∷◌, [], IfOk, OnOk};
ghost use Rattle.mc_report.specs.Report.{IsReport};
ghost use Rattle.mc_report.specs.Seen.{bytes_of, report_of};
ghost use Rattle.mc_report.specs.Summary.{load_line, passed_line, summary_lines};

use crate::counts::push_counts;
use crate::report::Report;
use crate::settled::passed_count;
use crate::text::push_status;
use std::alloc::{AllocError, Global};
use told_lines::passed_text;

fn push_load(alloc: Global, lines: &mut Vec<Vec<u8>>, functions: u32) -> Result<(), AllocError>
    ensures { OnOk result (bytes_of lines.new.items
        ≡ bytes_of lines.old.items ++ load_line functions ∷ []) }
{
    let line = format!(in alloc; "selfload {functions}\n")?;
    lines.push(line.as_bytes().to_vec(alloc)?)?;
    Ok(())
}

fn push_passed(
    alloc: Global,
    lines: &mut Vec<Vec<u8>>,
    report: &Report<'_>,
) -> Result<(), AllocError>
    ensures { OnOk result (bytes_of lines.new.items ≡ bytes_of lines.old.items
        ++ passed_line (report_of report.now).states ∷ []) }
{
    let tests = report.states.len();
    let passed = passed_count(&report.states);
    lines.push(passed_text(alloc, tests, passed)?)?;
    Ok(())
}

/// The lines that sum up the report on a program of so many functions: the functions, the tests and
/// how many of them passed, the counts of obligations, and the status.
pub fn summary_lines(
    alloc: Global,
    functions: u32,
    report: &Report<'_>,
) -> Result<Vec<Vec<u8>>, AllocError>
    requires { IsReport (report_of report.now) }
    ensures { IfOk result (λ lines.
        bytes_of lines.items ≡ summary_lines functions (report_of report.now)) }
{
    let mut lines = Vec::new(alloc);
    push_load(alloc, &mut lines, functions)?;
    push_passed(alloc, &mut lines, report)?;
    push_counts(alloc, &mut lines, report)?;
    push_status(alloc, &mut lines, report)?;
    Ok(lines)
}

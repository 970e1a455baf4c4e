//! The text report.
ghost use Rattle.std.specs.Prelude.{◌≡◌, ◌≤◌, ◌++◌, ◌∷◌, [], IfOk, OnOk};
ghost use Rattle.std.specs.List.{concat};
ghost use Rattle.mc_report.specs.Report.{IsReport};
ghost use Rattle.mc_report.specs.Seen.{bytes_of, report_of};
ghost use Rattle.mc_report.specs.Status.{status_of};
ghost use Rattle.mc_report.specs.Text.{digest_line, mode_line, report_lines, status_line};
ghost use Rattle.mc_report.specs.Written.{Writes};

use crate::counts::push_counts;
use crate::fault::ReportFault;
use crate::report::Report;
use crate::settled::status;
use crate::test_lines::push_tests;
use crate::verdicts::push_verdicts;
use crate::words::mode_word;
use mc_port::{Sink, put_lines};
use report_words::push_hexadecimal;
use std::alloc::{AllocError, Global};

fn push_mode(alloc: Global, lines: &mut Vec<Vec<u8>>, report: &Report<'_>) -> Result<(), AllocError>
    ensures { OnOk result (bytes_of lines.new.items ≡ bytes_of lines.old.items
        ++ mode_line (report_of report.now).mode ∷ []) }
{
    let mut line = Vec::new(alloc);
    line.extend_from_slice(b"mcdc report ")?;
    line.extend_from_slice(mode_word(report.mode).as_bytes())?;
    line.push(b'\n')?;
    lines.push(line)?;
    Ok(())
}

fn digest_line(alloc: Global, digest: &[u8]) -> Result<Vec<u8>, AllocError>
    ensures { IfOk result (λ line. line.items ≡ digest_line digest.now) }
{
    let mut line = Vec::new(alloc);
    line.extend_from_slice(b"source sha256 ")?;
    push_hexadecimal(&mut line, digest)?;
    line.push(b'\n')?;
    Ok(line)
}

fn push_digest(
    alloc: Global,
    lines: &mut Vec<Vec<u8>>,
    report: &Report<'_>,
) -> Result<(), AllocError>
    ensures { OnOk result (bytes_of lines.new.items ≡ bytes_of lines.old.items
        ++ digest_line (report_of report.now).digest ∷ []) }
{
    let line = digest_line(alloc, report.digest.as_slice())?;
    lines.push(line)?;
    Ok(())
}

/// Adds the line of the status.
pub(crate) fn push_status(
    alloc: Global,
    lines: &mut Vec<Vec<u8>>,
    report: &Report<'_>,
) -> Result<(), AllocError>
    ensures { OnOk result (bytes_of lines.new.items ≡ bytes_of lines.old.items
        ++ status_line (status_of (report_of report.now)) ∷ []) }
{
    let status = status(report);
    let line = format!(in alloc; "status {status}\n")?;
    lines.push(line.as_bytes().to_vec(alloc)?)?;
    Ok(())
}

/// The lines of the text report: the mode, the digest of the source, the tests, the obligations,
/// the counts, and the status.
pub fn report_lines(alloc: Global, report: &Report<'_>) -> Result<Vec<Vec<u8>>, AllocError>
    requires { IsReport (report_of report.now) }
    ensures { IfOk result (λ lines. bytes_of lines.items ≡ report_lines (report_of report.now)) }
{
    let mut lines = Vec::new(alloc);
    push_mode(alloc, &mut lines, report)?;
    push_digest(alloc, &mut lines, report)?;
    push_tests(alloc, &mut lines, report)?;
    push_verdicts(alloc, &mut lines, report)?;
    push_counts(alloc, &mut lines, report)?;
    push_status(alloc, &mut lines, report)?;
    Ok(lines)
}

/// Writes the text report. The whole text is made, and all memory taken, before the first `put`; a
/// line is one `put`.
pub fn write_text<K: Sink>(
    alloc: Global,
    report: &Report<'_>,
    out: &mut K,
) -> Result<(), ReportFault>
    requires { IsReport (report_of report.now) }
    ensures text { Writes (K.written out.old) (K.written out.new) (K.faults out.old)
        (K.faults out.new) (concat (report_lines (report_of report.now))) result }
    ensures later { K.faults out.old ≤ K.faults out.new }
{
    match report_lines(alloc, report) {
        Ok(lines) => match put_lines(&lines, out) {
            Ok(()) => Ok(()),
            Err(_) => Err(ReportFault::Put),
        },
        Err(_) => Err(ReportFault::OutOfMemory),
    }
}

//! The report as a JSON object.
ghost use Rattle.std.specs.Prelude.{◌≡◌, ◌≤◌, ◌<◌, ◌++◌, length, All, IfOk, IsUtf8, OnOk, string_bytes};
ghost use Rattle.std.specs.List.{concat};
ghost use Rattle.serde_json.specs.Written.{compact_text};
ghost use Rattle.report_words.specs.Hexadecimal.{byte_text};
ghost use Rattle.mc_report.specs.Json.{json_data, json_lines, json_text};
ghost use Rattle.mc_report.specs.Report.{IsReport};
ghost use Rattle.mc_report.specs.Seen.{bytes_of, report_of};
ghost use Rattle.mc_report.specs.Words.{hexadecimal};
ghost use Rattle.mc_report.specs.Written.{Writes};

mod counts;
mod members;
mod obligations;
mod tests;

use crate::fault::ReportFault;
use crate::quoted::text_of;
use crate::report::Report;
use crate::settled::status;
use crate::words::mode_word;
use counts::push_counts;
use mc_port::{Sink, put_lines};
use members::{push_key, push_number, push_string};
use obligations::push_obligations;
use report_words::byte_digits;
use std::alloc::{AllocError, Global};
use tests::push_tests;

fn push_byte(text: &mut String, byte: u8) -> Result<(), AllocError>
    ensures { OnOk result (string_bytes text.new ≡ string_bytes text.old ++ byte_text byte) }
{
    let digits = byte_digits(byte);
    text.push_str(text_of(digits.as_slice()))
}

/// Two digits for each byte, as text.
fn digest_text(alloc: Global, digest: &[u8]) -> Result<String, AllocError>
    ensures { IfOk result (λ text. string_bytes text ≡ hexadecimal digest.now) }
{
    let mut text = String::new(alloc);
    let mut left = digest;
    while let [byte, later @ ..] = left {
        push_byte(&mut text, *byte)?;
        left = later;
    }
    Ok(text)
}

/// Adds the whole object.
#[tactic(auto, unfolding(crate::specs::Json::json_data))]
fn push_report(alloc: Global, line: &mut Vec<u8>, report: &Report<'_>) -> Result<(), AllocError>
    requires report { IsReport (report_of report.now) }
    requires names { All IsUtf8 (report_of report.now).names }
    ensures { OnOk result (line.new.items
        ≡ line.old.items ++ compact_text (json_data (report_of report.now))) }
{
    let digest = digest_text(alloc, report.digest.as_slice())?;
    line.push(b'{')?;
    push_key(alloc, line, false, "counts")?;
    push_counts(alloc, line, report)?;
    push_string(alloc, line, true, "mode", mode_word(report.mode))?;
    push_key(alloc, line, true, "obligations")?;
    push_obligations(alloc, line, report)?;
    push_string(alloc, line, true, "source", digest.as_str())?;
    push_number(alloc, line, true, "status", u64::from(status(report)))?;
    push_key(alloc, line, true, "tests")?;
    push_tests(alloc, line, report)?;
    line.push(b'}')?;
    Ok(())
}

/// The text of the report as one JSON object without spaces, and its line end.
pub fn json_report_line(alloc: Global, report: &Report<'_>) -> Result<Vec<u8>, AllocError>
    requires report { IsReport (report_of report.now) }
    requires names { All IsUtf8 (report_of report.now).names }
    ensures { IfOk result (λ line. line.items ≡ json_text (report_of report.now)) }
{
    let mut line = Vec::new(alloc);
    push_report(alloc, &mut line, report)?;
    line.push(b'\n')?;
    Ok(line)
}

pub(crate) fn json_report_lines(
    alloc: Global,
    report: &Report<'_>,
) -> Result<Vec<Vec<u8>>, AllocError>
    requires report { IsReport (report_of report.now) }
    requires names { All IsUtf8 (report_of report.now).names }
    ensures { IfOk result (λ lines. bytes_of lines.items ≡ json_lines (report_of report.now)) }
{
    let line = json_report_line(alloc, report)?;
    let mut lines = Vec::new(alloc);
    lines.push(line)?;
    Ok(lines)
}

/// Writes the report as one JSON object and a line end. The whole text is made, and all memory
/// taken, before it is put as one piece.
pub fn write_json<K: Sink>(
    alloc: Global,
    report: &Report<'_>,
    out: &mut K,
) -> Result<(), ReportFault>
    requires report { IsReport (report_of report.now) }
    requires names { All IsUtf8 (report_of report.now).names }
    ensures text { Writes (K.written out.old) (K.written out.new) (K.faults out.old)
        (K.faults out.new) (concat (json_lines (report_of report.now))) result }
    ensures later { K.faults out.old ≤ K.faults out.new }
{
    match json_report_lines(alloc, report) {
        Ok(lines) => match put_lines(&lines, out) {
            Ok(()) => Ok(()),
            Err(_) => Err(ReportFault::Put),
        },
        Err(_) => Err(ReportFault::OutOfMemory),
    }
}

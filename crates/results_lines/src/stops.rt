//! The lines of calls in which runs stopped.
ghost use Rattle.std.specs.Prelude.{◌≡◌, ◌++◌, IfOk, OnOk};
ghost use Rattle.mc_port.specs.Lines.{bytes_of};
ghost use Rattle.mc_typed.specs.Plans.{plan_call_of};
ghost use Rattle.results_lines.specs.Seen.{source_of};
ghost use Rattle.results_lines.specs.Stops.{after_text, statement_line, statement_lines, stop_text, stopped_line, stopped_lines};

use crate::calls::{call_text, push_given};
use crate::source::{Source, span_at};
use crate::statement::statement_text;
use interp_trail::Stop;
use mc_span::Span;
use mc_typed::{Call, Ending};
use report_words::ending_word;
use std::alloc::{AllocError, Global};

/// Adds after what the run stopped, where it stands, and what it did.
fn push_after(
    alloc: Global,
    line: &mut Vec<u8>,
    source: &Source<'_>,
    kind: &str,
    spans: &[Span],
    number: u32,
    did: &str,
) -> Result<(), AllocError>
    ensures { OnOk result (line.new.items ≡ line.old.items
        ++ after_text (source_of source.now) kind.now spans.now number did.now) }
{
    let from_one = u64::from(number) + 1;
    let text = format!(in alloc; " after {kind}{from_one} ")?;
    line.extend_from_slice(text.as_bytes())?;
    source.push_place(alloc, line, span_at(spans, number))?;
    line.extend_from_slice(did.as_bytes())
}

/// Adds where the run stopped.
fn push_stop(
    alloc: Global,
    line: &mut Vec<u8>,
    source: &Source<'_>,
    stop: Stop,
) -> Result<(), AllocError>
    ensures { OnOk result (line.new.items
        ≡ line.old.items ++ stop_text (source_of source.now) stop) }
{
    let map = source.map;
    match stop {
        Stop::NotEntered => line.extend_from_slice(b" not entered"),
        Stop::AfterEntry(number) => {
            push_after(
                alloc,
                line,
                source,
                "E",
                &map.entries,
                number,
                " was entered",
            )
        }
        Stop::AfterStatement(number) => {
            push_after(alloc, line, source, "S", &map.statements, number, " began")
        }
        Stop::AfterExit(number) => {
            push_after(alloc, line, source, "X", &map.exits, number, " was reached")
        }
    }
}

/// The line of a call in which the run stopped.
fn stopped_line(
    alloc: Global,
    source: &Source<'_>,
    number: usize,
    call: &Call,
    output: &[i32],
    ending: Ending,
    stop: Stop,
) -> Result<Vec<u8>, AllocError>
    ensures { IfOk result (λ line. line.items ≡ stopped_line (source_of source.now) number
        (plan_call_of call.now) output.now ending stop) }
{
    let mut line = call_text(alloc, source, number, call)?;
    line.push(b' ')?;
    line.extend_from_slice(ending_word(ending).as_bytes())?;
    push_given(alloc, &mut line, output)?;
    push_stop(alloc, &mut line, source, stop)?;
    line.push(b'\n')?;
    Ok(line)
}

fn statement_line(
    alloc: Global,
    source: &Source<'_>,
    span: Option<Span>,
) -> Result<Vec<u8>, AllocError>
    ensures { IfOk result (λ line. line.items ≡ statement_line (source_of source.now) span) }
{
    let text = statement_text(alloc, source.places.text(), span)?;
    let mut line = Vec::new(alloc);
    line.extend_from_slice(b"    ")?;
    line.extend_from_slice(&text)?;
    line.push(b'\n')?;
    Ok(line)
}

/// Adds the statement after whose beginning a run stopped.
fn push_statement(
    alloc: Global,
    lines: &mut Vec<Vec<u8>>,
    source: &Source<'_>,
    stop: Stop,
) -> Result<(), AllocError>
    ensures { OnOk result (bytes_of lines.new.items
        ≡ bytes_of lines.old.items ++ statement_lines (source_of source.now) stop) }
{
    match stop {
        Stop::AfterStatement(number) => {
            let span = span_at(&source.map.statements, number);
            let line = statement_line(alloc, source, span)?;
            lines.push(line)?;
            Ok(())
        }
        Stop::NotEntered | Stop::AfterEntry(_) | Stop::AfterExit(_) => Ok(()),
    }
}

/// Adds the lines of a call in which the run stopped.
pub(crate) fn push_stopped(
    alloc: Global,
    lines: &mut Vec<Vec<u8>>,
    source: &Source<'_>,
    number: usize,
    call: &Call,
    output: &[i32],
    ending: Ending,
    stop: Stop,
) -> Result<(), AllocError>
    ensures { OnOk result (bytes_of lines.new.items ≡ bytes_of lines.old.items
        ++ stopped_lines (source_of source.now) number (plan_call_of call.now) output.now ending
        stop) }
{
    let line = stopped_line(alloc, source, number, call, output, ending, stop)?;
    lines.push(line)?;
    push_statement(alloc, lines, source, stop)
}

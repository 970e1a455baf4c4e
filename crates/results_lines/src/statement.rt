//! The text of a statement.
ghost use Rattle.std.specs.Prelude.{◌≡◌, ◌++◌, drop, IfOk, OnOk};
ghost use Rattle.results_lines.specs.Statements.{is_whole, statement_text, stretch, to_line_end};

use mc_span::Span;
use source_excerpt::{bytes_at, one_line};
use std::alloc::{AllocError, Global};

/// Whether a statement stands at its place to its end.
fn is_whole(source: &[u8], span: Span) -> bool
    ensures { result ≡ is_whole source.now span }
{
    let last = (span.end as usize).saturating_sub(1);
    match source.get(last) {
        Some(byte) => *byte == b';',
        None => false,
    }
}

fn from(source: &[u8], start: usize) -> &[u8]
    ensures { result.now ≡ drop start source.now }
{
    &source[start.min(source.len())..]
}

/// Adds what is left of a line.
fn push_to_line_end(text: &mut Vec<u8>, bytes: &[u8]) -> Result<(), AllocError>
    ensures { OnOk result (text.new.items ≡ text.old.items ++ to_line_end bytes.now) }
{
    let mut left = bytes;
    while let [byte, later @ ..] = left {
        if *byte == b'\n' {
            return Ok(());
        }
        text.push(*byte)?;
        left = later;
    }
    Ok(())
}

fn stretch(alloc: Global, source: &[u8], span: Span) -> Result<Vec<u8>, AllocError>
    ensures { IfOk result (λ text. text.items ≡ stretch source.now span) }
{
    let mut text = bytes_at(source, span).to_vec(alloc)?;
    if !is_whole(source, span) {
        push_to_line_end(&mut text, from(source, span.end as usize))?;
    }
    Ok(text)
}

/// The text of a statement on one line. A statement with a body is shown from its keyword to the
/// end of the line of that.
pub(crate) fn statement_text(
    alloc: Global,
    source: &[u8],
    span: Option<Span>,
) -> Result<Vec<u8>, AllocError>
    ensures { IfOk result (λ text. text.items ≡ statement_text source.now span) }
{
    match span {
        Some(span) => {
            let text = stretch(alloc, source, span)?;
            one_line(alloc, &text)
        }
        None => Ok(Vec::new(alloc)),
    }
}

//! The lines on what is outside the language.
ghost use Rattle.std.specs.Prelude.{◌≡◌, ◌++◌, ◌<◌, ◌^◌, length, IfOk, OnOk, string_bytes, codes};
ghost use Rattle.std.specs.List.{concat};
ghost use Rattle.mc_adapt.specs.Outside.{refusal_of, refusals_of};
ghost use Rattle.mc_adapt.specs.Reasons.{reason_words, shows_text};
ghost use Rattle.adapt_lines.specs.Lines.{front_text, piece_after, refusal_line, refusal_lines};

use mc_adapt::Fault;
use mc_lex::Place;
use mc_places::Places;
use std::alloc::{AllocError, Global};

/// The place, and why the piece that starts there is refused.
fn front_text(alloc: Global, place: Place, reason: &str) -> Result<String, AllocError>
    ensures { IfOk result (λ text.
        string_bytes text ≡ front_text place.line place.column reason.now) }
{
    let line = place.line;
    let column = place.column;
    format!(in alloc; "mcdc: source {line}:{column}: {reason}")
}

/// Adds the bytes of the piece, where they are shown.
fn push_piece(line: &mut Vec<u8>, shown: bool, text: &[u8]) -> Result<(), AllocError>
    ensures { OnOk result (line.new.items ≡ line.old.items ++ piece_after shown text.now) }
{
    if shown {
        line.push(b' ')?;
        line.extend_from_slice(text)?;
    }
    Ok(())
}

/// Adds the line on one piece.
fn push_line(
    alloc: Global,
    lines: &mut Vec<u8>,
    places: &Places<'_>,
    fault: Fault<'_>,
) -> Result<(), AllocError>
    ensures { OnOk result (lines.new.items ≡ lines.old.items
        ++ refusal_line places.now.text.now (refusal_of fault.entry)) }
{
    let front = front_text(alloc, places.place(fault.at), fault.reason.words())?;
    lines.extend_from_slice(front.as_bytes())?;
    drop(front);
    push_piece(lines, fault.reason.shows_text(), fault.text)?;
    lines.push(b'\n')?;
    Ok(())
}

/// Adds a line for each piece.
fn push_lines(
    alloc: Global,
    lines: &mut Vec<u8>,
    places: &Places<'_>,
    faults: &[Fault<'_>],
) -> Result<(), AllocError>
    ensures { OnOk result (lines.new.items ≡ lines.old.items
        ++ refusal_lines places.now.text.now (refusals_of faults.now)) }
{
    let mut left = faults;
    while let [fault, later @ ..] = left {
        push_line(alloc, lines, places, *fault)?;
        left = later;
    }
    Ok(())
}

/// A line for each piece of the source that is outside the language, in their order.
pub fn refusal_text(
    alloc: Global,
    source: &[u8],
    faults: &[Fault<'_>],
) -> Result<Vec<u8>, AllocError>
    requires { length source.now < 2 ^ 31 }
    ensures { IfOk result (λ text.
        text.items ≡ refusal_lines source.now (refusals_of faults.now)) }
{
    let places = Places::of(alloc, source)?;
    let mut lines = Vec::new(alloc);
    push_lines(alloc, &mut lines, &places, faults)?;
    drop(places);
    Ok(lines)
}

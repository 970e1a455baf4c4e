//! The line of a kind of obligations in a function.
ghost use Rattle.std.specs.Prelude.{◌≡◌, ◌++◌, ◌≤◌, IfOk, OnOk};
ghost use Rattle.mc_functions.specs.Counts.{total};
ghost use Rattle.mc_functions.specs.Seen.{bytes_of};
ghost use Rattle.mc_functions.specs.Text.{kind_line, kind_lines, noted, notes_text, numbers_text, word_text};

use crate::counts::Counts;
use crate::kind::Kind;
use crate::padding::{push_left, push_right};
use std::alloc::{AllocError, Global};

/// Adds how many are met of how many, and the percentage.
fn push_numbers(
    alloc: Global,
    line: &mut Vec<u8>,
    places: usize,
    counts: Counts,
) -> Result<(), AllocError>
    requires { 1 ≤ total counts }
    ensures { OnOk result (line.new.items ≡ line.old.items ++ numbers_text places counts) }
{
    let met = counts.met;
    let total = counts.total();
    let percentage = counts.percentage();
    push_right(line, places, format!(in alloc; "{met}")?.as_str())?;
    line.extend_from_slice(b" of ")?;
    push_left(line, places, format!(in alloc; "{total}")?.as_str())?;
    line.extend_from_slice(b"  ")?;
    push_right(line, 3, format!(in alloc; "{percentage}")?.as_str())?;
    line.extend_from_slice(b" %")
}

/// Adds a word and a number, where this is not 0.
fn push_noted(alloc: Global, line: &mut Vec<u8>, word: &str, count: usize) -> Result<(), AllocError>
    ensures { OnOk result (line.new.items ≡ line.old.items ++ noted word.now count) }
{
    if count == 0 {
        return Ok(());
    }
    let text = format!(in alloc; "   {word} {count}")?;
    line.extend_from_slice(text.as_bytes())
}

/// Adds how many are justified, and how many stale.
fn push_notes(alloc: Global, line: &mut Vec<u8>, counts: Counts) -> Result<(), AllocError>
    ensures { OnOk result (line.new.items ≡ line.old.items ++ notes_text counts) }
{
    push_noted(alloc, line, "justified", counts.justified)?;
    push_noted(alloc, line, "stale", counts.stale)?;
    Ok(())
}

fn push_word(line: &mut Vec<u8>, kind: Kind) -> Result<(), AllocError>
    ensures { OnOk result (line.new.items ≡ line.old.items ++ word_text kind) }
{
    line.extend_from_slice(b"  ")?;
    push_left(line, 10, kind.word())?;
    line.extend_from_slice(b"  ")?;
    Ok(())
}

fn kind_line(
    alloc: Global,
    places: usize,
    kind: Kind,
    counts: Counts,
) -> Result<Vec<u8>, AllocError>
    requires { 1 ≤ total counts }
    ensures { IfOk result (λ line. line.items ≡ kind_line places kind counts) }
{
    let mut line = Vec::new(alloc);
    push_word(&mut line, kind)?;
    push_numbers(alloc, &mut line, places, counts)?;
    push_notes(alloc, &mut line, counts)?;
    line.push(b'\n')?;
    Ok(line)
}

/// Adds the line of the kind; a kind of which there is none has none.
pub(crate) fn push_kind(
    alloc: Global,
    lines: &mut Vec<Vec<u8>>,
    places: usize,
    kind: Kind,
    counts: Counts,
) -> Result<(), AllocError>
    ensures { OnOk result (bytes_of lines.new.items
        ≡ bytes_of lines.old.items ++ kind_lines places kind counts) }
{
    if counts.total() == 0 {
        return Ok(());
    }
    let line = kind_line(alloc, places, kind, counts)?;
    lines.push(line)?;
    Ok(())
}

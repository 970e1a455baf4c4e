//! The lines on mutants.
ghost use Rattle.std.specs.Prelude.{◌≡◌, ◌<◌, ◌++◌, ◌^◌, IfOk, OnOk, [], ◌∷◌, length, map};
ghost use Rattle.mc_port.specs.Lines.{bytes_of};
ghost use Rattle.mutate_lines.specs.Seen.{told_of};
ghost use Rattle.mutate_lines.specs.Lines.{AreOf, IsOf, mutant_line, mutant_lines, outcome_text};
ghost use Rattle.mutate_lines.specs.steps.Each.{each_given};

use crate::change::ChangeLine;
use crate::sums::sum_line;
use mc_typed::Name;
use std::alloc::{AllocError, Global};

// Adds the name of the test that kills a mutant, or that none does.
fn push_outcome(text: &mut Vec<u8>, names: &[Name], killer: Option<u32>) -> Result<(), AllocError>
    requires { IsOf (length names.now) killer }
    ensures { OnOk result
        (text.new.items ≡ text.old.items ++ outcome_text names.now killer) }
{
    match killer {
        None => text.extend_from_slice(b" survived"),
        Some(test) => {
            text.extend_from_slice(b" killed by ")?;
            text.extend_from_slice(names[test as usize].bytes())
        }
    }
}

// The line of the mutant with this number.
fn mutant_line(
    alloc: Global,
    names: &[Name],
    number: u32,
    change: &ChangeLine,
    killer: Option<u32>,
) -> Result<Vec<u8>, AllocError>
    requires { IsOf (length names.now) killer }
    ensures { IfOk result (λ text.
        text.items ≡ mutant_line names.now number (told_of change.now) killer) }
{
    let line = change.place.line;
    let column = change.place.column;
    let kind = change.kind;
    let front = format!(in alloc; "M{number} {line}:{column} {kind}")?;
    let mut text = front.into_bytes();
    push_outcome(&mut text, names, killer)?;
    text.push(b'\n')?;
    Ok(text)
}

fn push_line(
    alloc: Global,
    lines: &mut Vec<Vec<u8>>,
    names: &[Name],
    number: u32,
    change: &ChangeLine,
    killer: Option<u32>,
) -> Result<(), AllocError>
    requires { IsOf (length names.now) killer }
    ensures { OnOk result (bytes_of lines.new.items ≡ bytes_of lines.old.items
        ++ mutant_line names.now number (told_of change.now) killer ∷ []) }
{
    let line = mutant_line(alloc, names, number, change, killer)?;
    lines.push(line)?;
    Ok(())
}

// A line for each mutant.
fn push_each(
    alloc: Global,
    lines: &mut Vec<Vec<u8>>,
    names: &[Name],
    changes: &[ChangeLine],
    killers: &[Option<u32>],
) -> Result<(), AllocError>
    requires same { length changes.now ≡ length killers.now }
    requires few { length changes.now < 2 ^ 31 }
    requires tests { AreOf (length names.now) killers.now }
    ensures { OnOk result (bytes_of lines.new.items ≡ bytes_of lines.old.items
        ++ each_given names.now 1 changes.now killers.now) }
{
    let mut number = 1;
    let mut changes_left = changes;
    let mut killers_left = killers;
    while let [change, later_changes @ ..] = changes_left {
        let [killer, later_killers @ ..] = killers_left else {
            unreachable!();
        };
        push_line(alloc, lines, names, number, change, *killer)?;
        number += 1;
        changes_left = later_changes;
        killers_left = later_killers;
    }
    Ok(())
}

/// A line for each mutant: its number from 1, the place and kind of its change, and the test that
/// kills it, by its name, or that none does. Then a line on how many are killed, how many survive,
/// and how many there are.
pub fn mutant_lines(
    alloc: Global,
    names: &[Name],
    changes: &[ChangeLine],
    killers: &[Option<u32>],
) -> Result<Vec<Vec<u8>>, AllocError>
    requires same { length changes.now ≡ length killers.now }
    requires few { length changes.now < 2 ^ 31 }
    requires tests { AreOf (length names.now) killers.now }
    ensures { IfOk result (λ lines.
        bytes_of lines.items ≡ mutant_lines names.now (map told_of changes.now) killers.now) }
{
    let mut lines = Vec::new(alloc);
    push_each(alloc, &mut lines, names, changes, killers)?;
    let line = sum_line(alloc, killers)?;
    lines.push(line)?;
    Ok(lines)
}

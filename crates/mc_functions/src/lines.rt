//! The lines of the counts by function.
ghost use Rattle.std.specs.Prelude.{◌≡◌, ◌++◌, ◌∷◌, [], length, IfOk, OnOk, option_map};
ghost use Rattle.mc_functions.specs.Measured.{all_counts, elsewhere};
ghost use Rattle.mc_functions.specs.Seen.{bytes_of, measured_of};
ghost use Rattle.mc_functions.specs.Status.{status_of};
ghost use Rattle.mc_functions.specs.Text.{all_line, all_word, function_lines, function_text, head_line, others, places_for, row_lines, status_line, sums_text, texts_from};
ghost use Rattle.mc_functions.specs.steps.Table.{AreRows};

use crate::counts::Counts;
use crate::functions::{is_entry, name_places};
use crate::kind::Kind;
use crate::kind_line::push_kind;
use crate::measured::Measured;
use crate::row::Row;
use crate::status::functions_status;
use crate::table::table;
use mc_oblige::Obligation;
use mc_places::Places;
use std::alloc::{AllocError, Global};

/// The function's name and its place.
fn head_line(alloc: Global, places: &Places<'_>, entry: &Obligation) -> Result<Vec<u8>, AllocError>
    ensures { IfOk result (λ line. line.items ≡ head_line places.now.text.now entry.now) }
{
    let mut line = Vec::new(alloc);
    line.extend_from_slice(entry.text(places.text()))?;
    line.push(b' ')?;
    places.push_place(alloc, &mut line, entry.span.start)?;
    line.push(b'\n')?;
    Ok(line)
}

/// Adds the lines of the kinds.
fn push_row(
    alloc: Global,
    lines: &mut Vec<Vec<u8>>,
    places: usize,
    row: Row,
) -> Result<(), AllocError>
    ensures { OnOk result (bytes_of lines.new.items
        ≡ bytes_of lines.old.items ++ row_lines places row) }
{
    push_kind(alloc, lines, places, Kind::Entries, row.entries)?;
    push_kind(alloc, lines, places, Kind::Exits, row.exits)?;
    push_kind(alloc, lines, places, Kind::Statements, row.statements)?;
    push_kind(alloc, lines, places, Kind::Labels, row.labels)?;
    push_kind(alloc, lines, places, Kind::Outcomes, row.outcomes)?;
    push_kind(alloc, lines, places, Kind::Conditions, row.conditions)
}

fn push_head(
    alloc: Global,
    lines: &mut Vec<Vec<u8>>,
    places: &Places<'_>,
    entry: &Obligation,
) -> Result<(), AllocError>
    ensures { OnOk result (bytes_of lines.new.items ≡ bytes_of lines.old.items
        ++ head_line places.now.text.now entry.now ∷ []) }
{
    let line = head_line(alloc, places, entry)?;
    lines.push(line)?;
    Ok(())
}

/// How many places the greatest number of the row takes.
fn places_for(alloc: Global, row: Row) -> Result<usize, AllocError>
    ensures { IfOk result (λ count. count ≡ places_for row) }
{
    let most = row.most();
    let widest = format!(in alloc; "{most}")?;
    Ok(widest.as_bytes().len())
}

/// Adds the head line of a function and the lines of its kinds.
fn push_counted(
    alloc: Global,
    lines: &mut Vec<Vec<u8>>,
    places: &Places<'_>,
    entry: &Obligation,
    row: Row,
) -> Result<(), AllocError>
    ensures { OnOk result (bytes_of lines.new.items ≡ bytes_of lines.old.items
        ++ head_line places.now.text.now entry.now ∷ row_lines (places_for row) row) }
{
    let count = places_for(alloc, row)?;
    push_head(alloc, lines, places, entry)?;
    push_row(alloc, lines, count, row)?;
    Ok(())
}

/// Adds the lines of a function; one of which nothing is counted has none.
fn push_function(
    alloc: Global,
    lines: &mut Vec<Vec<u8>>,
    places: &Places<'_>,
    entry: &Obligation,
    row: Row,
) -> Result<(), AllocError>
    ensures { OnOk result (bytes_of lines.new.items
        ≡ bytes_of lines.old.items ++ function_text places.now.text.now entry.now row) }
{
    if row.all() == 0 {
        return Ok(());
    }
    push_counted(alloc, lines, places, entry, row)?;
    Ok(())
}

/// Adds the lines of all functions.
fn push_functions(
    alloc: Global,
    lines: &mut Vec<Vec<u8>>,
    measured: &Measured<'_>,
    rows: &[Row],
) -> Result<(), AllocError>
    requires { AreRows (measured_of measured.now) rows.now }
    ensures { OnOk result (bytes_of lines.new.items ≡ bytes_of lines.old.items
        ++ (let m = measured_of measured.now in texts_from m 0 m.obligations)) }
{
    let mut number = 0;
    let mut left = measured.obligations;
    while let [obligation, later @ ..] = left {
        if is_entry(obligation.id) {
            push_function(alloc, lines, measured.places, obligation, rows[number])?;
            number += 1;
        }
        left = later;
    }
    Ok(())
}

fn push_word(line: &mut Vec<u8>, file: Option<&[u8]>) -> Result<(), AllocError>
    ensures { OnOk result (line.new.items ≡ line.old.items
        ++ all_word (option_map (λ name. name.now) file.entry)) }
{
    match file {
        Some(name) => {
            line.extend_from_slice(b"all of ")?;
            line.extend_from_slice(name)?;
            line.extend_from_slice(b": ")
        }
        None => line.extend_from_slice(b"all: "),
    }
}

fn push_sums(alloc: Global, line: &mut Vec<u8>, counts: Counts) -> Result<(), AllocError>
    ensures { OnOk result (line.new.items ≡ line.old.items ++ sums_text counts) }
{
    let met = counts.met;
    let total = counts.total();
    let justified = counts.justified;
    let stale = counts.stale;
    let missing = counts.missing;
    let text = format!(in alloc;
        "{met} of {total} met, {justified} justified, {stale} stale, {missing} missing"
    )?;
    line.extend_from_slice(text.as_bytes())
}

pub(crate) fn push_others(
    alloc: Global,
    line: &mut Vec<u8>,
    file: Option<&[u8]>,
    count: usize,
) -> Result<(), AllocError>
    ensures { OnOk result (line.new.items ≡ line.old.items
        ++ others (option_map (λ name. name.now) file.entry) count) }
{
    match file {
        Some(_) => {
            let text = format!(in alloc; "; {count} more in other files")?;
            line.extend_from_slice(text.as_bytes())
        }
        None => Ok(()),
    }
}

/// The sums of all that is counted.
fn all_line(alloc: Global, measured: &Measured<'_>) -> Result<Vec<u8>, AllocError>
    requires { let m = measured_of measured.now in length m.verdicts ≡ length m.obligations }
    ensures { IfOk result (λ line. let m = measured_of measured.now in
        line.items ≡ all_line m.file (all_counts m) (elsewhere m)) }
{
    let mut line = Vec::new(alloc);
    push_word(&mut line, measured.file)?;
    push_sums(alloc, &mut line, measured.all_counts())?;
    push_others(alloc, &mut line, measured.file, measured.elsewhere())?;
    line.push(b'\n')?;
    Ok(line)
}

pub(crate) fn status_line(alloc: Global, measured: &Measured<'_>) -> Result<Vec<u8>, AllocError>
    requires { let m = measured_of measured.now in length m.verdicts ≡ length m.obligations }
    ensures { IfOk result (λ line.
        line.items ≡ status_line (status_of (measured_of measured.now))) }
{
    let status = functions_status(measured);
    let line = format!(in alloc; "status {status}\n")?;
    line.as_bytes().to_vec(alloc)
}

/// The lines of the counts by function: for each function in the order of the text its name, its
/// place and the counts of each kind of obligations, then the sums of all, and the status. Each
/// line ends with LF.
pub fn function_lines(alloc: Global, measured: &Measured<'_>) -> Result<Vec<Vec<u8>>, AllocError>
    requires { let m = measured_of measured.now in length m.verdicts ≡ length m.obligations }
    ensures { IfOk result (λ lines.
        bytes_of lines.items ≡ function_lines (measured_of measured.now)) }
{
    let names = name_places(alloc, measured.obligations)?;
    let rows = table(alloc, measured, &names)?;
    let mut lines = Vec::new(alloc);
    push_functions(alloc, &mut lines, measured, &rows)?;
    lines.push(all_line(alloc, measured)?)?;
    lines.push(status_line(alloc, measured)?)?;
    Ok(lines)
}

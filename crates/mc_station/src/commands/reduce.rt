//! The command `reduce`.
ghost use Rattle.std.specs.Prelude.{◌≡◌, ◌<◌, ◌++◌, ◌∷◌, [], length, slice_get, slice_index_or, IfOk, OnOk};
ghost use Rattle.mc_oblige.specs.Ids.{id_text};
ghost use Rattle.mc_oblige.specs.Shown.{HasEvent};
ghost use Rattle.mc_port.specs.Lines.{bytes_of};
ghost use Rattle.mc_station.specs.Replied.{seen_reply};
ghost use Rattle.mc_station.specs.Ran.{AreIn, AreTold, seen_ran};
ghost use Rattle.mc_station.specs.Seen.{HasItsTree, seen_accepted};
ghost use Rattle.mc_station.specs.commands.Reduce.{ReducesOn, keep_line, keep_lines, kept_line, reduced_lines, text_in};

use crate::accepted::Accepted;
use crate::ran::{Ran, number_of};
use crate::reply::Reply;
use mc_oblige::{Mode, Obligation, ObligationId, id_text, obligations};
use mc_reduce::{Reduced, reduce as reduced_of};
use mc_typed::Name;
use std::alloc::{AllocError, Global};

// The line of a test that is kept, and of the obligation that is lost without it.
fn keep_line(alloc: Global, name: &Name, id: ObligationId) -> Result<Vec<u8>, AllocError>
    ensures { IfOk result (λ line. line.items ≡ keep_line name.now (id_text id)) }
{
    let id = id_text(alloc, id)?;
    let mut line = Vec::new(alloc);
    line.extend_from_slice(b"keep ")?;
    line.extend_from_slice(name.bytes())?;
    line.extend_from_slice(b" for ")?;
    line.extend_from_slice(id.as_bytes())?;
    line.push(b'\n')?;
    Ok(line)
}

// The obligation at a position.
fn id_at(obligations: &[Obligation], position: u32) -> ObligationId
    requires { position < length obligations.now }
    ensures { text_in (slice_get obligations.now position) ≡ id_text result }
{
    match obligations.get(position as usize) {
        Some(obligation) => obligation.id,
        None => unreachable!(),
    }
}

fn push_keep(
    alloc: Global,
    lines: &mut Vec<Vec<u8>>,
    names: &[Name],
    obligations: &[Obligation],
    test: u32,
    position: u32,
) -> Result<(), AllocError>
    requires test { test < length names.now }
    requires position { position < length obligations.now }
    ensures { OnOk result (bytes_of lines.new.items ≡ bytes_of lines.old.items
        ++ keep_line (slice_index_or names.now test [])
        (text_in (slice_get obligations.now position)) ∷ []) }
{
    let id = id_at(obligations, position);
    let line = keep_line(alloc, &names[test as usize], id)?;
    lines.push(line)?;
    Ok(())
}

// A line for each test that is kept. `lost` has the obligation of each by its position.
fn push_keeps(
    alloc: Global,
    lines: &mut Vec<Vec<u8>>,
    names: &[Name],
    obligations: &[Obligation],
    kept: &[u32],
    lost: &[u32],
) -> Result<(), AllocError>
    requires { AreIn (length names.now) (length obligations.now) kept.now lost.now }
    ensures { OnOk result (bytes_of lines.new.items ≡ bytes_of lines.old.items
        ++ keep_lines names.now obligations.now kept.now lost.now) }
{
    let mut kept_left = kept;
    let mut lost_left = lost;
    while let [test, later_kept @ ..] = kept_left {
        let [position, later_lost @ ..] = lost_left else {
            unreachable!();
        };
        push_keep(alloc, lines, names, obligations, *test, *position)?;
        kept_left = later_kept;
        lost_left = later_lost;
    }
    Ok(())
}

// The line on how many of how many tests are kept.
fn kept_line(alloc: Global, kept: usize, tests: usize) -> Result<Vec<u8>, AllocError>
    ensures { IfOk result (λ line. line.items ≡ kept_line kept tests) }
{
    let text = format!(in alloc; "kept {kept} of {tests}\n")?;
    Ok(text.into_bytes())
}

fn reduced_lines(
    alloc: Global,
    names: &[Name],
    obligations: &[Obligation],
    reduced: &Reduced,
) -> Result<Vec<Vec<u8>>, AllocError>
    requires { AreIn (length names.now) (length obligations.now) reduced.now.kept.items
        reduced.now.lost.items }
    ensures { IfOk result (λ lines. bytes_of lines.items ≡ reduced_lines names.now
        obligations.now reduced.now.kept.items reduced.now.lost.items) }
{
    let mut lines = Vec::new(alloc);
    push_keeps(
        alloc,
        &mut lines,
        names,
        obligations,
        &reduced.kept,
        &reduced.lost,
    )?;
    let line = kept_line(alloc, reduced.kept.len(), names.len())?;
    lines.push(line)?;
    Ok(lines)
}

// The reply of `reduce`, from a source that is lent.
fn reduced<'a>(
    alloc: Global,
    mode: Mode,
    accepted: &Accepted<'_>,
    ran: &Ran,
) -> Result<Reply<'a>, AllocError>
    requires instrumented { HasItsTree accepted.now }
    requires told { AreTold (seen_accepted accepted.now) ran.now.matrix (seen_ran ran.now) }
    ensures { IfOk result (λ reply. let a = seen_accepted accepted.now in
        ReducesOn (HasEvent a.map ran.now.matrix) mode a ran.now.names.items
        ran.now.states.items (seen_reply reply)) }
{
    let map = &accepted.map;
    let obligations = obligations(alloc, map)?;
    let reduced = reduced_of(alloc, map, &ran.matrix, mode)?;
    let lines = reduced_lines(alloc, &ran.names, &obligations, &reduced)?;
    Ok(Reply::of_lines(alloc, number_of(&ran.states), lines))
}

/// The reply of `reduce`: tests that show what all of them show, and what each is kept for.
pub fn reduce<'a>(
    alloc: Global,
    mode: Mode,
    accepted: Accepted<'_>,
    ran: &Ran,
) -> Result<Reply<'a>, AllocError>
    requires instrumented { HasItsTree accepted }
    requires told { AreTold (seen_accepted accepted) ran.now.matrix (seen_ran ran.now) }
    ensures { IfOk result (λ reply. let a = seen_accepted accepted.entry in
        ReducesOn (HasEvent a.map ran.now.matrix) mode a ran.now.names.items
        ran.now.states.items (seen_reply reply)) }
{
    let reply = reduced(alloc, mode, &accepted, ran);
    accepted.leak();
    reply
}

//! Lines and columns, found by the starts of lines.
ghost use Rattle.std.specs.Prelude.{◌≡◌, ◌≤◌, ◌<◌, ◌^◌, length, slice_index, IfOk, OnOk};
ghost use Rattle.mc_lex.specs.Lines.{line_of, column_of};
ghost use Rattle.mc_places.specs.steps.Starts.{AreStarts, IsStartOf, with_start};

use mc_lex::Place;
use std::alloc::{AllocError, Global};

/// Where each line of the source starts, the first at 0.
pub(crate) fn line_starts(alloc: Global, source: &[u8]) -> Result<Vec<u32>, AllocError>
    requires { length source.now < 2 ^ 31 }
    ensures { IfOk result (λ v. AreStarts source.now (length source.now) v.items) }
{
    let mut starts = vec![in alloc; 0u32]?;
    for (at, byte) in source.iter().enumerate() {
        pass(&mut starts, at as u32, *byte)?;
    }
    Ok(starts)
}

/// Adds the start after this byte, where it ends a line.
fn pass(starts: &mut Vec<u32>, at: u32, byte: u8) -> Result<(), AllocError>
    requires { at < 2 ^ 31 }
    ensures { OnOk result (starts.new.items ≡ with_start byte at starts.old.items) }
{
    if byte != b'\n' {
        return Ok(());
    }
    starts.push(at + 1)?;
    Ok(())
}

/// The line on which a place stands, counted from 0, found by halving.
fn line_at(starts: &[u32], at: u32) -> usize
    requires some { 1 ≤ length starts.now }
    requires first { slice_index starts.now 0 ≡ 0 }
    ensures { IsStartOf starts.now result at }
{
    let mut line = 0;
    let mut end = starts.len();
    'halving: while end - line > 1 {
        let middle = line + (end - line) / 2;
        if starts[middle] <= at {
            line = middle;
        } else {
            end = middle;
        }
    }
    line
}

/// The place of the byte at an offset, or of the source's end where the offset is greater.
pub(crate) fn place_at(source: &[u8], starts: &[u32], at: u32) -> Place
    requires short { length source.now < 2 ^ 31 }
    requires starts { AreStarts source.now (length source.now) starts.now }
    ensures line { result.line ≡ line_of source.now at }
    ensures column { result.column ≡ column_of source.now at }
{
    let within = at.min(source.len() as u32);
    let line = line_at(starts, within);
    Place {
        line: line as u32 + 1,
        column: within - starts[line] + 1,
    }
}
